// What the leaves of trees may hold.
use sc_ast::{ArrayLength, Ident, Literal};
use sc_base::Name;

fn is_ident(text: &[u8]) -> bool {
    match Name::new(text) {
        Some(name) => Ident::new(name).is_some(),
        None => false,
    }
}

#[test]
fn a_reserved_word_is_no_identifier(rt: HostRuntime) {
    for word in [b"_Bool".as_slice(), b"free", b"if", b"malloc", b"while"] {
        assert!(rt; !is_ident(word));
    }
    for word in [b"Int".as_slice(), b"frees", b"main", b"_"] {
        assert!(rt; is_ident(word));
    }
}

#[test]
fn an_int_is_at_most_2147483647(rt: HostRuntime) {
    assert!(rt; Literal::new(2_147_483_647, false).is_some());
    assert!(rt; Literal::new(2_147_483_648, false).is_none());
    assert!(rt; Literal::new(4_294_967_295, true).is_some());
}

#[test]
fn an_array_has_an_element(rt: HostRuntime) {
    assert!(rt; ArrayLength::new(0).is_none());
    assert!(rt; ArrayLength::new(1).is_some());
}
