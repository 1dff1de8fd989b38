use sc_base::{FirstByName, Name, NameList, NameTable, OutOfMemory, Text, is_reserved};
use std::test::Fail;

#[test]
fn names(rt: HostRuntime) {
    let longest = [b'x'; 63];
    let cases: [(&[u8], bool); 6] = [
        (b"Main", true),
        (b"_9", true),
        (b"9_", false),
        (b"", false),
        (b"a-b", false),
        (&longest, true),
    ];
    for (text, is_one) in cases {
        assert_eq!(rt; Name::new(text).is_some(), is_one);
    }
    assert!(rt; Name::new(&[b'x'; 64]).is_none());
}

#[test]
fn names_are_numbered(rt: HostRuntime) -> Result<(), Fail> {
    let first = Name::new(b"first").ok_or("no name")?;
    let second = Name::new(b"second").ok_or("no name")?;
    let third = Name::new(b"third").ok_or("no name")?;
    let mut table = NameTable::new(rt.alloc());
    assert!(rt; table.insert(first)? == Some(0));
    assert!(rt; table.insert(second)? == Some(1));
    assert!(rt; table.insert(first)?.is_none());
    assert!(rt; table.number_of(&second) == Some(1));
    assert!(rt; table.number_of(&third).is_none());
    Ok(())
}

#[test]
fn a_name_may_stand_twice_in_a_list(rt: HostRuntime) -> Result<(), Fail> {
    let first = Name::new(b"first").ok_or("no name")?;
    let second = Name::new(b"second").ok_or("no name")?;
    let third = Name::new(b"third").ok_or("no name")?;
    let mut list = NameList::new(rt.alloc());
    list.push(first)?;
    list.push(first)?;
    list.push(second)?;
    assert!(rt; list.number_of(&first) == Some(0));
    assert!(rt; list.number_of(&second) == Some(2));
    assert!(rt; !list.contains(&third));
    Ok(())
}

#[test]
fn a_name_keeps_its_first_value(rt: HostRuntime) -> Result<(), Fail> {
    let first = Name::new(b"first").ok_or("no name")?;
    let second = Name::new(b"second").ok_or("no name")?;
    let third = Name::new(b"third").ok_or("no name")?;
    let mut values = FirstByName::new(rt.alloc());
    values.insert(first, 7_u32)?;
    values.insert(second, 8)?;
    values.insert(first, 9)?;
    assert!(rt; values.get(&first).copied() == Some(7));
    assert!(rt; values.get(&second).copied() == Some(8));
    assert!(rt; values.get(&third).is_none());
    Ok(())
}

#[test]
fn words_are_printed_signed(rt: HostRuntime) -> Result<(), Fail> {
    let mut text = Text::new(rt.alloc());
    text.append(b"a ")?;
    text.append_signed(0xFFFF_FFFF)?;
    text.push(b' ')?;
    text.append_signed(0x8000_0000)?;
    assert!(rt; text.as_bytes() == b"a -1 -2147483648".as_slice());
    assert!(rt; OutOfMemory.to_string(rt.alloc())?.as_str() == "out of memory");
    Ok(())
}

#[test]
fn reserved_words(rt: HostRuntime) {
    for word in [b"while".as_slice(), b"_Bool", b"malloc"] {
        assert!(rt; is_reserved(word));
    }
    for word in [b"While".as_slice(), b"whil", b""] {
        assert!(rt; !is_reserved(word));
    }
}
