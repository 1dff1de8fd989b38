// Reserved words, none of which is an identifier.
use sc_parse_read::read_trees;
use std::alloc::Global;
use std::test::Fail;

const WORDS: &str = "\
    auto break case char const continue default do double else enum extern float for goto if inline int long \
    register restrict return short signed sizeof static struct switch typedef union unsigned void volatile while \
    _Alignas _Alignof _Atomic _Bool _Complex _Generic _Imaginary _Noreturn _Static_assert _Thread_local malloc \
    free";

// What stands before a word, and after it, in a section that an identifier there makes whole.
const AROUND: [(&[u8], &[u8]); 6] = [
    (b"#pragma compartment Main\nint ", b";"),
    (b"#pragma compartment Main\nstruct ", b" { int a; };"),
    (b"#pragma compartment Main\nvoid ", b"(void);"),
    (b"#pragma compartment Main\nint f(int ", b") { }"),
    (b"#pragma compartment Main\nvoid f(void) { x = ", b" + 1; }"),
    (b"#pragma compartment Main\nvoid f(void) { ", b" = 1; }"),
];

fn is_read(alloc: Global, before: &[u8], word: &[u8], following: &[u8]) -> Result<bool, Fail> {
    let mut text = before.to_vec(alloc)?;
    text.extend_from_slice(word)?;
    text.extend_from_slice(following)?;
    Ok(read_trees(alloc, &text).is_ok())
}

#[test]
fn no_reserved_word_is_an_identifier(rt: HostRuntime) -> Result<(), Fail> {
    for (before, following) in AROUND {
        assert!(rt; is_read(rt.alloc(), before, b"x", following)?);
        for word in WORDS.split(' ') {
            assert!(rt; !is_read(rt.alloc(), before, word.as_bytes(), following)?);
        }
    }
    Ok(())
}
