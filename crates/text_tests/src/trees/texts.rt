// Texts and the trees of their sections.
use sc_ast::section_height;
use sc_base::Name;
use sc_lex::{Phase, Refusal, Section, TextFault, tokens};
use sc_parse::parse;
use sc_parse_read::read_trees;
use std::alloc::Global;
use std::test::Fail;

// A text, and the line of each of its sections.
const READ: [(&[u8], &[u32]); 3] = [
    (b"", &[]),
    (b"// nothing\n\n", &[]),
    (
        b"/* */
#pragma compartment A
int x;
#pragma compartment B
",
        &[2, 4],
    ),
];

// A text, the first phase that it fails, and the line.
const REFUSED: [(&[u8], Phase, u32); 8] = [
    // A compartment line stands inside the comment, so the comment has no end.
    (
        b"/*
#pragma compartment Main
*/
",
        Phase::Lex,
        1,
    ),
    // A bad compartment line comes before an earlier bad byte.
    (
        b"@
#pragma compartment 1
",
        Phase::Lex,
        2,
    ),
    (
        b"
#pragma compartment A

#
@
",
        Phase::Lex,
        4,
    ),
    // A bad byte of a later section comes before a token that can't go on.
    (
        b"#pragma compartment A
int;
#pragma compartment B
@
",
        Phase::Lex,
        4,
    ),
    // The preamble has no token.
    (
        b"
int x;
#pragma compartment A
int;
",
        Phase::Syntax,
        2,
    ),
    // The first bad section decides.
    (
        b"#pragma compartment A
#pragma compartment B
int;
#pragma compartment C
x;
",
        Phase::Syntax,
        3,
    ),
    // Where a section ends early, its last token decides.
    (
        b"
#pragma compartment A
int f(void) {
  return 0;

",
        Phase::Syntax,
        4,
    ),
    (
        b"

#pragma compartment A
)",
        Phase::Syntax,
        4,
    ),
];

#[test]
fn sections_have_their_lines(rt: HostRuntime) -> Result<(), Fail> {
    for (text, lines) in READ {
        let trees = read_trees(rt.alloc(), text)?;
        let mut found = Vec::new(rt.alloc());
        for tree in trees.as_slice() {
            found.push(tree.line)?;
        }
        assert!(rt; found.as_slice() == lines);
    }
    Ok(())
}

#[test]
fn the_first_phase_that_a_text_fails(rt: HostRuntime) {
    for (text, phase, line) in REFUSED {
        let fault = read_trees(rt.alloc(), text).err();
        assert!(rt; fault == Some(TextFault::Refused(Refusal { phase, line })));
    }
}

// A section with a declaration, and its height.
const HEIGHTS: [(&[u8], u32); 9] = [
    (b"", 0),
    (b"int x[2];", 0),
    (b"void f(void) { ; }", 1),
    (b"void f(void) { g(); }", 1),
    (b"void f(void) { int *p = *q; }", 2),
    (b"void f(void) { x = 1 + 2; }", 3),
    (b"void f(void) { if (1) { x = 1; } else { } }", 3),
    (b"void f(void) { for (x = 1; ; x++) { } }", 4),
    (b"void f(void) { while (1) { while (1) { x = 1; } } }", 4),
];

const HEADING: &[u8] = b"#pragma compartment Main\n";

fn height_of(alloc: Global, declaration: &[u8]) -> Result<Option<u32>, Fail> {
    let mut text = HEADING.to_vec(alloc)?;
    text.extend_from_slice(declaration)?;
    let Ok(trees) = read_trees(alloc, text.as_slice()) else {
        return Ok(None);
    };
    match trees.get(0) {
        Some(tree) => Ok(Some(section_height(tree))),
        None => Ok(None),
    }
}

#[test]
fn the_heights_of_sections(rt: HostRuntime) -> Result<(), Fail> {
    for (declaration, height) in HEIGHTS {
        assert_eq!(rt; height_of(rt.alloc(), declaration)?, Some(height));
    }
    Ok(())
}

// A function with `depth` loops `while`, each within the one before.
fn nested(alloc: Global, depth: usize) -> Result<Vec<u8>, Fail> {
    let mut text = Vec::from_slice(alloc, b"void f(void) { ")?;
    for _ in 0..depth {
        text.extend_from_slice(b"while (a) {")?;
    }
    for _ in 0..depth {
        text.push(b'}')?;
    }
    text.push(b'}')?;
    Ok(text)
}

#[test]
fn a_section_is_at_most_256_high(rt: HostRuntime) -> Result<(), Fail> {
    let highest = nested(rt.alloc(), 255)?;
    assert_eq!(rt; height_of(rt.alloc(), &highest)?, Some(256));
    let higher = nested(rt.alloc(), 256)?;
    assert_eq!(rt; height_of(rt.alloc(), &higher)?, None);
    Ok(())
}

const NO_ELEMENT: &[u8] = b"#pragma compartment Main
int
a[0];
";

// Where the section is refused that begins in this line of the whole text.
fn refused_from(alloc: Global, line: u32) -> Result<Option<TextFault>, Fail> {
    let tokens = tokens(alloc, NO_ELEMENT, 1)?;
    let section = Section {
        name: Name::new(b"Main").ok_or("no name")?,
        start: 0,
        line,
        bytes: NO_ELEMENT,
    };
    Ok(parse(alloc, &section, tokens.as_slice()).err())
}

#[test]
fn lines_are_those_of_the_whole_text(rt: HostRuntime) -> Result<(), Fail> {
    for (first, line) in [(1, 3), (41, 43), (4_294_967_294, 4_294_967_295)] {
        let phase = Phase::Syntax;
        let want = TextFault::Refused(Refusal { phase, line });
        assert_eq!(rt; refused_from(rt.alloc(), first)?, Some(want));
    }
    Ok(())
}
