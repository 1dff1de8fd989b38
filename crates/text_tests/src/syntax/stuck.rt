// Texts with one token a line: the line of a refusal names the first token with which no tree can go on.
use judged_texts::judge;
use sc_lex::{Phase, Refusal};
use std::alloc::Global;
use std::test::Fail;

// Each blank ends a line.
const PROGRAM: &[u8] = b"#pragma compartment Main
int main ( void ) { int x = 0 ; x = 1 ; ++ x ; for ( x -- ; x ; x += 2 ) { * ( & x ) = x ; } return x ; }
";

// A line of the program, other tokens for it, and the line at which each of them is refused.
type Change = (u32, &'static [u8], u32);

const CHANGES: [Change; 29] = [
    (7, b"-", 7),
    // After the initialiser.
    (12, b"- &", 14),
    (12, b"!", 12),
    // At the start of a statement.
    (13, b"- + ! ~ & =", 13),
    (13, b"* ( 5 ++", 14),
    // After a value.
    (16, b"- &", 17),
    (16, b",", 16),
    // In place of `++`, and after it.
    (17, b"- + ! ~ &", 17),
    (17, b"*", 19),
    (18, b"- + ! ~ &", 18),
    (18, b"* ( 5", 19),
    (19, b"-", 19),
    // In the head of a `for`.
    (21, b"-", 21),
    (22, b"- + ! ~ &", 22),
    (22, b"* ;", 23),
    (24, b"-", 24),
    (25, b"- &", 26),
    (26, b"-", 28),
    (27, b"- + ! ~ &", 27),
    (27, b"* )", 28),
    (30, b"-", 31),
    // In its body, and after that.
    (32, b"- &", 32),
    (32, b"++ ;", 37),
    (37, b"-", 37),
    (40, b"- &", 40),
    (40, b"*", 41),
    (41, b"- !", 41),
    (43, b"-", 44),
    (44, b"-", 44),
];

// The program with another token in a line.
fn changed(alloc: Global, line: u32, token: &[u8]) -> Result<Vec<u8>, Fail> {
    let mut text = Vec::new(alloc);
    let mut at = 1;
    for &byte in PROGRAM {
        let ends = byte == b'\n' || (at > 1 && byte == b' ');
        if ends && at == line {
            text.extend_from_slice(token)?;
        }
        if ends {
            text.push(b'\n')?;
            at = at.saturating_add(1);
        } else if at != line {
            text.push(byte)?;
        }
    }
    Ok(text)
}

#[test]
fn changed_tokens(rt: HostRuntime) -> Result<(), Fail> {
    let unchanged = changed(rt.alloc(), 0, b"")?;
    assert_eq!(rt; judge(rt.alloc(), unchanged.as_slice())?, None);
    for (line, tokens, refused) in &CHANGES {
        for token in tokens.split(|byte| *byte == b' ') {
            let text = changed(rt.alloc(), *line, token)?;
            let want = Some(Refusal {
                phase: Phase::Syntax,
                line: *refused,
            });
            assert_eq!(rt; judge(rt.alloc(), text.as_slice())?, want, "line {line}");
        }
    }
    Ok(())
}
