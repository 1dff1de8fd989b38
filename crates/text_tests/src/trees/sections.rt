// Texts and their sections.
use sc_lex::{Phase, Refusal, SplitFault, sections};
use std::test::Fail;

// A text, and the starts and lines of its sections.
const ACCEPTED: [(&[u8], &[(usize, u32)]); 8] = [
    (b"", &[]),
    (b"int x;\n #pragma compartment A\n#pragma compartment", &[]),
    (b"#pragma compartment Main\nint x;\n", &[(0, 1)]),
    (
        b"/*
#pragma compartment Main
*/
",
        &[(3, 2)],
    ),
    (
        b"#pragma compartment int \t\r\n\n#pragma compartment B",
        &[(0, 1), (28, 3)],
    ),
    (
        b"//\n#pragma compartment _\n#pragma compartment _",
        &[(3, 2), (25, 3)],
    ),
    (
        b"#pragma compartment a23456789_23456789_23456789_23456789_23456789_23456789_12345678",
        &[(0, 1)],
    ),
    (
        b"x\r


#pragma compartment _
",
        &[(5, 4)],
    ),
];

// A text, and the line of its first bad compartment line.
const REFUSED: [(&[u8], u32); 7] = [
    (b"#pragma compartment  X", 1),
    (b"#pragma compartment \n", 1),
    (
        b"@\n#pragma compartment A\n#pragma compartment 1x\n#pragma compartment \n",
        3,
    ),
    (b"\n#pragma compartment X Y\n", 2),
    (b"#pragma compartment X//\n", 1),
    (b"/*\n#pragma compartment a-b */", 2),
    (
        b"#pragma compartment a23456789_23456789_23456789_23456789_23456789_23456789_12345678_",
        1,
    ),
];

#[test]
fn splits_texts(rt: HostRuntime) -> Result<(), Fail> {
    for (text, wanted) in ACCEPTED {
        let split = sections(rt.alloc(), text)?;
        let mut found = Vec::new(rt.alloc());
        for section in split.sections.as_slice() {
            found.push((section.start, section.line))?;
        }
        assert_eq!(rt; found.as_slice(), wanted);
    }
    Ok(())
}

#[test]
fn refuses_bad_compartment_lines(rt: HostRuntime) {
    for (text, line) in REFUSED {
        let fault = sections(rt.alloc(), text).err();
        let phase = Phase::Lex;
        assert_eq!(rt; fault, Some(SplitFault::Refused(Refusal { phase, line })));
    }
}
