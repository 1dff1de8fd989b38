// Bytes and their tokens.
use sc_lex::{LexFault, Phase, Refusal, TokenKind, tokens};
use std::test::Fail;

// Some bytes, and their tokens: of each its kind and line, its text, and a "`".
const ACCEPTED: [(&[u8], &[u8]); 18] = [
    (b"", b""),
    (b"a+++b", b"i1 a`m1 ++`m1 +`i1 b`"),
    (b"x>>=1<<<=y", b"i1 x`m1 >>=`n1 1`m1 <<`m1 <=`i1 y`"),
    (
        b"p->q-->r/s/=t",
        b"i1 p`m1 ->`i1 q`m1 --`m1 >`i1 r`m1 /`i1 s`m1 /=`i1 t`",
    ),
    (b"1.5 ..", b"n1 1`m1 .`n1 5`m1 .`m1 .`"),
    (
        b"0 0u 017U 0x7fffffffu 0XfF",
        b"n1 0`n1 0u`n1 017U`n1 0x7fffffffu`n1 0XfF`",
    ),
    (
        b"2147483647 2147483648u 4294967295U",
        b"n1 2147483647`n1 2147483648u`n1 4294967295U`",
    ),
    (
        b"0xffffffff 037777777777 000",
        b"n1 0xffffffff`n1 037777777777`n1 000`",
    ),
    (
        b"a23456789_23456789_23456789_23456789_23456789_23456789_12345678(",
        b"i1 a23456789_23456789_23456789_23456789_23456789_23456789_12345678`m1 (`",
    ),
    (
        b"int int_ malloc _Bool free1 Int",
        b"r1 int`i1 int_`r1 malloc`r1 _Bool`i1 free1`i1 Int`",
    ),
    (b"/**/a/* /* */b//c\n//", b"i1 a`i1 b`"),
    (b"/*/ */a/* *\n**/", b"i1 a`"),
    (b"/*\xff\x80*/ //\x7f\n;", b"m2 ;`"),
    (b"int\r\nx\x0b\x0c\ty", b"r1 int`i2 x`i2 y`"),
    (b"a\n/*\n\n*/b", b"i1 a`i4 b`"),
    (b"#pragma compartment Main", b"c1 #pragma compartment Main`"),
    (
        b"#pragma compartment A \n#pragma  export\tF \r\n#pragma import C if\n/*\n#x\n*/int",
        b"c1 #pragma compartment A `e2 #pragma  export\tF \r`t3 #pragma import C if`r6 int`",
    ),
    (
        b"#pragma compartment A
x
#pragma compartment B
",
        b"c1 #pragma compartment A`i2 x`c3 #pragma compartment B`",
    ),
];

// Some bytes, the line that they begin in, and the line in which they are refused.
const REFUSED: [(&[u8], u32, u32); 35] = [
    (b"08", 1, 1),
    (b"1x", 1, 1),
    (b"0x", 1, 1),
    (b"0x1g", 1, 1),
    (b"0b1", 1, 1),
    (b"1uu", 1, 1),
    (b"12_", 1, 1),
    (b"1L", 1, 1),
    (b"2147483648", 1, 1),
    (b"4294967296u", 1, 1),
    (b"0x100000000", 1, 1),
    (b"18446744073709551617u", 1, 1),
    (
        b"a23456789_23456789_23456789_23456789_23456789_23456789_12345678_",
        1,
        1,
    ),
    (b"a\n\n@", 1, 3),
    (b"a ? b", 7, 7),
    (b"\"a\"", 1, 1),
    (b"x\n'", 2, 3),
    (b"\x7f", 1, 1),
    (b"\x80", 1, 1),
    (b"\0", 1, 1),
    (b"/*\n", 1, 1),
    (b"a\n/* x\n\n", 1, 2),
    (b"\n/*/", 1, 2),
    (b"#pragma export F", 1, 1),
    (b"\n#", 1, 2),
    (b"#pragma compartment ", 1, 1),
    (
        b"#pragma compartment A\n#pragma export F #pragma export G\n",
        1,
        2,
    ),
    (b"#pragma compartment A\n#pragma compartment", 1, 2),
    (b"#pragma compartment A\n #pragma export F", 1, 2),
    (b"#pragma compartment A\n#pragma compartment  B", 1, 2),
    (b"#pragma compartment A\n#pragma import F", 3, 4),
    (b"#pragma compartment A\n#pragma export F//", 1, 2),
    (b"#pragma compartment A\n/*\n*/#pragma export F", 1, 3),
    (b"\n@", 4_294_967_294, 4_294_967_295),
    (b"\n\n@", 4_294_967_295, 4_294_967_295),
];

fn letter(kind: TokenKind) -> u8 {
    match kind {
        TokenKind::Ident => b'i',
        TokenKind::Reserved => b'r',
        TokenKind::Integer => b'n',
        TokenKind::Mark => b'm',
        TokenKind::Compartment => b'c',
        TokenKind::Export => b'e',
        TokenKind::Import => b't',
    }
}

#[test]
fn cuts_bytes(rt: HostRuntime) -> Result<(), Fail> {
    for (bytes, listed) in ACCEPTED {
        let mut found = Vec::new(rt.alloc());
        for token in tokens(rt.alloc(), bytes, 1)?.as_slice() {
            let text = bytes.get(token.start..token.end).ok_or("no slice")?;
            found.extend_from_slice(&[letter(token.kind), b'0' + (token.line % 10) as u8, b' '])?;
            found.extend_from_slice(text)?;
            found.push(b'`')?;
        }
        assert_eq!(rt; found.as_slice(), listed);
    }
    Ok(())
}

#[test]
fn refuses_bytes(rt: HostRuntime) {
    for (bytes, first_line, line) in REFUSED {
        let fault = tokens(rt.alloc(), bytes, first_line).err();
        let phase = Phase::Lex;
        assert_eq!(rt; fault, Some(LexFault::Refused(Refusal { phase, line })));
    }
}
