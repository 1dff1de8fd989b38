// Sections, directives and tokens.
use judged_texts::{DECLARATIONS, Row, WHOLE, wrong_rows};
use sc_lex::Phase;
use std::test::Fail;

// Each text is whole.
const COMPARTMENT_LINES: [Row; 28] = [
    // The line begins with these very bytes, and a name follows them.
    b"#pragma compartment Main\nint main(void) { return 0; }\n",
    b"@#pragma compartment  Main\nint main(void) { return 0; }\n",
    b"@#pragma compartment \nint main(void) { return 0; }\n",
    b"@#pragma compartment\nint main(void) { return 0; }\n",
    b"@#pragma compartment\tMain\nint main(void) { return 0; }\n",
    b"
@ #pragma compartment Main
int main(void) { return 0; }
",
    b"@#pragma compartment 1\nint main(void) { return 0; }\n",
    b"@#pragma compartment Main-2\nint main(void) { return 0; }\n",
    b"@#pragma compartment Main 2\nint main(void) { return 0; }\n",
    b"@#pragma compartment Main // it\nint main(void) { return 0; }\n",
    b"#pragma compartment _9\nint main(void) { return 0; }\n",
    b"#pragma compartment while\nint main(void) { return 0; }\n",
    b"#pragma compartment a23456789_123456789_123456789_123456789_123456789_123456789_123
int main(void) { return 0; }
",
    b"@#pragma compartment a23456789_123456789_123456789_123456789_123456789_123456789_1234
int main(void) { return 0; }
",
    // Blanks may follow the name, up to the end of the line or of the text.
    b"#pragma compartment Main \t\x0b\x0c\r\nint main(void) { return 0; }\n",
    b"#pragma compartment Main\nint main(void) { return 0; }\n#pragma compartment B",
    b"#pragma compartment Main\nint main(void) { return 0; }\n#pragma compartment B ",
    // The split is made before anything else, also inside comments.
    b"#pragma compartment Main
int main(void) { return 0; }
@/*
#pragma compartment B
*/
",
    b"@/* before
#pragma compartment Main
int main(void) { return 0; }
",
    b"// #pragma compartment B
#pragma compartment Main
int main(void) { return 0; }
",
    b"/* of
 two lines */

#pragma compartment Main
int main(void) { return 0; }
",
    // The first bad compartment line wins, also over an earlier bad byte.
    b"@#pragma compartment 1\n#pragma compartment 2\n",
    b"$
#pragma compartment Main
int main(void) { return 0; }
@#pragma compartment  B
",
    b"#pragma compartment Main
$
/*
@#pragma compartment 2B
",
    // Otherwise the first bad byte of the text does.
    b"@$
#pragma compartment Main
$
",
    b"#pragma compartment Main
int main(void) { return 0; }
#pragma compartment B
@$
$
",
    // A section ends where the next begins, and no comment reaches over.
    b"#pragma compartment A
@/*
#pragma compartment Main
$ */
int main(void) { return 0; }
",
    // In the preamble nothing is a directive.
    b"@#pragma export f
#pragma compartment Main
int main(void) { return 0; }
",
];

// Each stands after a compartment line, and before `main`.
const DIRECTIVES: [Row; 22] = [
    b"#pragma export f\nint f(void) { return 0; }\n",
    b"#pragma  export \t f \r\nint f(void) { return 0; }\n",
    b"#pragma\texport\tf\nint f(void) { return 0; }\n",
    b"#pragma import Env input\nint input(void);\n",
    b"#pragma   import  Env  input  \nint input(void);\n",
    b"@#pragma export\nint f(void) { return 0; }\n",
    b"@#pragma export f f\nint f(void) { return 0; }\n",
    b"@#pragma export 1\nint f(void) { return 0; }\n",
    b"@#pragma export f;\nint f(void) { return 0; }\n",
    b"@#pragma export f // it\nint f(void) { return 0; }\n",
    b"@#pragma export /* it */ f\nint f(void) { return 0; }\n",
    b"@#pragma exports f\nint f(void) { return 0; }\n",
    b"@#pragma exportf\nint f(void) { return 0; }\n",
    b"@# pragma export f\nint f(void) { return 0; }\n",
    b"@ #pragma export f\nint f(void) { return 0; }\n",
    b"
/*
@*/#pragma export f
int f(void) { return 0; }
",
    b"@#pragma import input\nint input(void);\n",
    b"@#pragma import Env input output\nint input(void);\n",
    b"@#pragma once\n",
    b"@#include <stdio.h>\n",
    b"int x;\n@#\n",
    // In a comment a `#` begins no directive.
    b"/*
# nothing
#pragma once
*/
",
];

// Each stands after a compartment line, and before `main`.
const TOKENS: [Row; 41] = [
    // White space is of six kinds.
    b"int\tx\x0b,\x0cy\r\n;\n",
    // Comments don't nest and may hold any bytes.
    b"/* /* */ int/**/x; // /*\nint y; /* // */ int z;\n/***/\n",
    b"/* \xff \x00 $ # */ // \xc3\xa9 ' \"\nint x;\n",
    b"int x;\n@/* a\n\n",
    b"@int x; /*/\n",
    b"/* a\n@ b */ $\n",
    // Other bytes begin no token.
    b"int x;\n@int @;\n",
    b"@int $; @@int caf\xc3\xa9; @@int x\x7f; @@int x\x00; @@int x = 'a'; @@int x = \"a\"; @@int x = y ? 1 : 2;",
    b"@x: int y;\n",
    b"@int \\\nx;\n",
    b"@int f(void) { return 0; } `\n",
    // Identifiers have at most 63 bytes.
    b"int _, a_1, B2, __;\n",
    b"int a23456789_123456789_123456789_123456789_123456789_123456789_123;\n",
    b"@int a23456789_123456789_123456789_123456789_123456789_123456789_1234;\n",
    // Decimal integers have no leading 0, and are at most 2147483647, or 4294967295 with the suffix.
    b"int x = 2147483647;\n",
    b"@int x = 2147483648;\n",
    b"int x = -2147483647;\n",
    b"@int x = -2147483648; @@int x = 4294967295; @@int x = 4294967296; @@int x = 18446744073709551616;",
    b"@int x = 340282366920938463463374607431768211457;\n",
    b"int x = 2147483648u;\n",
    b"int x = 4294967295U;\n",
    b"@int x = 4294967296u;\n",
    // Octal ones have a leading 0.
    b"int x = 00;\n",
    b"int x = 0u;\n",
    b"int x = 017777777777;\n",
    b"int x = 037777777777;\n",
    b"int x = 037777777777u;\n",
    b"int x = 000000000000000000000001;\n",
    b"@int x = 040000000000; @@int x = 040000000000u; @@int x = 08; @@int x = 0189; @@int x = 0778;",
    // Hexadecimal ones begin with `0x` or `0X`.
    b"int x = 0xaF;\n",
    b"int x = 0X7fffffff;\n",
    b"int x = 0x80000000;\n",
    b"int x = 0xFFFFFFFFU;\n",
    b"int x = 0x00000000000000001;\n",
    b"@int x = 0x100000000; @@int x = 0x100000000u; @@int x = 0x; @@int x = 0xg; @@int x = 0xu;",
    // No letter, digit or `_` stands right after an integer.
    b"@int x = 1uu; @@int x = 1l; @@int x = 1u2; @@int x = 1_; @@int x = 0b1; @@int x = 12ab; @@int x = 1e5;",
    b"@int x = 0x1g;\n",
    b"int x[2]; int y = 1/*,*/;\n",
    // The line is that of the first byte that begins no token.
    b"int x;\n\n@  int y = 2147483648;\n$\n",
    b"int x;\n/* $\n*/\n@/*\n",
    b"int\n@$\n/*\n",
];

#[test]
fn compartment_lines(rt: HostRuntime) -> Result<(), Fail> {
    let wrong = wrong_rows(rt.alloc(), WHOLE, Phase::Lex, &COMPARTMENT_LINES)?;
    assert!(rt; wrong.is_empty(), "{wrong:?}");
    Ok(())
}

#[test]
fn directives(rt: HostRuntime) -> Result<(), Fail> {
    let wrong = wrong_rows(rt.alloc(), DECLARATIONS, Phase::Lex, &DIRECTIVES)?;
    assert!(rt; wrong.is_empty(), "{wrong:?}");
    Ok(())
}

#[test]
fn tokens(rt: HostRuntime) -> Result<(), Fail> {
    let wrong = wrong_rows(rt.alloc(), DECLARATIONS, Phase::Lex, &TOKENS)?;
    assert!(rt; wrong.is_empty(), "{wrong:?}");
    Ok(())
}
