// The rules of counts.
use judged_texts::{DECLARATIONS, Row, WHOLE, wrong_rows};
use sc_lex::Phase;
use std::test::Fail;

// Each stands after a compartment line, and before `main`.
const IN_A_SECTION: [Row; 29] = [
    // A function has at most 8 parameters, wherever it is declared.
    b"int f(int a, int b, int c, int d, int e, int f, int g, int h) { return h; }\n",
    b"`int` f(int a, int b, int c, int d, int e, int f, int g, int h, int i) { return h; }",
    b"int f(int, int, int, int, int, int, int, int *);\n",
    b"int x; `int` f(int, int, int, int, int, int, int, int, int *);",
    b"`int` f(int a, int b, int c, int d, int e, int f, int g, int h, int i) { return h; }",
    b"@int f(int, int, int, int, int, int, int, int, int);
int f(int a, int b, int c, int d, int e, int f, int g, int h, int i) { return h; }
",
    b"#pragma export f\nint f(int a, int b, int c, int d, int e, int f, int g, int h) { return h; }\n",
    b"#pragma export f\n@int f(int a, int b, int c, int d, int e, int f, int g, int h, int i) { return h; }\n",
    // A variable has at most 1048576 cells.
    b"int a[1048576];\nint b[1048576];\nint c[1048576], *d[1048576];\n",
    b"`int` a[1048577]; @@ `int` a[1048576], *b[1048577]; @@ int x; `unsigned` int a[2147483647];",
    b"`int` a[4294967295u];",
    b"int f(void) {\n  int a[1048576];\n  int b[1048576];\n  return 0;\n}\n",
    b"int f(void) { int a[1048576]; `int` b, c[1048577]; return 0; }",
    b"struct S { int a, b; };\nstruct S s[524288];\n",
    b"struct S { int a, b; }; `struct` S s[524289];",
    b"struct S { int a[3]; };\nstruct S s[349525];\n",
    b"struct S { int a[3]; }; `struct` S s[349526];",
    b"struct S { int a, b; }; int f(void) { `struct` S s[524289]; return 0; }",
    // A struct has at most as many, also where no variable has its type.
    b"struct S { int a[1048576]; };\nstruct S s, *t[1048576];\n",
    b"struct S { int a[1048575], *b; };\nstruct S s[1];\n",
    b"@struct S { int a[1048577]; }; @@struct S { int a[1048576]; int b; };",
    b"`struct` S { int a[1048575]; struct S *b; int c; };",
    b"struct S { int a[524288]; };\nstruct T { struct S a, b; };\nstruct U { struct S a[2]; };\n",
    b"struct S { int a[524288]; }; struct T { struct S a, b; }; `struct` U { struct S a[2]; int b; };",
    b"struct S { int a[524288]; }; `struct` T { struct S a[3]; }; @@ struct S { int a[1048576]; }; `struct` S s[2];",
    // Sizes don't wrap.
    b"struct S { int a[1048576]; };
@struct T { struct S a[4294967295u]; };
struct U { struct T a[4294967295u]; };
struct U u[4294967295u];
",
    b"struct S { int a[65536]; }; `struct` S s[65536]; @@ `struct` S { int a[2147483648u], b[2147483648u]; };",
    // The first that is beyond a count decides.
    b"`int` a[1048577]; int f(int, int, int, int, int, int, int, int, int);",
    b"`int` f(int, int, int, int, int, int, int, int, int); int a[1048577];",
];

// Each text is whole.
const OF_SECTIONS: [Row; 3] = [
    b"#pragma compartment A
int a[1048576];
#pragma compartment Main
int a[1048576];
int main(void) { return 0; }
#pragma compartment C

@int a[1048577];
#pragma compartment D
int a[1048577];
",
    b"#pragma compartment Main
int main(void) {
@  int a[1048577];
  return 0;
}
",
    b"#pragma compartment Main
#pragma import A f
@int f(int, int, int, int, int, int, int, int, int);
int main(void) { return 0; }
#pragma compartment A
#pragma export f
int f(int a, int b, int c, int d, int e, int f, int g, int h, int i) { return h; }
",
];

#[test]
fn in_a_section(rt: HostRuntime) -> Result<(), Fail> {
    let wrong = wrong_rows(rt.alloc(), DECLARATIONS, Phase::Count, &IN_A_SECTION)?;
    assert!(rt; wrong.is_empty(), "{wrong:?}");
    Ok(())
}

#[test]
fn of_sections(rt: HostRuntime) -> Result<(), Fail> {
    let wrong = wrong_rows(rt.alloc(), WHOLE, Phase::Count, &OF_SECTIONS)?;
    assert!(rt; wrong.is_empty(), "{wrong:?}");
    Ok(())
}
