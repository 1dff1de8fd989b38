// The rules of interfaces.
use judged_texts::{DECLARATIONS, Row, WHOLE, judge, wrong_rows};
use sc_lex::{Phase, Refusal};
use std::test::Fail;

// Exactly one section defines `main`. Where none does, no line is to blame.
const WITHOUT_MAIN: [&[u8]; 7] = [
    b"",
    b"// nothing\n\n",
    b"#pragma compartment A\nint x;\n",
    b"#pragma compartment A\n#pragma compartment B\n",
    b"#pragma compartment Main\nint main(void);\n",
    b"#pragma compartment Main\nint main;\n",
    b"#pragma compartment Main
struct main { int main; };
int f(int main) { return main; }
",
];

// Each text is whole.
const OF_SECTIONS: [Row; 58] = [
    b"#pragma compartment A
int main(void) { return 1; }
#pragma compartment B
int x;

@int main(void) { return 2; }
",
    b"#pragma compartment A
int main(void) { return 1; }
#pragma compartment B
@int main(void) { return 2; }
#pragma compartment C
int main(void) { return 3; }
",
    b"#pragma compartment A
int main;
#pragma compartment B
int main(void) { return 2; }
",
    b"#pragma compartment A
int main(int a, unsigned int *b);
#pragma compartment B
int main(void) { return 2; }
",
    // It is `int main(void)`.
    b"#pragma compartment Main\n@int main(int a) { return 0; }\n",
    b"#pragma compartment Main\n@void main(void) { }\n",
    b"#pragma compartment Main
int x;
@unsigned int main(void) { return 0; }
",
    b"#pragma compartment Main\n@int *main(void) { return 0; }\n",
    b"#pragma compartment Main
@int
main(int a,
  int b) { return 0; }
",
    b"#pragma compartment Main\nsigned main(void) { return 0; }\n",
    b"#pragma compartment Main
int main(int a);
@int main(void) { return 0; }
",
    b"#pragma compartment Main
int main(int a);
@int main(int a) { return 0; }
",
    b"#pragma compartment Main
int main(void);
int main(void) { return f(); }
int f(void) { return main(); }
",
    // Names of sections are distinct, and none is `Env`.
    b"#pragma compartment Main
int main(void) {
  return 0;
}
@#pragma compartment Main
",
    b"#pragma compartment A
#pragma compartment Main
int main(void) { return 0; }
@#pragma compartment A
#pragma compartment A
",
    b"#pragma compartment main
#pragma compartment Main
int main(void) { return 0; }
#pragma compartment env
",
    b"@#pragma compartment Env
#pragma compartment Main
int main(void) { return 0; }
",
    b"#pragma compartment Main
int main(void) { return 0; }
@#pragma compartment Env
#pragma compartment Env
",
    // A missing `main` counts only where nothing is broken at a line.
    b"#pragma compartment A

@#pragma compartment A
",
    // An import names another section, and a function that is exported there.
    b"#pragma compartment Main
#pragma import A f
#pragma import A g
int f(int); unsigned int g(int a, unsigned int b);
int main(void) { return f(1); }
#pragma compartment A
#pragma export f
#pragma export g
int f(int a) { return a; }
unsigned int g(int a, unsigned int b) { return b; }
int h(int *p) { return 0; }
",
    b"#pragma compartment Main
@#pragma import A f
int f(void);
int main(void) { return f(); }
",
    b"#pragma compartment Main
@#pragma import A f
int f(void);
int main(void) { return f(); }
#pragma compartment A
int f(void) { return 1; }
",
    b"#pragma compartment A
#pragma export g
int f(void) { return 1; }
int g(void) { return 1; }
#pragma compartment Main
@#pragma import A f
int f(void);
int main(void) { return f(); }
",
    b"#pragma compartment Main
@#pragma import a f
int f(void);
int main(void) { return f(); }
#pragma compartment A
#pragma export f
int f(void) { return 1; }
",
    b"#pragma compartment Main
@#pragma import A x
int x(void);
int main(void) { return x(); }
#pragma compartment A
int x;
",
    b"#pragma compartment Main
@#pragma import A main
int f(void) { return 0; }
#pragma compartment A
int main(void) { return 0; }
",
    // An import of what isn't exported well is broken only at the export.
    b"#pragma compartment Main
#pragma import A f
int f(void);
int main(void) { return f(); }
#pragma compartment A
@#pragma export f
",
    b"#pragma compartment Main
#pragma import A f
int f(void);
int main(void) { return f(); }
#pragma compartment A
@#pragma export f
int f(void);
",
    // A section imports nothing from itself, and nothing that it defines.
    b"#pragma compartment Main
@#pragma export f
#pragma import Main f
int f(void);
int main(void) { return f(); }
",
    b"#pragma compartment Main
#pragma export f

@#pragma import Main f
int f(void) { return 1; }
int main(void) { return f(); }
",
    b"#pragma compartment Main

@#pragma import A f
int f(void) { return 1; }
int main(void) { return f(); }
#pragma compartment A
#pragma export f
int f(void) { return 2; }
",
    // It imports no two functions of one name.
    b"#pragma compartment Main
#pragma import A f
@#pragma import B f
int f(void);
int main(void) { return f(); }
#pragma compartment A
#pragma export f
int f(void) { return 1; }
#pragma compartment B
#pragma export f
int f(void) { return 2; }
",
    b"#pragma compartment Main
#pragma import A f

@#pragma import A f
int f(void);
int main(void) { return f(); }
#pragma compartment A
#pragma export f
int f(void) { return 1; }
",
    b"#pragma compartment Main
#pragma import A output
@#pragma import Env output
void output(int v);
int main(void) { return 0; }
#pragma compartment A
#pragma export output
void output(int v) { }
",
    b"#pragma compartment Main
#pragma import A f
int f(void);
int main(void) { return f(); }
#pragma compartment A
#pragma export f
#pragma import B g
int g(void);
int f(void) { return g(); }
#pragma compartment B
#pragma import A f
#pragma export g
int f(void);
int g(void) { return f(); }
",
    // It has a prototype of each.
    b"#pragma compartment Main
@#pragma import A f
int main(void) { return 0; }
#pragma compartment A
#pragma export f
int f(void) { return 1; }
",
    b"#pragma compartment A
#pragma export f
int f(void) { return 1; }
#pragma compartment Main
int x;
int main(void) { return 0; }
#pragma compartment C
@#pragma import A f
",
    // It agrees with each declaration in the section that exports the function.
    b"#pragma compartment Main
#pragma import A f
@int f(int a);
int main(void) { return 0; }
#pragma compartment A
#pragma export f
int f(void) { return 1; }
",
    b"#pragma compartment A
#pragma export f
int f(int a) { return 1; }
#pragma compartment Main
#pragma import A f

@int f(unsigned int a);
int main(void) { return 0; }
",
    b"#pragma compartment A
#pragma export f
int f(int a) { return 1; }
#pragma compartment Main
#pragma import A f
@unsigned int f(int a);
int main(void) { return 0; }
",
    b"#pragma compartment A
#pragma export f
int f(int a) { return 1; }
#pragma compartment Main
#pragma import A f
@void f(int a);
int main(void) { return 0; }
",
    b"#pragma compartment A
#pragma export f
int f(int a, int b) { return 1; }
#pragma compartment Main
#pragma import A f
@int f(int a);
int main(void) { return 0; }
",
    b"#pragma compartment A
#pragma export f
int f(int a) { return 1; }
#pragma compartment Main
#pragma import A f
int f(signed b);
signed int f(int);
int main(void) { return 0; }
",
    b"#pragma compartment A
#pragma export f
int f(int a) { return 1; }
#pragma compartment Main
#pragma import A f
int f(int a);
@int f(void);
int main(void) { return 0; }
",
    b"#pragma compartment A
#pragma export f
int f(int a);
@int f(void) { return 1; }
#pragma compartment Main
#pragma import A f
int f(void);
int main(void) { return 0; }
",
    b"#pragma compartment Main
#pragma import A f
@int f(void);
int main(void) { return 0; }
#pragma compartment A
#pragma export f
int f(int a);
int f(void) { return 1; }
",
    b"#pragma compartment Main
#pragma import A f
int f(void);
int main(void) { return 0; }
#pragma compartment A
#pragma export f
int f(void) { return 1; }
#pragma compartment B
#pragma import A f
@int f(int a);
",
    // The least line at which a rule is broken, whatever the rule.
    b"#pragma compartment A
#pragma export f
@#pragma import B g
int f(int *p) { return 0; }
#pragma compartment A
",
    b"#pragma compartment A
#pragma export f
@int f(int *p) { return 0; }
#pragma compartment A
int main(void) { return 0; }
",
    // Of two sections of one name that is imported from, any will do, other than the importing one.
    b"#pragma compartment Main
#pragma import A f
int f(void);
int main(void) { return 0; }
#pragma compartment A
@#pragma compartment A
#pragma export f
int f(void) { return 1; }
",
    b"#pragma compartment Main
#pragma import Main f
int f(void);
int main(void) { return 0; }
@#pragma compartment Main
#pragma export f
int f(void) { return 1; }
",
    // `Env` always means the environment.
    b"#pragma compartment Main
@#pragma import Env g
int g(void);
int main(void) { return 0; }
#pragma compartment Env
#pragma export g
int g(void) { return 1; }
",
    b"#pragma compartment Main
#pragma import Env output
void output(int v);
int main(void) { return 0; }
@#pragma compartment Env
",
    // Imported functions take and give only integers.
    b"#pragma compartment Main
#pragma import A f
@int f(int *p);
int main(void) { return 0; }
#pragma compartment A
#pragma export f
int f(int *p) { return 1; }
",
    b"#pragma compartment A
#pragma export f
int f(int p) { return 1; }
#pragma compartment Main
#pragma import A f
@int f(int *p);
int main(void) { return 0; }
",
    // No exported or imported name begins with `bt_`.
    b"#pragma compartment Main
@#pragma import A bt_f
int bt_f(void);
int main(void) { return 0; }
#pragma compartment A
#pragma export bt_f
int bt_f(void) { return 1; }
",
    b"#pragma compartment bt_A

@#pragma export bt_
int bt_(void) { return 1; }
#pragma compartment Main
int bt_x;
int main(void) { return 0; }
",
    b"#pragma compartment bt_A
#pragma export bt
#pragma export b_t_f
#pragma export BT_f
int bt(void) { return 1; }
int b_t_f(void) { return 2; }
int BT_f(void) { return 3; }
int bt_g(void) { return 4; }
int bt_x;
#pragma compartment Main
int main(void) { return 0; }
",
];

// Each stands after a compartment line, and before `main`.
const IN_A_SECTION: [Row; 54] = [
    // The environment offers `input` and `output`.
    b"#pragma import Env input
#pragma import Env output
int input(void);
void output(int v);
",
    b"#pragma import Env output
void output(int);
void output(signed int v);
",
    b"@#pragma import Env print\nvoid print(int v);\n",
    b"@#pragma import Env main\n",
    b"@#pragma import Env int\n",
    b"#pragma import Env output\n@int output(int v);\n",
    b"#pragma import Env output\n@void output(unsigned int v);\n",
    b"#pragma import Env output\n@void output(void);\n",
    b"#pragma import Env output\n@void output(int v, int w);\n",
    b"#pragma import Env output\n@void output(int *v);\n",
    b"#pragma import Env output
void output(int v);
@void output(void);
",
    b"#pragma import Env output
@void output(void);
void output(int v);
",
    b"#pragma import Env input\n@void input(void);\n",
    b"#pragma import Env input\n@unsigned int input(void);\n",
    b"#pragma import Env input\n@int input(int v);\n",
    b"#pragma import Env input\n@int *input(void);\n",
    b"@#pragma import Env output\nvoid output(int v) { }\n",
    b"#pragma import Env output
@#pragma import Env output
void output(int v);
",
    b"#pragma import Env input
@#pragma import Env output
int input(void);
",
    // A section that doesn't import them has these names for itself.
    b"#pragma export output
unsigned int input(int *p);
int output(unsigned int v) { return 1; }
",
    // An exported name is a function that the section defines.
    b"#pragma export f\nint f(int a, unsigned int b) { return 0; }\n",
    b"@#pragma export f\n",
    b"@#pragma export if\n",
    b"
@#pragma export f
int f(void);
",
    b"@#pragma export f\nint f;\n",
    b"@#pragma export f\nstruct f { int f; };\n",
    b"@#pragma export input
#pragma import Env input
int input(void);
",
    // It is exported once, and isn't `main`.
    b"#pragma export f
@#pragma export f
int f(void) { return 0; }
",
    b"#pragma export f
#pragma export g
@#pragma export f
#pragma export f
int f(void) { return 0; }
int g(void) { return 0; }
",
    b"@#pragma export main\n",
    // All prototypes and the definition of one function agree.
    b"int f(int a);\nint f(int);\nint f(int b) { return b; }\nsigned f(signed int c);\n",
    b"unsigned f(unsigned a, int *b);\nunsigned int f(unsigned int, signed *);\n",
    b"int f(int a); `int` f(unsigned int a); @@ int f(int a); `int` f(void); @@ int f(void); `int` f(int a);",
    b"int f(int a, int b); `int` f(int a); @@ int f(int a, int *b); `int` f(int *a, int b);",
    b"int f(void); `void` f(void); @@ int f(void); `unsigned` int f(void); @@ int f(void); `int` *f(void);",
    b"int *f(int *a); `int` *f(int **a);",
    b"struct S { int a; }; struct T { int a; }; void f(struct S *s); `void` f(struct T *s);",
    b"struct S { int a; }; struct T { int a; }; struct S f(struct T t); `struct` T f(struct T t);",
    b"int f(int a); `int` f(void) { return 0; } @@ int f(void) { return 0; } `int` f(int a);",
    b"int f(int a); int f(int a); `int` f(void); int f(int a) { return a; }",
    b"int f(int a); `int` f(void); int f(int a) { return a; }",
    b"int f(int a); int g(void); `int` g(int a); int f(void);",
    // Exported functions take and give only integers.
    b"#pragma export f
#pragma export g
#pragma export h
void f(void) { }
int g(int a, unsigned int b, signed c, unsigned d) { return 0; }
unsigned h(void) { return 0; }
int *i(int *p) { return p; }
",
    b"#pragma export f
@int f(int *p) {
  return 0;
}
",
    b"#pragma export f
@int f(int a,
  int *p) {
  return 0;
}
",
    b"#pragma export f
@int *f(void) {
  return 0;
}
",
    b"#pragma export f
struct S { int a; };
@int f(struct S s) {
  return 0;
}
",
    b"#pragma export f
struct S { int a; };
@struct S f(void) { }
",
    b"#pragma export f
@int f(int *p);
int f(int *p) { return 0; }
",
    b"#pragma export f
int f(int p);
int f(int p) { return 0; }
@int f(int *p);
",
    // No exported name begins with `bt_`.
    b"@#pragma export bt_f\nint bt_f(void) { return 0; }\n",
    b"int bt_f(void) { return 0; }\nint bt_g;\nstruct bt_s { int bt_m; };\n",
    // The least line at which a rule is broken.
    b"@#pragma import Env output
#pragma export f
int f(void) { return 0; }
int f(int a);
",
    b"#pragma export f
@int f(int *a) { return 0; }
int g(int a);
int g(void);
",
];

#[test]
fn main_is_missing(rt: HostRuntime) -> Result<(), Fail> {
    let want = Refusal {
        phase: Phase::Interface,
        line: 0,
    };
    for (row, text) in WITHOUT_MAIN.iter().enumerate() {
        assert_eq!(rt; judge(rt.alloc(), text)?, Some(want), "row {row}");
    }
    Ok(())
}

#[test]
fn of_sections(rt: HostRuntime) -> Result<(), Fail> {
    let wrong = wrong_rows(rt.alloc(), WHOLE, Phase::Interface, &OF_SECTIONS)?;
    assert!(rt; wrong.is_empty(), "{wrong:?}");
    Ok(())
}

#[test]
fn in_a_section(rt: HostRuntime) -> Result<(), Fail> {
    let wrong = wrong_rows(rt.alloc(), DECLARATIONS, Phase::Interface, &IN_A_SECTION)?;
    assert!(rt; wrong.is_empty(), "{wrong:?}");
    Ok(())
}
