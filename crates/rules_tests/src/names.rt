// The rules of names.
use judged_texts::{DECLARATIONS, Row, WHOLE, wrong_rows};
use sc_lex::Phase;
use std::test::Fail;

// Each stands after a compartment line, and before `main`.
const IN_A_SECTION: [Row; 85] = [
    // A name has at most one definition as a function or a global.
    b"int x; `int` x; @@ int x; `int` y, x; @@ `int` x, x; @@ int x = 1; `unsigned` int *x;",
    b"int x; `int` x; int x; @@ int f(void) { return 0; } `int` f(void) { return 0; }",
    b"int f(void) { return 0; } void g(void) { } `void` f(int a) { }",
    b"int main(void) { return 1; }\n@",
    b"int f(void);\nint f(void) { return 0; }\nint f(void);\n",
    // A global doesn't share its name with a function, a prototype or an import.
    b"int f; `int` f(void) { return 0; } @@ int f(void) { return 0; } `int` f; @@ int f; `int` f(void);",
    b"int f(void); `int` f; @@ int f(void); int f(void); `int` f; int f(void);",
    b"#pragma import Env output\n@int output;\n",
    b"#pragma import Env output
void output(int v);
@int x, output;
",
    b"int main;\n@",
    // Tags of structs are distinct, and so are the members of one struct.
    b"struct S { int a; }; `struct` S { int a; };",
    b"struct S { int a; }; struct T { int a; }; `struct` S { int b; };",
    b"@struct S { int a; int a; }; @@struct S { int a, b, *a; };",
    b"`struct` S { int a; int b; unsigned int a; };",
    b"struct S { int a; };\nstruct T { int b, a; struct S S; };\n",
    // Tags, members and other names don't meet.
    b"struct a { int a; struct a *b; };\nint a;\nstruct a *b;\nstruct f { int f; };\nint f(void) { return a; }\n",
    // Parameters and locals of one function are distinct.
    b"`int` f(int a, int a) { return 0; } @@ `int` f(int a, int b, int *a) { return 0; }",
    b"int f(int a) { `int` a; return 0; } @@ int f(int a) { int b; `int` c, a; return 0; }",
    b"int f(void) { int a; `int` *a; return 0; } @@ int f(void) { `int` a, a; return 0; }",
    b"int f(int a, int a);\n",
    b"int f(int a) { int b; return 0; }\nint g(int b) { int a; return 0; }\n",
    // They may hide names of the section.
    b"int x;\nint f(int x) { return x; }\nint *g(void) { int *x = 0; return x; }\n",
    b"int f(int f) { return f; }\nint g(void) { int g = 1; g = g + 1; return g; }\n",
    b"int f(void) { return 0; }\nint g(int f) { return f; }\nint h(void) { int g; g = 2; return g; }\n",
    b"struct S { int n; };\nint f(int S) { struct S s; s.n = S; return s.n; }\n",
    // A variable is declared before its use.
    b"int f(void) { `return` x; } int x;",
    b"int x;\nint f(void) {\n  return x;\n}\n",
    b"int f(void) { `x` = 1; return 0; } @@ int f(void) { `int` a = b; int b; return a; }",
    b"int f(void) { `int` a = b, b = 1; return a; }",
    b"int f(void) {\n  int a = a;\n  return a;\n}\n",
    b"int f(void) {\n  int a = 1, b = a;\n  int c = b;\n  return c;\n}\n",
    b"int f(int a) {\n  int b = a;\n  return b;\n}\n",
    b"int b;\nint f(void) {\n  int a = b;\n  int b;\n  return a;\n}\n",
    b"int f(int a) { return a; } int g(void) { `return` a; }",
    b"int f(void) { int a; return 0; } int g(void) { `return` a; }",
    b"int f(int); int g(int a); int h(void) { `return` a; }",
    // The name of a function is no variable, and neither is a tag or a member.
    b"int g(void) { return 0; } int f(void) { `return` g; } @@ int f(void) { `int` *p = &f; return 0; }",
    b"struct S { int a; }; int f(void) { `return` a; } @@ struct S { int a; }; int f(void) { `return` S; }",
    // Each part of each statement is looked at, and the line is that of the innermost statement.
    b"int f(int a) { while (a) { if (a) { `a` = y; } } return 0; }",
    b"int f(int a) { if (a) { } else { `y` = a; } return 0; }",
    b"int f(int a) {\n  if (a) {\n@  } else if\n    (y) {\n  }\n  return 0;\n}\n",
    b"int f(int a) { `while`(y) { } return 0; }",
    b"int f(int a) {\n@  for (y = 0; ; ) { }\n  return 0;\n}\n",
    b"int f(int a) { `for`(; y; ) { } return 0; }",
    b"int f(int a) {\n@  for (; ; y++) { }\n  return 0;\n}\n",
    b"int f(int a) { for ( `y` = 0; ; ) { } return 0; }",
    b"int f(int a) {\n  for (a = 0; a;\n@    --y) { }\n  return 0;\n}\n",
    b"int f(int a) { for (; ; ) { a = 1; `y` --; } return 0; } @@ int f(int a) { `f`( y); return 0; }",
    b"int f(int a) { `a` = f(1 + y); return 0; } @@ int f(int a) { `return` f(y); }",
    b"int f(int *a) { `a` [a[y]] = 1; return 0; } @@ int f(int *a) { `a` [0] += -(a[0] + !y); return 0; }",
    b"int f(int a) { `return` a && (a || y); } @@ int f(int a) { `return` y.n; } @@ int f(int a) { `return`(*y).n; }",
    b"int f(int a) { `return` y->n; } @@ int f(int a) { `int` *p = &y[0]; return 0; }",
    // A function is visible in its whole section.
    b"int f(void) { return g(); }\nint g(void) { return f(); }\nint h(int a) { h(a); return h(1); }\n",
    // A called name is a function that the section defines or imports.
    b"int f(void) { `g`(); return 0; } @@ int f(void) { `return` g(); }",
    b"int f(void) { int a; `a` = g(); return a; } @@ int g(void); int f(void) { `return` g(); }",
    b"int g; int f(void) { `g`(); return 0; } @@ void output(int v); int f(void) { `output`(1); return 0; }",
    b"#pragma import Env output
void output(int v);
int f(void) {
  output(1);
  return 0;
}
",
    b"#pragma import Env input
#pragma import Env output
int f(void) {
  output(1);
  return input();
}
int input(void); void output(int);
",
    b"int f(int a) {\n  for (; ; ) {\n@    for (g(); ; ) { }\n  }\n  return 0;\n}\n",
    // No parameter or local hides it.
    b"int g(void) { return 0; } int f(int g) { `g`(); return 0; }",
    b"int g(void) { return 0; } int f(void) { int g; `g` = g(); return g; } @@ int f(int f) { `return` f(1); }",
    b"#pragma import Env input
int input(void);
int f(int *input) {
@  return input();
}
",
    b"int g(void) { return 0; }\nint f(int a) { int g; return 0; }\nint h(void) { return g(); }\n",
    // A prototype that nobody calls needs no definition.
    b"int g(int a);\nstruct S { int a; };\nstruct S h(struct S, struct S *);\n",
    // A tag that is used is defined earlier, or is that of the struct being defined, as the target of a pointer.
    b"`struct` S s; struct S { int a; }; @@ `struct` S *s; struct S { int a; }; @@ int x; `struct` S x2[3];",
    b"struct S { struct S *s; struct S **t, *u[3]; };\n",
    b"`struct` S { struct S s; }; @@ `struct` S { int a; struct S s[2]; }; @@ `struct` S { struct S *s, t; };",
    b"`struct` S { struct T *t; }; struct T { int a; };",
    b"struct S { int a; };\nstruct T { struct S s, *t, u[2]; struct T *v; };\nstruct T t;\n",
    b"`struct` S *f(void); struct S { int a; }; @@ `struct` S f(void);",
    b"`int` f(int a, struct S *s); struct S { int a; }; @@ `int` f(int a, struct S *s) { return 0; }",
    b"`struct` S *f(void) { return 0; } @@ int f(void) { int a; `struct` S *s; return 0; } struct S { int a; };",
    b"struct S { int a; };\nstruct S s;\nstruct S f(struct S a, struct S *b) { struct S c, *d; }\n",
    // `break` and `continue` stand in a loop.
    b"int f(int a) { `break`; return 0; } @@ int f(int a) { `continue`; return 0; }",
    b"int f(int a) { if (a) { a = 1; `break`; } return 0; }",
    b"int f(int a) { if (a) { } else { `continue`; } return 0; }",
    b"int f(int a) { while (a) { } `break`; return 0; }",
    b"int f(int a) {\n@  for (; ; ) { } continue;\n  return 0;\n}\n",
    b"int f(int a) {
  while (a) {
    if (a) { break; } else { continue; }
  }
  for (; ; ) {
    while (a) { } continue;
    break;
  }
  return 0;
}
",
    // So is what stands in the forms of the heap.
    b"struct S { int n; };\nint f(struct S *s) { s = malloc(sizeof(struct S)); free(s); return sizeof(struct S *); }\n",
    b"int f(void) { `return` sizeof(struct S); } @@ int f(int a) { `a` = sizeof(struct S **); return a; }",
    b"int f(int *p) { `p` = malloc(y * sizeof(int)); return 0; } @@ int f(int *p) { `free`(y); return 0; }",
    b"int f(void) { `y` = malloc(sizeof(int)); } @@ int f(int *p) { `p` = malloc(sizeof(struct S)); return 0; }",
    // The least line at which a rule is broken.
    b"int f(void) { `return` y; } int x; int x; @@ int x; `int` x; int f(void) { return y; }",
    b"int f(void) { `break`; return y; } int f(void) { return 0; } struct S s;",
];

// Each text is whole.
const OF_SECTIONS: [Row; 8] = [
    // Each section has its own names.
    b"#pragma compartment A
int x;
struct S { int a; };
int f(void) { return x; }
#pragma compartment Main
int x;
struct S { int b; };
int f(void) { return x; }
int main(void) { return f(); }
",
    b"#pragma compartment A
int x;
#pragma compartment Main
int main(void) {
@  return x;
}
",
    b"#pragma compartment A
struct S { int a; };
#pragma compartment Main
@struct S s;
int main(void) { return 0; }
",
    b"#pragma compartment A
#pragma export f
int f(void) { return 1; }
#pragma compartment Main
int f(void);
int main(void) {
@  return f();
}
",
    b"#pragma compartment A
#pragma export f
int f(void) { return 1; }
#pragma compartment Main
#pragma import A f
int f(void);
int main(void) {
  return f();
}
",
    // A function of the section itself may have the name of one that isn't imported.
    b"#pragma compartment A
#pragma export f
int f(void) { return 1; }
#pragma compartment Main
unsigned int f(int *p) { return 2; }
int output(void) { return 3; }
int main(void) {
  output();
  return f(0);
}
",
    // The first section that breaks a rule decides.
    b"
#pragma compartment A
int x;
int f(void) {
@  return x + y;
}
#pragma compartment Main
int x, x;
int main(void) { return y; }
",
    // A global that is named `main` beside the function.
    b"#pragma compartment Main
int main(void) { return 0; }
@int main;
",
];

#[test]
fn in_a_section(rt: HostRuntime) -> Result<(), Fail> {
    let wrong = wrong_rows(rt.alloc(), DECLARATIONS, Phase::Names, &IN_A_SECTION)?;
    assert!(rt; wrong.is_empty(), "{wrong:?}");
    Ok(())
}

#[test]
fn of_sections(rt: HostRuntime) -> Result<(), Fail> {
    let wrong = wrong_rows(rt.alloc(), WHOLE, Phase::Names, &OF_SECTIONS)?;
    assert!(rt; wrong.is_empty(), "{wrong:?}");
    Ok(())
}
