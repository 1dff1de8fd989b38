// The grammar.
use judged_texts::{DECLARATIONS, Row, STATEMENTS, WHOLE, wrong_rows};
use sc_lex::Phase;
use std::test::Fail;

// Each text is whole.
const SECTIONS: [Row; 14] = [
    // The preamble has no token.
    b"@int x;
#pragma compartment Main
int main(void) { return 0; }
",
    b"/* a
*/
@;
#pragma compartment Main
int main(void) { return 0; }
",
    b"@x",
    b"

@x
#pragma compartment Main
int
",
    // The first section that spells no tree decides.
    b"#pragma compartment A
int x;
#pragma compartment B
@int;
#pragma compartment C
int;
",
    b"#pragma compartment Main
#pragma import Env output
void output(int v);
int main(void) {
  output(7);
@  return 0;
",
    b"#pragma compartment A
@int x

#pragma compartment Main
int main(void) { return 0; }
",
    b"#pragma compartment Main
int main(void) { return 0; }
@}
",
    // An empty section is one.
    b"#pragma compartment A
#pragma compartment Main
int main(void) { return 0; }
",
    // Directives stand before the first declaration.
    b"#pragma compartment Main
int f(void) { return 0; }
@#pragma export f
int main(void) { return 0; }
",
    b"#pragma compartment Main
int
@#pragma export main
main(void) { return 0; }
",
    b"#pragma compartment Main
@;
#pragma export f
int main(void) { return 0; }
",
    b"#pragma compartment Main
#pragma export f
#pragma import Env input
#pragma export g
int input(void); int f(void) { return 1; } int g(void) { return 2; }
int main(void) { return 0; }
",
    // Where a section ends early, its last token decides.
    b"#pragma compartment Main
int main(void) {
@  if (1) {


/* the end */
",
];

// Each stands after a compartment line, and before `main`.
const DECLARED: [Row; 10] = [
    b"int a, *b, c[3], **d, *e[2];\n",
    b"signed a; signed int b; unsigned c; unsigned int d;\n",
    b"int a = 1, b = -2, c = 0x10, *d = 0, e;\n",
    b"int a[3] = { 1, -2, 3 }, b[3] = { 1, }, c[1] = { 7u };\n",
    b"int a[0x10], b[010], c[3u];\n",
    b"int Auto, Malloc, _bool, sizeof_, mallocs;\n",
    b"int x = - 1;\n",
    b"struct S { int a, *b; unsigned c[2]; struct S *d; }; struct S s, *t, u[2];\n",
    b"struct S { int a; }\n;int x;\n",
    b"struct S { int a; }; int f(void); void g(int, unsigned *); int *h(int a, struct S *b, signed);\n",
];

// Each stands after a compartment line, and before `main`. The marked token is the first that can't go on.
const NOT_DECLARED: [Row; 24] = [
    // Declarations of variables.
    b"int x; `;` int y; @@ int `;` int y; @@ `x` ; @@ int x `int` y; @@ int x, `;` @@ int x `y` ; @@ int x, `int` y;",
    b"int x `*` ; @@ int * `;` @@ int `unsigned` x; @@ int `signed` x; @@ signed `unsigned` x;",
    b"unsigned `signed` x; @@ unsigned int `int` x; @@ `in` /**/t x; @@ int `+` x; @@ int `5` ; @@ `5` ; @@ `}`",
    b"/* a */ `*` / @@ void x `;` @@ void `*` x; @@ int `(` x); @@ int `(` *f)(int);",
    // Reserved words that have no place in the grammar.
    b"`long` x; @@ `char` x; @@ `const` int x; @@ int `const` x; @@ `static` int x; @@ `extern` int x;",
    b"`typedef` int t; @@ `_Bool` x; @@ `enum` E { A }; @@ `union` U { int x; }; @@ int `malloc` ;",
    b"int `free` (int *p); @@ int `sizeof` ; @@ int `auto` ;",
    // Lengths of arrays are integers of at least 1.
    b"int a[ `]` ; @@ int a[ `0` ]; @@ int a[ `0u` ]; @@ int a[ `00` ]; @@ int a[ `0x0` ];",
    b"int a[2], b[ `0` ], c[0]; @@ int a[ `-` 1]; @@ int n; int a[ `n` ]; @@ int a[1 `+` 1]; @@ int a[2] `[` 2];",
    b"int a[1 `;`",
    // Globals begin with constants.
    b"int x = `+` 1; @@ int x = `--` 1; @@ int x = - `-` 1; @@ int x = `(` 1); @@ int x = 1 `+` 1;",
    b"int x = 1 `.` 5; @@ int x; int *p = `&` x; @@ int x; int y = `x` ; @@ int x = `;` @@ int x = - `;`",
    b"int a[2] = { `}` ; @@ int a[2] = { `,` }; @@ int a[2] = { 1, `,` }; @@ int a[2] = { 1 `2` };",
    b"int a[2] = { `{` 1 }, 2 }; @@ int a[2] = { `[` 0] = 1 }; @@ int a[2] = { 1 `;` @@ int x `+=` 1;",
    // Structs.
    b"struct S { `}` ; @@ struct S `;` @@ struct `;` @@ struct S { int a; } `s` ; @@ struct `{` int a; };",
    b"struct S { int a `}` ; @@ struct S { int a; } `int` x; @@ struct S { int a `=` 1; };",
    b"struct S { int a; int f `(` void); }; @@ struct S { struct T `{` int a; } b; }; @@ struct S { `void` a; };",
    b"struct S { int a; `;` }; @@ struct S { int a; `x` };",
    // Heads.
    b"int f( `)` ; @@ int f(void `,` int); @@ int f(int, `void` ); @@ int f(void `a` ); @@ int f(void `*` p);",
    b"void `*` f(void); @@ int f(int a, `)` ; @@ int f(int a `b` ); @@ int f(int, `.` ..); @@ int f(int a `[` ]);",
    b"int f(int a `[` 2]); @@ int f(int g `(` int)); @@ int f( `5` ); @@ int f( `x` );",
    b"int f(int a) { return a; } `;` int x; @@ int f(int) `{` return 0; } @@ int f(int a, int) `{` return a; }",
    b"int f(int, int a) `{` return a; } @@ int f(void) `,` g(void); @@ int f(void) `int` x; @@ int f `{` return 0; }",
    b"`f` (void) { return 0; }",
];

const STATED: [Row; 23] = [
    b";;",
    b"i = 1; (i) = 2; ((*p)) = 3; a[0] = 4; s.n = 5; t->n = 6; w->inner.list[1] = 7; **pp = 8;",
    b"i += 1; i -= 1; i *= 1; i /= 1; i %= 1; i <<= 1; i >>= 1; i &= 1; i ^= 1; i |= 1;",
    b"i++; i--; ++i; --i; (i)++; ++(i); ++*p; *p++; a[0]--; ++s.n; --t->n;",
    b"nothing(); number(1, p); i = number(i + 1, &i); *p = number(0, 0);",
    b"i = i - -j - - -i;",
    b"i = i + +j; i = i & ~j; i = i & -j && !j;",
    b"i=-1; i>>=1; i=i<<1>>1; i = i<j>=0;",
    b"if (i) { return number(1, p); }",
    b"if (i) { } if (i) { i = 1; } else { i = 2; } if (i) { } else if (j) { } else { }",
    b"while (i) { } while (1) { break; } for (;;) { continue; }",
    b"for (i = 0; i < 3; i++) { } for (nothing(); ; i = number(1, p)) { break; } for (; i; ) { }",
    b"int k, *l = p, m[2]; k = 1;",
    b"int k = i + 1; struct S z; k = 1;",
    b"i = ((((1))));",
    b"i = ((i + 1) * (j)) - a[(i)] + (s).n + (t)->n + (*t).n + (a)[1];",
    b"p = &a[1]; p = &s.n; p = &t->list[2]; p = &*p; i = *&i; * & i = 1; i = - + ! ~ i; i = **pp;",
    b"i = s . n + t\n->\nn;",
    // Sizes of types.
    b"i = sizeof(int); u = sizeof (signed int) + -sizeof(unsigned); a[sizeof(int) - 4] = !sizeof(struct S **);",
    b"if (sizeof(unsigned int *)) { } i = sizeof(struct T) * sizeof(signed) / 2;",
    // Blocks are allocated, their count before a size, and freed.
    b"p = malloc(sizeof(int)); *pp = malloc(3 * sizeof(int)); p = malloc((i + 1) * sizeof(int));",
    b"s.q = malloc( ( sizeof(int))); free((0));",
    b"p = malloc((2 * sizeof(int))); p = malloc(2 * u * sizeof(int)); p = malloc(sizeof(int) * sizeof(int)); \
      for (t = malloc(i / 2 * sizeof(struct S)); i; free(t)) { } free(0); free(p + 1);",
];

// Here too the marked token is the first that can't go on.
const NOT_STATED: [Row; 34] = [
    // Simple statements.
    b"i `;` @@ 5 `;` @@ i `+` 1; @@ *p `;` @@ p[0] `;` @@ s.n `;` @@ (i) `;` @@ i = 1 `}` @@ i = `;` @@ `=` 1;",
    b"i `+` 1 = 2; @@ (i + 1) `=` 2; @@ 5 `=` i; @@ number(1, p) `=` 2; @@ i = j `=` 1; @@ i = (j `=` 1);",
    b"i = 1 `,` j = 2; @@ i = j `++` ; @@ i = `++` j; @@ i++ `++` ; @@ ++i `++` ; @@ ++ `++` i; @@ ++5 `;`",
    b"5 `++` ; @@ ++i `=` 1; @@ ++ `;` @@ a[i `++` ] = 1; @@ i += j `+=` 1; @@ i += `;`",
    // No place begins with an operator other than `*`.
    b"`-` i = 2; @@ `!` i = 2; @@ `&` i = 1; @@ `-` i++; @@ ++ `!` i; @@ for ( `~` i = 1; ; ) { } @@ ( - i) `=` 1;",
    b"for (i = 0; i; `+` i) { }",
    // The longest operators are taken.
    b"i = i `++` +j; @@ i = i `--` j; @@ i = i >> `>` 1; @@ i `+` = 1; @@ i `>` >= 1; @@ i = t - `>` n;",
    b"i = i `=` = j; @@ i = `&&` i; @@ i-> `;`",
    // Calls stand by themselves, on the right of `=`, and after `return`.
    b"(nothing `(` )); @@ i = number(1, p) `+` 1; @@ i = 1 + number `(` 1, p); @@ i = (number `(` 1, p));",
    b"i = -number `(` 1, p); @@ i += number `(` 1, p); @@ i = number(number `(` 1, p), p);",
    b"i = a[number `(` 1, p)]; @@ *place `(` ) = 1; @@ i = *place `(` ); @@ if (number `(` 1, p)) { }",
    b"while (number `(` 1, p)) { } @@ for (; number `(` 1, p); ) { } @@ return number(1, p) `+` 1;",
    b"return 1 + number `(` 1, p); @@ (number) `(` 1, p); @@ nothing() `+` 1; @@ nothing() `nothing` ();",
    b"number(1, `)` ; @@ number(1 `p` ); @@ number(i `=` 1, p); @@ number(1, p `;` @@ a[0] `(` 1); @@ s.n `(` 1);",
    b"5 `(` );",
    // Sizes are of types.
    b"i = sizeof `i` ; @@ i = sizeof( `)` ; @@ i = sizeof( `void` ); @@ i = sizeof(int `[` 4]);",
    b"i = sizeof(struct `)` ; @@ i = sizeof( `5` ); @@ i = sizeof(struct S `{` int n; });",
    b"i = sizeof(int `u` ); @@ i = sizeof(int); i `sizeof` ;",
    // The argument of `malloc` ends in a size.
    b"p = malloc(4 `)` ; @@ p = malloc(sizeof(int) * 2 `)` ; @@ p = malloc( `)` ; @@ p = malloc `;`",
    b"p = malloc(i `)` ; @@ `malloc` (sizeof(int)); @@ i = 1 + `malloc` (sizeof(int));",
    b"p += `malloc` (sizeof(int)); @@ return `malloc` (sizeof(int));",
    // Other statements.
    b"if (i) `i` = 1; @@ if (i) { } else `i` = 1; @@ if (i) { } else `while` (i) { }",
    b"if (i) { } else { } `else` { } @@ if `i` { } @@ if ( `)` { } @@ if (i `=` 1) { } @@ if (i `{` } @@ `else` { }",
    b"while (i) `;` @@ while ( `)` { } @@ while `{` } @@ for (;;) `;` @@ for (i = 0; i < 3 `)` { }",
    b"for (i = 0 `,` j = 0; ; ) { } @@ for ( `int` k = 0; ; ) { } @@ for (i `;` ; ) { } @@ for (; i `=` 1; ) { }",
    b"for (; ; `;` ) { } @@ for (; ; i++ `;` ) { } @@ for ( `)` { } @@ `do` { } while (i); @@ `switch` (i) { }",
    b"`goto` out; @@ `case` 1; @@ `{` i = 1; } @@ return i `=` 1; @@ return (1) `2` ; @@ return `}` @@ break `1` ;",
    b"break `}` @@ continue `}` @@ if (i) { break `}`",
    // Locals stand before the first statement, and only at the head of a function.
    b"; `int` k; @@ if (i) { `int` k; } @@ int k = number `(` 1, p); @@ int k[2] = `{` 1, 2 }; @@ int k = `;`",
    b"int k = j `=` 1; @@ int f `(` void); @@ struct U `{` int x; }; @@ `void` k; @@ int k[ `0` ]; @@ int k `k` ;",
    b"int `;` @@ int k `}`",
    // Expressions.
    b"i = ( `int` )u; @@ i = sizeof( `i` ); @@ i = (1 `;` @@ i = 1 `)` ; @@ i = ( `)` ; @@ i = a[ `]` ;",
    b"i = a[1 `,` 2]; @@ i = a[1 `;` @@ i = s. `1` ; @@ i = s. `(` n); @@ i = t-> `if` ; @@ i = i + `;`",
    b"i = i + * `;` @@ i = i `i` ; @@ i = i `5` ; @@ i = 5 `(` 1); @@ i = i < `)` ; @@ i = - `;` @@ i = `return` ;",
];

#[test]
fn sections(rt: HostRuntime) -> Result<(), Fail> {
    let wrong = wrong_rows(rt.alloc(), WHOLE, Phase::Syntax, &SECTIONS)?;
    assert!(rt; wrong.is_empty(), "{wrong:?}");
    Ok(())
}

#[test]
fn declared(rt: HostRuntime) -> Result<(), Fail> {
    let wrong = wrong_rows(rt.alloc(), DECLARATIONS, Phase::Syntax, &DECLARED)?;
    assert!(rt; wrong.is_empty(), "{wrong:?}");
    Ok(())
}

#[test]
fn not_declared(rt: HostRuntime) -> Result<(), Fail> {
    let wrong = wrong_rows(rt.alloc(), DECLARATIONS, Phase::Syntax, &NOT_DECLARED)?;
    assert!(rt; wrong.is_empty(), "{wrong:?}");
    Ok(())
}

#[test]
fn stated(rt: HostRuntime) -> Result<(), Fail> {
    let wrong = wrong_rows(rt.alloc(), STATEMENTS, Phase::Syntax, &STATED)?;
    assert!(rt; wrong.is_empty(), "{wrong:?}");
    Ok(())
}

#[test]
fn not_stated(rt: HostRuntime) -> Result<(), Fail> {
    let wrong = wrong_rows(rt.alloc(), STATEMENTS, Phase::Syntax, &NOT_STATED)?;
    assert!(rt; wrong.is_empty(), "{wrong:?}");
    Ok(())
}
