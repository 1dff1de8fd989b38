// The rules of types.
use judged_texts::{DECLARATIONS, Row, STATEMENTS, WHOLE, wrong_rows};
use sc_lex::Phase;
use std::test::Fail;

const VALUES: [Row; 29] = [
    // `* / %`, `& ^ |` and shifts take integers, and so does `+ -` where no pointer stands.
    b"i = i * j / u % 3 + u - i & j ^ u | 1u << i >> u;",
    b"u = i * j / u % 3 + u - i & j ^ u | 1u << i >> u;",
    b"@p = i + u; @@p = i << i;",
    // A pointer and an integer are added, and an integer is taken from a pointer.
    b"p = p + i; p = p + u; p = 1 + p; p = u + p; p = p - i; p = p - 1u; \
      p = a + 1; p = 1 + a; p = a - i; t = t + 1; pp = pp - 1;",
    b"r = b + 1; r = r - u; t = ss + i; t = 2 + ss; p = s.list + 1; p = 1 + t->list;",
    b"@i = p + 1; @@i = 1 + p; @@r = p + u; @@p = 1 - p;",
    // A difference of pointers is an `int`, in elements.
    b"i = p - q; u = p - q; i = p - a; i = a - a; i = t - ss; i = pp - &p; i = &a[1] - p; i = p - q + 1;",
    b"@p = p - q; @@i = p - r; @@i = t - w; @@i = pp - p;",
    // Comparisons and `&& || !` give an `int`.
    b"i = p < q; i = p >= a; i = t <= ss; i = p == q; i = p != a; i = !p; i = !a; \
      i = p && t; i = a || i; i = u > i; i = p == 0; i = 0 != t; i = a == 0;",
    b"@p = p == q; @@p = p < q; @@p = !p; @@p = p && q; @@p = p || q; @@i = t == w; @@i = p == pp;",
    // `- + ~` give the type of their operand.
    b"i = -u; u = +i; i = ~u; i = - - -i;",
    b"@p = -i; @@p = +p;",
    // `*p`, `p[i]` and `a[i]` are the elements.
    b"i = *p; u = *r; p = *pp; i = **pp; i = *a; i = p[0]; i = p[-1]; i = a[u]; \
      i = pp[0][1]; p = *&p; i = *(a + 1); i = *s.list; t = &*ss; t = &ss[1];",
    b"@i = *i; @@i = *5; @@i = *0; @@i = **p; @@p = *p; @@i = *pp; @@i = *s; @@i = i[0]; @@i = s[0]; @@i = a[0][0];",
    b"@i = 1[a]; @@i = i[a]; @@i = a[p]; @@i = a[s]; @@5[a] = 1;",
    // `s.m` is of a struct place, and `p->m` of a pointer to a struct.
    b"i = s.n; u = s.m; p = s.q; t = s.next; i = s.next->next->n; i = v.inner.n; \
      i = w->inner.list[1]; i = ss[1].n; i = ss->n; i = (ss + 1)->n; i = (*t).n; i = (&s)->n;",
    b"p = s.list; i = s.list[2]; t = &v.inner; p = &s.n; r = &t->m; pp = &s.q; p = &s.list[1]; i = *s.list; i = (s).n;",
    b"@i = s.zero; @@i = t->zero; @@i = v.m; @@i = t.n; @@i = s->n; @@i = ss.n; @@i = i.n; @@i = p->n; @@i = 5 .n;",
    b"@i = (i + u).n; @@i = (t + 1).n; @@i = *t.n; @@i = s.next.n; @@i = s.n.n; @@i = s.list->n; @@r = s.list;",
    b"@i = s.q; @@p = &s.m;",
    // `&` is of a place that is no array.
    b"p = &i; r = &u; pp = &p; t = &s; p = &a[0]; p = &*p; p = &p[1]; t = &*t; t = &ss[0]; w = &v; p = &(i);",
    b"@p = &5; @@p = &(i + j); @@p = &-i; @@pp = & &i; @@p = &a; @@if (&a) { } @@if (&s.list) { }",
    b"@if (&t->list) { } @@if (&ss) { } @@p = &u; @@r = &i; @@p = &p; @@pp = &r; @@t = &v;",
    // Structs are no operands.
    b"@i = s + 1; @@i = s == s; @@i = s && 1; @@i = !s; @@i = *t == *t; @@i = v.inner || 0;",
    // Operators group as their levels say, those of one level from the left.
    b"i = p < q < i; i = p == q == i; i = p < q == i; i = i == p < q; \
      i = p == q & i; i = i & p == q; i = i ^ p != q; i = p - q - i;",
    b"i = i << p - q; i = p - q << i; i = p + i < q; p = p - i * j; p = p + i - j; \
      i = i + p - q; i = -p[0]; i = !p == i; p = p + *p * i; i = p && i | i;",
    b"i = &a[1] - p; i = *pp[0]; t = &s.next[0]; p = &*p + 1;",
    b"@i = i == p == q; @@i = p == q < i; @@p = p - q - q; @@p = p + i << i; @@i = p & i == q;",
    b"@i = p == p & p == 0 ^ p; @@i = p && p | i; @@i = p * i + p; @@i = *p[0]; @@i = !p + p; @@i = - p - q;",
];

const MOVES: [Row; 31] = [
    // A value goes into a place where both are integers, or both the same pointer type.
    b"i = u; u = i; i = 4294967295u; u = -1; i = j; a[0] = u; b[0] = i; s.n = u; s.m = i; *p = u; *r = i;",
    b"p = q; p = a; t = ss; pp = &q; *pp = p; s.q = p; s.next = t; s.next = &s; t = t->next; p = *pp; p = s.list;",
    b"@i = p; @@u = p; @@p = i; @@p = r; @@r = p; @@p = b; @@t = w; @@w = t; @@p = pp; @@pp = p; @@pp = a; @@p = t;",
    b"@i = a;",
    // Structs and arrays go nowhere.
    b"@s = s; @@s = *t; @@s = v.inner; @@v.inner = s; @@s = 0; @@i = s; @@t = s; @@a = p; @@a = a; @@a = 0;",
    b"@s.list = p;",
    // A literal of value 0, which has no sign, goes into a pointer.
    b"p = 0; p = 0u; p = 0x0; p = 00; p = (0); p = ((0U)); t = 0; pp = 0; *pp = 0; s.next = 0;",
    b"@p = -0; @@p = +0; @@p = !1; @@p = 1; @@p = 1 - 1; @@p = 0 + 0; @@i = 0; p = i;",
    // It is compared only by `==` and `!=`.
    b"i = p == 0; i = 0 == p; i = p != 0u; i = 0x0 != a; i = pp == (0); i = t == 0;",
    b"@i = p == -0; @@i = p == 1; @@i = 1 != p; @@i = p == i; @@i = p < 0; @@i = 0 >= p; @@i = p - 0;",
    b"@i = p == (p == p);",
    // `L op= E` and `L++` are `L = L op (E)` and `L = L + 1`.
    b"p += 1; p -= u; t += i; p++; --p; ++t; pp--; s.q++; i += u; \
      u <<= 1; *p += 2; i -= p - q; i &= p == q; i += p == 0;",
    b"@i += p; @@i -= p; @@p -= p; @@p += p; @@p *= 2; @@p &= 1; @@p <<= 1; @@s++; @@s += 1; @@a++; @@--a; @@a += 1;",
    b"@s.list++; @@s.list -= 1;",
    // `*p++` is `(*p)++`.
    b"*p++; *pp++; ++*p; ++**pp;",
    b"@*i++; @@*t++;",
    // Conditions are integers or pointers.
    b"if (i) { } if (u) { } if (p) { } if (0) { } if (a) { } if (!t) { } while (t) { break; } \
      while (s.list) { break; } for (; a; ) { } for (; pp; ) { } for (; ; ) { }",
    b"@if (s) { } @@while (*t) { } @@for (; v.inner; ) { } @@if (i) { } else if (s) { } @@for (p = 1; ; ) { }",
    b"@for (; ; p = 1) { } @@for (; ; ) { p = 1; } @@while (1) { p = 1; } @@if (1) { } else { p = 1; }",
    b"@if (0) { p = 1; }",
    // Calls pass as many values as there are parameters, each of which takes its own.
    b"number(1, p); number(u, a); number(p == q, &i); number(0, 0); number(*p, pp[0]); nothing();",
    b"@number(); @@number(1); @@number(1, p, 1); @@nothing(1); @@nothing(s); @@number(p, p); @@number(1, 1);",
    b"@number(1, -0); @@number(1, i); @@number(1, r); @@number(1, b); @@number(s, p); @@number(1, p + r);",
    // A call statement may drop a result, also a struct.
    b"nothing(); number(1, p); place(); build();",
    b"i = number(1, p); u = number(1, p); p = place(); *p = number(1, 0); *pp = place(); \
      s.q = place(); s.m = number(1, 0); for (p = place(); ; i = number(1, p)) { break; }",
    b"@i = nothing(); @@p = nothing(); @@i = place(); @@p = number(0, 0); @@r = place(); @@a = place();",
    b"@v = build(); @@i = build(); @@w = build(); @@i = number(1); @@for (p = number(1, p); ; ) { }",
    // Initialisers of locals stand at integers and pointers.
    b"int k = 1, *l = p, m = k, *n = &m, *o = a, *x = 0, *y = 0u, **z = &n; \
      unsigned int c = -1, *d = b; struct S *e = &s, *f = ss, *g = e;",
    b"@int k = p; @@int *k = 1; @@int *k = -0; @@int *k = r; @@int *k = &u; @@int **k = p; @@int k[2] = 1;",
    b"@int k[2] = a; @@int *k[2] = 0; @@struct S k = s; @@struct S k = 0; @@struct S *k = s; @@struct S *k = w;",
    b"@int k = s; @@int k = 1, l = 2, *m = 3;",
];

const HEAP: [Row; 10] = [
    // `sizeof` is an `unsigned int`.
    b"i = sizeof(int); u = sizeof(struct S) + 1; p = p + sizeof(int); a[sizeof(int) - 4] = sizeof(int *) == 4;",
    b"@p = sizeof(int); @@i = *sizeof(int); @@i = sizeof(struct S).n; @@r = &sizeof(int); @@i = p == sizeof(int);",
    // What is allocated is what the place points to.
    b"p = malloc(sizeof(int)); r = malloc(u * sizeof(unsigned)); t = malloc(3 * sizeof(struct S)); \
      pp = malloc(sizeof(int *)); *pp = malloc(sizeof(signed)); s.next = malloc(sizeof(struct S)); \
      t->q = malloc((p - q) * sizeof(int)); w = malloc(sizeof(int) * sizeof(struct T));",
    b"@p = malloc(sizeof(unsigned)); @@r = malloc(sizeof(int)); @@p = malloc(sizeof(int *));",
    b"@pp = malloc(sizeof(int)); @@t = malloc(sizeof(struct T)); @@t = malloc(sizeof(struct S *));",
    b"@i = malloc(sizeof(int)); @@a = malloc(sizeof(int));",
    b"@s = malloc(sizeof(struct S)); @@s.list = malloc(sizeof(int));",
    // The count is an integer.
    b"@p = malloc(p * sizeof(int)); @@p = malloc(s * sizeof(int)); @@p = malloc((p + 1) * sizeof(int));",
    // What is freed is a pointer, or a literal of value 0.
    b"free(p); free(pp); free(t); free(a); free(0); free(0u); free((0)); free(&i); free(p + 1); free(s.next);",
    b"@free(i); @@free(1); @@free(-0); @@free(s); @@free(u); @@free(sizeof(int)); @@free(p == q); @@free(0 + 0);",
];

// Each stands after a compartment line, and before `main`.
const DECLARED: [Row; 43] = [
    // A global begins with an integer if it is one.
    b"int x = 5, y = -5, z = 4294967295u, w = 0xffffffff; unsigned int u = -1, v = 1;\n",
    b"@int x = { 1 }; @@int x = { 0 };",
    // A pointer begins with a literal of value 0.
    b"int *p = 0, **q = 0u, *r = 0x0; struct S { int a; }; struct S *s = 00;\n",
    b"@int *p = 1; @@int *p = -0; @@int *p = { 0 };",
    b"int x; `int` y, *p = 1; @@ `int` x = 1, *p = 0, *q = 2;",
    // An array of integers begins with a list no longer than itself.
    b"int a[3] = { 1, -2, 3 }, b[3] = { 1 }, c[2] = { 1, 2, }; unsigned int d[1] = { -1 };\n",
    b"@int a[2] = { 1, 2, 3 }; @@int a[1] = { 0, 0, }; @@int a[1] = 1; @@int a[2] = 0; @@int *a[2] = { 0, 0 };",
    b"@int *a[1] = { 0 }; @@int *a[1] = 0;",
    // Structs have no initialiser.
    b"struct S { int a; }; `struct` S s = { 1 }; @@ struct S { int a; }; `struct` S s = 0;",
    b"struct S { int a; }; `struct` S s[1] = { 0 };",
    // `return` has a value exactly in a function with a result.
    b"void f(void) { return; }
void g(int a) { if (a) { return; } }
int h(void) { }
int *i(int a) { while (a) { return 0; } }
",
    b"int f(void) { `return`; } @@ void f(void) { `return` 1; } @@ void f(void) { `return` 0; }",
    b"int *f(int a) { if (a) { return 0; } `return`; } @@ struct S { int a; }; struct S f(void) { `return`; }",
    // The value goes into the result.
    b"int f(unsigned int a) { return a; }
unsigned int g(void) { return -1; }
int *h(int a) { return &a; }
int *i(void) { return 0; }
int *j(void) { int a[2]; return a; }
",
    b"int *f(void) { `return` 1; } @@ int *f(void) { `return` -0; } @@ int f(int *p) { `return` p; }",
    b"int *f(int a) { `return` a; } @@ int *f(unsigned int *p) { `return` p; } @@ int *f(int **p) { `return` p; }",
    b"struct S { int a; }; struct S f(struct S s) { `return` s; }",
    b"struct S { int a; }; struct S f(void) { `return` 0; }",
    // After `return` a called function has a result, which goes into this one.
    b"int f(void) { return g(1); }\nunsigned int g(int a) { return f(); }\nint *h(void) { return h(); }\n",
    b"void f(void) { `return` f(); } @@ void g(void) { } int f(void) { `return` g(); }",
    b"int g(void) { return 1; } void f(void) { `return` g(); }",
    b"int *g(void) { return 0; } int f(void) { `return` g(); }",
    b"int g(void) { return 0; } int *f(void) { `return` g(); }",
    b"int g(int a) { return 0; } int f(void) { `return` g(); }",
    b"struct S { int a; }; struct S f(void) { `return` f(); }",
    // Structs may be parameters and results, but no call passes one.
    b"struct S { int a; };
int f(struct S s) { return s.a; }
struct S g(struct S *s) { s->a = 1; }
void h(struct S *s) { g(s); }
",
    b"struct S { int a; }; int f(struct S s) { return s.a; } int g(void) { struct S s; `return` f(s); }",
    b"struct S { int a; }; int f(struct S s) { `f`(s); return 0; }",
    b"struct S { int a; }; int f(struct S s) { `return` f(0); }",
    // A call is typed by the definition of the function in its section, also where that stands later.
    b"int f(void) {\n  return g(1);\n}\nint g(int a) { return a; }\n",
    b"int f(void) { `return` g(); } int g(int a) { return a; }",
    b"int g(int a); int f(void) { `return` g(1); } int g(void) { return 1; }",
    // A call of an import is typed by its first prototype there; without one it has no type.
    b"#pragma import Env output
int f(void) {
@  output(1);
  return 0;
}
",
    b"#pragma import Env output
void output(void);
void output(int v);
int f(void) {
@  output(1);
  return 0;
}
",
    b"#pragma import Env input
int f(void) {
  int *p;
@  p = input();
  return 0;
}
int input(void);
",
    b"#pragma import Env input
#pragma import Env output
int f(void) {
  unsigned int u;
  u = input();
  output(u);
  return input();
}
void output(int v);
int input(void);
",
    // The line is that of the innermost statement, or of the local.
    b"int f(int a) { int *p; while (a) { if (a) { `p` = 1; } } return 0; }",
    b"int f(int a) { `int` b, *p = a; return 0; }",
    b"int f(int a) { int *p; for (a = 0; a < 3; `p` = a) { } return 0; }",
    b"int f(int a) { int *p; `for`(a = 0; p < a; a++) { } return 0; }",
    b"int f(int a) {\n  int *p;\n  if (a) {\n@  } else if\n    (p < a) {\n    p = a;\n  }\n  return 0;\n}\n",
    // The least line at which a rule is broken.
    b"int f(int a) { while (a) { `return`; } } int *p = 1; @@ `int` *p = 1; int f(int a) { return; } int x = { 1 };",
    // Also in functions that nobody calls.
    b"int x; int f(void) { `int` *p = x; return 0; }",
];

// Each text is whole.
const OF_SECTIONS: [Row; 5] = [
    b"#pragma compartment Main
int main(void) {
@  return;
}
",
    b"#pragma compartment Main\nint main(void) { }\n",
    b"#pragma compartment A
struct S { int a; };
int f(struct S *s) { return s->a; }
#pragma compartment Main
struct S { int b; };
int f(struct S *s) {
@  return s->a;
}
int main(void) { return 0; }
",
    b"#pragma compartment A
int *f(void) { return 0; }
#pragma compartment Main
int f(void) { return 1; }
int main(void) {
  int *p;
@  p = f();
  return 0;
}
",
    // The importing section's own prototype decides.
    b"#pragma compartment Main
#pragma import A f
int f(int a);
int main(void) {
@  return f();
}
#pragma compartment A
#pragma export f
int f(void) { return 1; }
",
];

#[test]
fn values(rt: HostRuntime) -> Result<(), Fail> {
    let wrong = wrong_rows(rt.alloc(), STATEMENTS, Phase::Types, &VALUES)?;
    assert!(rt; wrong.is_empty(), "{wrong:?}");
    Ok(())
}

#[test]
fn moves(rt: HostRuntime) -> Result<(), Fail> {
    let wrong = wrong_rows(rt.alloc(), STATEMENTS, Phase::Types, &MOVES)?;
    assert!(rt; wrong.is_empty(), "{wrong:?}");
    Ok(())
}

#[test]
fn heap(rt: HostRuntime) -> Result<(), Fail> {
    let wrong = wrong_rows(rt.alloc(), STATEMENTS, Phase::Types, &HEAP)?;
    assert!(rt; wrong.is_empty(), "{wrong:?}");
    Ok(())
}

#[test]
fn declared(rt: HostRuntime) -> Result<(), Fail> {
    let wrong = wrong_rows(rt.alloc(), DECLARATIONS, Phase::Types, &DECLARED)?;
    assert!(rt; wrong.is_empty(), "{wrong:?}");
    Ok(())
}

#[test]
fn of_sections(rt: HostRuntime) -> Result<(), Fail> {
    let wrong = wrong_rows(rt.alloc(), WHOLE, Phase::Types, &OF_SECTIONS)?;
    assert!(rt; wrong.is_empty(), "{wrong:?}");
    Ok(())
}
