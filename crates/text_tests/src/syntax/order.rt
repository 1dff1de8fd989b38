// Each phase is taken over the whole text before the next.
use judged_texts::judge;
use sc_lex::Refusal;
use std::test::Fail;

// Each text is whole, and its last line, a comment, says what is answered.
const TEXTS: [&[u8]; 20] = [
    b"#pragma compartment Main
#pragma import Env output
void output(int v);
int main(void) {
  output(7);
  return 0;
}
// accepted",
    b"#pragma compartment Main
#pragma import Env output
void output(int v);
int main(void) {
  output(4294967296);
  return 0;
}
// Lex 5",
    b"#pragma compartment Main
#pragma import Env output
void output(int v);
int main(void) {
  output(7)
  return 0;
}
// Syntax 6",
    b"#pragma compartment Main
void output(int v);
int main(void) {
  output(7);
  return 0;
}
// Names 4",
    b"#pragma compartment Main
#pragma import Env output
int main(void) {
  output(7);
  return 0;
}
// Types 4",
    b"#pragma compartment Main
#pragma import Env output
int main(void) {
  return 0;
}
// Interface 2",
    // Lex in the last section comes before Syntax in the preamble and in the first.
    b"x
#pragma compartment A
int;
#pragma compartment B
@
// Lex 5",
    b"int;
/*
#pragma compartment A
// Lex 2",
    // Syntax in the last section comes before Names in the first.
    b"#pragma compartment A
int x, x;
#pragma compartment B
int x
x;
// Syntax 5",
    b"#pragma compartment A
int f(void) { break; return x; }
int f
(void) { return 1 }
// Syntax 4",
    // Names in the last section come before Types in the first.
    b"#pragma compartment A
int *f(void) { return 1; }
#pragma compartment B
int f(void) {
  return x;
}
// Names 5",
    b"#pragma compartment A
int *p = 1;
int f(void) {
  return 1 + *g;
}
// Names 4",
    // A name that isn't declared, within what has no type.
    b"#pragma compartment A
struct S { int a; } ;
int f(struct S s) { return s + s.b; }
int g(void) {
  return &5 + y;
}
// Names 5",
    b"#pragma compartment A
int f(int a) {
  f(a, a, *a, y);
  return 0;
}
// Names 3",
    // Types in the last section come before Interface in the first.
    b"#pragma compartment A
#pragma export f
#pragma compartment A
int f(void) {
  return;
}
// Types 5",
    b"#pragma compartment Main
int f(int a);
int f(void);
int main(int a) {
  int *p = a;
  return 0;
}
// Types 5",
    // Interface comes before Count, also at line 0.
    b"#pragma compartment A\nint a[1048577];\n// Interface 0",
    b"#pragma compartment A
int a[1048577];
#pragma compartment Main
int main(void) { return 0; }
#pragma compartment A
// Interface 5",
    // Types come before Count.
    b"#pragma compartment Main
int f(int, int, int, int, int, int, int, int, int);
int a[1048577];
int main(void) {
  return a;
}
// Types 5",
    // An initialiser longer than its array is of Types, whatever the array's length.
    b"#pragma compartment Main
int a[1048577], b[1] = { 1, 2 };
int main(void) { return 0; }
// Types 2",
];

#[test]
fn texts(rt: HostRuntime) -> Result<(), Fail> {
    for (row, text) in TEXTS.iter().enumerate() {
        let answer = match judge(rt.alloc(), text)? {
            None => String::from_str(rt.alloc(), "// accepted")?,
            Some(Refusal { phase, line }) => format!(in rt.alloc(); "// {phase:?} {line}")?,
        };
        assert!(rt;
            text.ends_with(answer.as_str().as_bytes()),
            "row {row}: {answer}"
        );
    }
    Ok(())
}
