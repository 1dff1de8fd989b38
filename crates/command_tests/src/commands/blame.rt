// Which undefined behaviour a run is blamed for, and at which line of its section, where the compartment line is line
// 1.
use memory_runs::Run;
use std::alloc::Global;
use std::test::Fail;

// What follows the compartment line. The last line, a comment, says what the run is blamed for. None of these
// runs has an event.
type Blamed = &'static [u8];

const ARITHMETIC: [Blamed; 18] = [
    b"int main(void) {\n  int a = 2147483647;\n  a = a + 1;\n}\n// Overflow 4",
    b"int main(void) {\n  int a =\n    -2147483647 - 2;\n}\n// Overflow 3",
    b"int main(void) {\n  if (65536 * 32768) {\n  }\n}\n// Overflow 3",
    b"int main(void) {\n  int a = -2147483647 - 1;\n  return -a;\n}\n// Overflow 4",
    b"void f(int a) {\n}\nint main(void) {\n  f(-1 << 0);\n}\n// Overflow 5",
    b"int main(void) {\n  while (1 << 31) {\n  }\n}\n// Overflow 3",
    b"int a[2];\nint main(void) {\n  return\n    a[(-2147483647 - 1) / -1];\n}\n// Overflow 4",
    b"int main(void) {\n  int a = -2147483647 - 1;\n  a %= -1;\n}\n// Overflow 4",
    b"int main(void) {\n  int a = 2147483647;\n  a +=\n    1;\n}\n// Overflow 4",
    b"int main(void) {\n  int a = 2147483647;\n  for (;; a++) {\n  }\n}\n// Overflow 4",
    b"int main(void) {\n  return 1 / 0;\n}\n// ZeroDivisor 3",
    b"int main(void) {\n  return 1 % 0u;\n}\n// ZeroDivisor 3",
    b"int main(void) {\n  int a;\n  a = 1 && 1 / 0;\n}\n// ZeroDivisor 4",
    b"int main(void) {\n  int a;\n  for (a = 0; 1 / a;) {\n  }\n}\n// ZeroDivisor 4",
    b"int main(void) {\n  return 1u << 32;\n}\n// BadShift 3",
    b"int main(void) {\n  return 1 >> -1;\n}\n// BadShift 3",
    b"int main(void) {\n  return -1 << 32;\n}\n// BadShift 3",
    b"int main(void) {\n  int a = 1;\n  a <<=\n  32;\n}\n// BadShift 4",
];

const POINTERS: [Blamed; 22] = [
    b"int a[4];\nint main(void) {\n  return a[4];\n}\n// OutOfBounds 4",
    b"int a[4];\nint main(void) {\n  a[4] = 1;\n}\n// OutOfBounds 4",
    b"int a[4];\nint main(void) {\n  int i = -1;\n  if (a[i]) {\n  }\n}\n// OutOfBounds 5",
    b"int a[4];\nint main(void) {\n  int *p = a + 4;\n  p = p + 1;\n}\n// OutOfBounds 5",
    b"int a[4];\nint main(void) {\n  int *p = &a[4];\n  *p = 1;\n}\n// OutOfBounds 5",
    b"int x;\nint main(void) {\n  return *(&x + 1);\n}\n// OutOfBounds 4",
    b"int *keep(void) {
  int x = 1;
  return &x;
}
int main(void) {
  int *p;
  p = keep();
  return *p;
}
// Dangling 9",
    b"int *keep(int x) {
  return &x;
}
int main(void) {
  int *p;
  p = keep(1);
  if (p) {
  }
}
// Dangling 8",
    b"int *p;\nint main(void) {\n  return *p;\n}\n// NullUse 4",
    b"int *p;\nint main(void) {\n  *p = 1;\n}\n// NullUse 4",
    b"int *p;\nint main(void) {\n  p = p + 0;\n}\n// NullUse 4",
    b"int *p;\nint main(void) {\n  return p - p;\n}\n// NullUse 4",
    b"int *p;\nint main(void) {\n  return p <= p;\n}\n// NullUse 4",
    b"int *p;\nint main(void) {\n  p = &p[0];\n}\n// NullUse 4",
    b"struct S { int m; };\nstruct S *p;\nint main(void) {\n  int *q = &p->m;\n}\n// NullUse 5",
    b"struct S { int a; int *q; };\nstruct S s;\nint main(void) {\n  return *(&s.a + 1);\n}\n// BadType 5",
    b"struct S { int a; int *q; };\nstruct S s;\nint main(void) {\n  int *p = *(&s.q - 1);\n}\n// BadType 5",
    b"int x;\nint y;\nint main(void) {\n  return &x - &y;\n}\n// BadPointer 5",
    b"int x;\nint y;\nint main(void) {\n  return &x < &y;\n}\n// BadPointer 5",
    b"struct S { int a; int b; };
struct T { struct S s; int x; struct S t; };
struct T v;
int main(void) {
  return &v.t - &v.s;
}
// BadPointer 6",
    b"int x;\nint y;\nint main(void) {\n  return &x + 1 == &y;\n}\n// BadPointer 5",
    b"int f(void) {\n  if (1) {\n  }\n}\nint main(void) {\n  int r;\n  r = f();\n}\n// NoReturn 5",
];

const INDETERMINATE: [Blamed; 9] = [
    b"int main(void) {\n  int x;\n  return x;\n}\n// Indeterminate 4",
    b"int main(void) {\n  int x = x;\n}\n// Indeterminate 3",
    b"int x;\nint main(void) {\n  int x = x;\n}\n// Indeterminate 4",
    b"int main(void) {\n  int x;\n  while (x) {\n  }\n}\n// Indeterminate 4",
    b"int main(void) {\n  int *p;\n  *p = 1;\n}\n// Indeterminate 4",
    b"int main(void) {\n  int a[2];\n  a[0] = 1;\n  a[1] += 1;\n}\n// Indeterminate 5",
    b"void f(int x) {\n}\nint main(void) {\n  int x;\n  f(x);\n}\n// Indeterminate 6",
    b"struct S { int a; int b; };\nint main(void) {\n  struct S s;\n  s.a = 1;\n  return s.b;\n}\n// Indeterminate 6",
    b"int a[2];\nint main(void) {\n  int i;\n  a[i] = 1;\n}\n// Indeterminate 5",
];

// Which of two causes comes first.
const ORDER: [Blamed; 9] = [
    b"int *p;\nint main(void) {\n  *p = 1 / 0;\n}\n// ZeroDivisor 4",
    b"int *p;\nint main(void) {\n  return p[1 / 0];\n}\n// ZeroDivisor 4",
    b"int *p;\nint main(void) {\n  *p += 1 / 0;\n}\n// NullUse 4",
    b"int *p;\nint main(void) {\n  return 1 / 0 + *p;\n}\n// ZeroDivisor 4",
    b"int *p;\nint main(void) {\n  return *p + 1 / 0;\n}\n// NullUse 4",
    b"int *p;\nvoid f(int a, int b) {\n}\nint main(void) {\n  f(*p, 1 / 0);\n}\n// NullUse 6",
    b"int *p;\nint main(void) {\n  int a = 1 / 1;\n  int b = *p;\n  return 1 / 0;\n}\n// NullUse 5",
    b"int *p;\nint f(void) {\n  return 1 / 0;\n}\nint main(void) {\n  *p = f();\n}\n// ZeroDivisor 4",
    b"int *p;\nint f(void) {\n  return 1;\n}\nint main(void) {\n  *p =\n    f();\n}\n// NullUse 7",
];

// What follows the last slash of a text.
fn last_comment(text: &[u8]) -> &[u8] {
    let mut rest = text;
    for (place, &byte) in text.iter().enumerate() {
        if byte == b'/' {
            rest = text.get(place + 1..).unwrap_or(text);
        }
    }
    rest
}

// The places of the cases that are reported otherwise.
fn reported_otherwise(alloc: Global, cases: &[Blamed]) -> Result<Vec<usize>, Fail> {
    let mut wrong = Vec::new(alloc);
    for (place, section) in cases.iter().enumerate() {
        let mut text = b"#pragma compartment M\n".to_vec(alloc)?;
        text.extend_from_slice(section)?;
        let mut want = b"stop blamed M".to_vec(alloc)?;
        want.extend_from_slice(last_comment(section))?;
        want.push(b'\n')?;
        let ran = Run::new("meaning", &text).run(alloc)?;
        if ran.status != 0 || ran.out.as_slice() != want.as_slice() {
            wrong.push(place)?;
        }
    }
    Ok(wrong)
}

#[test]
fn arithmetic_is_blamed(rt: HostRuntime) -> Result<(), Fail> {
    let wrong = reported_otherwise(rt.alloc(), &ARITHMETIC)?;
    assert!(rt; wrong.is_empty(), "{wrong:?}");
    Ok(())
}

#[test]
fn pointers_are_blamed(rt: HostRuntime) -> Result<(), Fail> {
    let wrong = reported_otherwise(rt.alloc(), &POINTERS)?;
    assert!(rt; wrong.is_empty(), "{wrong:?}");
    Ok(())
}

#[test]
fn cells_that_hold_nothing_are_blamed(rt: HostRuntime) -> Result<(), Fail> {
    let wrong = reported_otherwise(rt.alloc(), &INDETERMINATE)?;
    assert!(rt; wrong.is_empty(), "{wrong:?}");
    Ok(())
}

#[test]
fn the_first_cause_is_blamed(rt: HostRuntime) -> Result<(), Fail> {
    let wrong = reported_otherwise(rt.alloc(), &ORDER)?;
    assert!(rt; wrong.is_empty(), "{wrong:?}");
    Ok(())
}
