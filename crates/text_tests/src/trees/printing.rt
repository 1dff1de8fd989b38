// Sections as they are printed.
use sc_ast::print_section;
use sc_parse_read::read_trees;
use std::test::Fail;

// It is printed as it stands.
const AS_PRINTED: &[u8] = b"#pragma compartment Main
#pragma export h
#pragma import Env output
struct S {
  int *m;
  struct S *x[3000000000u];
};
int a = -7;
int b[2] = {-7, 7u};
unsigned int **f(int, int *, struct S *a);
void g(void);

void h(void) {
  int a = 7;
  int b[2];
  ;
  a = 7;
  *a = f();
  f(a, 7);
  f();
  if (a) {
  }
  if (a) {
  } else {
    break;
  }
  if (a) {
    if (a) {
    }
  } else {
    continue;
  }
  if (a) {
  } else if (a) {
  } else {
    return;
  }
  if (a) {
  } else {
    if (a) {
    }
    return a + a;
  }
  for (a = 7; a; *a = f()) {
  }
  for (a = 7; a;) {
  }
  while (a) {
    for (; a;) {
    }
  }
  return f(a, 7);
}
";

// A section, and its text.
const PRINTED: [(&[u8], &[u8]); 5] = [
    (AS_PRINTED, AS_PRINTED),
    // Parentheses and blanks are those that the tree needs.
    (
        b"#pragma compartment Main
void f(void) { x = ((a+ -7u))[(a+(-7u))]; y = - -a + (*p).m; z = &*p - (a - b) - c; }
",
        b"#pragma compartment Main

void f(void) {
  x = (a + -7u)[a + -7u];
  y = - -a + (*p).m;
  z = &*p - (a - b) - c;
}
",
    ),
    // An `else` belongs to the inner `if`.
    (
        b"#pragma compartment Main
void f(void) { if (a) { if (a) { } else { break; } } }
",
        b"#pragma compartment Main

void f(void) {
  if (a) {
    if (a) {
    } else {
      break;
    }
  }
}
",
    ),
    // Operators that assign are unfolded.
    (
        b"#pragma compartment Main
void f(void) { for (i = 0; ; i++) { x += i; } }
",
        b"#pragma compartment Main

void f(void) {
  for (i = 0; 1; i = i + 1) {
    x = x + i;
  }
}
",
    ),
    (
        b"#pragma compartment Net
#pragma export put
int buf[4]; int put(int i) { buf[i] = i; }
",
        b"#pragma compartment Net
#pragma export put
int buf[4];

int put(int i) {
  buf[i] = i;
}
",
    ),
];

#[test]
fn sections_are_printed(rt: HostRuntime) -> Result<(), Fail> {
    for (text, printed) in PRINTED {
        let trees = read_trees(rt.alloc(), text)?;
        let tree = trees.get(0).ok_or("no section")?;
        let again = print_section(rt.alloc(), tree)?;
        assert_eq!(rt; again.as_bytes(), printed);
    }
    Ok(())
}
