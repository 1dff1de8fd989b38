// Programs whose statements are of each kind, over each kind of place.
use crate::placing::{Choice, FIRST_SLOTS};
use crate::runs::{Task, emits};
use sc_base::OutOfMemory;
use sc_lower::lower;
use sc_tac::Place::{self, Register, Slot};
use sc_types::SourceText;
use std::alloc::Global;
use std::test::Fail;

const EVENTS: u32 = 1_000;

/// A text, its inputs, the kinds of its events (call, return, input, output, end), and their words.
type Case = (&'static [u8], &'static [i32], &'static [u8], &'static [u32]);

// Both parts of `If`s, also inside of each other; each way out of a loop, and loops inside of each other.
const CONTROL: Case = (
    b"#pragma compartment M
#pragma import Env input
#pragma import Env output
int input(void);
void output(int v);
int main(void) {
  int i;
  int j;
  int n;
  n = input();
  for (i = 0; i < n; i++) {
    if (i == 1) {
      continue;
    }
    if (i > 2) {
      if (i == 5) {
        break;
      } else {
        output(i * 100);
      }
    } else {
      output(i);
    }
    j = 0;
    while (1) {
      j = j + 1;
      if (j == i) {
        continue;
      }
      if (j > 3) {
        break;
      }
      output(j + 10 * i);
    }
  }
  for (;;) {
    break;
  }
  while (i > 3) {
    i--;
  }
  output(i && n);
  output(!n || i == 4);
  return n;
}
",
    &[9],
    b"iooooooooooooooooe",
    &[
        9, 0, 1, 2, 3, 2, 21, 23, 300, 31, 32, 400, 41, 42, 43, 1, 0, 9,
    ],
);

// Calls of the own compartment, with no argument or up to eight, with a result, without one, or with one that nobody
// takes.
const OWN: Case = (
    b"#pragma compartment M
#pragma import Env output
void output(int v);
int last;
void note(int v) {
  last = last + v;
}
int five(void) {
  return 5;
}
int digits(int a, int b, int c, int d, int e, int f, int g, int h) {
  note(1);
  return a + 10 * b + 100 * c + 1000 * d + 10000 * e + 100000 * f + 1000000 * g + 10000000 * h;
}
int fibonacci(int n) {
  int a;
  int b;
  if (n < 2) {
    return n;
  }
  a = fibonacci(n - 1);
  b = fibonacci(n - 2);
  return a + b;
}
int main(void) {
  int r;
  r = digits(1, 2, 3, 4, 5, 6, 7, 8);
  output(r);
  r = five();
  five();
  output(r);
  r = fibonacci(10);
  output(r);
  note(6);
  output(last);
}
",
    &[],
    b"ooooe",
    &[87_654_321, 5, 55, 7, 0],
);

// Calls across, with arguments, with and without a result, and back into the compartment that waits: `keep`, export 1
// of compartment 1, twice, and then `sum` with digits, which calls `twice` with -4; then both of these with zeros.
const ACROSS: Case = (
    b"#pragma compartment M
#pragma export twice
#pragma import A sum
#pragma import A keep
#pragma import Env output
void output(int v);
int sum(int a, int b, int c, int d, int e, int f, int g, int h);
void keep(int v);
int calls;
int twice(int v) {
  calls = calls + 1;
  return 2 * v;
}
int main(void) {
  int r;
  keep(7);
  keep(8);
  r = sum(1, 2, 3, 4, 5, 6, 7, 8);
  output(r);
  sum(0, 0, 0, 0, 0, 0, 0, 0);
  output(calls);
  return r;
}
#pragma compartment A
#pragma export sum
#pragma export keep
#pragma import M twice
int twice(int v);
int kept = 3;
void keep(int v) {
  kept = kept * 10 + v;
}
int sum(int a, int b, int c, int d, int e, int f, int g, int h) {
  int r;
  r = twice(a - b + c - d + e - f + g - h);
  return r + kept;
}
",
    &[],
    b"crcrccrroccrroe",
    &[
        1, 1, 7, 1, 1, 8, 1, 0, 1, 2, 3, 4, 5, 6, 7, 8, 0, 0, MINUS_4, MINUS_8, 370, 370, 1, 0, 0,
        0, 0, 0, 0, 0, 0, 0, 0, 0, 0, 0, 378, 2, 370,
    ],
);

const MINUS_4: u32 = 0xffff_fffc;

const MINUS_8: u32 = 0xffff_fff8;

// Inputs, also such that nobody takes, and outputs.
const ENVIRONMENT: Case = (
    b"#pragma compartment M
#pragma import Env input
#pragma import Env output
int input(void);
void output(int v);
int main(void) {
  int a;
  int b;
  a = input();
  input();
  b = input();
  output(a);
  output(b);
  b = input();
  output(b);
  return a - b;
}
",
    &[-5, 6, 2_147_483_647],
    b"iiiooioe",
    &[
        0xffff_fffb,
        6,
        0x7fff_ffff, // what is read
        0xffff_fffb,
        0x7fff_ffff,
        0, // read after the last input
        0,
        0xffff_fffb,
    ],
);

// Places of objects and globals, arrays, structs, pointers to each, and all that is computed with pointers.
const POINTERS: Case = (
    b"#pragma compartment M
#pragma import Env output
void output(int v);
struct pair {
  int first;
  int *second;
};
struct wide {
  int room[600];
  int last;
};
struct pair pairs[3];
struct wide wides[3];
int table[700] = {4, 5, 6};
int last = 11;
int main(void) {
  int x = 1;
  int *p = &x;
  int *q;
  struct pair own[2];
  int many[520];
  struct pair *r;
  struct wide *w;
  int **s;
  many[0] = 20;
  many[519] = 21;
  *p = *p + 1;
  output(x);
  q = 0;
  output(!q);
  q = table + 2;
  output(*q);
  q = q - 1;
  output(*q);
  output(q - table);
  output(table - q);
  output(q < table);
  output(q > table);
  output(q <= q);
  output(q >= table + 3);
  output(q == &table[1]);
  output(q != &table[1]);
  own[1].first = 9;
  own[1].second = &many[519];
  r = own;
  r = 1 + r;
  output(r->first);
  output(*r->second);
  output(r - own);
  s = &r->second;
  *s = p;
  output(*own[1].second);
  pairs[2].second = &last;
  pairs[2].first = table[699];
  r = pairs + 2u;
  output(*r->second + r->first);
  output(r - pairs);
  w = wides + 2;
  w->last = 30;
  w = w - 1;
  w->last = 31;
  output(wides[2].last);
  output(wides[1].last);
  output(&wides[2] - w);
  q = many;
  q++;
  q--;
  return *q;
}
",
    &[],
    b"oooooooooooooooooooooe",
    &[
        2,
        1,
        6,
        5,
        1,
        0xffff_ffff,
        0,
        1,
        1,
        0,
        1,
        0,
        9,
        21,
        1,
        2,
        11,
        2,
        30,
        31,
        1,
        20,
    ],
);

// Operators before words, and constants: those that one instruction loads, and those that take two.
const WORDS: Case = (
    b"#pragma compartment M
#pragma import Env input
#pragma import Env output
int input(void);
void output(int v);
int main(void) {
  int a;
  unsigned int u;
  int n = 3;
  while (n) {
    a = input();
    u = a;
    output(-a);
    output(+a);
    output(!a);
    output(~a);
    output(-u);
    output(!u);
    output(~u);
    n--;
  }
  output(2047);
  output(2048);
  output(2049);
  output(4095);
  output(4096);
  output(2147483647);
  output(2147481600);
  output(4294965248u);
  output(4294965247u);
  output(2147483648u);
  output(305419896);
  return 0;
}
",
    &[0, 7, -2048],
    b"ioooooooioooooooiooooooooooooooooooe",
    &[
        0, // read
        0,
        0,
        1,
        u32::MAX,
        0,
        1,
        u32::MAX,
        7, // read
        0xffff_fff9,
        7,
        0,
        0xffff_fff8,
        0xffff_fff9,
        0,
        0xffff_fff8,
        0xffff_f800, // read
        2_048,
        0xffff_f800,
        0,
        2_047,
        2_048,
        0,
        2_047, //
        2_047,
        2_048,
        2_049,
        4_095,
        4_096,
        0x7fff_ffff,
        0x7fff_f800,
        0xffff_f800,
        0xffff_f7ff,
        0x8000_0000,
        0x1234_5678,
        0,
    ],
);

// Blocks of words, structs and pointers, that are freed in another order than they were allocated, so that a later one
// lies between them; what is larger than a gap, or than the zone; blocks of no cells; null that is freed; a list that
// another call frees; and addresses of one compartment beside those of another that allocates as well.
const HEAP: Case = (
    b"#pragma compartment M
#pragma import N sum
#pragma import Env output
struct cell {
  int value;
  struct cell *next;
};
int sum(int n);
void output(int v);
struct cell *list;
void push(int v) {
  struct cell *first;
  first = malloc(sizeof(struct cell));
  first->value = v;
  first->next = list;
  list = first;
}
void drop(void) {
  struct cell *rest;
  while (list != 0) {
    output(list->value);
    rest = list->next;
    free(list);
    list = rest;
  }
}
int main(void) {
  int *a;
  int *b;
  int **c;
  unsigned int n;
  a = malloc(4 * sizeof(int));
  b = malloc(3 * sizeof(int));
  c = malloc(sizeof(int *));
  a[3] = 7;
  b[0] = 8;
  *c = b + 2;
  **c = 9;
  output(a[3] + b[0] * 10 + b[2] * 100);
  free(a);
  a = malloc(5 * sizeof(int));
  free(b);
  b = malloc(7 * sizeof(int));
  for (n = 0; n < 7; n++) {
    b[n] = 1 << n;
  }
  output(b[0] + b[6]);
  free(0);
  free(b);
  b = malloc(0 * sizeof(int));
  output(b == 0);
  free(b);
  b = malloc(65536 * sizeof(int));
  output(b == 0);
  n = 65536;
  list = malloc(n * sizeof(struct cell));
  output(list == 0);
  for (n = 0; n < 3; n++) {
    push(n + sizeof(struct cell));
  }
  drop();
  n = sum(5);
  output(n);
  output(a == 0);
  free(a);
  free(c);
  b = malloc(65536 * sizeof(int));
  b[65535] = 1;
  output(b[65535]);
  return sizeof(unsigned int) * 2;
}
#pragma compartment N
#pragma export sum
int sum(int n) {
  int *squares;
  int i;
  int total;
  squares = malloc(n * sizeof(int));
  for (i = 0; i < n; i++) {
    squares[i] = i * i;
  }
  total = 0;
  while (i > 0) {
    i--;
    total += squares[i];
  }
  free(squares);
  return total;
}
",
    &[],
    b"oooooooocroooe",
    &[987, 65, 1, 1, 1, 10, 9, 8, 1, 0, 5, 30, 30, 0, 1, 8],
);

// The temporaries lie only in registers, only in slots, or in both in turn.
const PLACES: [[Place; 4]; 4] = [
    [Register(0), Register(1), Register(2), Register(3)],
    [Slot(0), Slot(1), Slot(2), Slot(3)],
    [Register(0), Slot(1), Register(2), Slot(3)],
    [Slot(0), Register(1), Slot(2), Register(3)],
];

// Each of these, with slots near the stack pointer and far from it.
fn choices(alloc: Global) -> Result<Vec<Choice>, OutOfMemory> {
    let mut choices = Vec::new(alloc);
    for number in 0..12usize {
        choices.push(Choice {
            places: PLACES[number % 4],
            first_slot: FIRST_SLOTS[number % 3],
        })?;
    }
    Ok(choices)
}

fn is_right(alloc: Global, case: Case, choices: &[Choice]) -> Result<bool, Fail> {
    let (text, inputs, kinds, words) = case;
    let source = SourceText::read(alloc, text)?;
    let code = lower(alloc, source.program())?;
    let task = Task {
        program: code.tree(),
        inputs,
        events: EVENTS,
        kinds,
        words,
    };
    emits(alloc, &task, choices)
}

#[test]
fn statements_do_what_they_mean(rt: HostRuntime) -> Result<(), Fail> {
    let choices = choices(rt.alloc())?;
    for case in [CONTROL, OWN, ACROSS, ENVIRONMENT, POINTERS, WORDS, HEAP] {
        assert!(rt; is_right(rt.alloc(), case, choices.as_slice())?);
    }
    Ok(())
}
