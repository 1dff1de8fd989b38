//! Programs whose code is looked at: one for each way in which compartments and functions meet, and each kind of
//! statement.

use chain_texts::programs::{
    ACCOUNTS, DEEP, ENDLESS, ENDLESS_OUTPUT, ENDLESS_RECURSION, EXTREME_ARGUMENTS, GREATEST_OUTPUT,
    INPUTS, LAYOUT, LEAK, LEFT_OUT, LOOPS, MIN_BY_MINUS_ONE, MISSING_RETURN, OUTPUTS, PAST_THE_END,
    PLACE_AFTER_CALL, REENTRY, REENTRY_BLAMED, ROUNDS, SEVEN, SHORT_LOOP, STORE, TWO_STORES,
    UNINITIALISED, UNSIGNED,
};

/// Pointers to a struct, to its members and to the elements of an array in it.
pub const MEMBERS: &[u8] = b"#pragma compartment M
struct S {
  int a;
  int b[2];
};
struct S s[2];
int sum(struct S *p, int n) {
  int *end = p->b + n;
  int *q;
  int total = p->a;
  for (q = p->b; q != end; q++) {
    total += *q;
  }
  return total;
}
int main(void) {
  int t;
  t = sum(&s[1], 2);
  return t + (s + 1)->b[0];
}
";

/// Blocks that are allocated and freed, also in the head of a `for`; one of no elements; and the size of a struct.
pub const BLOCKS: &[u8] = b"#pragma compartment Main
#pragma import Env output
void output(int v);
struct S {
  int a;
  int b[2];
};
int main(void) {
  struct S *s;
  int *p;
  int n = 0;
  s = malloc(2 * sizeof(struct S));
  s[1].b[1] = sizeof(struct S);
  output(s[1].b[1]);
  for (p = malloc(sizeof(int)); n < 3; free(p)) {
    p = malloc(n * sizeof(int));
    output(p == 0);
    n++;
  }
  free(s);
  return 0;
}
";

/// Three blocks that are freed in each order, beside one for which the zone has no place.
const ORDERS: &[u8] = b"#pragma compartment Main
#pragma import Pool release
#pragma import Env output
int release(int first, int second);
void output(int v);
int main(void) {
  int i;
  int j;
  int sum;
  for (i = 0; i < 3; i++) {
    for (j = 0; j < 3; j++) {
      if (i != j) {
        sum = release(i, j);
        output(sum);
      }
    }
  }
  return 0;
}
#pragma compartment Pool
#pragma export release
int *blocks[3];
int release(int first, int second) {
  int i;
  int *whole;
  int sum = 0;
  for (i = 0; i < 3; i++) {
    blocks[i] = malloc((i + 1) * sizeof(int));
    blocks[i][0] = i + 5;
  }
  whole = malloc(65536 * sizeof(int));
  free(blocks[first]);
  blocks[first] = malloc(2 * sizeof(int));
  blocks[first][0] = 9;
  for (i = 0; i < 3; i++) {
    sum += blocks[i][0];
  }
  free(blocks[second]);
  free(blocks[first]);
  free(blocks[3 - first - second]);
  return sum + (whole == 0);
}
";

/// A block that is freed once more by the compartment that was asked to free it twice, after others' events.
const FREED_TWICE: &[u8] = b"#pragma compartment Main
#pragma import A take
#pragma import B hold
#pragma import Env output
int take(int n);
void hold(void);
void output(int v);
int main(void) {
  int n;
  n = take(0);
  hold();
  n = take(1);
  output(n);
  n = take(1);
  output(n);
  return n;
}
#pragma compartment A
#pragma export take
int *kept;
int take(int back) {
  if (back) {
    free(kept);
    return 1;
  }
  kept = malloc(3 * sizeof(int));
  kept[2] = 4;
  return 0;
}
#pragma compartment B
#pragma export hold
unsigned *mine;
void hold(void) {
  mine = malloc(sizeof(unsigned));
  *mine = sizeof(unsigned *);
}
";

/// A division by zero, which is left to the machine.
pub const DIVISION_BY_ZERO: &[u8] = b"#pragma compartment Main
#pragma import Env output
void output(int v);
int main(void) {
  output(1 / 0);
  return 0;
}
";

/// A sum of constants.
pub const CONSTANTS: &[u8] = b"#pragma compartment Main
#pragma import Env output
void output(int v);
int main(void) {
  output(2 + 3 * 4);
  return 0;
}
";

const MANY_SECTIONS: &[u8] = b"#pragma compartment S0
int main(void) {
  return 0;
}
#pragma compartment S1
#pragma compartment S2
#pragma compartment S3
#pragma compartment S4
#pragma compartment S5
#pragma compartment S6
#pragma compartment S7
#pragma compartment S8
#pragma compartment S9
#pragma compartment S10
#pragma compartment S11
#pragma compartment S12
#pragma compartment S13
#pragma compartment S14
#pragma compartment S15
#pragma compartment S16
#pragma compartment S17
#pragma compartment S18
#pragma compartment S19
#pragma compartment S20
#pragma compartment S21
#pragma compartment S22
#pragma compartment S23
#pragma compartment S24
#pragma compartment S25
#pragma compartment S26
#pragma compartment S27
#pragma compartment S28
#pragma compartment S29
#pragma compartment S30
#pragma compartment S31
";

/// Each of the programs.
pub const PROGRAMS: &[&[u8]] = &[
    STORE,
    TWO_STORES,
    REENTRY,
    REENTRY_BLAMED,
    ACCOUNTS,
    MISSING_RETURN,
    LEAK,
    MIN_BY_MINUS_ONE,
    UNINITIALISED,
    INPUTS,
    ROUNDS,
    OUTPUTS,
    ENDLESS,
    DEEP,
    PLACE_AFTER_CALL,
    LEFT_OUT,
    LAYOUT,
    PAST_THE_END,
    LOOPS,
    UNSIGNED,
    EXTREME_ARGUMENTS,
    ENDLESS_RECURSION,
    SEVEN,
    ENDLESS_OUTPUT,
    MEMBERS,
    BLOCKS,
    ORDERS,
    FREED_TWICE,
    SHORT_LOOP,
    GREATEST_OUTPUT,
    DIVISION_BY_ZERO,
    CONSTANTS,
    MANY_SECTIONS,
];
