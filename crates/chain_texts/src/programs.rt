//! Programs that several crates of tests run, read or compile.

/// A compartment calls another, which stores past the end of an array.
pub const STORE: &[u8] = b"#pragma compartment Main
#pragma import Net put
#pragma import Env output
int put(int i, int v);
void output(int v);
int main(void) {
  int r;
  r = put(4, 9);
  output(r);
  return 0;
}
#pragma compartment Net
#pragma export put
int buf[4];
int key;
int put(int i, int v) {
  buf[i] = v;
  return key;
}
";

/// Two compartments, each of which stores past the end of its array.
pub const TWO_STORES: &[u8] = b"#pragma compartment Main
#pragma import A f
#pragma import B g
#pragma import Env output
int f(int i);
int g(int i);
void output(int v);
int main(void) {
  int r;
  r = f(2);
  output(r);
  r = g(2);
  output(r);
  return 0;
}
#pragma compartment A
#pragma export f
int x[2];
int y;
int f(int i) {
  x[i] = 5;
  return y;
}
#pragma compartment B
#pragma export g
int x[2];
int y;
int g(int i) {
  x[i] = 5;
  return y;
}
";

/// A compartment that is entered again while it waits for a call.
pub const REENTRY: &[u8] = b"#pragma compartment Main
#pragma import A f
#pragma import Env output
int f(int i);
void output(int v);
int main(void) {
  int r;
  r = f(1);
  output(r);
  return 0;
}
#pragma compartment A
#pragma export f
#pragma export h
#pragma import B g
int g(int v);
int x[2];
int y;
int f(int i) {
  int r;
  x[i] = 5;
  r = g(y);
  return r + y;
}
int h(int v) {
  y = y + v;
  return y;
}
#pragma compartment B
#pragma export g
#pragma import A h
int h(int v);
int g(int v) {
  int r;
  r = h(v + 1);
  return r;
}
";

/// The same, where it stores past the end of its array.
pub const REENTRY_BLAMED: &[u8] = b"#pragma compartment Main
#pragma import A f
#pragma import Env output
int f(int i);
void output(int v);
int main(void) {
  int r;
  r = f(2);
  output(r);
  return 0;
}
#pragma compartment A
#pragma export f
#pragma export h
#pragma import B g
int g(int v);
int x[2];
int y;
int f(int i) {
  int r;
  x[i] = 5;
  r = g(y);
  return r + y;
}
int h(int v) {
  y = y + v;
  return y;
}
#pragma compartment B
#pragma export g
#pragma import A h
int h(int v);
int g(int v) {
  int r;
  r = h(v + 1);
  return r;
}
";

/// Requests that are read, kept and answered by four compartments.
pub const ACCOUNTS: &[u8] = b"#pragma compartment Reader
#pragma import Accounts apply
#pragma import Log note
#pragma import Env input
int apply(int kind, int who, int amount);
void note(int what, int value);
int input(void);
int req[4];
int served;

void read_request(int n) {
  int i;
  int v;
  for (i = 0; i < n; i++) {
    v = input();
    req[i] = v;
  }
}

int main(void) {
  int n;
  int r;
  n = input();
  while (n != 0) {
    read_request(n);
    r = apply(req[0], req[1], req[2]);
    note(req[0], r);
    served = served + 1;
    n = input();
  }
  note(0, served);
  return 0;
}
#pragma compartment Accounts
#pragma export apply
struct Account {
  int balance;
  unsigned int moves;
};
struct Account table[8];

int apply(int kind, int who, int amount) {
  struct Account *a;
  if (who < 0 || who >= 8 || amount < 0 || amount > 1000000) {
    return -1;
  }
  a = &table[who];
  if (kind == 1) {
    a->balance = a->balance + amount;
  } else if (kind == 2 && a->balance >= amount) {
    a->balance = a->balance - amount;
  } else {
    return -2;
  }
  a->moves = a->moves + 1u;
  return a->balance;
}
#pragma compartment Log
#pragma export note
#pragma import Env output
void output(int v);
unsigned int lines;

void note(int what, int value) {
  lines = lines + 1u;
  if (what == 0) {
    output(1000 + value);
  } else {
    output(value);
  }
}
";

/// The value of a function that returns none is used.
pub const MISSING_RETURN: &[u8] = b"#pragma compartment Main
int f(void) {
}
int main(void) {
  int r;
  r = f();
  return r;
}
";

/// A pointer to a variable whose function has returned.
pub const LEAK: &[u8] = b"#pragma compartment Main
int *leak(void) {
  int x;
  x = 1;
  return &x;
}
int main(void) {
  int *p;
  int v;
  p = leak();
  v = *p;
  return v;
}
";

/// The least number divided by -1.
pub const MIN_BY_MINUS_ONE: &[u8] = b"#pragma compartment Main
#pragma import Env output
void output(int v);
int main(void) {
  int a;
  int b;
  a = -2147483647 - 1;
  b = -1;
  output(a / b);
  return 0;
}
";

/// A variable is read before it has a value.
pub const UNINITIALISED: &[u8] = b"#pragma compartment Main
#pragma import Env output
void output(int v);
int main(void) {
  int x;
  output(1);
  output(x & 0);
  return 0;
}
";

/// Three inputs are read and their sum is written.
pub const INPUTS: &[u8] = b"#pragma compartment Main
#pragma import Env input
#pragma import Env output
int input(void);
void output(int v);
int main(void) {
  int a;
  int b;
  int c;
  a = input();
  b = input();
  c = input();
  output(a + b + c);
  return 0;
}
";

/// Rounds of each kind of loop.
pub const ROUNDS: &[u8] = b"#pragma compartment M
int f(int a) {
  return a;
}
int main(void) {
  int i;
  int r = 0;
  for (i = 0; i < 3; i++) {
    r = f(i);
  }
  return r;
}
";

/// Outputs in a row.
pub const OUTPUTS: &[u8] = b"#pragma compartment M
#pragma import Env output
void output(int v);
int main(void) {
  output(1);
  output(2);
  return 3;
}
";

/// A loop without an end.
pub const ENDLESS: &[u8] = b"#pragma compartment M
int main(void) {
  while (1) {
  }
}
";

/// Calls in one another.
pub const DEEP: &[u8] = b"#pragma compartment M
int f(int n) {
  int r = 0;
  if (n > 1) {
    r = f(n - 1);
  }
  return r + 1;
}
int main(void) {
  int r;
  r = f(10000);
  return r;
}
";

/// A place is computed after the call whose result it takes.
pub const PLACE_AFTER_CALL: &[u8] = b"#pragma compartment M
int *p;
int g[2];
int f(void) {
  p = &g[1];
  return 5;
}
int main(void) {
  *p = f();
  return g[1];
}
";

/// What `&&` and `||` leave out isn't evaluated.
pub const LEFT_OUT: &[u8] = b"#pragma compartment M
int main(void) {
  return (0 && 1 / 0) + (2 || 1 / 0) + (3 && 4);
}
";

/// Structs and arrays, member by member.
pub const LAYOUT: &[u8] = b"#pragma compartment M
struct S {
  int a;
  int b[2];
};
struct S s[2];
int main(void) {
  int *p = &s[0].a;
  int i;
  for (i = 0; i < 6; i++) {
    *(p + i) = i + 1;
  }
  return s[1].b[1] * 100 + s[1].a * 10 + (s + 1)->b[0];
}
";

/// A pointer just past the end of an array.
pub const PAST_THE_END: &[u8] = b"#pragma compartment M
int a[3];
int *n;
int main(void) {
  int *p = a;
  int *end = a + 3;
  int count = 0;
  while (p != end) {
    count++;
    p++;
  }
  return count + (end - a) + (&*n == 0);
}
";

/// A `for` and a `while`, which `continue`, `break` and `return` leave.
pub const LOOPS: &[u8] = b"#pragma compartment M
int main(void) {
  int i;
  int sum = 0;
  for (i = 0; i < 10; i++) {
    if (i == 2) {
      continue;
    }
    if (i == 5) {
      break;
    }
    sum = sum + i;
  }
  while (sum) {
    sum--;
    if (sum == 3) {
      return i * 10 + sum;
    }
  }
}
";

/// Operators of `unsigned int`.
pub const UNSIGNED: &[u8] = b"#pragma compartment M
unsigned u;
int main(void) {
  u = u - 1;
  return (u > 0) + (-1 < 1u) * 10 + (-8 >> 1) * 100;
}
";

/// Extreme arguments.
pub const EXTREME_ARGUMENTS: &[u8] = b"#pragma compartment Main
#pragma import A f
#pragma import Env output
int f(int a, unsigned int b);
void output(int v);
int main(void) {
  int r;
  r = f(-2147483647 - 1, 4294967295u);
  output(r);
  return 0;
}
#pragma compartment A
#pragma export f
#pragma import B g
int g(int a, unsigned int b);
int x[1];
int y;
int f(int a, unsigned int b) {
  int r;
  x[1] = 1;
  r = g(a, b);
  return r;
}
#pragma compartment B
#pragma export g
int g(int a, unsigned int b) {
  return a;
}
";

/// Endless recursion.
pub const ENDLESS_RECURSION: &[u8] = b"#pragma compartment Main
int f(void) {
  int r;
  r = f();
  return r;
}
int main(void) {
  int r;
  r = f();
  return r;
}
";

/// Seven.
pub const SEVEN: &[u8] = b"#pragma compartment Main
#pragma import Env output
void output(int v);
int main(void) {
  output(7);
  return 0;
}
";

/// Endless output.
pub const ENDLESS_OUTPUT: &[u8] = b"#pragma compartment Main
#pragma import Env output
void output(int v);
int main(void) {
  while (1) { output(1); }
  return 0;
}
";

/// Short loop.
pub const SHORT_LOOP: &[u8] = b"#pragma compartment Main
int main(void) {
  while (1) { }
}
";

/// Greatest output.
pub const GREATEST_OUTPUT: &[u8] = b"#pragma compartment Main
#pragma import Env output
void output(int v);
int main(void) {
  output(2147483647);
  return 0;
}
";

/// 458,756 bytes of globals, 4 more than there is room for.
pub const BIG_DATA: &[u8] = b"#pragma compartment Main
int big[114689];
int main(void) {
  return 0;
}
";

/// A frame of at most 36,080 bytes.
pub const BIG_FRAME: &[u8] = b"#pragma compartment Main
int main(void) {
  int a[9000];
  return 0;
}
";
