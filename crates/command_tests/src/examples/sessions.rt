// What the documents show, written from them by tools/sessions.py.
use crate::examples::runs::Session;

// The texts that are read.
#[derive(Clone, Copy)]
pub(crate) enum Input {
    Endless,
    Full,
    Inbox,
    Leak,
    Messages,
    Bounds,
    Budget,
    Order,
    Sealed,
    Silence,
    Queue,
    Reentry,
    Refused,
    Seven,
    Store,
    Trapped,
    Two,
    Text1,
}

impl Input {
    pub(crate) fn text(self) -> &'static [u8] {
        match self {
            Input::Endless => ENDLESS_TEXT,
            Input::Full => FULL_TEXT,
            Input::Inbox => INBOX_TEXT,
            Input::Leak => LEAK_TEXT,
            Input::Messages => MESSAGES_TEXT,
            Input::Bounds => BOUNDS_TEXT,
            Input::Budget => BUDGET_TEXT,
            Input::Order => ORDER_TEXT,
            Input::Sealed => SEALED_TEXT,
            Input::Silence => SILENCE_TEXT,
            Input::Queue => QUEUE_TEXT,
            Input::Reentry => REENTRY_TEXT,
            Input::Refused => REFUSED_TEXT,
            Input::Seven => SEVEN_TEXT,
            Input::Store => STORE_TEXT,
            Input::Trapped => TRAPPED_TEXT,
            Input::Two => TWO_TEXT,
            Input::Text1 => TEXT1_TEXT,
        }
    }
}

const ENDLESS_TEXT: &[u8] = b"#pragma compartment Main
#pragma import Env output
void output(int v);
int main(void) {
  int n = 0;
  while (1) {
    output(n);
    n = (n + 1) % 3;
  }
}
";

const FULL_TEXT: &[u8] = b"#pragma compartment Main
#pragma import Sum up_to
#pragma import Env output
int up_to(int n);
void output(int v);
int main(void) {
  int r;
  r = up_to(10);
  output(r);
  r = up_to(1000);
  output(r);
  return 0;
}
#pragma compartment Sum
#pragma export up_to
int up_to(int n) {
  int r;
  int terms[200];
  if (n == 0) {
    return 0;
  }
  terms[0] = n;
  r = up_to(n - 1);
  return r + terms[0];
}
";

const INBOX_TEXT: &[u8] = b"#pragma compartment Main
#pragma import Inbox receive
#pragma import Env output
int receive(int words);
void output(int v);
int main(void) {
  int trusted;
  trusted = receive(4);
  output(trusted);
  return 0;
}
#pragma compartment Inbox
#pragma export receive
#pragma import Env input
int input(void);
int receive(int words) {
  int *message;
  int *trusted;
  int i;
  message = malloc(4 * sizeof(int));
  trusted = malloc(sizeof(int));
  if (message == 0 || trusted == 0) {
    return 0;
  }
  *trusted = 0;
  for (i = 0; i <= words; i++) {
    message[i] = input();
  }
  i = *trusted;
  free(message);
  free(trusted);
  return i;
}
";

const LEAK_TEXT: &[u8] = b"#pragma compartment Main
#pragma import Store keep
#pragma import Env output
int keep(int value);
void output(int v);
int main(void) {
  int kept;
  int more;
  kept = 0;
  more = keep(kept);
  while (more) {
    kept = kept + 1;
    more = keep(kept);
  }
  output(kept);
  return 0;
}
#pragma compartment Store
#pragma export keep
struct record {
  int value;
  int unused[16383];
};
int keep(int value) {
  struct record *r;
  r = malloc(sizeof(struct record));
  if (r == 0) {
    return 0;
  }
  r->value = value;
  return 1;
}
";

const MESSAGES_TEXT: &[u8] = b"// A service that answers messages.
// Main acts on them, Store has the key, Log tells what was done, and Parser reads.
// A message is pairs of a field and what it holds, up to field 0: field 1 is the kind, and field 2 a number.
// Kind 1 asks whether the number is the key. Kind 2 makes it the key, if the sender is trusted. Kind 0 ends.
#pragma compartment Main
#pragma import Parser next_kind
#pragma import Parser number
#pragma import Store is_key
#pragma import Store set_key
#pragma import Log note
int next_kind(void);
int number(void);
int is_key(int guess);
void set_key(int new_key);
void note(int kind, int answer);

int act(int kind) {
  int value;
  int answer = 0;
  value = number();
  if (kind == 1) {
    answer = is_key(value);
  } else if (kind == 2) {
    set_key(value);
  }
  return answer;
}

int main(void) {
  int kind;
  int answer;
  kind = next_kind();
  while (kind != 0) {
    answer = act(kind);
    note(kind, answer);
    kind = next_kind();
  }
  return 0;
}
#pragma compartment Store
#pragma export is_key
#pragma export set_key
int key = 7341;

int is_key(int guess) {
  return guess == key;
}

void set_key(int new_key) {
  key = new_key;
}
#pragma compartment Log
#pragma export note
#pragma import Env output
void output(int v);
int lines;

void note(int kind, int answer) {
  lines = (lines + 1) & 255;
  output(kind * 10 + answer);
}
#pragma compartment Parser
#pragma export next_kind
#pragma export number
#pragma import Env input
int input(void);
int fields[3];
int trusted;

int next_kind(void) {
  int field;
  fields[1] = 0;
  fields[2] = 0;
  field = input();
  while (field != 0) {
    fields[field] = input();
    field = input();
  }
  if (fields[1] == 2 && !trusted) {
    return 9;
  }
  return fields[1];
}

int number(void) {
  return fields[2];
}
";

const BOUNDS_TEXT: &[u8] = b"policy Bounds
state all
on all call * Net put arg 1 < 0 deny
on all call * Net put arg 1 > 3 deny
policy end
#pragma compartment Main
#pragma import Net put
#pragma import Env output
int put(int i, int v);
void output(int v);
int main(void) {
  int r;
  r = put(4, 9);
  output(r);
  return 0;
}
#pragma compartment Net
#pragma export put
int buf[4];
int key;
int put(int i, int v) {
  buf[i] = v;
  return key;
}
";

const BUDGET_TEXT: &[u8] = b"policy Budget
state none
state one
state two
state three
on none call * Store is_key to one
on one call * Store is_key to two
on two call * Store is_key to three
on three call * Store is_key deny
policy end
// A service that answers messages.
// Main acts on them, Store has the key, Log tells what was done, and Parser reads.
// A message is pairs of a field and what it holds, up to field 0: field 1 is the kind, and field 2 a number.
// Kind 1 asks whether the number is the key. Kind 2 makes it the key, if the sender is trusted. Kind 0 ends.
#pragma compartment Main
#pragma import Parser next_kind
#pragma import Parser number
#pragma import Store is_key
#pragma import Store set_key
#pragma import Log note
int next_kind(void);
int number(void);
int is_key(int guess);
void set_key(int new_key);
void note(int kind, int answer);

int act(int kind) {
  int value;
  int answer = 0;
  value = number();
  if (kind == 1) {
    answer = is_key(value);
  } else if (kind == 2) {
    set_key(value);
  }
  return answer;
}

int main(void) {
  int kind;
  int answer;
  kind = next_kind();
  while (kind != 0) {
    answer = act(kind);
    note(kind, answer);
    kind = next_kind();
  }
  return 0;
}
#pragma compartment Store
#pragma export is_key
#pragma export set_key
int key = 7341;

int is_key(int guess) {
  return guess == key;
}

void set_key(int new_key) {
  key = new_key;
}
#pragma compartment Log
#pragma export note
#pragma import Env output
void output(int v);
int lines;

void note(int kind, int answer) {
  lines = (lines + 1) & 255;
  output(kind * 10 + answer);
}
#pragma compartment Parser
#pragma export next_kind
#pragma export number
#pragma import Env input
int input(void);
int fields[3];
int trusted;

int next_kind(void) {
  int field;
  fields[1] = 0;
  fields[2] = 0;
  field = input();
  while (field != 0) {
    fields[field] = input();
    field = input();
  }
  if (fields[1] == 2 && !trusted) {
    return 9;
  }
  return fields[1];
}

int number(void) {
  return fields[2];
}
";

const ORDER_TEXT: &[u8] = b"policy Order
state shut
state opened
on shut call * Vault open to opened
on opened call * Vault close to shut
on shut call * Vault take deny
policy end
// A clerk who opens a vault before taking from it, and closes it at the end.
// An order is pairs of a field and what it holds, up to field 0: 1 is how much to take, 2 from which shelf.
#pragma compartment Clerk
#pragma import Vault open
#pragma import Vault take
#pragma import Vault close
#pragma import Env input
void open(void);
int take(int shelf, int wanted);
void close(void);
int input(void);
int fields[3];
int opened;

void read(void) {
  int field;
  field = input();
  while (field != 0) {
    fields[field] = input();
    field = input();
  }
}

int main(void) {
  int got;
  read();
  while (fields[1] != 0) {
    if (!opened) {
      open();
      opened = 1;
    }
    got = take(fields[2], fields[1]);
    fields[1] = 0;
    read();
  }
  close();
  return 0;
}
#pragma compartment Vault
#pragma export open
#pragma export take
#pragma export close
int shelves[2] = {100, 20};
int is_open;

void open(void) {
  is_open = 1;
}

int take(int shelf, int wanted) {
  if (shelf < 0 || shelf > 1 || wanted < 0 || wanted > shelves[shelf]) {
    return 0;
  }
  shelves[shelf] = shelves[shelf] - wanted;
  return wanted;
}

void close(void) {
  is_open = 0;
}
";

const SEALED_TEXT: &[u8] = b"policy Sealed
state open
state sealed
on open in Keys to sealed
on sealed out * deny
policy end
// A device that is set up, reads a key, and signs. Once it has the key nothing is to leave it.
#pragma compartment Device
#pragma import Net set_up
#pragma import Net keep
#pragma import Keys load
#pragma import Keys sign
void set_up(void);
void keep(int v);
void load(void);
int sign(int message);

int main(void) {
  int signature;
  set_up();
  load();
  signature = sign(7);
  keep(signature);
  return 0;
}
#pragma compartment Keys
#pragma export load
#pragma export sign
#pragma import Env input
int input(void);
int key;

void load(void) {
  key = input();
}

int sign(int message) {
  return message ^ key;
}
#pragma compartment Net
#pragma export set_up
#pragma export keep
#pragma import Env input
#pragma import Env output
int input(void);
void output(int v);
int settings[4];
int debug;
int kept;

void set_up(void) {
  int field;
  field = input();
  while (field >= 0) {
    settings[field] = input();
    field = input();
  }
  output(settings[0]);
}

void keep(int v) {
  kept = v;
  if (debug) {
    output(v);
  }
}
";

const SILENCE_TEXT: &[u8] = b"policy Silence
state counting
state failed
on counting out * < 0 to failed
on failed out * deny
policy end
// A till that writes the sum after each coin. A coin below 0 is an error: -1 is written, and from then on nothing.
// The input is pairs of a place and a coin, up to a place below 0.
#pragma compartment Till
#pragma import Env input
#pragma import Env output
int input(void);
void output(int v);
int coins[3];
int failed;

int main(void) {
  int place;
  int coin;
  int sum = 0;
  place = input();
  while (place >= 0) {
    coin = input();
    coins[place] = coin;
    if (coin < 0) {
      output(-1);
      failed = 1;
    }
    if (!failed) {
      sum = (sum + coin) & 65535;
      output(sum);
    }
    place = input();
  }
  return 0;
}
";

const QUEUE_TEXT: &[u8] = b"#pragma compartment Main
#pragma import Queue put
#pragma import Queue take
#pragma import Queue clear
#pragma import Env input
#pragma import Env output
void put(int value);
int take(void);
void clear(void);
int input(void);
void output(int v);
int main(void) {
  int request;
  int value;
  request = input();
  while (request != 0) {
    if (request == 1) {
      value = input();
      put(value);
    } else if (request == 2) {
      value = take();
      output(value);
    } else {
      clear();
    }
    request = input();
  }
  return 0;
}
#pragma compartment Queue
#pragma export put
#pragma export take
#pragma export clear
struct message {
  int value;
  struct message *next;
};
struct message *first;
void put(int value) {
  struct message *m;
  m = malloc(sizeof(struct message));
  if (m != 0) {
    m->value = value;
    m->next = first;
    first = m;
  }
}
int take(void) {
  struct message *m;
  int value;
  if (first == 0) {
    return -1;
  }
  m = first;
  value = m->value;
  first = m->next;
  free(m);
  return value;
}
void clear(void) {
  struct message *m;
  struct message *next;
  m = first;
  while (m != 0) {
    next = m->next;
    free(m);
    m = next;
  }
}
";

const REENTRY_TEXT: &[u8] = b"#pragma compartment Main
#pragma import A f
#pragma import Env output
int f(int i);
void output(int v);
int main(void) {
  int r;
  r = f(2);
  output(r);
  return 0;
}
#pragma compartment A
#pragma export f
#pragma export h
#pragma import B g
int g(int v);
int x[2];
int y;
int f(int i) {
  int r;
  x[i] = 5;
  r = g(y);
  return r + y;
}
int h(int v) {
  y = y + v;
  return y;
}
#pragma compartment B
#pragma export g
#pragma import A h
int h(int v);
int g(int v) {
  int r;
  r = h(v + 1);
  return r;
}
";

const REFUSED_TEXT: &[u8] = b"#pragma compartment Main
#pragma import Net put
int put(int, int);
int main(void) {
  int *p;
  p = 7;
  return put(1, 2);
}
#pragma compartment Net
#pragma export put
int put(int i, int v) { return i + v; }
";

const SEVEN_TEXT: &[u8] = b"#pragma compartment Main
#pragma import Env output
void output(int v);
int main(void) {
  output(7);
  return 0;
}
";

const STORE_TEXT: &[u8] = b"#pragma compartment Main
#pragma import Net put
#pragma import Env output
int put(int i, int v);
void output(int v);
int main(void) {
  int r;
  r = put(4, 9);
  output(r);
  return 0;
}
#pragma compartment Net
#pragma export put
int buf[4];
int key;
int put(int i, int v) {
  buf[i] = v;
  return key;
}
";

const TRAPPED_TEXT: &[u8] = b"// No event shows the fault of Main: run it with `explain --trapped`.
#pragma compartment Main
#pragma import Env output
void output(int v);
int main(void) {
  int *p;
  output(1);
  p = 0;
  *p = 1;
  return 0;
}
";

const TWO_TEXT: &[u8] = b"#pragma compartment Main
#pragma import A f
#pragma import B g
#pragma import Env output
int f(int i);
int g(int i);
void output(int v);
int main(void) {
  int r;
  r = f(2);
  output(r);
  r = g(2);
  output(r);
  return 0;
}
#pragma compartment A
#pragma export f
int x[2];
int y;
int f(int i) {
  x[i] = 5;
  return y;
}
#pragma compartment B
#pragma export g
int x[2];
int y;
int g(int i) {
  x[i] = 5;
  return y;
}
";

const TEXT1_TEXT: &[u8] = b"// A service that answers messages.
// Main acts on them, Store has the key, Log tells what was done, and Parser reads.
// A message is pairs of a field and what it holds, up to field 0: field 1 is the kind, and field 2 a number.
// Kind 1 asks whether the number is the key. Kind 2 makes it the key, if the sender is trusted. Kind 0 ends.
#pragma compartment Main
#pragma import Parser next_kind
#pragma import Parser number
#pragma import Store is_key
#pragma import Store set_key
#pragma import Log note
int next_kind(void);
int number(void);
int is_key(int guess);
void set_key(int new_key);
void note(int kind, int answer);

int act(int kind) {
  int value;
  int answer = 0;
  value = number();
  if (kind == 1) {
    answer = is_key(value);
  } else if (kind == 2) {
    set_key(value);
  }
  return answer;
}

int main(void) {
  int kind;
  int answer;
  kind = next_kind();
  while (kind != 0) {
    answer = act(kind);
    note(kind, answer);
    kind = next_kind();
  }
  return 0;
}
#pragma compartment Store
#pragma export is_key
#pragma export set_key
int key = 7341;

int is_key(int guess) {
  return guess == key;
}

void set_key(int new_key) {
  key = new_key;
}
#pragma compartment Log
#pragma export note
#pragma import Env output
void output(int v);
int lines;

void note(int kind, int answer) {
  lines = (lines + 1) & 255;
  output(kind * 10 + answer);
}
#pragma compartment Parser
#pragma export next_kind
#pragma export number
#pragma import Env input
int input(void);
unsigned int bt_n;
int next_kind(void) {
  if (bt_n == 0u) { bt_n = 1u; input(); }
  if (bt_n == 1u) { bt_n = 2u; input(); }
  if (bt_n == 2u) { bt_n = 3u; input(); }
  if (bt_n == 3u) { bt_n = 4u; input(); }
  if (bt_n == 4u) { bt_n = 5u; input(); }
  if (bt_n == 5u) { bt_n = 6u; input(); }
  if (bt_n == 6u) { bt_n = 7u; input(); }
  if (bt_n == 7u) { bt_n = 8u; return 2; }
  if (bt_n == 9u) { bt_n = 10u; input(); }
  if (bt_n == 10u) { bt_n = 11u; return 0; }
  while (1) { }
}
int number(void) {
  if (bt_n == 8u) { bt_n = 9u; return 99; }
  while (1) { }
}
";

// Of docs/TUTORIAL.md.
pub(crate) const TUTORIAL: &[Session] = &[
    Session {
        words: "check",
        input: Input::Messages,
        want: b"compartment Main
import Parser next_kind int
import Parser number int
import Store is_key int int
import Store set_key void int
import Log note void int int
compartment Store
export is_key int int
export set_key void int
compartment Log
export note void int int
import Env output void int
compartment Parser
export next_kind int
export number int
import Env input int
main Main
",
    },
    Session {
        words: "meaning --in 1,1,2,555,0",
        input: Input::Messages,
        want: b"call Main Parser next_kind
in Parser 1
in Parser 1
in Parser 2
in Parser 555
in Parser 0
ret Parser Main 1
call Main Parser number
ret Parser Main 555
call Main Store is_key 555
ret Store Main 0
call Main Log note 1 0
out Log 10
ret Log Main
call Main Parser next_kind
in Parser 0
ret Parser Main 0
end Main 0
stop ended
",
    },
    Session {
        words: "meaning --in 3,1,1,2,2,99,0",
        input: Input::Messages,
        want: b"call Main Parser next_kind
in Parser 3
in Parser 1
stop blamed Parser OutOfBounds 15
",
    },
    Session {
        words: "explain --in 3,1,1,2,2,99,0",
        input: Input::Messages,
        want: b"call Main Parser next_kind
in Parser 3
in Parser 1
in Parser 1
in Parser 2
in Parser 2
in Parser 99
in Parser 0
ret Parser Main 2
call Main Parser number
ret Parser Main 99
call Main Store set_key 99
ret Store Main
call Main Log note 2 0
out Log 20
ret Log Main
call Main Parser next_kind
in Parser 0
ret Parser Main 0
end Main 0
stop ended
chain 1
replace Parser after 3 OutOfBounds line 15
",
    },
    Session {
        words: "explain --show 1 --in 3,1,1,2,2,99,0",
        input: Input::Messages,
        want: b"// A service that answers messages.
// Main acts on them, Store has the key, Log tells what was done, and Parser reads.
// A message is pairs of a field and what it holds, up to field 0: field 1 is the kind, and field 2 a number.
// Kind 1 asks whether the number is the key. Kind 2 makes it the key, if the sender is trusted. Kind 0 ends.
#pragma compartment Main
#pragma import Parser next_kind
#pragma import Parser number
#pragma import Store is_key
#pragma import Store set_key
#pragma import Log note
int next_kind(void);
int number(void);
int is_key(int guess);
void set_key(int new_key);
void note(int kind, int answer);

int act(int kind) {
  int value;
  int answer = 0;
  value = number();
  if (kind == 1) {
    answer = is_key(value);
  } else if (kind == 2) {
    set_key(value);
  }
  return answer;
}

int main(void) {
  int kind;
  int answer;
  kind = next_kind();
  while (kind != 0) {
    answer = act(kind);
    note(kind, answer);
    kind = next_kind();
  }
  return 0;
}
#pragma compartment Store
#pragma export is_key
#pragma export set_key
int key = 7341;

int is_key(int guess) {
  return guess == key;
}

void set_key(int new_key) {
  key = new_key;
}
#pragma compartment Log
#pragma export note
#pragma import Env output
void output(int v);
int lines;

void note(int kind, int answer) {
  lines = (lines + 1) & 255;
  output(kind * 10 + answer);
}
#pragma compartment Parser
#pragma export next_kind
#pragma export number
#pragma import Env input
int input(void);
unsigned int bt_n;
int next_kind(void) {
  if (bt_n == 0u) { bt_n = 1u; input(); }
  if (bt_n == 1u) { bt_n = 2u; input(); }
  if (bt_n == 2u) { bt_n = 3u; input(); }
  if (bt_n == 3u) { bt_n = 4u; input(); }
  if (bt_n == 4u) { bt_n = 5u; input(); }
  if (bt_n == 5u) { bt_n = 6u; input(); }
  if (bt_n == 6u) { bt_n = 7u; input(); }
  if (bt_n == 7u) { bt_n = 8u; return 2; }
  if (bt_n == 9u) { bt_n = 10u; input(); }
  if (bt_n == 10u) { bt_n = 11u; return 0; }
  while (1) { }
}
int number(void) {
  if (bt_n == 8u) { bt_n = 9u; return 99; }
  while (1) { }
}
",
    },
    Session {
        words: "explain --trapped --in=-524288,5,0",
        input: Input::Messages,
        want: b"call Main Parser next_kind
in Parser -524288
in Parser 5
stop trap owner 0x0130006c
chain 0
trapped Parser OutOfBounds line 15
",
    },
    Session {
        words: "explain --in 1,7,3,1,8,2,0",
        input: Input::Queue,
        want: b"in Main 1
in Main 7
call Main Queue put 7
ret Queue Main
in Main 3
call Main Queue clear
ret Queue Main
in Main 1
in Main 8
call Main Queue put 8
ret Queue Main
in Main 2
call Main Queue take
ret Queue Main 8
out Main 8
in Main 0
end Main 0
stop ended
chain 1
replace Queue after 10 Dangling line 15
",
    },
];

// Of examples/README.md.
pub(crate) const EXAMPLES: &[Session] = &[
    Session {
        words: "explain",
        input: Input::Seven,
        want: b"out Main 7
end Main 0
stop ended
chain 0
",
    },
    Session {
        words: "explain",
        input: Input::Store,
        want: b"call Main Net put 4 9
ret Net Main 9
out Main 9
end Main 0
stop ended
chain 1
replace Net after 1 OutOfBounds line 6
",
    },
    Session {
        words: "explain",
        input: Input::Two,
        want: b"call Main A f 2
ret A Main 5
out Main 5
call Main B g 2
ret B Main 5
out Main 5
end Main 0
stop ended
chain 2
replace A after 1 OutOfBounds line 6
replace B after 4 OutOfBounds line 6
",
    },
    Session {
        words: "explain",
        input: Input::Reentry,
        want: b"call Main A f 2
call A B g 5
call B A h 6
ret A B 11
ret B A 11
ret A Main 22
out Main 22
end Main 0
stop ended
chain 1
replace A after 1 OutOfBounds line 10
",
    },
    Session {
        words: "meaning",
        input: Input::Full,
        want: b"call Main Sum up_to 10
ret Sum Main 55
out Main 55
call Main Sum up_to 1000
ret Sum Main 500500
out Main 500500
end Main 0
stop ended
",
    },
    Session {
        words: "explain --trapped",
        input: Input::Full,
        want: b"call Main Sum up_to 10
ret Sum Main 55
out Main 55
call Main Sum up_to 1000
stop trap owner 0x01100008
chain 0
trapped Sum stack
",
    },
    Session {
        words: "explain --trapped",
        input: Input::Trapped,
        want: b"out Main 1
stop trap owner 0x01000028
chain 0
trapped Main NullUse line 8
",
    },
    Session {
        words: "explain --events 5",
        input: Input::Endless,
        want: b"out Main 0
out Main 1
out Main 2
out Main 0
out Main 1
stop events
chain 0
",
    },
    Session {
        words: "meaning --turns 2",
        input: Input::Endless,
        want: b"out Main 0
out Main 1
stop turns
",
    },
    Session {
        words: "meaning --in 1,7,3,3,0",
        input: Input::Queue,
        want: b"in Main 1
in Main 7
call Main Queue put 7
ret Queue Main
in Main 3
call Main Queue clear
ret Queue Main
in Main 3
call Main Queue clear
stop blamed Queue Dangling 34
",
    },
    Session {
        words: "explain --in 1,7,3,3,0",
        input: Input::Queue,
        want: b"in Main 1
in Main 7
call Main Queue put 7
ret Queue Main
in Main 3
call Main Queue clear
ret Queue Main
in Main 3
call Main Queue clear
stop trap badfree 0x0110016c
chain 0
",
    },
    Session {
        words: "explain --in 1,2,3,4,1",
        input: Input::Inbox,
        want: b"call Main Inbox receive 4
in Inbox 1
in Inbox 2
in Inbox 3
in Inbox 4
in Inbox 1
ret Inbox Main 1
out Main 1
end Main 0
stop ended
chain 1
replace Inbox after 6 OutOfBounds line 16
",
    },
    Session {
        words: "explain",
        input: Input::Leak,
        want: b"call Main Store keep 0
ret Store Main 1
call Main Store keep 1
ret Store Main 1
call Main Store keep 2
ret Store Main 1
call Main Store keep 3
ret Store Main 1
call Main Store keep 4
ret Store Main 0
out Main 4
end Main 0
stop ended
chain 0
",
    },
    Session {
        words: "check",
        input: Input::Refused,
        want: b"secomp: refused types line 6
",
    },
];

// Of docs/EXPLAIN.md.
pub(crate) const EXPLAIN: &[Session] = &[
    Session {
        words: "explain",
        input: Input::Store,
        want: b"call Main Net put 4 9
ret Net Main 9
out Main 9
end Main 0
stop ended
chain 1
replace Net after 1 OutOfBounds line 6
",
    },
    Session {
        words: "explain --trapped",
        input: Input::Trapped,
        want: b"out Main 1
stop trap owner 0x01000028
chain 0
trapped Main NullUse line 8
",
    },
];

// Of examples/policies/README.md.
pub(crate) const POLICIES: &[Session] = &[
    Session {
        words: "judge --in 1,10,2,1,0,0",
        input: Input::Order,
        want: b"in Clerk 1
in Clerk 10
in Clerk 2
in Clerk 1
in Clerk 0
call Clerk Vault open
ret Vault Clerk
call Clerk Vault take 1 10
ret Vault Clerk 10
in Clerk 0
call Clerk Vault close
ret Vault Clerk
end Clerk 0
stop ended
chain 0
verdict holds shut
",
    },
    Session {
        words: "judge --in 3,1,1,10,0,0",
        input: Input::Order,
        want: b"in Clerk 3
in Clerk 1
in Clerk 1
in Clerk 10
in Clerk 0
call Clerk Vault take 0 10
ret Vault Clerk 10
in Clerk 0
call Clerk Vault close
ret Vault Clerk
end Clerk 0
stop ended
chain 1
replace Clerk after 2 OutOfBounds line 17
verdict violated after 5 by Clerk rule 3 compromised
",
    },
    Session {
        words: "judge",
        input: Input::Bounds,
        want: b"call Main Net put 4 9
ret Net Main 9
out Main 9
end Main 0
stop ended
chain 1
replace Net after 1 OutOfBounds line 6
verdict violated after 0 by Main rule 2 clean
",
    },
    Session {
        words: "judge --in=0,5,1,-2,2,4,-1",
        input: Input::Silence,
        want: b"in Till 0
in Till 5
out Till 5
in Till 1
in Till -2
out Till -1
in Till 2
in Till 4
in Till -1
end Till 0
stop ended
chain 0
verdict holds failed
",
    },
    Session {
        words: "judge --in=0,5,1,-2,3,0,2,4,-1",
        input: Input::Silence,
        want: b"in Till 0
in Till 5
out Till 5
in Till 1
in Till -2
out Till -1
in Till 3
in Till 0
out Till 5
in Till 2
in Till 4
out Till 9
in Till -1
end Till 0
stop ended
chain 1
replace Till after 8 OutOfBounds line 16
verdict violated after 8 by Till rule 2 compromised
",
    },
    Session {
        words: "judge --in 1,1,2,1,0,1,1,2,2,0,1,1,2,3,0,1,1,2,7341,0,0",
        input: Input::Budget,
        want: b"call Main Parser next_kind
in Parser 1
in Parser 1
in Parser 2
in Parser 1
in Parser 0
ret Parser Main 1
call Main Parser number
ret Parser Main 1
call Main Store is_key 1
ret Store Main 0
call Main Log note 1 0
out Log 10
ret Log Main
call Main Parser next_kind
in Parser 1
in Parser 1
in Parser 2
in Parser 2
in Parser 0
ret Parser Main 1
call Main Parser number
ret Parser Main 2
call Main Store is_key 2
ret Store Main 0
call Main Log note 1 0
out Log 10
ret Log Main
call Main Parser next_kind
in Parser 1
in Parser 1
in Parser 2
in Parser 3
in Parser 0
ret Parser Main 1
call Main Parser number
ret Parser Main 3
call Main Store is_key 3
ret Store Main 0
call Main Log note 1 0
out Log 10
ret Log Main
call Main Parser next_kind
in Parser 1
in Parser 1
in Parser 2
in Parser 7341
in Parser 0
ret Parser Main 1
call Main Parser number
ret Parser Main 7341
call Main Store is_key 7341
ret Store Main 1
call Main Log note 1 1
out Log 11
ret Log Main
call Main Parser next_kind
in Parser 0
ret Parser Main 0
end Main 0
stop ended
chain 0
verdict violated after 51 by Main rule 4 clean
",
    },
    Session {
        words: "judge --in=0,3,-1,1234",
        input: Input::Sealed,
        want: b"call Device Net set_up
in Net 0
in Net 3
in Net -1
out Net 3
ret Net Device
call Device Keys load
in Keys 1234
ret Keys Device
call Device Keys sign 7
ret Keys Device 1237
call Device Net keep 1237
ret Net Device
end Device 0
stop ended
chain 0
verdict holds sealed
",
    },
    Session {
        words: "judge --in=0,3,4,1,-1,1234",
        input: Input::Sealed,
        want: b"call Device Net set_up
in Net 0
in Net 3
in Net 4
in Net 1
in Net -1
out Net 3
ret Net Device
call Device Keys load
in Keys 1234
ret Keys Device
call Device Keys sign 7
ret Keys Device 1237
call Device Net keep 1237
out Net 1237
ret Net Device
end Device 0
stop ended
chain 1
replace Net after 5 OutOfBounds line 16
verdict violated after 14 by Net rule 2 compromised
",
    },
];
