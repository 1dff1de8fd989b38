// The command `explain` on programs with faults.
use chain_texts::programs::{ACCOUNTS, EXTREME_ARGUMENTS, REENTRY_BLAMED, STORE};
use code_texts::DIVISION_BY_ZERO;
use memory_runs::Run;
use std::alloc::Global;
use std::test::Fail;

// A run, and what it must write.
#[derive(Clone, Copy)]
struct Case<'a> {
    words: &'a str,
    program: &'a [u8],
    want: &'a [u8],
}

fn reported(alloc: Global, case: Case) -> Result<bool, Fail> {
    let ran = Run::new(case.words, case.program).run(alloc)?;
    Ok(ran.status == 0 && ran.out.as_slice() == case.want && ran.err.len() == 0 && ran.unread == 0)
}

#[test]
fn a_blamed_compartment_is_replaced(rt: HostRuntime) -> Result<(), Fail> {
    let cases: [Case; 5] = [
        Case {
            words: "explain",
            program: DIVISION_BY_ZERO,
            want: b"out Main -1
end Main 0
stop ended
chain 1
replace Main after 0 ZeroDivisor line 5
",
        },
        Case {
            words: "explain",
            program: STORE,
            want: b"call Main Net put 4 9
ret Net Main 9
out Main 9
end Main 0
stop ended
chain 1
replace Net after 1 OutOfBounds line 6
",
        },
        Case {
            words: "explain",
            program: REENTRY_BLAMED,
            want: b"call Main A f 2
call A B g 5
call B A h 6
ret A B 11
ret B A 11
ret A Main 22
out Main 22
end Main 0
stop ended
chain 1
replace A after 1 OutOfBounds line 10
",
        },
        Case {
            words: "explain",
            program: EXTREME_ARGUMENTS,
            want: b"call Main A f -2147483648 -1
call A B g -2147483648 -1
ret B A -2147483648
ret A Main -2147483648
out Main -2147483648
end Main 0
stop ended
chain 1
replace A after 1 OutOfBounds line 9
",
        },
        Case {
            words: "explain --in 3,1,2,500,3,2,2,200,5,1,3,40,7,99,3,2,5,10,0",
            program: ACCOUNTS,
            want: b"in Reader 3
in Reader 1
in Reader 2
in Reader 500
call Reader Accounts apply 1 2 500
ret Accounts Reader 500
call Reader Log note 1 500
out Log 500
ret Log Reader
in Reader 3
in Reader 2
in Reader 2
in Reader 200
call Reader Accounts apply 2 2 200
ret Accounts Reader 300
call Reader Log note 2 300
out Log 300
ret Log Reader
in Reader 5
in Reader 1
in Reader 3
in Reader 40
in Reader 7
in Reader 99
call Reader Accounts apply 1 3 40
ret Accounts Reader 40
call Reader Log note 1 40
out Log 40
ret Log Reader
in Reader 3
in Reader 2
in Reader 5
in Reader 10
call Reader Accounts apply 2 5 10
ret Accounts Reader -2
call Reader Log note 2 -2
out Log -2
ret Log Reader
in Reader 0
call Reader Log note 0 101
out Log 1101
ret Log Reader
end Reader 0
stop ended
chain 1
replace Reader after 24 OutOfBounds line 16
",
        },
    ];
    for case in cases {
        assert!(rt; reported(rt.alloc(), case)?);
    }
    Ok(())
}

#[test]
fn the_first_text_is_the_program(rt: HostRuntime) -> Result<(), Fail> {
    let cases: [Case; 4] = [
        Case {
            words: "explain --show 0",
            program: STORE,
            want: STORE,
        },
        Case {
            words: "explain --show 0",
            program: REENTRY_BLAMED,
            want: REENTRY_BLAMED,
        },
        Case {
            words: "explain --show 0",
            program: EXTREME_ARGUMENTS,
            want: EXTREME_ARGUMENTS,
        },
        Case {
            words: "explain --show 0 --in 3,1,2,500,3,2,2,200,5,1,3,40,7,99,3,2,5,10,0",
            program: ACCOUNTS,
            want: ACCOUNTS,
        },
    ];
    for case in cases {
        assert!(rt; reported(rt.alloc(), case)?);
    }
    Ok(())
}

#[test]
fn a_later_text_performs(rt: HostRuntime) -> Result<(), Fail> {
    let cases: [Case; 3] = [
        Case {
            words: "explain --show 1",
            program: STORE,
            want: b"#pragma compartment Main
#pragma import Net put
#pragma import Env output
int put(int i, int v);
void output(int v);
int main(void) {
  int r;
  r = put(4, 9);
  output(r);
  return 0;
}
#pragma compartment Net
#pragma export put
unsigned int bt_n;
int put(int bt_0, int bt_1) {
  if (bt_n == 0u) { bt_n = 1u; return 9; }
  while (1) { }
}
",
        },
        Case {
            words: "explain --show 1",
            program: REENTRY_BLAMED,
            want: b"#pragma compartment Main
#pragma import A f
#pragma import Env output
int f(int i);
void output(int v);
int main(void) {
  int r;
  r = f(2);
  output(r);
  return 0;
}
#pragma compartment A
#pragma export f
#pragma export h
#pragma import B g
int g(int bt_0);
unsigned int bt_n;
int f(int bt_0) {
  if (bt_n == 0u) { bt_n = 1u; g(5); }
  if (bt_n == 2u) { bt_n = 3u; return 22; }
  while (1) { }
}
int h(int bt_0) {
  if (bt_n == 1u) { bt_n = 2u; return 11; }
  while (1) { }
}
#pragma compartment B
#pragma export g
#pragma import A h
int h(int v);
int g(int v) {
  int r;
  r = h(v + 1);
  return r;
}
",
        },
        Case {
            words: "explain --show 1",
            program: EXTREME_ARGUMENTS,
            want: b"#pragma compartment Main
#pragma import A f
#pragma import Env output
int f(int a, unsigned int b);
void output(int v);
int main(void) {
  int r;
  r = f(-2147483647 - 1, 4294967295u);
  output(r);
  return 0;
}
#pragma compartment A
#pragma export f
#pragma import B g
int g(int bt_0, unsigned int bt_1);
unsigned int bt_n;
int f(int bt_0, unsigned int bt_1) {
  if (bt_n == 0u) { bt_n = 1u; g(-2147483647 - 1, 4294967295u); }
  if (bt_n == 1u) { bt_n = 2u; return -2147483647 - 1; }
  while (1) { }
}
#pragma compartment B
#pragma export g
int g(int a, unsigned int b) {
  return a;
}
",
        },
    ];
    for case in cases {
        assert!(rt; reported(rt.alloc(), case)?);
    }
    Ok(())
}
