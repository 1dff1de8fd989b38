// Programs that are made from seeds, and what they are summed up as.
use memory_runs::Run;
use std::test::Fail;

const ONE_FUNCTION: &[u8] = b"#pragma compartment Main
#pragma import W0 f0
#pragma import Env output
int f0(int x);
void output(int v);
int main(void) {
  int r;
  r = f0(15470);
  output(r);
  return 0;
}
#pragma compartment W0
#pragma export f0
int t[16];
int f0(int x) {
  int i;
  int s;
  s = 18256;
  for (i = 0; i < 64; i++) {
    t[i & 15] = x + i;
    s = s + t[i & 15];
  }
  return s;
}
";

const TWO_INTERFACES: &[u8] = b"compartment Main
import W0 f0 int int
import W1 f1 int int
import Env output void int
compartment W0
export f0 int int
compartment W1
export f1 int int
main Main
";

#[test]
fn a_program_is_made(rt: HostRuntime) -> Result<(), Fail> {
    let ran = Run::new("make --size 1 --seed 0", b"").run(rt.alloc())?;
    assert!(rt; ran.wrote(0, ONE_FUNCTION, b""));
    Ok(())
}

#[test]
fn a_made_program_has_a_compartment_for_each_worker(rt: HostRuntime) -> Result<(), Fail> {
    let made = Run::new("make --size 2 --seed 1", b"").run(rt.alloc())?;
    assert_eq!(rt; made.status, 0);
    let checked = Run::new("check", &made.out).run(rt.alloc())?;
    assert_eq!(rt; checked.status, 0);
    assert!(rt; checked.out.as_slice() == TWO_INTERFACES);
    Ok(())
}

#[test]
fn a_program_is_summed_up(rt: HostRuntime) -> Result<(), Fail> {
    let cases: [(&str, &[u8]); 2] = [
        (
            "make --size 2 --seed=1 --summary",
            b"functions 2\ncompartments 3\nevents 7\nsum 3181115\nstop ended\nchain 0\n",
        ),
        (
            "make --size 1 --seed 0 --summary",
            b"functions 1\ncompartments 2\nevents 4\nsum 1010352\nstop ended\nchain 0\n",
        ),
    ];
    for (words, want) in cases {
        let ran = Run::new(words, b"").run(rt.alloc())?;
        assert!(rt; ran.wrote(0, want, b""));
    }
    Ok(())
}

#[test]
fn a_summary_is_the_same_again(rt: HostRuntime) -> Result<(), Fail> {
    let words = "make --size 200 --seed 7 --summary";
    let ran = Run::new(words, b"").run(rt.alloc())?;
    let again = Run::new(words, b"").run(rt.alloc())?;
    assert!(rt; ran.wrote(0, again.out.as_slice(), b""));
    Ok(())
}

#[test]
fn nothing_is_read(rt: HostRuntime) -> Result<(), Fail> {
    let cases: [&str; 2] = ["make --size 3 --seed 5", "make --size 3 --seed 5 --summary"];
    for words in cases {
        let ran = Run::new(words, b"left").run(rt.alloc())?;
        assert_eq!(rt; ran.status, 0);
        assert_eq!(rt; ran.unread, 4);
    }
    Ok(())
}
