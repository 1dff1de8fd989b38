// The command `check`, and the phases that a text fails.
use chain_texts::programs::STORE;
use memory_runs::Run;
use std::test::Fail;

const STORE_INTERFACES: &[u8] = b"compartment Main
import Net put int int int
import Env output void int
compartment Net
export put int int int
main Main
";

const POINTER_EXPORT: &[u8] = b"#pragma compartment A
#pragma export f
int f(int *p) {
  return 0;
}
#pragma compartment Main
int main(void) { return 0; }
";

const TWO_MAINS: &[u8] = b"#pragma compartment Main
int main(void) { return 0; }
#pragma compartment Main
";

#[test]
fn the_interfaces_of_a_text_are_printed(rt: HostRuntime) -> Result<(), Fail> {
    let cases: [(&[u8], &[u8]); 2] = [
        (STORE, STORE_INTERFACES),
        (
            b"#pragma compartment A
#pragma export f
void f(unsigned a) {}
#pragma compartment B
int main(void) {}
",
            b"compartment A\nexport f void unsigned\ncompartment B\nmain B\n",
        ),
    ];
    for (text, want) in cases {
        let ran = Run::new("check", text).run(rt.alloc())?;
        assert!(rt; ran.wrote(0, want, b""));
    }
    Ok(())
}

#[test]
fn a_text_is_refused_by_each_phase(rt: HostRuntime) -> Result<(), Fail> {
    let cases: [(&[u8], &[u8]); 8] = [
        (b"", b"secomp: refused interface line 0\n"),
        (POINTER_EXPORT, b"secomp: refused interface line 3\n"),
        (TWO_MAINS, b"secomp: refused interface line 3\n"),
        (
            b"#pragma compartment A\n  @\n",
            b"secomp: refused lex line 2\n",
        ),
        (
            b"#pragma compartment A\nint f(void) {\n",
            b"secomp: refused syntax line 2\n",
        ),
        (
            b"#pragma compartment A
int main(void) {
  return x;
}
",
            b"secomp: refused names line 3\n",
        ),
        (
            b"#pragma compartment A
int main(void) {
  int *p;
  return p;
}
",
            b"secomp: refused types line 4\n",
        ),
        (
            b"#pragma compartment A
int x[1048577];
int main(void) { return 0; }
",
            b"secomp: refused count line 2\n",
        ),
    ];
    for (text, err) in cases {
        for word in ["check", "meaning", "run", "explain"] {
            let ran = Run::new(word, text).run(rt.alloc())?;
            assert!(rt; ran.wrote(3, b"", err));
        }
    }
    Ok(())
}

#[test]
fn a_text_is_too_long_above_its_limit(rt: HostRuntime) -> Result<(), Fail> {
    let text = vec![in rt.alloc(); b' '; 1_048_577]?;
    let ran = Run::new("run", &text).run(rt.alloc())?;
    assert!(rt; ran.wrote(5, b"", b"secomp: too long 1048576\n"));
    let ran = Run::new("run", &text[1..]).run(rt.alloc())?;
    assert!(rt; ran.err.as_slice() == b"secomp: refused interface line 0\n".as_slice());
    Ok(())
}
