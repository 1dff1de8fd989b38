// The commands `compile` and `run` on whole programs.
use chain_texts::programs::{BIG_DATA, BIG_FRAME, INPUTS, MIN_BY_MINUS_ONE, STORE, TWO_STORES};
use code_texts::{PROGRAMS, append, repeated};
use memory_runs::{Ran, Run};
use std::alloc::Global;
use std::test::Fail;

const STORE_REPORT: &[u8] = b"call Main Net put 4 9
ret Net Main 9
out Main 9
end Main 0
stop ended
";

const TWO_STORES_REPORT: &[u8] = b"call Main A f 2
ret A Main 5
out Main 5
call Main B g 2
ret B Main 5
out Main 5
end Main 0
stop ended
";

const ENDLESS_RECURSION: &[u8] = b"#pragma compartment Main
int f(int n) {
  int r;
  r = f(n);
  return r;
}
int main(void) {
  return f(1);
}
";

const RUNS: &[(&str, &[u8], &[u8])] = &[
    ("run", STORE, STORE_REPORT),
    ("run", TWO_STORES, TWO_STORES_REPORT),
    (
        "run",
        MIN_BY_MINUS_ONE,
        b"out Main -2147483648\nend Main 0\nstop ended\n",
    ),
    (
        "run --in=-5,3",
        INPUTS,
        b"in Main -5\nin Main 3\nin Main 0\nout Main -2\nend Main 0\nstop ended\n",
    ),
];

#[test]
fn undefined_accesses_and_arithmetic_go_on_in_the_machine(rt: HostRuntime) -> Result<(), Fail> {
    for (words, text, want) in RUNS {
        let ran = Run::new(words, text).run(rt.alloc())?;
        assert!(rt; ran.wrote(0, *want, b""));
    }
    Ok(())
}

#[test]
fn a_full_stack_traps(rt: HostRuntime) -> Result<(), Fail> {
    let ran = Run::new("run --steps 16777216", ENDLESS_RECURSION).run(rt.alloc())?;
    assert_eq!(rt; ran.status, 0);
    assert!(rt; ran.out.starts_with(b"stop trap owner 0x010000"));
    Ok(())
}

#[test]
fn a_written_image_runs_as_its_text_does(rt: HostRuntime) -> Result<(), Fail> {
    let image = Run::new("compile", STORE).run(rt.alloc())?;
    assert_eq!(rt; image.status, 0);
    let ran = Run::new("exec", image.out.as_slice()).run(rt.alloc())?;
    assert!(rt; ran.wrote(0, STORE_REPORT, b""));
    Ok(())
}

// 1,400 statements in a function and in `main`, which may take 1,075,584 bytes of code.
fn big_code(alloc: Global) -> Result<Vec<u8>, Fail> {
    let before = b"#pragma compartment Main\nint g;\nvoid f(void) {\n";
    let mut text = repeated(alloc, before, b"  g=-g;\n", 1400, b"}\n")?;
    let main = repeated(
        alloc,
        b"int main(void) {\n",
        b"  g=-g;\n",
        1400,
        b"  return 0;\n}\n",
    )?;
    append(&mut text, &[main.as_slice()])?;
    Ok(text)
}

#[test]
fn what_is_too_large_is_reported_with_its_bytes(rt: HostRuntime) -> Result<(), Fail> {
    let code = big_code(rt.alloc())?;
    let cases: [(&[u8], &[u8]); 3] = [
        (BIG_DATA, b"secomp: too large data of Main 458756\n"),
        (BIG_FRAME, b"secomp: too large frame of Main main 36080\n"),
        (code.as_slice(), b"secomp: too large code of Main 1075584\n"),
    ];
    for (text, want) in cases {
        let ran = Run::new("compile", text).run(rt.alloc())?;
        assert!(rt; ran.wrote(4, b"", want));
    }
    Ok(())
}

// Whether the meaning came to its end, or to as many events as it may emit.
fn is_defined(meant: &Ran) -> bool {
    meant.out.ends_with(b"stop ended\n") || meant.out.ends_with(b"stop events\n")
}

// Whether the machine ran out of stack.
fn is_full(emitted: &Ran) -> bool {
    let mut lines = emitted.out.rsplit(|byte| *byte == b'\n');
    let _ = lines.next();
    match lines.next() {
        Some(line) => line.starts_with(b"stop trap owner"),
        None => false,
    }
}

#[test]
fn a_defined_program_runs_as_it_means(rt: HostRuntime) -> Result<(), Fail> {
    let mut same: usize = 0;
    for text in PROGRAMS {
        let words = "meaning --turns=20000 --in=1,-2,3";
        let meant = Run::new(words, text).run(rt.alloc())?;
        if is_defined(&meant) {
            let words = "run --steps=2000000 --in=1,-2,3";
            let emitted = Run::new(words, text).run(rt.alloc())?;
            if !is_full(&emitted) {
                assert!(rt; emitted.out.as_slice() == meant.out.as_slice());
                same = same.wrapping_add(1);
            }
        }
    }
    assert!(rt; same > 15);
    Ok(())
}
