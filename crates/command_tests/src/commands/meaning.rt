// The command `meaning`.
use chain_texts::programs::SEVEN;
use memory_runs::Run;
use std::alloc::{AllocError, Global};
use std::test::Fail;

const HEAD: &[u8] = b"#pragma compartment Main
#pragma import Env output
void output(int v);
int main(void) {
";

const SEVEN_REPORT: &[u8] = b"out Main 7\nend Main 0\nstop ended\n";

// The program with these statements.
fn text(alloc: Global, statements: &[&[u8]]) -> Result<Vec<u8>, AllocError> {
    let mut text = HEAD.to_vec(alloc)?;
    for statement in statements {
        text.extend_from_slice(statement)?;
    }
    Ok(text)
}

// The same bytes, `times` times.
pub fn repeated(alloc: Global, times: usize, part: &[u8]) -> Result<Vec<u8>, AllocError> {
    let mut all = Vec::new(alloc);
    for _ in 0..times {
        all.extend_from_slice(part)?;
    }
    Ok(all)
}

#[test]
fn a_program_is_reported_by_its_events(rt: HostRuntime) -> Result<(), Fail> {
    let ran = Run::new("meaning", SEVEN).run(rt.alloc())?;
    assert!(rt; ran.wrote(0, SEVEN_REPORT, b""));
    Ok(())
}

#[test]
fn numbers_are_printed_up_to_the_greatest(rt: HostRuntime) -> Result<(), Fail> {
    let statements: [&[u8]; 2] = [
        b"  output(0);\n  output(2147483647);\n",
        b"  return 10;\n}\n",
    ];
    let text = text(rt.alloc(), &statements)?;
    let ran = Run::new("meaning", &text).run(rt.alloc())?;
    assert!(rt;
        ran.wrote(
            0,
            b"out Main 0\nout Main 2147483647\nend Main 10\nstop ended\n",
            b""
        )
    );
    Ok(())
}

#[test]
fn a_run_stops_after_1024_events(rt: HostRuntime) -> Result<(), Fail> {
    let ends: [(usize, &[u8]); 2] = [
        (1024, b"stop events\n"),
        (1023, b"end Main 0\nstop ended\n"),
    ];
    for (outputs, end) in ends {
        let lines = repeated(rt.alloc(), outputs, b"  output(1);\n")?;
        let text = text(rt.alloc(), &[&lines, b"  return 0;\n}\n"])?;
        let mut want = repeated(rt.alloc(), outputs, b"out Main 1\n")?;
        want.extend_from_slice(end)?;
        let ran = Run::new("meaning", &text).run(rt.alloc())?;
        assert!(rt; ran.wrote(0, want.as_slice(), b""));
    }
    Ok(())
}

#[test]
fn a_failing_source_or_sink_is_reported(rt: HostRuntime) -> Result<(), Fail> {
    let lines = repeated(rt.alloc(), 1000, b"  output(1);\n")?;
    let long = text(rt.alloc(), &[&lines, b"  return 0;\n}\n"])?;
    // The reads and the writes that fail, the room, and what is read; then the status, and what is written.
    let cases: [(&[u32], &[u32], u32, &[u8], u8, &[u8]); 5] = [
        (&[0], &[], 999, SEVEN, 7, b""),
        (&[1], &[], 999, SEVEN, 7, b""),
        (&[2], &[], 999, &long, 7, b""),
        (&[], &[0], 999, SEVEN, 8, b""),
        (&[], &[], 9, SEVEN, 8, b"out Main "),
    ];
    for (failing_reads, failing_writes, room, input, status, out) in cases {
        let run = Run {
            failing_reads,
            failing_writes,
            room,
            ..Run::new("meaning", input)
        };
        let ran = run.run(rt.alloc())?;
        assert_eq!(rt; ran.status, status);
        assert!(rt; ran.out.as_slice() == out);
    }
    Ok(())
}
