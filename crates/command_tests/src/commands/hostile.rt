// Inputs that were made to break the program, at the limits of what it takes, and ends that fail at every call.
use super::exec::SEVEN as SEVEN_IMAGE;
use super::meaning::repeated;
use chain_texts::programs::{SEVEN, STORE};
use memory_runs::{Ran, Run};
use sc_base::OutOfMemory;
use std::alloc::{AllocError, Global};
use std::test::Fail;

// More calls than any of these runs makes.
const CALLS: u32 = 4096;

// The runs whose ends fail at every call: the words and the input.
const RUNS: [(&str, &[u8]); 10] = [
    ("explain", STORE),
    ("explain --show 1", STORE),
    ("check", STORE),
    ("meaning", STORE),
    ("compile", STORE),
    ("run", STORE),
    ("object --section Net", STORE),
    ("exec", &SEVEN_IMAGE),
    ("tags", &SEVEN_IMAGE),
    ("judge", JUDGED),
];

// A policy of no rule, and a text.
const JUDGED: &[u8] = b"policy Small
state s
policy end
#pragma compartment Main
int main(void) {
  return 7;
}
";

// The object of the only section of `SEVEN`, as an input of `link`.
fn object(alloc: Global) -> Result<Ran, OutOfMemory> {
    Run::new("object --section Main", SEVEN).run(alloc)
}

// The text of `return E;`, where E is the middle between these many openings and closings.
fn nested(alloc: Global, open: &[u8], close: &[u8], height: usize) -> Result<Vec<u8>, AllocError> {
    let opened = repeated(alloc, height, open)?;
    let closed = repeated(alloc, height, close)?;
    let mut whole = Vec::new(alloc);
    whole.extend_from_slice(b"#pragma compartment Main\nint main(void) {\n  return ")?;
    whole.extend_from_slice(&opened)?;
    whole.extend_from_slice(b"1")?;
    whole.extend_from_slice(&closed)?;
    whole.extend_from_slice(b";\n}\n")?;
    Ok(whole)
}

#[test]
fn a_tree_or_brackets_beyond_their_limit_are_refused(rt: HostRuntime) -> Result<(), Fail> {
    let cases: [(&[u8], &[u8], usize); 2] = [(b"~", b"", 254), (b"(", b")", 1023)];
    for (open, close, most) in cases {
        let within = nested(rt.alloc(), open, close, most)?;
        let ran = Run::new("meaning", &within).run(rt.alloc())?;
        assert!(rt; ran.wrote(0, b"end Main 1\nstop ended\n", b""));
        let beyond = nested(rt.alloc(), open, close, most + 1)?;
        let ran = Run::new("meaning", &beyond).run(rt.alloc())?;
        assert!(rt; ran.wrote(3, b"", b"secomp: refused syntax line 3\n"));
    }
    Ok(())
}

#[test]
fn spaces_fill_a_text_up_to_its_limit(rt: HostRuntime) -> Result<(), Fail> {
    let mut full = SEVEN.to_vec(rt.alloc())?;
    let spaces = repeated(rt.alloc(), 1_048_576 - SEVEN.len(), b" ")?;
    full.extend_from_slice(&spaces)?;
    let ran = Run::new("run", &full).run(rt.alloc())?;
    assert!(rt; ran.wrote(0, b"out Main 7\nend Main 0\nstop ended\n", b""));
    full.push(b' ')?;
    let ran = Run::new("run", &full).run(rt.alloc())?;
    assert!(rt; ran.wrote(5, b"", b"secomp: too long 1048576\n"));
    Ok(())
}

// A text of these many sections, of which the first has `main` and the others nothing.
fn sections(alloc: Global, count: usize) -> Result<Vec<u8>, Fail> {
    let mut whole = b"#pragma compartment C\nint main(void) {\n  return 0;\n}\n".to_vec(alloc)?;
    for number in 1..count {
        let line = format!(in alloc; "#pragma compartment C{number}\n")?;
        whole.extend_from_slice(line.as_bytes())?;
    }
    Ok(whole)
}

#[test]
fn a_section_beyond_their_limit_is_refused(rt: HostRuntime) -> Result<(), Fail> {
    let within = sections(rt.alloc(), 32)?;
    let mut table = b"compartment C\n".to_vec(rt.alloc())?;
    for number in 1..32 {
        let line = format!(in rt.alloc(); "compartment C{number}\n")?;
        table.extend_from_slice(line.as_bytes())?;
    }
    table.extend_from_slice(b"main C\n")?;
    let ran = Run::new("check", &within).run(rt.alloc())?;
    assert!(rt; ran.wrote(0, &table, b""));
    let beyond = sections(rt.alloc(), 33)?;
    let ran = Run::new("check", &beyond).run(rt.alloc())?;
    assert!(rt; ran.status == 3 && ran.out.is_empty());
    assert!(rt; ran.err.starts_with(b"secomp: refused count line "));
    Ok(())
}

const NINE_PARAMETERS: &[u8] = b"#pragma compartment Main
int f(int a, int b, int c, int d, int e, int f, int g, int h, int i) {
  return 0;
}
int main(void) {
  return 0;
}
";

#[test]
fn a_parameter_beyond_their_limit_is_refused(rt: HostRuntime) -> Result<(), Fail> {
    let ran = Run::new("check", NINE_PARAMETERS).run(rt.alloc())?;
    assert!(rt; ran.wrote(3, b"", b"secomp: refused count line 2\n"));
    Ok(())
}

#[test]
fn a_length_takes_no_memory_before_its_bytes_are_there(rt: HostRuntime) -> Result<(), Fail> {
    let mut cut = SEVEN_IMAGE[..15].to_vec(rt.alloc())?;
    cut.extend_from_slice(b"\x00\x10")?;
    let ran = Run::new("exec", &cut).run(rt.alloc())?;
    assert!(rt; ran.wrote(6, b"", b"secomp: bad image 6\n"));
    Ok(())
}

// What `exec` answers to `SEVEN_IMAGE` with 0xff at a place: the number of the cause, or 0 where it runs.
fn cause_at(place: usize) -> u8 {
    match place {
        0..=3 => 1,
        4 | 5 => 2,
        6 => 3,
        7 => 4,
        8..=11 => 9,
        12..=14 => 5,
        15 | 16 => 6,
        17 | 18 => 7,
        19..=22 | 43..=46 => 8,
        _ => 0,
    }
}

#[test]
fn a_byte_set_is_run_or_bad(rt: HostRuntime) -> Result<(), Fail> {
    for place in 0..SEVEN_IMAGE.len() {
        let mut changed = SEVEN_IMAGE;
        changed[place] = 0xff;
        let ran = Run::new("exec", &changed).run(rt.alloc())?;
        let cause = cause_at(place);
        if cause == 0 {
            assert!(rt; ran.status == 0 && ran.err.is_empty());
        } else {
            let want = format!(in rt.alloc(); "secomp: bad image {cause}\n")?;
            assert!(rt; ran.wrote(6, b"", want.as_bytes()));
        }
        let illegal = ran.out.as_slice() == b"stop trap illegal 0x01000000\n".as_slice();
        assert!(rt; place != 23 || illegal);
    }
    Ok(())
}

// A run that can't read at one call, or can't write at one.
fn failing(
    alloc: Global,
    words: &str,
    input: &[u8],
    reads: &[u32],
    writes: &[u32],
) -> Result<Ran, OutOfMemory> {
    let run = Run {
        failing_reads: reads,
        failing_writes: writes,
        ..Run::new(words, input)
    };
    run.run(alloc)
}

// Whether a read that fails is reported whichever it is, and the run is as before where none does.
fn reports_each_read(alloc: Global, words: &str, input: &[u8]) -> Result<bool, Fail> {
    let whole = Run::new(words, input).run(alloc)?;
    for call in 0..CALLS {
        let ran = failing(alloc, words, input, &[call], &[])?;
        if ran.status == 0 {
            return Ok(ran.out.as_slice() == whole.out.as_slice());
        }
        let reported = ran.err.as_slice() == b"secomp: read fault\n".as_slice();
        if ran.status != 7 || !ran.out.is_empty() || !reported {
            return Ok(false);
        }
    }
    Ok(false)
}

#[test]
fn a_read_that_fails_is_reported_at_every_call(rt: HostRuntime) -> Result<(), Fail> {
    for (words, input) in RUNS {
        assert!(rt; reports_each_read(rt.alloc(), words, input)?);
    }
    let object = object(rt.alloc())?;
    assert!(rt; reports_each_read(rt.alloc(), "link", &object.out)?);
    Ok(())
}

// Whether a write that fails is reported whichever it is, behind a beginning of the output.
fn reports_each_write(alloc: Global, words: &str, input: &[u8]) -> Result<bool, Fail> {
    let whole = Run::new(words, input).run(alloc)?;
    for call in 0..CALLS {
        let ran = failing(alloc, words, input, &[], &[call])?;
        if ran.status == 0 {
            return Ok(ran.out.as_slice() == whole.out.as_slice());
        }
        if !whole.out.starts_with(&ran.out) || !ran.wrote(8, &ran.out, b"secomp: write fault\n") {
            return Ok(false);
        }
    }
    Ok(false)
}

#[test]
fn a_write_that_fails_is_reported_at_every_call(rt: HostRuntime) -> Result<(), Fail> {
    for (words, input) in RUNS {
        assert!(rt; reports_each_write(rt.alloc(), words, input)?);
    }
    let object = object(rt.alloc())?;
    assert!(rt; reports_each_write(rt.alloc(), "link", &object.out)?);
    Ok(())
}

// Whether the run is the same where its ends move a byte at a call.
fn runs_by_bytes(alloc: Global, words: &str, input: &[u8]) -> Result<bool, Fail> {
    let whole = Run::new(words, input).run(alloc)?;
    let ran = Run::new(words, input).run_by_bytes(alloc)?;
    Ok(ran.wrote(whole.status, &whole.out, &whole.err))
}

#[test]
fn ends_that_move_a_byte_at_a_call_change_nothing(rt: HostRuntime) -> Result<(), Fail> {
    for (words, input) in RUNS {
        assert!(rt; runs_by_bytes(rt.alloc(), words, input)?);
    }
    let object = object(rt.alloc())?;
    assert!(rt; runs_by_bytes(rt.alloc(), "link", &object.out)?);
    assert!(rt; runs_by_bytes(rt.alloc(), "check", b"x")?);
    let run = Run {
        room: 9,
        ..Run::new("meaning", SEVEN)
    };
    let ran = run.run_by_bytes(rt.alloc())?;
    assert!(rt; ran.wrote(8, b"out Main ", b"secomp: write fault\n"));
    Ok(())
}

#[test]
fn an_error_that_is_not_written_changes_no_status(rt: HostRuntime) -> Result<(), Fail> {
    let cases: [(&str, &[u8], u8); 4] = [
        ("nonsense", SEVEN, 2),
        ("check", b"x", 3),
        ("exec", SEVEN, 6),
        ("run", SEVEN, 0),
    ];
    for (words, input, status) in cases {
        for room in [0, 1, 10] {
            let run = Run {
                error_room: room,
                ..Run::new(words, input)
            };
            let ran = run.run(rt.alloc())?;
            assert_eq!(rt; ran.status, status);
        }
    }
    Ok(())
}
