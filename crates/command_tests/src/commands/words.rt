// The words of the command line.
use chain_texts::programs::SEVEN;
use memory_runs::Run;
use std::test::Fail;

#[test]
fn words_that_are_no_command_leave_the_input_unread(rt: HostRuntime) -> Result<(), Fail> {
    let cases = [
        "",
        "meaning x",
        "meanings",
        "--help",
        "run --help",
        "run --events 4097",
        "meaning --events 1 --events 1",
        "run --",
        "run --in -5",
        "run --ev 1",
        "explain --show 33",
        "make --size 1",
    ];
    for words in cases {
        let ran = Run::new(words, SEVEN).run(rt.alloc())?;
        assert_eq!(rt; ran.status, 2);
        assert_eq!(rt; ran.out.len(), 0);
        assert!(rt; ran.err.starts_with(b"secomp: usage"));
        assert_eq!(rt; ran.unread, SEVEN.len());
    }
    Ok(())
}

#[test]
fn options_bound_what_is_printed(rt: HostRuntime) -> Result<(), Fail> {
    let report: &[u8] = b"out Main 7\nend Main 0\nstop ended\n";
    let cases: [(&str, &[u8]); 8] = [
        ("run --events 0", b"stop events\n"),
        ("run --steps=0", b"stop steps\n"),
        ("run --steps 6", b"out Main 7\nstop steps\n"),
        ("meaning --events=1 --in=-5,3", b"out Main 7\nstop events\n"),
        ("meaning --turns 00", report),
        ("explain --steps=6", b"out Main 7\nstop steps\nchain 0\n"),
        ("explain --show=32", SEVEN),
        ("explain --show 0 --events 0", SEVEN),
    ];
    for (words, want) in cases {
        let ran = Run::new(words, SEVEN).run(rt.alloc())?;
        assert!(rt; ran.wrote(0, want, b""));
    }
    Ok(())
}
