// The command `meaning` on whole programs.
use chain_texts::programs::{
    ACCOUNTS, DEEP, ENDLESS, INPUTS, LAYOUT, LEAK, LEFT_OUT, LOOPS, MIN_BY_MINUS_ONE,
    MISSING_RETURN, OUTPUTS, PAST_THE_END, PLACE_AFTER_CALL, REENTRY, REENTRY_BLAMED, ROUNDS,
    STORE, TWO_STORES, UNINITIALISED, UNSIGNED,
};
use memory_runs::Run;
use std::test::Fail;

const REQUESTS_REPORT: &[u8] = b"in Reader 3
in Reader 1
in Reader 2
in Reader 500
call Reader Accounts apply 1 2 500
ret Accounts Reader 500
call Reader Log note 1 500
out Log 500
ret Log Reader
in Reader 3
in Reader 2
in Reader 2
in Reader 200
call Reader Accounts apply 2 2 200
ret Accounts Reader 300
call Reader Log note 2 300
out Log 300
ret Log Reader
in Reader 5
in Reader 1
in Reader 3
in Reader 40
in Reader 7
in Reader 99
stop blamed Reader OutOfBounds 16
";

// The words of a command, the text and what is written.
const PROGRAMS: [(&str, &[u8], &[u8]); 32] = [
    (
        "meaning",
        STORE,
        b"call Main Net put 4 9\nstop blamed Net OutOfBounds 6\n",
    ),
    (
        "meaning",
        TWO_STORES,
        b"call Main A f 2\nstop blamed A OutOfBounds 6\n",
    ),
    (
        "meaning",
        REENTRY,
        b"call Main A f 1
call A B g 0
call B A h 1
ret A B 1
ret B A 1
ret A Main 2
out Main 2
end Main 0
stop ended
",
    ),
    (
        "meaning",
        REENTRY_BLAMED,
        b"call Main A f 2\nstop blamed A OutOfBounds 10\n",
    ),
    (
        "meaning --in 3,1,2,500,3,2,2,200,5,1,3,40,7,99,3,2,5,10,0",
        ACCOUNTS,
        REQUESTS_REPORT,
    ),
    ("meaning --turns 1", ROUNDS, b"stop turns\n"),
    ("meaning", MISSING_RETURN, b"stop blamed Main NoReturn 3\n"),
    ("meaning", LEAK, b"stop blamed Main Dangling 11\n"),
    (
        "meaning",
        MIN_BY_MINUS_ONE,
        b"stop blamed Main Overflow 9\n",
    ),
    (
        "meaning",
        UNINITIALISED,
        b"out Main 1\nstop blamed Main Indeterminate 7\n",
    ),
    (
        "meaning --in=-5,3",
        INPUTS,
        b"in Main -5\nin Main 3\nin Main 0\nout Main -2\nend Main 0\nstop ended\n",
    ),
    ("meaning", ROUNDS, b"end M 2\nstop ended\n"),
    ("meaning --turns 6", ROUNDS, b"end M 2\nstop ended\n"),
    ("meaning --turns 5", ROUNDS, b"stop turns\n"),
    ("meaning --turns 0", ROUNDS, b"stop turns\n"),
    (
        "meaning --turns 0",
        OUTPUTS,
        b"out M 1\nout M 2\nend M 3\nstop ended\n",
    ),
    (
        "meaning --turns 0",
        INPUTS,
        b"in Main 0\nin Main 0\nin Main 0\nout Main 0\nend Main 0\nstop ended\n",
    ),
    ("meaning --turns 3", ENDLESS, b"stop turns\n"),
    ("meaning --events 0", OUTPUTS, b"stop events\n"),
    ("meaning --events 1", OUTPUTS, b"out M 1\nstop events\n"),
    (
        "meaning --events 2",
        OUTPUTS,
        b"out M 1\nout M 2\nstop events\n",
    ),
    (
        "meaning --events 3",
        OUTPUTS,
        b"out M 1\nout M 2\nend M 3\nstop ended\n",
    ),
    (
        "meaning --events 1",
        STORE,
        b"call Main Net put 4 9\nstop events\n",
    ),
    ("meaning --events 0 --turns 0", ENDLESS, b"stop events\n"),
    ("meaning", DEEP, b"end M 10000\nstop ended\n"),
    ("meaning", PLACE_AFTER_CALL, b"end M 5\nstop ended\n"),
    ("meaning", LEFT_OUT, b"end M 2\nstop ended\n"),
    ("meaning", LAYOUT, b"end M 645\nstop ended\n"),
    ("meaning", PAST_THE_END, b"end M 7\nstop ended\n"),
    ("meaning", LOOPS, b"end M 53\nstop ended\n"),
    ("meaning", UNSIGNED, b"end M -399\nstop ended\n"),
    (
        "meaning",
        b"#pragma compartment M\nint main(void) {}\n",
        b"end M 0\nstop ended\n",
    ),
];

#[test]
fn whole_programs_are_reported(rt: HostRuntime) -> Result<(), Fail> {
    for (words, text, want) in PROGRAMS {
        let ran = Run::new(words, text).run(rt.alloc())?;
        assert!(rt; ran.wrote(0, want, b""));
    }
    Ok(())
}
