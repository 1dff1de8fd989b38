// The command `tags`.
use crate::commands::exec::SEVEN;
use chain_texts::programs::STORE;
use memory_runs::Run;
use std::test::Fail;

#[test]
fn without_a_range_an_image_is_run_as_compiled(rt: HostRuntime) -> Result<(), Fail> {
    let image = Run::new("compile", STORE).run(rt.alloc())?;
    let want = b"call Main Net put 4 9\nret Net Main 9\nout Main 9\nend Main 0\nstop ended\n";
    let ran = Run::new("tags", image.out.as_slice()).run(rt.alloc())?;
    assert!(rt; ran.wrote(0, want, b""));
    Ok(())
}

// The third instruction, the one before it, and one of another compartment.
const RANGES: [(&str, &[u8]); 4] = [
    (
        "tags --data 16777224,4,0",
        b"stop trap badjump 0x01000008\n",
    ),
    (
        "tags --data=16777220,1,0",
        b"stop trap badjump 0x01000004\n",
    ),
    (
        "tags --data 16777216,4,31",
        b"stop trap badjump 0x01000000\n",
    ),
    (
        "tags --data 0,16777216,0",
        b"out M 7\nend M 0\nstop ended\n",
    ),
];

#[test]
fn code_that_is_tagged_as_data_is_not_executed(rt: HostRuntime) -> Result<(), Fail> {
    for (words, want) in RANGES {
        let ran = Run::new(words, &SEVEN).run(rt.alloc())?;
        assert!(rt; ran.wrote(0, want, b""));
    }
    Ok(())
}

#[test]
fn what_is_no_image_is_refused(rt: HostRuntime) -> Result<(), Fail> {
    let ran = Run::new("tags", STORE).run(rt.alloc())?;
    assert!(rt; ran.wrote(6, b"", b"secomp: bad image 1\n"));
    Ok(())
}
