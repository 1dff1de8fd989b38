// What generated programs mean, and the machine's traces of them.
use chain_texts::{EVENTS, FIRST, STEPS, generated};
use sc_compile::compile;
use sc_core::RunEnd;
use sc_machine::Machine;
use sc_run::run_source;
use sc_store::FlatStore;
use sc_types::SourceText;
use std::alloc::Global;
use std::test::Fail;

// How a program's meaning ends, and whether the machine's trace is the same.
#[derive(Clone, Copy, PartialEq, Eq)]
enum Outcome {
    Refused,
    TooLarge,
    Blamed,
    TurnsOut,
    Same,
    Different,
}

fn judge(alloc: Global, seed: u32) -> Result<Outcome, Fail> {
    let text = generated(alloc, seed)?;
    let Ok(source) = SourceText::read(alloc, text.as_bytes()) else {
        return Ok(Outcome::Refused);
    };
    let Ok(image) = compile(alloc, source.program()) else {
        return Ok(Outcome::TooLarge);
    };
    let run = run_source(alloc, source.program(), &[], STEPS, EVENTS)?;
    match run.end {
        RunEnd::Blamed { .. } => return Ok(Outcome::Blamed),
        RunEnd::TurnsOut => return Ok(Outcome::TurnsOut),
        _ => (),
    }
    let Ok(mut machine) = Machine::<FlatStore>::load(alloc, image, &[], EVENTS) else {
        return Ok(Outcome::TooLarge);
    };
    machine.run(2_000_000);
    if machine.trace() == run.trace.as_slice() {
        Ok(Outcome::Same)
    } else {
        Ok(Outcome::Different)
    }
}

#[test]
fn a_program_without_blame_runs_as_it_means(rt: HostRuntime) -> Result<(), Fail> {
    let mut same: usize = 0;
    for number in 0..200 {
        let seed = FIRST.wrapping_add(number);
        let outcome = judge(rt.alloc(), seed)?;
        assert!(rt; outcome == Outcome::Same || outcome == Outcome::Blamed);
        if outcome == Outcome::Same {
            same = same.wrapping_add(1);
        }
    }
    assert!(rt; same >= 20);
    Ok(())
}
