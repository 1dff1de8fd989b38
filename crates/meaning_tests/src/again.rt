// Where nobody performs, the second meaning is the meaning.
use chain_texts::{EVENTS, FIRST, STEPS, generated};
use code_texts::PROGRAMS;
use sc_run::run_source;
use sc_types::SourceText;
use second_meaning::{CompSet, Task, run_task};
use std::alloc::Global;
use std::test::Fail;

const INPUTS: [i32; 8] = [3, 1, 2, 500, 0, -1, -2147483648, 7];

// Whether both runs of a text are the same, with these bounds on turns and events.
fn is_same(alloc: Global, text: &[u8], turns: u32, events: u32) -> Result<bool, Fail> {
    let source = SourceText::read(alloc, text)?;
    let task = Task {
        program: source.program(),
        set: CompSet::empty(),
        trace: &[],
        inputs: &INPUTS,
        turns,
        events,
    };
    let second = run_task(alloc, &task)?;
    let run = run_source(alloc, source.program(), &INPUTS, turns, events)?;
    Ok(run.trace.as_slice() == second.trace.as_slice() && run.end == second.end)
}

#[test]
fn both_meanings_are_the_same(rt: HostRuntime) -> Result<(), Fail> {
    for text in PROGRAMS {
        for turns in [0, 1, 5, 200] {
            for events in [0, 1, 64] {
                assert!(rt; is_same(rt.alloc(), text, turns, events)?);
            }
        }
    }
    Ok(())
}

#[test]
fn so_they_are_of_generated_programs(rt: HostRuntime) -> Result<(), Fail> {
    for number in 0..80 {
        let text = generated(rt.alloc(), FIRST.wrapping_add(number))?;
        assert!(rt; is_same(rt.alloc(), text.as_bytes(), STEPS, EVENTS)?);
    }
    Ok(())
}
