// What the machine emits, and every set of compartments that perform it.
use chain_texts::{EVENTS, FIRST, STEPS, generated};
use code_texts::PROGRAMS;
use sc_compile::compile;
use sc_core::{RunEnd, SourceRun};
use sc_event::{Event, legal};
use sc_machine::Machine;
use sc_store::FlatStore;
use sc_types::SourceText;
use second_meaning::{CompSet, Task, run_task};
use std::alloc::Global;
use std::test::Fail;

// The inputs of each run.
const INPUTS: [i32; 21] = [
    3,
    1,
    2,
    500,
    3,
    2,
    2,
    200,
    5,
    1,
    3,
    40,
    7,
    99,
    3,
    2,
    5,
    10,
    0,
    -1,
    -2147483648,
];

// What was seen of a program: how many sets give the whole trace, and how many are blamed before.
#[derive(Clone, Copy)]
struct Seen {
    complete: u32,
    blamed: u32,
}

// What a run that stops short of the trace has to be: blamed outside the set, after a prefix of the trace.
fn is_blamed_before(run: &SourceRun, trace: &[Event], set: CompSet) -> bool {
    let RunEnd::Blamed { comp, .. } = run.end else {
        return false;
    };
    !set.has(comp) && run.trace.len() < trace.len() && trace.starts_with(run.trace.as_slice())
}

// What is seen with every set, `None` where one gives neither.
fn see(
    alloc: Global,
    source: &SourceText,
    trace: &[Event],
    steps: u32,
) -> Result<Option<Seen>, Fail> {
    let mut seen = Seen {
        complete: 0,
        blamed: 0,
    };
    for set in CompSet::all(alloc, source.program().interfaces().comps.len())? {
        let task = Task {
            program: source.program(),
            set,
            trace,
            inputs: &INPUTS,
            turns: steps,
            events: u32::try_from(trace.len())?,
        };
        let run = run_task(alloc, &task)?;
        if run.trace.as_slice() == trace {
            seen.complete = seen.complete.wrapping_add(1);
        } else if is_blamed_before(&run, trace, set) {
            seen.blamed = seen.blamed.wrapping_add(1);
        } else {
            return Ok(None);
        }
    }
    Ok(Some(seen))
}

// What is seen of the machine's trace of a text's program in `steps` steps, `None` where a set gives neither, or the
// trace isn't legal.
fn judge(alloc: Global, text: &[u8], steps: u32) -> Result<Option<Seen>, Fail> {
    let source = SourceText::read(alloc, text)?;
    let Ok(image) = compile(alloc, source.program()) else {
        return Ok(None);
    };
    let Ok(mut machine) = Machine::<FlatStore>::load(alloc, image, &INPUTS, EVENTS) else {
        return Ok(None);
    };
    machine.run(steps);
    if !legal(source.program().interfaces(), machine.trace()) {
        return Ok(None);
    }
    see(alloc, &source, machine.trace(), steps)
}

#[test]
fn the_others_do_what_the_source_says(rt: HostRuntime) -> Result<(), Fail> {
    let mut blamed: u32 = 0;
    for text in PROGRAMS {
        for steps in [0, 60, 1000] {
            let seen = judge(rt.alloc(), text, steps)?;
            assert!(rt; seen.is_some());
            if let Some(seen) = seen {
                blamed = blamed.wrapping_add(seen.blamed);
            }
        }
    }
    assert!(rt; blamed >= 20);
    Ok(())
}

#[test]
fn so_they_do_in_generated_programs(rt: HostRuntime) -> Result<(), Fail> {
    let mut blamed: u32 = 0;
    let mut complete: u32 = 0;
    for number in 0..80 {
        let text = generated(rt.alloc(), FIRST.wrapping_add(number))?;
        let seen = judge(rt.alloc(), text.as_bytes(), STEPS)?;
        assert!(rt; seen.is_some());
        if let Some(seen) = seen {
            blamed = blamed.wrapping_add(seen.blamed);
            complete = complete.wrapping_add(seen.complete);
        }
    }
    assert!(rt; blamed >= 50);
    assert!(rt; complete >= 200);
    Ok(())
}
