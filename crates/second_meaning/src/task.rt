//! Whole runs.
use crate::memory::Memory;
use crate::run::{Halt, Run};
use crate::script::Script;
use crate::set::CompSet;
use crate::zeros::begin_globals;
use sc_base::OutOfMemory;
use sc_core::{Program, RunEnd, SourceRun, Value};
use sc_event::{Entry, Event, Trace};
use std::alloc::Global;

/// More levels than calls and statements can nest in a run with few enough turns for the stack.
const NESTED: u32 = 1_000_000_000;

/// A program, the compartments that perform, and the trace of which they perform their parts; the inputs, and how many
/// turns and events there are.
#[derive(Clone, Copy)]
pub struct Task<'a> {
    pub program: &'a Program,
    pub set: CompSet,
    pub trace: &'a [Event],
    pub inputs: &'a [i32],
    pub turns: u32,
    pub events: u32,
}

fn start<'a>(alloc: Global, task: &Task<'a>) -> Result<Run<'a>, OutOfMemory> {
    let program = task.program.tree();
    let mut memory = Memory::new(alloc);
    let globals = begin_globals(alloc, &mut memory, &program.sections)?;
    Ok(Run {
        alloc,
        program,
        set: task.set,
        script: Script::new(alloc, task.trace)?,
        events: task.events,
        turns: task.turns,
        inputs: task.inputs,
        globals,
        memory,
        trace: Trace::new(alloc),
        end: RunEnd::Ended,
    })
}

// The first call of `main`, which takes no turn, and the event that ends the run.
fn main_end(run: &mut Run) -> Result<(), Halt> {
    let comp = run.program.interfaces.main;
    if run.events == 0 {
        return run.stop(RunEnd::EventsOut);
    }
    let Some(number) = run.number_of(comp, Entry::Main) else {
        return run.stop(RunEnd::TurnsOut);
    };
    let value = match run.enter(NESTED, comp, number, &[])? {
        Some(Value::Word(word)) => word,
        _ => 0,
    };
    run.trace.push(Event::End { comp, value })?;
    Ok(())
}

/// Runs a program in which some compartments only perform.
pub fn run_task(alloc: Global, task: &Task) -> Result<SourceRun, OutOfMemory> {
    let mut run = start(alloc, task)?;
    if let Err(Halt::OutOfMemory) = main_end(&mut run) {
        return Err(OutOfMemory);
    }
    let Run { trace, end, .. } = run;
    Ok(SourceRun { trace, end })
}
