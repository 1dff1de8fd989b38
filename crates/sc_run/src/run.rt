//! Whole runs.

ghost use Rattle.sc_run.specs.Prelude.{Advances, AnotherSuffices, EndsAs, NumbersLast, does_now, kept_by, meaning};
ghost use Rattle.sc_run.specs.Prelude.{now_weight, stopped_at};
ghost use Rattle.sc_word.specs.Prelude.{word_of};
ghost use Rattle.std.specs.Prelude.{◌≡◌, [], map, take, IfOk};

use crate::calls::{begin, start};
use crate::globals::first_blocks;
use crate::leaves::leave;
use crate::lookups::entry_callee;
use crate::state::Machine;
use crate::steps::run_list;
use crate::work::{Leaving, Now, Run, Step, StepKind, Taken};
use sc_base::OutOfMemory;
use sc_core::{Program, RunEnd, SourceRun};
use sc_event::{Entry, Trace};
use std::alloc::Global;

// One step of a run.
fn proceed<'a>(
    program: &'a Program,
    run: &mut Run<'a, '_>,
    now: Now<'a>,
) -> Result<Step<'a>, OutOfMemory>
    requires { AnotherSuffices (kept_by run.old.machine) }
    ensures { IfOk result (λ step. Advances program.now (now_weight now.entry) run.old
        (does_now program.now run.old.frame now.entry) step run.new) }
{
    match now {
        Now::Run(stmts) => run_list(program, run, stmts),
        Now::Leave(exit) => leave(program, run, exit),
    }
}

// The first events of a trace.
fn first_events(trace: Trace, events: usize) -> Trace
    ensures { result ≡ take events trace }
{
    let mut first = trace;
    while first.len() > events {
        first.pop();
    }
    first
}

// The run that ends so, stopped at a number of events.
fn behaviour(machine: Machine, end: RunEnd, events: u32) -> SourceRun
    ensures { result ≡ stopped_at events (record { trace = machine.entry.trace; end = end }) }
{
    let Machine { trace, .. } = machine;
    let limit = events as usize;
    let over = match end {
        RunEnd::Ended => limit < trace.len(),
        _ => limit <= trace.len(),
    };
    if over {
        return SourceRun {
            trace: first_events(trace, limit),
            end: RunEnd::EventsOut,
        };
    }
    SourceRun { trace, end }
}

// Steps from the first statements of `main` to the end of the run, or to `events` events.
fn run_on<'a>(
    program: &'a Program,
    run: &mut Run<'a, '_>,
    first: Now<'a>,
    events: u32,
) -> Result<RunEnd, OutOfMemory>
    requires nothing_waits { run.old.work.items ≡ [] }
    requires numbers { NumbersLast (now_weight first) (kept_by run.old.machine) [] }
    ensures { IfOk result (λ end. EndsAs program.now first.entry
        (kept_by run.old.machine) run.old.frame events run.new.machine.trace end) }
{
    let mut now = first;
    while run.machine.trace.len() < events as usize {
        match proceed(program, run, now) {
            Ok(Step::Stop(end)) => return Ok(end),
            Ok(Step::Go(next)) => now = next,
            Err(error) => return Err(error),
        }
    }
    Ok(RunEnd::EventsOut)
}

/// Runs a program as its meaning says, with these inputs, up to `turns` turns and `events` events. The only error is
/// memory that isn't given: no run has too many steps, or too many blocks.
#[tactic(auto, using(crate::proofs::Counts::numbers_started))]
pub fn run_source(
    alloc: Global,
    program: &Program,
    inputs: &[i32],
    turns: u32,
    events: u32,
) -> Result<SourceRun, OutOfMemory>
    ensures { IfOk result (λ run. run ≡ meaning program.now (map word_of inputs.now) turns events) }
{
    let tree = program.tree();
    let globals = first_blocks(alloc, tree.sections.as_slice())?;
    let mut machine = Machine {
        alloc,
        blocks: globals,
        trace: Trace::new(alloc),
        turns,
        most_events: events,
        inputs,
    };
    let Some(callee) = entry_callee(program, &tree.interfaces.main, Entry::Main) else {
        return Ok(behaviour(machine, RunEnd::TurnsOut, events));
    };
    let frame = begin(&mut machine, &callee, &[])?;
    let work = Vec::new(alloc);
    match start(program, &mut machine, &work, &frame) {
        Step::Stop(end) => Ok(behaviour(machine, end, events)),
        Step::Go(now) => {
            let mut run = Run {
                machine,
                work,
                frame,
                taken: Taken {
                    kind: StepKind::Exit,
                    stmts: &[],
                    exit: Leaving::Next,
                    end: RunEnd::Ended,
                },
            };
            let end = run_on(program, &mut run, now, events)?;
            let Run { machine, .. } = run;
            Ok(behaviour(machine, end, events))
        }
    }
}
