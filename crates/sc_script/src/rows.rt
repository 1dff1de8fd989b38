ghost use Rattle.sc_event.specs.Prelude.{action_of, part};
ghost use Rattle.std.specs.Prelude.{◌≡◌, ◌+◌, ◌<◌, ◌^◌, ◌++◌, length, IfOk, OnOk};
ghost use Rattle.sc_script.specs.Row.{row_of};

use crate::walk::Walk;
use sc_base::OutOfMemory;
use sc_event::{Action, CompId, Entry, Event, Row, Script};
use std::alloc::Global;

/// The events of a compartment in the trace of a run that begins in `main`, numbered from 0, each with the function of
/// the compartment that was active there. The time is that of one walk over the trace.
pub fn part(
    alloc: Global,
    trace: &[Event],
    main: CompId,
    comp: CompId,
) -> Result<Script, OutOfMemory>
    requires { length trace.now < 2 ^ 32 }
    ensures { IfOk result (λ script. script ≡ part main comp trace.now) }
{
    let mut walk = Walk::new(alloc, main);
    let mut script = Script::new(alloc);
    for event in trace {
        add_row(&mut script, comp, walk.entry(), event)?;
        if !walk.goes_on(event)? {
            return Ok(script);
        }
    }
    Ok(script)
}

// Adds the event's row, where the compartment performed it.
fn add_row(
    script: &mut Script,
    comp: CompId,
    entry: Entry,
    event: &Event,
) -> Result<(), OutOfMemory>
    requires { length script.old < 2 ^ 32 }
    ensures { OnOk result (script.new ≡ script.old ++ row_of comp (length script.old) entry event.now) }
{
    if event.performer() == comp {
        let number = script.as_slice().len() as u32;
        script.push(Row {
            entry,
            number,
            action: action_of(event),
        })?;
    }
    Ok(())
}

// The event as its performer sees it.
fn action_of(event: &Event) -> Action
    ensures { result ≡ action_of event.now }
{
    match event {
        Event::Call {
            to,
            index,
            args,
            ..
        } => Action::Call {
            to: *to,
            index: *index,
            args: args.copied(),
        },
        Event::Ret { value, .. } => Action::Ret(*value),
        Event::Out { value, .. } => Action::Out(*value),
        Event::In { value, .. } => Action::In(*value),
        Event::End { value, .. } => Action::End(*value),
    }
}
