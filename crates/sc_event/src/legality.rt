//! Whether the interfaces allow a trace.

ghost use Rattle.sc_event.specs.Prelude.{Standing, StandsBy, awaits, is_allowed, is_end, legal, may_perform};
ghost use Rattle.sc_event.specs.Prelude.{may_return, open_after, open_call, returned_before};
ghost use Rattle.std.specs.Prelude.{◌≡◌, ℕ, ◌+◌, ◌^◌, ◌≤◌, ◌<◌, length, IfSome};

use crate::{CompId, Entry, Event, Interfaces};

/// Whether each event is one that the active compartment may perform there, from the main compartment's first on, and
/// none follows the end. Since no memory is taken, a return looks for the call that was open before in the events.
pub fn legal(interfaces: &Interfaces, events: &[Event]) -> bool
    ensures { result ≡ legal interfaces.now events.now }
{
    let mut pending = None;
    for at in 0..events.len() {
        let event = &events[at];
        if !is_allowed(interfaces, events, pending, event) {
            return false;
        }
        if is_end(event) {
            return at + 1 == events.len();
        }
        pending = open_after(events, pending, at, event);
    }
    true
}

fn is_end(event: &Event) -> bool
    ensures { result ≡ is_end event.now }
{
    matches!(event, Event::End { .. })
}

// `pending` is the place of the latest call that is open, if one is.
fn is_allowed(
    interfaces: &Interfaces,
    events: &[Event],
    pending: Option<usize>,
    event: &Event,
) -> bool
    requires { IfSome pending (λ call. call < length events.now) }
    ensures { (at : Standing) → StandsBy interfaces.now.main events.now pending at →
        result ≡ is_allowed interfaces.now at event.now }
{
    event.performer() == active_comp(interfaces.main, events, pending)
        && may_perform(interfaces, events, pending, event)
}

fn may_perform(
    interfaces: &Interfaces,
    events: &[Event],
    pending: Option<usize>,
    event: &Event,
) -> bool
    requires { IfSome pending (λ call. call < length events.now) }
    ensures { (at : Standing) → StandsBy interfaces.now.main events.now pending at →
        result ≡ may_perform interfaces.now at event.now }
{
    match event {
        Event::Call {
            from,
            to,
            index,
            args,
        } => {
            interfaces.imports_function(*from, *to, *index)
                && interfaces.takes(*to, *index, args.as_slice().len())
        }
        Event::Ret { from, to, value } => {
            awaits(interfaces.main, events, pending, *to)
                && may_return(interfaces, *from, active_entry(events, pending), *value)
        }
        Event::Out { comp, .. } => interfaces.imports_output(*comp),
        Event::In { comp, .. } => interfaces.imports_input(*comp),
        Event::End { .. } => pending.is_none(),
    }
}

fn may_return(interfaces: &Interfaces, comp: CompId, entry: Entry, value: Option<u32>) -> bool
    ensures { result ≡ may_return interfaces.now comp entry value }
{
    match entry {
        Entry::Main => false,
        Entry::Export(index) => interfaces.may_return(comp, index, value),
    }
}

fn active_comp(main: CompId, events: &[Event], pending: Option<usize>) -> CompId
    requires { IfSome pending (λ call. call < length events.now) }
    ensures { (at : Standing) → StandsBy main events.now pending at → result ≡ at.active.comp }
{
    match pending {
        None => main,
        Some(call) => match &events[call] {
            Event::Call { to, .. } => *to,
            _ => main,
        },
    }
}

fn active_entry(events: &[Event], pending: Option<usize>) -> Entry
    requires { IfSome pending (λ call. call < length events.now) }
    ensures { (main : ℕ) (at : Standing) → StandsBy main events.now pending at → result ≡ at.active.entry }
{
    match pending {
        None => Entry::Main,
        Some(call) => match &events[call] {
            Event::Call { index, .. } => Entry::Export(*index),
            _ => Entry::Main,
        },
    }
}

// Whether the pending call was made by this compartment.
fn awaits(main: CompId, events: &[Event], pending: Option<usize>, to: CompId) -> bool
    requires { IfSome pending (λ call. call < length events.now) }
    ensures { (at : Standing) → StandsBy main events.now pending at → result ≡ awaits at.waiting to }
{
    match pending {
        None => false,
        Some(call) => active_comp(main, events, open_call(events, call)) == to,
    }
}

fn open_after(
    events: &[Event],
    pending: Option<usize>,
    place: usize,
    event: &Event,
) -> Option<usize>
    requires here { place < length events.now }
    requires earlier { IfSome pending (λ call. call < place) }
    ensures call { result ≡ open_after events.now pending place event.now }
    ensures within { IfSome result (λ call. call < place + 1) }
{
    match event {
        Event::Call { .. } => Some(place),
        Event::Ret { .. } => match pending {
            None => None,
            Some(call) => open_call(events, call),
        },
        Event::Out { .. } | Event::In { .. } | Event::End { .. } => pending,
    }
}

// The latest of the first `count` events that is a call which they leave open.
fn open_call(events: &[Event], count: usize) -> Option<usize>
    requires { count ≤ length events.now }
    ensures call { result ≡ open_call events.now count 0 }
    ensures earlier { IfSome result (λ call. call < count) }
{
    let mut returned = 0;
    for following in 0..count {
        let place = count - 1 - following;
        match returned_before(&events[place], returned) {
            None => return Some(place),
            Some(before) => returned = before,
        }
    }
    None
}

// Where `returned` calls have returned after the event: how many have after the one before it, `None` where it is a
// call that hasn't returned itself.
fn returned_before(event: &Event, returned: usize) -> Option<usize>
    requires { returned + 1 < 2 ^ 64 }
    ensures { result ≡ returned_before event.now returned }
{
    match event {
        Event::Call { .. } => returned.checked_sub(1),
        Event::Ret { .. } => Some(returned + 1),
        Event::Out { .. } | Event::In { .. } | Event::End { .. } => Some(returned),
    }
}
