//! What compartments perform of a trace.
use sc_base::OutOfMemory;
use sc_event::{CompId, Entry, Event};
use std::alloc::Global;

/// A trace, and beside each event the function that is active there.
#[derive(Drop)]
pub(crate) struct Script<'a> {
    events: &'a [Event],
    active: Vec<Entry>,
}

impl<'a> Script<'a> {
    /// Follows which function is active: a call enters one, and a return goes back.
    pub(crate) fn new(alloc: Global, events: &'a [Event]) -> Result<Script<'a>, OutOfMemory> {
        let mut active = Vec::new(alloc);
        let mut open = Vec::new(alloc);
        for event in events {
            active.push(open.last().copied().unwrap_or(Entry::Main))?;
            match event {
                Event::Call { index, .. } => open.push(Entry::Export(*index))?,
                Event::Ret { .. } => {
                    let _returned = open.pop();
                }
                _ => (),
            }
        }
        Ok(Script { events, active })
    }

    /// The event that a compartment performs after `done` of its own, and the function that does.
    pub(crate) fn next(&self, comp: CompId, done: usize) -> Option<(Entry, &'a Event)> {
        let mut left = done;
        for (place, event) in self.events.iter().enumerate() {
            if event.performer() == comp {
                if left == 0 {
                    return Some((*self.active.get(place)?, event));
                }
                left = left.wrapping_sub(1);
            }
        }
        None
    }
}

/// How many events of a trace a compartment performed.
pub(crate) fn performed(events: &[Event], comp: CompId) -> usize {
    let mut count: usize = 0;
    for event in events {
        if event.performer() == comp {
            count = count.wrapping_add(1);
        }
    }
    count
}
