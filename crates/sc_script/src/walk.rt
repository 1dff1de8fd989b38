ghost use Rattle.std.specs.Prelude.{◌≡◌, Some, None, IfOk, if◌then◌else◌};
ghost use Rattle.sc_event.specs.Standing.{at_start, stands_after};

use sc_base::OutOfMemory;
use sc_event::{CompId, Entry, Event};
use std::alloc::Global;
use std::marker::Model;

// A function that was entered from outside its compartment.
#[derive(Clone, Copy)]
struct Entered {
    comp: CompId,
    entry: Entry,
}

impl Model for Entered {
    ghost use Rattle.sc_event.specs.Standing.{Activation};

    ghost Value = { Activation };

    ghost view = { λ e. record { comp = e.comp; entry = e.entry } };

    ghost inverse = { λ a. record { comp = a.comp; entry = a.entry } };
}

/// Where a walk over a trace stands: the active function, and those that wait for a call to return. Contracts see the
/// standing.
#[derive(Drop)]
pub struct Walk {
    active: Entered,
    waiting: Vec<Entered>,
}

impl Model for Walk {
    ghost use Rattle.std.specs.Prelude.{reverse};
    ghost use Rattle.sc_event.specs.Standing.{Standing};

    ghost Value = { Standing };

    ghost view = { λ w. record { active = w.active; waiting = reverse w.waiting.items } };
}

impl Walk {
    /// At the start of a run.
    pub fn new(alloc: Global, main: CompId) -> Walk
        ensures { Some result ≡ at_start main }
    {
        Walk {
            active: Entered {
                comp: main,
                entry: Entry::Main,
            },
            waiting: Vec::new(alloc),
        }
    }

    /// The function that is active.
    pub fn entry(&self) -> Entry
        ensures { result ≡ self.now.active.entry }
    {
        self.active.entry
    }

    /// Passes an event: whether the run goes on after it, and where it stands then.
    pub fn goes_on(&mut self, event: &Event) -> Result<bool, OutOfMemory>
        ensures { IfOk result (λ on. stands_after self.old event.now ≡ (if on then Some self.new else None)) }
    {
        match event {
            Event::Call { to, index, .. } => {
                self.waiting.push(self.active)?;
                self.active = Entered {
                    comp: *to,
                    entry: Entry::Export(*index),
                };
                Ok(true)
            }
            Event::Ret { .. } => match self.waiting.pop() {
                None => Ok(false),
                Some(latest) => {
                    self.active = latest;
                    Ok(true)
                }
            },
            Event::Out { .. } | Event::In { .. } => Ok(true),
            Event::End { .. } => Ok(false),
        }
    }
}
