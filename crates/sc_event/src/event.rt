ghost use Rattle.std.specs.Prelude.{◌≡◌};

use crate::{Args, CompId};
use sqlite_items::Items;

/// What a compartment does that the others or the environment see. Values are words of 32 bits, and `index` is a place
/// among the exports of the compartment that is called.
#[derive(Debug, Drop, PartialEq, Eq)]
pub enum Event {
    /// The compartment `from` calls a function of `to`.
    Call {
        from: CompId,
        to: CompId,
        index: u16,
        args: Args,
    },
    /// The compartment `from` returns to `to`, with a value where its function has a result.
    Ret {
        from: CompId,
        to: CompId,
        value: Option<u32>,
    },
    /// The compartment calls `output` with the value.
    Out {
        comp: CompId,
        value: u32,
    },
    /// The compartment calls `input` and gets the value.
    In {
        comp: CompId,
        value: u32,
    },
    /// The first call of `main` returns the value, and the run ends.
    End {
        comp: CompId,
        value: u32,
    },
}

impl Event {
    ghost use Rattle.sc_event.specs.Standing.{performer};

    /// The compartment that does it.
    pub fn performer(&self) -> CompId
        ensures { result ≡ performer self.now }
    {
        match self {
            Event::Call { from, .. } | Event::Ret { from, .. } => *from,
            Event::Out { comp, .. } | Event::In { comp, .. } | Event::End { comp, .. } => *comp,
        }
    }
}

/// The events of a run, in order. Contracts see the list.
pub type Trace = Items<Event>;
