use crate::Cause;
use sc_base::{Stop, Text};
use sc_event::{CompId, CompIds, Trace};
use sqlite_items::Items;

/// A compartment that was blamed after `after` events of the trace, why, and at which line of its section; and the text
/// that stands in the place of that section from there on.
#[derive(Drop)]
pub struct Link {
    pub comp: CompId,
    pub after: u32,
    pub cause: Cause,
    pub line: u32,
    pub text: Text,
}

/// Links in the order of their blames.
pub type Links = Items<Link>;

/// Why the active compartment stands where a trap stopped the machine.
#[derive(Clone, Copy, Debug, PartialEq, Eq)]
pub enum TrapOrigin {
    /// The compartment is given or replaced, so its code may do anything.
    Replaced,
    /// After all events of the trace, the meaning of the chain's last text blames the compartment for this cause, at
    /// this line of its section.
    Blamed { cause: Cause, line: u32 },
    /// The compartment's stack has no room for the frame of a call that it has begun.
    FullStack,
}

/// The compartment that was active when a trap stopped the machine, and why.
#[derive(Clone, Copy, Debug, PartialEq, Eq)]
pub struct Trapped {
    pub comp: CompId,
    pub origin: TrapOrigin,
}

/// The machine's trace, why it stopped, who stopped it, the compartments whose code isn't the program's, and the chain
/// of replacements that accounts for it.
#[derive(Drop)]
pub struct Explanation {
    pub trace: Trace,
    pub stop: Stop,
    /// Who stopped the machine, where the stop is a trap.
    pub trapped: Option<Trapped>,
    /// The given compartments: they may have any code, and so they count as compromised from the first event on.
    pub given: CompIds,
    pub links: Links,
}
