use sc_event::CompId;

/// What a policy says of a trace.
#[derive(Clone, Copy, Debug, PartialEq, Eq)]
pub enum Verdict {
    /// No event is a violation. The automaton stands in this state at the end.
    Holds {
        state: u16,
    },
    /// The event that follows the first `after` events is the first violation. The compartment `comp` performs it, by
    /// the rule of this number, counted from 1. It was compromised where it had been replaced by then, and else it is
    /// clean.
    Violated {
        after: u32,
        comp: CompId,
        rule: u32,
        compromised: bool,
    },
}
