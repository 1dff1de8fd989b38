use crate::cause::Cause;
use sc_event::{CompId, Trace};

/// How a run of the source meaning ends.
#[derive(Clone, Copy, Debug, PartialEq, Eq)]
pub enum RunEnd {
    /// The first call of `main` returned: the last event is `End`.
    Ended,
    /// The compartment committed undefined behaviour at this line of its section.
    Blamed {
        comp: CompId,
        cause: Cause,
        line: u32,
    },
    /// A call or a loop's iteration had no turn left.
    TurnsOut,
    /// The trace has as many events as were allowed, and the last isn't `End`.
    EventsOut,
}

/// The trace of a run, and how it ends.
#[derive(Debug, Drop)]
pub struct SourceRun {
    pub trace: Trace,
    pub end: RunEnd,
}
