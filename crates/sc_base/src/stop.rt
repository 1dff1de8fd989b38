/// Why a machine run stops.
#[derive(Clone, Copy, Debug, PartialEq, Eq)]
pub enum Stop {
    /// `main` returned: the last event is `End`.
    Ended,
    /// The trace has as many events as were allowed, and the last isn't `End`.
    EventsOut,
    /// As many instructions ran as were allowed.
    StepsOut,
    /// The instruction at `pc` can't be executed. It changed nothing.
    Trap { reason: TrapReason, pc: u32 },
}

/// Why an instruction can't be executed.
#[derive(Clone, Copy, Debug, PartialEq, Eq)]
pub enum TrapReason {
    /// A load or store outside the active compartment's data.
    Owner,
    /// An address that isn't a multiple of the access's size, or a jump's target that isn't one of 4.
    Misaligned,
    /// A word that is no instruction.
    Illegal,
    /// A jump that leads neither into the own code nor through a gate, or a `pc` outside the own code.
    BadJump,
    /// A call of a function, or of the environment, that the compartment doesn't import.
    NoImport,
    /// An environment call of a number that there isn't.
    BadCall,
    /// EBREAK.
    Breakpoint,
    /// What is freed is neither null nor the start of a block of the own zone that is allocated.
    BadFree,
}
