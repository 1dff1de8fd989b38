use sc_event::{CompId, Entry};

/// What is kept of a call of another compartment until it returns.
#[derive(Clone, Copy, Debug, PartialEq, Eq)]
pub struct CrossEntry {
    /// The compartment that called.
    pub caller: CompId,
    /// Its return address.
    pub pc: u32,
    /// Its stack pointer.
    pub sp: u32,
    /// The compartment that was called.
    pub callee: CompId,
    /// The function that was called.
    pub entry: Entry,
    /// The stack pointer that the callee had kept before this call.
    pub saved: u32,
}
