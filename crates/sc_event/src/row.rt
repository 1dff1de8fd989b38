use crate::{Args, CompId};
use sqlite_items::Items;

/// A function that a compartment is entered by.
#[derive(Clone, Copy, Debug, PartialEq, Eq)]
pub enum Entry {
    /// The first call of `main`.
    Main,
    /// The export at this place.
    Export(u16),
}

/// An event as the compartment that performs it sees it.
#[derive(Debug, Drop, PartialEq, Eq)]
pub enum Action {
    /// A call of another compartment's export, by its place there.
    Call { to: CompId, index: u16, args: Args },
    /// A return to the caller.
    Ret(Option<u32>),
    /// An output of this word.
    Out(u32),
    /// The reading of an input, which gave this word.
    In(u32),
    /// The end of the run.
    End(u32),
}

/// One action of a compartment: the function that was active, the action's place among the compartment's own, and what
/// it was.
#[derive(Debug, Drop, PartialEq, Eq)]
pub struct Row {
    pub entry: Entry,
    pub number: u32,
    pub action: Action,
}

/// What one compartment does in a run, in order. Contracts see the list.
pub type Script = Items<Row>;
