/// A place: an index of a block, in cells. The blocks of a compartment are numbered in the order in which they are
/// made.
#[derive(Clone, Copy, Debug, PartialEq, Eq)]
pub struct Pointer {
    pub block: u64,
    pub index: u32,
}

/// What 4 bytes of a variable hold.
#[derive(Clone, Copy, Debug, PartialEq, Eq)]
pub enum Cell {
    /// Nothing was stored yet.
    Undef,
    Word(u32),
    Null,
    Ptr(Pointer),
}

/// What an expression gives.
#[derive(Clone, Copy, Debug, Default, PartialEq, Eq)]
pub enum Value {
    Word(u32),
    #[default]
    Null,
    Ptr(Pointer),
}

/// What of an expression is wanted: the place that it names, or its value (C11 6.3.2.1).
#[derive(Clone, Copy, Debug, PartialEq, Eq)]
pub enum Want {
    Place,
    Value,
}
