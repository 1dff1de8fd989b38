use thiserror::Error;

/// Why a load or a store does nothing. Where several hold, `NullUse` comes first, then `Dangling`, then `OutOfBounds`.
#[derive(Clone, Copy, Debug, PartialEq, Eq, Error)]
pub enum BlockFault {
    /// The place is one past the last cell of its block, or further (C11 6.5.6p8).
    #[error("OutOfBounds")]
    OutOfBounds,
    /// The place, or the pointer that stands there, is in a block that has ended (C11 6.2.4p2).
    #[error("Dangling")]
    Dangling,
    /// The place is null (C11 6.5.3.2p4).
    #[error("NullUse")]
    NullUse,
    /// Nothing was stored there yet (C11 6.3.2.1p2).
    #[error("Indeterminate")]
    Indeterminate,
}

/// What is freed is neither null nor the start of an allocated block that lives (C11 7.22.3.3).
#[derive(Clone, Copy, Debug, PartialEq, Eq, Error)]
#[error("BadFree")]
pub struct BadFree;
