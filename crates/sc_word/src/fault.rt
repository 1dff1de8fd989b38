use thiserror::Error;

/// Why a C operator on 32-bit words computes nothing.
#[derive(Clone, Copy, Debug, PartialEq, Eq, Error)]
pub enum WordFault {
    /// A signed result doesn't fit 32 bits, or a negative value is shifted left.
    #[error("Overflow")]
    Overflow,
    /// A division or a remainder by zero.
    #[error("ZeroDivisor")]
    ZeroDivisor,
    /// A shift by 32 or more.
    #[error("BadShift")]
    BadShift,
}
