ghost use Rattle.std.specs.Prelude.{◌≡◌};

use std::alloc::{AllocError, AllocFailed};
use thiserror::Error;

/// The memory that a call needed was not there. The values that the caller lent are as they were.
#[derive(Clone, Copy, Debug, PartialEq, Eq, Error)]
#[error("out of memory")]
pub struct OutOfMemory;

impl From<AllocError> for OutOfMemory {
    ghost from_gives = { λ _ e. e ≡ record {} };

    fn from(_: AllocError) -> OutOfMemory {
        OutOfMemory
    }
}

impl<T: Drop> From<AllocFailed<T>> for OutOfMemory {
    fn from(_: AllocFailed<T>) -> OutOfMemory {
        OutOfMemory
    }
}
