ghost use Rattle.std.specs.Prelude.{◌≡◌};
ghost use Rattle.sc_lex.specs.declared.fault.TextFault.TheVariants.{OutOfMemory};

use crate::Refusal;
use sc_base::OutOfMemory;
use std::alloc::AllocError;
use thiserror::Error;

/// Why a text, or a part of one, was not read.
#[derive(Clone, Copy, Debug, PartialEq, Eq, Error)]
pub enum TextFault {
    #[error("{0}")]
    Refused(Refusal),
    #[error("out of memory")]
    OutOfMemory,
}

impl From<AllocError> for TextFault {
    ghost from_gives = { λ _ e. e ≡ OutOfMemory };

    fn from(_: AllocError) -> TextFault {
        TextFault::OutOfMemory
    }
}

impl From<OutOfMemory> for TextFault {
    ghost from_gives = { λ _ e. e ≡ OutOfMemory };

    fn from(_: OutOfMemory) -> TextFault {
        TextFault::OutOfMemory
    }
}
