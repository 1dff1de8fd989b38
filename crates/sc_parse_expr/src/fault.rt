ghost use Rattle.std.specs.Prelude.{◌≡◌};
ghost use Rattle.sc_parse_expr.specs.declared.fault.SyntaxFault.TheVariants.{OutOfMemory};

use std::alloc::AllocError;
use thiserror::Error;

/// Why lexemes were not parsed.
#[derive(Clone, Copy, Debug, PartialEq, Eq, Error)]
pub enum SyntaxFault {
    /// Nothing is spelled so within the limits. `left` lexemes are left from the one that can't go on.
    #[error("a syntax error, {left} tokens before the end")]
    Refused { left: usize },
    #[error("out of memory")]
    OutOfMemory,
}

impl From<AllocError> for SyntaxFault {
    ghost from_gives = { λ _ e. e ≡ OutOfMemory };

    fn from(_: AllocError) -> SyntaxFault {
        SyntaxFault::OutOfMemory
    }
}
