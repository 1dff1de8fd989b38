ghost use Rattle.std.specs.Prelude.{◌≡◌};

use sc_base::OutOfMemory;
use thiserror::Error;

/// Why there is no policy.
#[derive(Clone, Copy, Debug, PartialEq, Eq, Error)]
pub enum PolicyFault {
    /// The bytes begin with no policy. This line is the first that is wrong, counted from 1.
    #[error("bad policy line {line}")]
    Bad { line: u32 },
    /// No memory was left to read one.
    #[error("out of memory")]
    OutOfMemory,
}

impl From<OutOfMemory> for PolicyFault {
    ghost use Rattle.sc_policy.specs.declared.fault.PolicyFault.TheVariants.{OutOfMemory};

    ghost from_gives = { λ _ e. e ≡ OutOfMemory };

    fn from(_: OutOfMemory) -> PolicyFault {
        PolicyFault::OutOfMemory
    }
}
