ghost use Rattle.std.specs.Prelude.{◌≡◌};
ghost use Rattle.sc_fields.specs.declared.fault.FieldFault.TheVariants.{OutOfMemory};

use sc_base::OutOfMemory;
use std::alloc::AllocError;

/// Why a field was not read: it is bad, with its cause, or memory ran out.
#[derive(Clone, Copy, Debug, PartialEq, Eq)]
pub enum FieldFault<C> {
    Bad(C),
    OutOfMemory,
}

impl<C> From<OutOfMemory> for FieldFault<C> {
    ghost from_gives = { λ _ fault. fault ≡ OutOfMemory };

    fn from(_: OutOfMemory) -> FieldFault<C> {
        FieldFault::OutOfMemory
    }
}

impl<C> From<AllocError> for FieldFault<C> {
    ghost from_gives = { λ _ fault. fault ≡ OutOfMemory };

    fn from(_: AllocError) -> FieldFault<C> {
        FieldFault::OutOfMemory
    }
}
