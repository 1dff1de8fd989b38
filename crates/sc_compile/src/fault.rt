ghost use Rattle.std.specs.Prelude.{◌≡◌};

use sc_base::{Name, OutOfMemory};
use sc_event::CompId;
use std::fmt;
use thiserror::Error;

/// Why a program isn't compiled: what of it is too large first, or that memory ran out. Sizes are in bytes.
#[derive(Clone, Copy, Error)]
pub enum CompileFault {
    /// A section's code may take more than 1,048,576 bytes.
    #[error("the code of compartment {} may take {bound} bytes", .comp.number())]
    CodeTooLarge {
        comp: CompId,
        bound: u64,
    },
    /// A section's globals take more than 458,752 bytes.
    #[error("the globals of compartment {} take {bytes} bytes", .comp.number())]
    DataTooLarge {
        comp: CompId,
        bytes: u64,
    },
    /// A function's frame may take more than 32,768 bytes.
    #[error("a frame of compartment {} may take {bound} bytes", .comp.number())]
    FrameTooLarge {
        comp: CompId,
        function: Name,
        bound: u64,
    },
    #[error("out of memory")]
    OutOfMemory,
}

impl fmt::Debug for CompileFault {
    fn fmt<W: fmt::Write>(&self, f: &mut fmt::Formatter<W>) -> fmt::Result {
        write!(f, "{self}")
    }
}

impl From<OutOfMemory> for CompileFault {
    fn from(_: OutOfMemory) -> CompileFault
        ensures { result ≡ CompileFault.OutOfMemory }
    {
        CompileFault::OutOfMemory
    }
}
