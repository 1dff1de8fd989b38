//! Why bytes are not read as objects.

ghost use Rattle.std.specs.Prelude.{◌≡◌};
ghost use Rattle.sc_object.specs.Reading.{cause_number};
ghost use Rattle.sc_object.specs.declared.fault.ObjectsFault.TheVariants.{OutOfMemory};

use std::alloc::AllocError;
use thiserror::Error;

/// The first thing that is wrong with the bytes of an object, in their order.
#[derive(Clone, Copy, Debug, PartialEq, Eq, Error)]
pub enum BadObject {
    /// The four bytes `SCOB`.
    #[error("the mark SCOB is missing")]
    Mark,
    /// The version of the format.
    #[error("an unknown version of the format")]
    Version,
    /// How many compartments there are, the main one and its own.
    #[error("a bad count of compartments, main compartment or own compartment")]
    Numbers,
    /// What the compartments are to each other.
    #[error("a bad face of a compartment")]
    Faces,
    /// Whether the compartment has a heap.
    #[error("a bad byte for the heap")]
    Heap,
    /// The compartment's code.
    #[error("bad code")]
    Code,
    /// Where `main` is.
    #[error("a bad offset of main")]
    Start,
    /// The compartment's globals.
    #[error("bad globals")]
    Globals,
    /// A rule on the whole object, where every field is good.
    #[error("parts that don't fit together")]
    Whole,
}

impl BadObject {
    /// The number by which the cause is reported, 1 to 9 in the order of the fields.
    pub fn number(self) -> u8
        ensures { result ≡ cause_number self }
    {
        match self {
            BadObject::Mark => 1,
            BadObject::Version => 2,
            BadObject::Numbers => 3,
            BadObject::Faces => 4,
            BadObject::Heap => 5,
            BadObject::Code => 6,
            BadObject::Start => 7,
            BadObject::Globals => 8,
            BadObject::Whole => 9,
        }
    }
}

/// Why no objects were read: the object of this index, counted from 0, is bad, or memory ran out.
#[derive(Clone, Copy, Debug, PartialEq, Eq, Error)]
pub enum ObjectsFault {
    #[error("object {index} is bad: {cause}")]
    Bad { index: u32, cause: BadObject },
    #[error("out of memory")]
    OutOfMemory,
}

impl From<AllocError> for ObjectsFault {
    ghost from_gives = { λ _ fault. fault ≡ OutOfMemory };

    fn from(_: AllocError) -> ObjectsFault {
        ObjectsFault::OutOfMemory
    }
}
