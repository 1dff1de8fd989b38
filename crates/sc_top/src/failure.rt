ghost use Rattle.std.specs.Prelude.{◌≡◌, IsSome};
ghost use Rattle.sc_event.specs.Lookup.{comp_at};
ghost use Rattle.sc_event.specs.Line.{comp_name};
ghost use Rattle.sc_object.specs.Prelude.{NamesFace, face_for};
ghost use Rattle.sc_top.specs.Failure.{of_image_fault, of_join_fault, of_objects_fault, of_policy_fault, of_read_fault};
ghost use Rattle.sc_top.specs.Failure.{of_text_fault, of_words_fault};
ghost use Rattle.sc_top.specs.Objects.{face_name};
ghost use Rattle.sc_top.specs.Texts.{IsNamed, of_compile_fault};

use crate::input::ReadFault;
use crate::{BadJoin, TooLarge};
use sc_base::{Name, OutOfMemory};
use sc_compile::CompileFault;
use sc_event::{CompId, Interfaces};
use sc_image::ImageFault;
use sc_lex::Refusal;
use sc_object::{JoinFault, Objects, ObjectsFault};
use sc_policy::PolicyFault;
use sc_top_words::WordsFault;
use sc_types::TextFault;

/// Why a command has no output, or none that was written whole.
#[derive(Clone, Copy)]
pub(crate) enum Failure {
    Usage,
    Refused(Refusal),
    TooLarge(TooLarge),
    TooLong { limit: u32 },
    BadImage { cause: u8 },
    ReadFault,
    WriteFault,
    OutOfMemory,
    BadObject { index: u32, cause: u8 },
    BadJoin(BadJoin),
    NoSection { comp: Name },
    BadPolicy { line: u32 },
    Differs,
}

impl From<OutOfMemory> for Failure {
    ghost use Rattle.sc_top.specs.declared.failure.Failure.TheVariants as failure;

    ghost from_gives = { λ _ f. f ≡ failure.OutOfMemory };

    fn from(_: OutOfMemory) -> Failure {
        Failure::OutOfMemory
    }
}

impl From<WordsFault> for Failure {
    ghost from_gives = { λ fault f. f ≡ of_words_fault fault };

    fn from(fault: WordsFault) -> Failure {
        match fault {
            WordsFault::Usage => Failure::Usage,
            WordsFault::OutOfMemory => Failure::OutOfMemory,
        }
    }
}

impl From<ReadFault> for Failure {
    ghost from_gives = { λ fault f. f ≡ of_read_fault fault };

    fn from(fault: ReadFault) -> Failure {
        match fault {
            ReadFault::Source => Failure::ReadFault,
            ReadFault::Memory => Failure::OutOfMemory,
        }
    }
}

impl From<ObjectsFault> for Failure {
    ghost from_gives = { λ fault f. f ≡ of_objects_fault fault };

    fn from(fault: ObjectsFault) -> Failure {
        match fault {
            ObjectsFault::Bad { index, cause } => Failure::BadObject {
                index,
                cause: cause.number(),
            },
            ObjectsFault::OutOfMemory => Failure::OutOfMemory,
        }
    }
}

impl From<PolicyFault> for Failure {
    ghost from_gives = { λ fault f. f ≡ of_policy_fault fault };

    fn from(fault: PolicyFault) -> Failure {
        match fault {
            PolicyFault::Bad { line } => Failure::BadPolicy { line },
            PolicyFault::OutOfMemory => Failure::OutOfMemory,
        }
    }
}

impl From<TextFault> for Failure {
    ghost from_gives = { λ fault f. f ≡ of_text_fault fault };

    fn from(fault: TextFault) -> Failure {
        match fault {
            TextFault::Refused(refusal) => Failure::Refused(refusal),
            TextFault::OutOfMemory => Failure::OutOfMemory,
        }
    }
}

impl From<ImageFault> for Failure {
    ghost from_gives = { λ fault f. f ≡ of_image_fault fault };

    fn from(fault: ImageFault) -> Failure {
        match fault {
            ImageFault::Bad(bad) => Failure::BadImage {
                cause: bad.number(),
            },
            ImageFault::OutOfMemory => Failure::OutOfMemory,
        }
    }
}

/// The failure that a fault of the compiler is, by the names of the program.
pub(crate) fn compile_failure(interfaces: &Interfaces, fault: CompileFault) -> Failure
    requires { IsNamed interfaces.now fault }
    ensures { result ≡ of_compile_fault interfaces.now fault }
{
    match fault {
        CompileFault::CodeTooLarge { comp, bound } => Failure::TooLarge(TooLarge::Code {
            comp: comp_name(interfaces, comp),
            number: bound,
        }),
        CompileFault::DataTooLarge { comp, bytes } => Failure::TooLarge(TooLarge::Globals {
            comp: comp_name(interfaces, comp),
            number: bytes,
        }),
        CompileFault::FrameTooLarge {
            comp,
            function,
            bound,
        } => Failure::TooLarge(TooLarge::Frame {
            comp: comp_name(interfaces, comp),
            function,
            number: bound,
        }),
        CompileFault::OutOfMemory => Failure::OutOfMemory,
    }
}

/// The failure that a fault of linking is, by the names that the first object gives.
pub(crate) fn join_failure(objects: &Objects, fault: JoinFault) -> Failure
    requires { NamesFace objects.now fault }
    ensures { result ≡ of_join_fault objects.now fault }
{
    match fault {
        JoinFault::Differ { second } => Failure::BadJoin(BadJoin::Differ { second }),
        JoinFault::Twice { comp, .. } => Failure::BadJoin(BadJoin::Twice {
            comp: face_name(objects, comp),
        }),
        JoinFault::Missing { comp } => Failure::BadJoin(BadJoin::Missing {
            comp: face_name(objects, comp),
        }),
        JoinFault::OutOfMemory => Failure::OutOfMemory,
    }
}

// The name of a compartment.
fn face_name(objects: &Objects, comp: CompId) -> Name
    requires { IsSome (face_for objects.now comp) }
    ensures { result ≡ face_name objects.now comp }
{
    objects.face(comp).unwrap().name
}

// The name of a compartment.
fn comp_name(interfaces: &Interfaces, comp: CompId) -> Name
    requires { IsSome (comp_at interfaces.now comp) }
    ensures { result ≡ comp_name interfaces.now comp }
{
    interfaces.comp(comp).unwrap().name
}
