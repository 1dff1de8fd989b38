ghost use Rattle.std.specs.Prelude.{◌≡◌};
ghost use Rattle.sc_top.specs.Status.{fixed_text, join_text, kind_text, phase_word, status_number};
ghost use Rattle.sc_top.specs.Failure.{status_of};

use crate::failure::Failure;
use sc_base::Name;
use sc_lex::{Phase, Refusal};
use sc_top_words::usage;

/// What of a program is too large to be compiled, by the names of its compartment and function, and the bytes that it
/// takes, or takes at most.
#[derive(Clone, Copy)]
pub enum TooLarge {
    /// The code of a compartment's functions: more than 1,048,576 bytes.
    Code {
        comp: Name,
        number: u64,
    },
    /// The globals of a compartment: more than 458,752 bytes.
    Globals {
        comp: Name,
        number: u64,
    },
    /// The frame of a function: more than 32,768 bytes.
    Frame {
        comp: Name,
        function: Name,
        number: u64,
    },
}

/// Why objects aren't linked.
#[derive(Clone, Copy)]
pub enum BadJoin {
    /// The object of this index, counted from 0, says something else of the program than object 0.
    Differ { second: u32 },
    /// Two objects are of the compartment of this name.
    Twice { comp: Name },
    /// None is of the compartment of this name.
    Missing { comp: Name },
}

/// The program's answer.
#[derive(Clone, Copy)]
pub enum Status {
    /// The whole output was written.
    Done,
    /// The words are no command.
    Usage,
    /// The text fails a phase.
    Refused(Refusal),
    /// The text is a program that is too large to be compiled.
    TooLarge(TooLarge),
    /// More bytes came than the command takes, or the text in them has more bytes than are compiled.
    TooLong { limit: u32 },
    /// The bytes are no image: the number of the first thing that is wrong with them, 1 to 9 in the order of the file.
    BadImage { cause: u8 },
    /// The source failed.
    ReadFault,
    /// The sink failed.
    WriteFault,
    /// Memory ran out before anything was written.
    OutOfMemory,
    /// The object of this index, counted from 0, is bad: the number of the first thing that is wrong with it, 1 to 9 in
    /// the order of its bytes.
    BadObject { index: u32, cause: u8 },
    /// The objects aren't linked.
    BadJoin(BadJoin),
    /// The program has no section of this name.
    NoSection { comp: Name },
    /// The bytes begin with no policy: the first line with which none begins, counted from 1. 4294967295 is the number
    /// of all later lines.
    BadPolicy { line: u32 },
    /// The image isn't that of the program but for compartments whose code and data may be anybody's.
    Differs,
}

impl Status {
    /// The exit status of the program.
    pub fn number(&self) -> u8
        ensures { result ≡ status_number self.now }
    {
        match self {
            Status::Done => 0,
            Status::Usage => 2,
            Status::Refused(_) => 3,
            Status::TooLarge(_) => 4,
            Status::TooLong { .. } => 5,
            Status::BadImage { .. } => 6,
            Status::ReadFault => 7,
            Status::WriteFault => 8,
            Status::OutOfMemory => 9,
            Status::BadObject { .. } => 11,
            Status::BadJoin(_) => 12,
            Status::NoSection { .. } => 13,
            Status::BadPolicy { .. } => 14,
            Status::Differs => 15,
        }
    }
}

/// What is written of a status to standard error, or the part of it before what differs from text to text.
pub(crate) fn fixed_text(status: &Status) -> &'static [u8]
    ensures { result.now ≡ fixed_text status.now }
{
    match status {
        Status::Done => b"",
        Status::Usage => usage(),
        Status::Refused(_) => b"secomp: refused ",
        Status::TooLarge(_) => b"secomp: too large ",
        Status::TooLong { .. } => b"secomp: too long ",
        Status::BadImage { .. } => b"secomp: bad image ",
        Status::ReadFault => b"secomp: read fault\n",
        Status::WriteFault => b"secomp: write fault\n",
        Status::OutOfMemory => b"secomp: out of memory\n",
        Status::BadObject { .. } => b"secomp: bad object ",
        Status::BadJoin(fault) => join_text(fault),
        Status::NoSection { .. } => b"secomp: no section ",
        Status::BadPolicy { .. } => b"secomp: bad policy line ",
        Status::Differs => b"secomp: image differs\n",
    }
}

// Why objects aren't linked, in words.
fn join_text(fault: &BadJoin) -> &'static [u8]
    ensures { result.now ≡ join_text fault.now }
{
    match fault {
        BadJoin::Differ { .. } => b"secomp: objects differ 0 ",
        BadJoin::Twice { .. } => b"secomp: object twice ",
        BadJoin::Missing { .. } => b"secomp: object missing ",
    }
}

/// The word of a phase.
pub(crate) fn phase_word(phase: Phase) -> &'static [u8]
    ensures { result.now ≡ phase_word phase }
{
    match phase {
        Phase::Lex => b"lex",
        Phase::Syntax => b"syntax",
        Phase::Names => b"names",
        Phase::Types => b"types",
        Phase::Interface => b"interface",
        Phase::Count => b"count",
    }
}

/// What is too large, in a word.
pub(crate) fn kind_text(fault: &TooLarge) -> &'static [u8]
    ensures { result.now ≡ kind_text fault.now }
{
    match fault {
        TooLarge::Code { .. } => b"code of ",
        TooLarge::Globals { .. } => b"data of ",
        TooLarge::Frame { .. } => b"frame of ",
    }
}

impl From<Failure> for Status {
    ghost from_gives = { λ failure status. status ≡ status_of failure };

    fn from(failure: Failure) -> Status {
        match failure {
            Failure::Usage => Status::Usage,
            Failure::Refused(refusal) => Status::Refused(refusal),
            Failure::TooLarge(fault) => Status::TooLarge(fault),
            Failure::TooLong { limit } => Status::TooLong { limit },
            Failure::BadImage { cause } => Status::BadImage { cause },
            Failure::ReadFault => Status::ReadFault,
            Failure::WriteFault => Status::WriteFault,
            Failure::OutOfMemory => Status::OutOfMemory,
            Failure::BadObject { index, cause } => Status::BadObject { index, cause },
            Failure::BadJoin(fault) => Status::BadJoin(fault),
            Failure::NoSection { comp } => Status::NoSection { comp },
            Failure::BadPolicy { line } => Status::BadPolicy { line },
            Failure::Differs => Status::Differs,
        }
    }
}
