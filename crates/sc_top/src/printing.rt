ghost use Rattle.sc_top.specs.Prelude.{Prints, Wrote, bytes_of, joined_text, large_text, object_text, owner_text};
ghost use Rattle.sc_top.specs.Prelude.{refusal_text, status_text};
ghost use Rattle.std.specs.Prelude.{◌≡◌, ◌++◌, codes, decimal};

use crate::output::write_text;
use crate::status::{fixed_text, kind_text, phase_word};
use crate::{BadJoin, Status, TooLarge};
use itoa::Buffer;
use sc_base::Name;
use sc_edge::{Failed, Sink};
use sc_lex::Refusal;

/// Writes the text of a status, without memory. The status stands, whether or not it can be printed.
pub fn print<E: Sink>(err: &mut E, status: &Status)
    ensures { Prints (status_text status.now) (E.written err.old) (E.written err.new)
        (E.faults err.old) (E.faults err.new) }
{
    let _ = write_status(err, status);
}

fn write_status<E: Sink>(err: &mut E, status: &Status) -> Result<(), Failed>
    ensures { Wrote (status_text status.now) result (E.written err.old) (E.written err.new)
        (E.faults err.old) (E.faults err.new) }
{
    write_text(err, fixed_text(status))?;
    match status {
        Status::Refused(refusal) => write_refusal(err, refusal),
        Status::TooLarge(fault) => write_large(err, fault),
        Status::TooLong { limit } => write_number(err, u64::from(*limit)),
        Status::BadImage { cause } => write_number(err, u64::from(*cause)),
        Status::BadObject { index, cause } => write_object(err, *index, *cause),
        Status::BadJoin(fault) => write_join(err, fault),
        Status::NoSection { comp } => write_last_name(err, comp),
        Status::BadPolicy { line } => write_number(err, u64::from(*line)),
        _ => Ok(()),
    }
}

// The word of a phase and a line, as the last things of a line.
fn write_refusal<E: Sink>(err: &mut E, refusal: &Refusal) -> Result<(), Failed>
    ensures { Wrote (refusal_text refusal.now) result (E.written err.old) (E.written err.new)
        (E.faults err.old) (E.faults err.new) }
{
    write_text(err, phase_word(refusal.phase))?;
    write_text(err, b" line ")?;
    write_number(err, u64::from(refusal.line))
}

// What is too large, whose it is, and its bytes, as the last things of a line.
fn write_large<E: Sink>(err: &mut E, fault: &TooLarge) -> Result<(), Failed>
    ensures { Wrote (large_text fault.now) result (E.written err.old) (E.written err.new)
        (E.faults err.old) (E.faults err.new) }
{
    write_text(err, kind_text(fault))?;
    write_owner(err, fault)?;
    write_number(err, bytes_of(fault))
}

fn bytes_of(fault: &TooLarge) -> u64
    ensures { result ≡ bytes_of fault.now }
{
    match fault {
        TooLarge::Code { number, .. } => *number,
        TooLarge::Globals { number, .. } => *number,
        TooLarge::Frame { number, .. } => *number,
    }
}

// Whose it is.
fn write_owner<E: Sink>(err: &mut E, fault: &TooLarge) -> Result<(), Failed>
    ensures { Wrote (owner_text fault.now) result (E.written err.old) (E.written err.new)
        (E.faults err.old) (E.faults err.new) }
{
    match fault {
        TooLarge::Code { comp, .. } => write_name(err, comp),
        TooLarge::Globals { comp, .. } => write_name(err, comp),
        TooLarge::Frame { comp, function, .. } => {
            write_name(err, comp)?;
            write_name(err, function)
        }
    }
}

// The index of an object and the number of a cause, as the last things of a line.
fn write_object<E: Sink>(err: &mut E, index: u32, cause: u8) -> Result<(), Failed>
    ensures { Wrote (object_text index cause) result (E.written err.old) (E.written err.new)
        (E.faults err.old) (E.faults err.new) }
{
    let mut buffer = Buffer::new();
    write_text(err, buffer.format(index).as_bytes())?;
    write_text(err, b" ")?;
    write_number(err, u64::from(cause))
}

// Which object or compartment isn't linked, as the last thing of a line.
fn write_join<E: Sink>(err: &mut E, fault: &BadJoin) -> Result<(), Failed>
    ensures { Wrote (joined_text fault.now) result (E.written err.old) (E.written err.new)
        (E.faults err.old) (E.faults err.new) }
{
    match fault {
        BadJoin::Differ { second } => write_number(err, u64::from(*second)),
        BadJoin::Twice { comp } => write_last_name(err, comp),
        BadJoin::Missing { comp } => write_last_name(err, comp),
    }
}

// A name, as the last thing of a line.
fn write_last_name<E: Sink>(err: &mut E, name: &Name) -> Result<(), Failed>
    ensures { Wrote (name.now ++ codes "\n") result (E.written err.old) (E.written err.new)
        (E.faults err.old) (E.faults err.new) }
{
    write_text(err, name.as_bytes())?;
    write_text(err, b"\n")
}

// A name and a blank.
fn write_name<E: Sink>(err: &mut E, name: &Name) -> Result<(), Failed>
    ensures { Wrote (name.now ++ codes " ") result (E.written err.old) (E.written err.new)
        (E.faults err.old) (E.faults err.new) }
{
    write_text(err, name.as_bytes())?;
    write_text(err, b" ")
}

// A number, as the last thing of a line.
fn write_number<E: Sink>(err: &mut E, number: u64) -> Result<(), Failed>
    ensures { Wrote (decimal number ++ codes "\n") result (E.written err.old) (E.written err.new)
        (E.faults err.old) (E.faults err.new) }
{
    let mut buffer = Buffer::new();
    write_text(err, buffer.format(number).as_bytes())?;
    write_text(err, b"\n")
}
