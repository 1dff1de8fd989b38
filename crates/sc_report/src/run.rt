ghost use Rattle.sc_event.specs.Prelude.{IsKnown};
ghost use Rattle.std.specs.Prelude.{◌≡◌, ◌++◌, All, IfOk, OnOk};
ghost use Rattle.sc_base.specs.declared.stop.Stop.TheVariants.{Trap};
ghost use Rattle.sc_report.specs.Report.{events_text, cause_word, number_end, cause_end, blame_line, end_line};
ghost use Rattle.sc_report.specs.Report.{meaning_text, reason_word, address_end, stop_line, run_text};

use itoa::Buffer;
use sc_base::{OutOfMemory, Stop, Text, TrapReason};
use sc_core::{Cause, RunEnd, SourceRun};
use sc_event::{Event, Interfaces, append_event};
use std::alloc::Global;

/// The events of a source run, and how it ends.
pub fn meaning_text(
    alloc: Global,
    interfaces: &Interfaces,
    run: &SourceRun,
) -> Result<Text, OutOfMemory>
    requires { All (IsKnown interfaces.now) run.now.trace }
    ensures { IfOk result (λ text. text ≡ meaning_text interfaces.now run.now) }
{
    let mut text = events_text(alloc, interfaces, run.trace.as_slice())?;
    append_end(&mut text, interfaces, run.end)?;
    Ok(text)
}

/// The events of a machine run, and why it stops.
pub fn run_text(
    alloc: Global,
    interfaces: &Interfaces,
    trace: &[Event],
    stop: Stop,
) -> Result<Text, OutOfMemory>
    requires { All (IsKnown interfaces.now) trace.now }
    ensures { IfOk result (λ text. text ≡ run_text interfaces.now trace.now stop) }
{
    let mut text = events_text(alloc, interfaces, trace)?;
    append_stop(&mut text, stop)?;
    Ok(text)
}

fn events_text(
    alloc: Global,
    interfaces: &Interfaces,
    events: &[Event],
) -> Result<Text, OutOfMemory>
    requires { All (IsKnown interfaces.now) events.now }
    ensures { IfOk result (λ text. text ≡ events_text interfaces.now events.now) }
{
    let mut text = Text::new(alloc);
    for event in events {
        append_event(&mut text, interfaces, event)?;
    }
    Ok(text)
}

fn append_end(text: &mut Text, interfaces: &Interfaces, end: RunEnd) -> Result<(), OutOfMemory>
    ensures { OnOk result (text.new ≡ text.old ++ end_line interfaces.now end) }
{
    match end {
        RunEnd::Ended => text.append(b"stop ended\n"),
        RunEnd::Blamed { comp, cause, line } => {
            append_blame(text, interfaces.comp_name(comp), cause, line)
        }
        RunEnd::TurnsOut => text.append(b"stop turns\n"),
        RunEnd::EventsOut => text.append(b"stop events\n"),
    }
}

fn append_blame(text: &mut Text, comp: &[u8], cause: Cause, line: u32) -> Result<(), OutOfMemory>
    ensures { OnOk result (text.new ≡ text.old ++ blame_line comp.now cause line) }
{
    text.append(b"stop blamed ")?;
    text.append(comp)?;
    append_cause(text, cause, line)
}

// A cause and its line, as the last things of a line.
fn append_cause(text: &mut Text, cause: Cause, line: u32) -> Result<(), OutOfMemory>
    ensures { OnOk result (text.new ≡ text.old ++ cause_end cause line) }
{
    text.push(b' ')?;
    text.append(cause_word(cause))?;
    append_number(text, line)
}

pub(crate) fn append_number(text: &mut Text, line: u32) -> Result<(), OutOfMemory>
    ensures { OnOk result (text.new ≡ text.old ++ number_end line) }
{
    let mut buffer = Buffer::new();
    text.push(b' ')?;
    text.append(buffer.format(line).as_bytes())?;
    text.push(b'\n')
}

// A word and a number, as a line.
pub(crate) fn append_count(text: &mut Text, word: &[u8], count: usize) -> Result<(), OutOfMemory>
    ensures { OnOk result (text.new ≡ text.old ++ (word.now ++ number_end count)) }
{
    let mut buffer = Buffer::new();
    text.append(word)?;
    text.push(b' ')?;
    text.append(buffer.format(count).as_bytes())?;
    text.push(b'\n')
}

pub(crate) fn cause_word(cause: Cause) -> &'static [u8]
    ensures { result.now ≡ cause_word cause }
{
    match cause {
        Cause::Overflow => b"Overflow",
        Cause::ZeroDivisor => b"ZeroDivisor",
        Cause::BadShift => b"BadShift",
        Cause::OutOfBounds => b"OutOfBounds",
        Cause::Dangling => b"Dangling",
        Cause::NullUse => b"NullUse",
        Cause::Indeterminate => b"Indeterminate",
        Cause::BadType => b"BadType",
        Cause::BadPointer => b"BadPointer",
        Cause::NoReturn => b"NoReturn",
        Cause::BadFree => b"BadFree",
    }
}

pub(crate) fn append_stop(text: &mut Text, stop: Stop) -> Result<(), OutOfMemory>
    ensures { OnOk result (text.new ≡ text.old ++ stop_line stop) }
{
    match stop {
        Stop::Ended => text.append(b"stop ended\n"),
        Stop::EventsOut => text.append(b"stop events\n"),
        Stop::StepsOut => text.append(b"stop steps\n"),
        Stop::Trap { reason, pc } => append_trap(text, reason, pc),
    }
}

fn append_trap(text: &mut Text, reason: TrapReason, pc: u32) -> Result<(), OutOfMemory>
    ensures { OnOk result (text.new ≡ text.old ++ stop_line (Trap reason pc)) }
{
    text.append(b"stop trap ")?;
    text.append(reason_word(reason))?;
    append_address(text, pc)
}

fn reason_word(reason: TrapReason) -> &'static [u8]
    ensures { result.now ≡ reason_word reason }
{
    match reason {
        TrapReason::Owner => b"owner",
        TrapReason::Misaligned => b"misaligned",
        TrapReason::Illegal => b"illegal",
        TrapReason::BadJump => b"badjump",
        TrapReason::NoImport => b"noimport",
        TrapReason::BadCall => b"badcall",
        TrapReason::Breakpoint => b"breakpoint",
        TrapReason::BadFree => b"badfree",
    }
}

// An address in eight hexadecimal digits, as the last thing of a line.
fn append_address(text: &mut Text, address: u32) -> Result<(), OutOfMemory>
    ensures { OnOk result (text.new ≡ text.old ++ address_end address) }
{
    let mut digits = [0; 8];
    hex::encode_to_slice(address.to_be_bytes(), &mut digits).unwrap();
    text.append(b" 0x")?;
    text.append(&digits)?;
    text.push(b'\n')
}
