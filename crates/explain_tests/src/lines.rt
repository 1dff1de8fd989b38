// The text that reports a run, written from the format of its lines.
use sc_base::{OutOfMemory, Text};
use sc_core::{RunEnd, SourceRun};
use sc_event::{CompId, Event, Interfaces};
use std::alloc::Global;
use std::test::Fail;

// A space and the name of a compartment.
fn append_comp(text: &mut Text, interfaces: &Interfaces, comp: CompId) -> Result<(), OutOfMemory> {
    text.append(b" ")?;
    if let Some(interface) = interfaces.comp(comp) {
        text.append(interface.name.as_bytes())?;
    }
    Ok(())
}

fn append_words(text: &mut Text, words: &[u32]) -> Result<(), OutOfMemory> {
    for word in words {
        text.append(b" ")?;
        text.append_signed(*word)?;
    }
    text.append(b"\n")
}

fn append_call(
    text: &mut Text,
    interfaces: &Interfaces,
    to: CompId,
    index: u16,
) -> Result<(), OutOfMemory> {
    append_comp(text, interfaces, to)?;
    text.append(b" ")?;
    if let Some(export) = interfaces.export(to, index) {
        text.append(export.name.as_bytes())?;
    }
    Ok(())
}

fn append_event(
    text: &mut Text,
    interfaces: &Interfaces,
    event: &Event,
) -> Result<(), OutOfMemory> {
    let what: &[u8] = match event {
        Event::Call { .. } => b"call",
        Event::Ret { .. } => b"ret",
        Event::Out { .. } => b"out",
        Event::In { .. } => b"in",
        Event::End { .. } => b"end",
    };
    text.append(what)?;
    append_comp(text, interfaces, event.performer())?;
    match event {
        Event::Call {
            to,
            index,
            args,
            ..
        } => {
            append_call(text, interfaces, *to, *index)?;
            append_words(text, args.as_slice())
        }
        Event::Ret { to, value, .. } => {
            append_comp(text, interfaces, *to)?;
            append_words(text, value.as_slice())
        }
        Event::Out { value, .. } | Event::In { value, .. } | Event::End { value, .. } => {
            append_words(text, &[*value])
        }
    }
}

/// The lines of a run: its events, and how it ends.
pub fn reported(alloc: Global, interfaces: &Interfaces, run: &SourceRun) -> Result<Text, Fail> {
    let mut text = Text::new(alloc);
    for event in run.trace.as_slice() {
        append_event(&mut text, interfaces, event)?;
    }
    match run.end {
        RunEnd::Ended => text.append(b"stop ended\n")?,
        RunEnd::TurnsOut => text.append(b"stop turns\n")?,
        RunEnd::EventsOut => text.append(b"stop events\n")?,
        RunEnd::Blamed { comp, cause, line } => {
            text.append(b"stop blamed")?;
            append_comp(&mut text, interfaces, comp)?;
            let words = format!(in alloc; " {cause:?} {line}\n")?;
            text.append(words.as_bytes())?;
        }
    }
    Ok(text)
}
