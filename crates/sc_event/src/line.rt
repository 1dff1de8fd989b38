//! The lines that report events.

ghost use Rattle.sc_event.specs.Prelude.{IsKnown, comp_at, comp_name, event_line, export_at, export_name, line};
ghost use Rattle.sc_event.specs.Prelude.{spaced_names, spaced_words};
ghost use Rattle.std.specs.Prelude.{◌≡◌, ◌++◌, codes, IsSome, IfOk, OnOk};

use crate::{CompId, Event, Interfaces, Name, OutOfMemory, Text};
use std::alloc::Global;

/// The line that reports the event, by the names that its numbers stand for.
pub fn event_text(
    alloc: Global,
    interfaces: &Interfaces,
    event: &Event,
) -> Result<Text, OutOfMemory>
    requires { IsKnown interfaces.now event.now }
    ensures { IfOk result (λ text. text ≡ event_line interfaces.now event.now) }
{
    let mut text = Text::new(alloc);
    append_event(&mut text, interfaces, event)?;
    Ok(text)
}

/// Adds the line that reports the event. After an `Err` a part of it may have been added.
pub fn append_event(
    text: &mut Text,
    interfaces: &Interfaces,
    event: &Event,
) -> Result<(), OutOfMemory>
    requires { IsKnown interfaces.now event.now }
    ensures { OnOk result (text.new ≡ text.old ++ event_line interfaces.now event.now) }
{
    match event {
        Event::Call {
            from,
            to,
            index,
            args,
        } => {
            let names = [
                comp_name(interfaces, *from),
                comp_name(interfaces, *to),
                export_name(interfaces, *to, *index),
            ];
            append_line(text, b"call", &names, args.as_slice())
        }
        Event::Ret { from, to, value } => {
            let names = [comp_name(interfaces, *from), comp_name(interfaces, *to)];
            append_line(text, b"ret", &names, value.as_slice())
        }
        Event::Out { comp, value } => {
            append_line(text, b"out", &[comp_name(interfaces, *comp)], &[*value])
        }
        Event::In { comp, value } => {
            append_line(text, b"in", &[comp_name(interfaces, *comp)], &[*value])
        }
        Event::End { comp, value } => {
            append_line(text, b"end", &[comp_name(interfaces, *comp)], &[*value])
        }
    }
}

fn comp_name(interfaces: &Interfaces, comp: CompId) -> Name
    requires { IsSome (comp_at interfaces.now comp) }
    ensures { result ≡ comp_name interfaces.now comp }
{
    interfaces.comp(comp).unwrap().name
}

fn export_name(interfaces: &Interfaces, comp: CompId, index: u16) -> Name
    requires { IsSome (export_at interfaces.now comp index) }
    ensures { result ≡ export_name interfaces.now comp index }
{
    interfaces.export(comp, index).unwrap().name
}

// What happened, the names and the words, with spaces between them.
fn append_line(
    text: &mut Text,
    what: &[u8],
    names: &[Name],
    words: &[u32],
) -> Result<(), OutOfMemory>
    ensures { OnOk result (text.new ≡ text.old ++ line what.now names.now words.now) }
{
    text.append(what)?;
    append_names(text, names)?;
    append_words(text, words)?;
    text.push(b'\n')
}

fn append_names(text: &mut Text, names: &[Name]) -> Result<(), OutOfMemory>
    ensures { OnOk result (text.new ≡ text.old ++ spaced_names names.now) }
{
    for name in names {
        text.push(b' ')?;
        text.append(name.as_bytes())?;
    }
    Ok(())
}

fn append_words(text: &mut Text, words: &[u32]) -> Result<(), OutOfMemory>
    ensures { OnOk result (text.new ≡ text.old ++ spaced_words words.now) }
{
    for word in words {
        text.push(b' ')?;
        text.append_signed(*word)?;
    }
    Ok(())
}
