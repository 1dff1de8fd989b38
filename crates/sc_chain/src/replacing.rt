//! Texts in which compartments perform their parts of a trace.

ghost use Rattle.sc_base.specs.Prelude.{most_events};
ghost use Rattle.sc_chain.specs.Prelude.{Accepts, IsReplaced, IsScripted, IsSource, is_listed, legal, part};
ghost use Rattle.sc_chain.specs.Prelude.{performing_text, recomposed, replacement_of};
ghost use Rattle.std.specs.Prelude.{◌≡◌, ◌<◌, ◌≤◌, ◌^◌, true, length, map, All, IfOk};
ghost use Rattle.sc_core.specs.declared.program.ProgramTree.{ProgramTree};
ghost use Rattle.sc_back_replay_laws.specs.Replay.{HasWords};
ghost use Rattle.sc_base.specs.Prelude.{IsWord};

use crate::composed::{Replacement, recompose};
use sc_back::back_section;
use sc_base::{OutOfMemory, Text};
use sc_event::{CompId, Event, Interfaces};
use sc_lex::TextFault;
use sc_script::part;
use sc_types::{SourceText, accepted_or_refused, one_program};
use sqlite_items::Items;
use std::alloc::Global;

fn are_words(words: &[u32])
    ensures { All IsWord words.now }
{}

fn is_word(word: u32)
    ensures { IsWord word }
{}

fn has_words(event: &Event)
    ensures { HasWords event.now }
{
    match event {
        Event::Call { args, .. } => are_words(args.as_slice()),
        Event::Ret { value: None, .. } => (),
        Event::Ret {
            value: Some(word),
            ..
        } => is_word(*word),
        Event::Out { value, .. } => is_word(*value),
        Event::In { value, .. } => is_word(*value),
        Event::End { value, .. } => is_word(*value),
    }
}

// States for proofs that the values of events are words; it does nothing.
pub(crate) fn have_words(events: &[Event])
    ensures { All HasWords events.now }
{
    for event in events {
        has_words(event);
    }
}

// The text of a section by which a compartment performs its part of a trace.
pub(crate) fn performing_text(
    alloc: Global,
    interfaces: &Interfaces,
    trace: &[Event],
    comp: CompId,
) -> Result<Text, OutOfMemory>
    requires { length trace.now ≤ most_events }
    ensures { IfOk result (λ text. text ≡ performing_text interfaces.now trace.now comp) }
{
    let script = part(alloc, trace, interfaces.main, comp)?;
    let text = back_section(alloc, interfaces, comp, script.as_slice())?;
    Ok(text)
}

fn replacements(
    alloc: Global,
    interfaces: &Interfaces,
    trace: &[Event],
    comps: &[CompId],
) -> Result<Items<Replacement>, OutOfMemory>
    requires { length trace.now ≤ most_events }
    ensures { IfOk result (λ items. items ≡ map (replacement_of interfaces.now trace.now) comps.now) }
{
    let mut items = Items::new(alloc);
    for comp in comps {
        let text = performing_text(alloc, interfaces, trace, *comp)?;
        items.push(Replacement { comp: *comp, text })?;
    }
    Ok(items)
}

// Reads a text that is accepted, so that it can fail only for want of memory.
fn read_accepted(alloc: Global, text: &[u8]) -> Result<SourceText, OutOfMemory>
    requires { (program : ProgramTree) × Accepts text.now program }
    ensures bytes { IfOk result (λ new. new.bytes ≡ text.now) }
    ensures source { IfOk result IsSource }
{
    accepted_or_refused();
    match SourceText::read(alloc, text) {
        Ok(new) => Ok(new),
        Err(TextFault::OutOfMemory) => Err(OutOfMemory),
        Err(TextFault::Refused(_)) => unreachable!(),
    }
}

/// The text in which these compartments perform their parts of a trace, in place of running their functions. A
/// compartment may be named twice.
pub fn recomposed_text(
    alloc: Global,
    source: &SourceText,
    trace: &[Event],
    comps: &[CompId],
) -> Result<Text, OutOfMemory>
    requires { length trace.now ≤ most_events }
    ensures { IfOk result (λ text. text ≡ recomposed source.now trace.now (is_listed comps.now)) }
{
    let replacements = replacements(alloc, source.program().interfaces(), trace, comps)?;
    recompose(alloc, source, replacements.as_slice())
}

/// The same text, as it is read. It is accepted, and means what the compartments' scripts say, whether or not memory
/// suffices to write it.
pub fn replaced(
    alloc: Global,
    source: &SourceText,
    trace: &[Event],
    comps: &[CompId],
) -> Result<SourceText, OutOfMemory>
    requires allowed { legal source.now.program.interfaces trace.now ≡ true }
    requires few { length trace.now ≤ most_events }
    requires known { All (λ comp. comp < length source.now.program.interfaces.comps) comps.now }
    ensures scripted { (program : ProgramTree) × IsScripted source.now trace.now (is_listed comps.now) program }
    ensures source { IfOk result IsSource }
    ensures replaced { IfOk result (IsReplaced source.now trace.now (is_listed comps.now)) }
{
    have_words(trace);
    one_program();
    source.program();
    let text = recomposed_text(alloc, source, trace, comps)?;
    let new = read_accepted(alloc, text.as_bytes())?;
    Ok(new)
}
