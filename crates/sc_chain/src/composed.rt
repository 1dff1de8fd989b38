//! Texts in which some sections are replaced.

ghost use Rattle.sc_chain.specs.Prelude.{IsSource, joined_text, section_at, text_for};
ghost use Rattle.std.specs.Prelude.{◌≡◌, ◌++◌, ◌<◌, ◌≤◌, length, slice_get, Some, IfOk, OnOk};
ghost use Rattle.std.specs.Option.{option_copied};

use sc_base::{OutOfMemory, Text};
use sc_event::CompId;
use sc_image::layout::comp_id;
use sc_types::SourceText;
use std::alloc::Global;

/// A text that is to stand in place of a compartment's section.
#[derive(Drop)]
pub struct Replacement {
    pub comp: CompId,
    pub text: Text,
}

// What stands in place of a compartment's section, `None` where that is kept.
fn text_for(replacements: &[Replacement], comp: CompId) -> Option<&[u8]>
    ensures { option_copied result ≡ text_for replacements.now comp }
{
    for replacement in replacements {
        if replacement.comp == comp {
            return Some(replacement.text.as_bytes());
        }
    }
    None
}

// The section of a compartment, or what stands in its place.
fn append_section(
    text: &mut Text,
    source: &SourceText,
    replacements: &[Replacement],
    comp: CompId,
) -> Result<(), OutOfMemory>
    requires { comp < length source.now.program.interfaces.comps }
    ensures { OnOk result (text.new ≡ text.old ++ section_at source.now (text_for replacements.now) comp) }
{
    match text_for(replacements, comp) {
        Some(replacement) => text.append(replacement),
        None => text.append(source.section(comp)),
    }
}

/// The text in which the sections of these compartments are replaced, by the first replacement of each: the preamble
/// and all other sections stand byte for byte. The replacements needn't be sections.
pub fn recompose(
    alloc: Global,
    source: &SourceText,
    replacements: &[Replacement],
) -> Result<Text, OutOfMemory>
    ensures { IfOk result (λ text. text ≡ joined_text source.now (text_for replacements.now)) }
{
    let mut text = Text::new(alloc);
    text.append(source.preamble())?;
    // Every program is well typed, so that it has few compartments.
    let comps = &source.program().tree().interfaces.comps;
    for number in 0..comps.len() {
        append_section(&mut text, source, replacements, comp_id(number))?;
    }
    Ok(text)
}
