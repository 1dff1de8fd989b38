//! The code of a compartment: its entries, and then its functions.

ghost use Rattle.sc_linker.specs.Prelude.{AreKnown, CanBeLinked, CodeTree, Fits, IsCodeAddress, IsWhole, addresses_of};
ghost use Rattle.sc_linker.specs.Prelude.{instructions, linked_codes, section_code, word_of};
ghost use Rattle.std.specs.Prelude.{◌≡◌, ◌++◌, All, IfOk, OnOk, length, map};

use crate::entry::push_entries;
use crate::layout::{SectionLayout, entry_address};
use crate::relocate::link_code;
use sc_base::{OutOfMemory, Words};
use sc_core::TypedSection;
use sc_event::{CompId, Proto};
use sc_tac::Code;
use std::alloc::Global;

// The words of codes one after the other, from an address on.
fn push_codes(
    words: &mut Words,
    layout: &SectionLayout,
    address: u32,
    codes: &[Code],
) -> Result<(), OutOfMemory>
    requires functions { All (IsCodeAddress layout.now.comp) layout.now.functions }
    requires room { Fits layout.now.comp address (instructions codes.now) }
    requires known { All {X = CodeTree} (λ code.
        AreKnown (length layout.now.functions) (length layout.now.globals) code.relocations) codes.now }
    ensures words { OnOk result (words.new ≡ words.old ++
        map word_of (linked_codes (addresses_of layout.now) address codes.now)) }
    ensures whole { OnOk result (All IsWhole codes.now) }
{
    let mut next = address;
    for code in codes {
        let code = code.tree();
        link_code(words, layout, next, code)?;
        next += 4 * code.instrs.len() as u32;
    }
    Ok(())
}

/// The words of a compartment's code.
pub fn section_code(
    alloc: Global,
    comp: CompId,
    exports: &[Proto],
    section: &TypedSection,
    codes: &[Code],
) -> Result<Words, OutOfMemory>
    requires { CanBeLinked comp exports.now section.now codes.now }
    ensures words { IfOk result (λ words. words ≡ map word_of (section_code comp exports.now section.now codes.now)) }
    // Code is made of instructions.
    ensures whole { IfOk result (λ _. All IsWhole codes.now) }
{
    let entries = exports.len() as u16;
    let layout = SectionLayout::new(alloc, comp, entries, section, codes)?;
    let mut words = Words::new(alloc);
    push_entries(alloc, &mut words, &layout, section, exports)?;
    push_codes(&mut words, &layout, entry_address(comp, entries), codes)?;
    Ok(words)
}
