//! The entries of a compartment: a jump for each export, to the function that is called so.

ghost use Rattle.sc_base.specs.Prelude.{most_exports};
ghost use Rattle.sc_linker.specs.Prelude.{Fits, IsCodeAddress, Proto, TypedFunction, addresses_of, entry_address};
ghost use Rattle.sc_linker.specs.Prelude.{entry_jumps, function_address, number_by_name, place_named, word_of};
ghost use Rattle.std.specs.Prelude.{◌≡◌, ◌<◌, ◌≤◌, ◌++◌, All, IfOk, IfSome, IsSome, OnOk, Some, length, map, pos, ◌-ℤ◌};

use crate::layout::{SectionLayout, entry_address};
use crate::relocate::jump_offset;
use rv_code::{Instr, Reg, encode};
use sc_base::{NameList, OutOfMemory, Words};
use sc_core::{TypedFunction, TypedSection};
use sc_event::Proto;
use std::alloc::Global;

// The names of functions in order.
fn names_of(alloc: Global, functions: &[TypedFunction]) -> Result<NameList, OutOfMemory>
    ensures { IfOk result (λ names. names ≡ map {A = TypedFunction} (λ f. f.name) functions.now) }
{
    let mut names = NameList::new(alloc);
    for function in functions {
        names.push(function.name)?;
    }
    Ok(names)
}

// The jump at the entry of this index, to the first function of that name.
fn entry_jump(layout: &SectionLayout, names: &NameList, index: u16, proto: &Proto) -> Instr
    requires functions { All (IsCodeAddress layout.now.comp) layout.now.functions }
    requires here { IsCodeAddress layout.now.comp (entry_address layout.now.comp index) }
    requires named { IsSome (number_by_name names.now proto.now.name) }
    requires within { IfSome (number_by_name names.now proto.now.name)
        (λ number. number < length layout.now.functions) }
    ensures { result ≡ Instr.Jal 0 (pos (function_address (addresses_of layout.now)
        (number_by_name names.now proto.now.name)) -ℤ pos (entry_address layout.now.comp index)) }
{
    let number = names.number_of(&proto.name).unwrap();
    Instr::Jal {
        rd: Reg::new(0).unwrap(),
        imm: jump_offset(
            entry_address(layout.comp, index),
            layout.function(number as usize),
        ),
    }
}

/// The words of the jumps at a compartment's entries.
pub fn push_entries(
    alloc: Global,
    words: &mut Words,
    layout: &SectionLayout,
    section: &TypedSection,
    exports: &[Proto],
) -> Result<(), OutOfMemory>
    requires functions { All (IsCodeAddress layout.now.comp) layout.now.functions }
    requires each { length layout.now.functions ≡ length section.now.functions }
    requires room { Fits layout.now.comp (entry_address layout.now.comp 0) (length exports.now) }
    requires few { length exports.now ≤ most_exports }
    requires named { All {X = Proto} (λ proto. IsSome (place_named proto.name (Some section.now))) exports.now }
    ensures { OnOk result (words.new ≡ words.old ++
        map word_of (entry_jumps (addresses_of layout.now) layout.now.comp 0 section.now exports.now)) }
{
    let names = names_of(alloc, section.functions.as_slice())?;
    let mut index = 0;
    for proto in exports {
        words.push(encode(entry_jump(layout, &names, index, proto)))?;
        index += 1;
    }
    Ok(())
}
