//! The functions of a program, and those that calls lead to.

ghost use Rattle.sc_run.specs.Prelude.{EntryAt, FoundAt, entry_in, is_word, place_named};
ghost use Rattle.sc_run.specs.Numbers.{HasFewVariables};
ghost use Rattle.sc_core.specs.WellTyped.{IsWellTyped};
ghost use Rattle.std.specs.Prelude.{◌≡◌, bytes_eq, IfSome, Some, slice_get};
ghost use Rattle.std.specs.List.{list_all};

use crate::work::Callee;
use sc_core::{Program, TypedFunction, TypedSection, Value};
use sc_event::{CompId, Entry};

/// Whether each value is a word, which may cross.
pub fn are_words(values: &[Value]) -> bool
    ensures { result ≡ list_all is_word values.now }
{
    values.iter().all(|value| is_word(*value))
}

fn is_word(value: Value) -> bool
    ensures { result ≡ is_word value }
{
    matches!(value, Value::Word(_))
}

fn is_named(function: &TypedFunction, name: &[u8]) -> bool
    ensures { result ≡ bytes_eq function.now.name name.now }
{
    function.name.as_bytes() == name
}

// The place of the first function of this name.
fn place_named(section: &TypedSection, name: &[u8]) -> Option<usize>
    ensures { result ≡ place_named name.now (Some section.now) }
{
    section
        .functions
        .as_slice()
        .iter()
        .position(|function| is_named(function, name))
}

// The place of the function that an entry leads to.
fn entry_place(
    program: &Program,
    comp: CompId,
    section: &TypedSection,
    entry: Entry,
) -> Option<usize>
    requires { slice_get program.now.sections comp ≡ Some section.now }
    ensures { result ≡ entry_in program.now comp entry }
{
    match entry {
        Entry::Main => place_named(section, b"main"),
        Entry::Export(index) => match program.interfaces().export(comp, index) {
            None => None,
            Some(proto) => place_named(section, proto.name.as_bytes()),
        },
    }
}

/// The function that an entry of a compartment leads to.
pub fn entry_callee<'a>(program: &'a Program, comp: &'a CompId, entry: Entry) -> Option<Callee<'a>>
    ensures found { EntryAt program.now comp.now entry result }
    ensures variables { IfSome result (λ callee. HasFewVariables callee.structs.now callee.function.now) }
{
    match program.tree().sections.get(comp.number() as usize) {
        None => None,
        Some(section) => match entry_place(program, *comp, section, entry) {
            None => None,
            Some(number) => callee_in(program, comp, number, section),
        },
    }
}

/// The function of a compartment at this place.
pub fn callee_at<'a>(program: &'a Program, comp: &'a CompId, number: usize) -> Option<Callee<'a>>
    ensures found { FoundAt program.now comp.now number result }
    ensures variables { IfSome result (λ callee. HasFewVariables callee.structs.now callee.function.now) }
{
    match program.tree().sections.get(comp.number() as usize) {
        None => None,
        Some(section) => callee_in(program, comp, number, section),
    }
}

fn callee_in<'a>(
    program: &'a Program,
    comp: &'a CompId,
    number: usize,
    section: &'a TypedSection,
) -> Option<Callee<'a>>
    requires typed { IsWellTyped program.now }
    requires section { slice_get program.now.sections comp.now ≡ Some section.now }
    ensures found { FoundAt program.now comp.now number result }
    ensures variables { IfSome result (λ callee. HasFewVariables callee.structs.now callee.function.now) }
{
    match section.functions.get(number) {
        None => None,
        Some(function) => Some(Callee {
            comp,
            number,
            structs: section.structs.as_slice(),
            function,
        }),
    }
}
