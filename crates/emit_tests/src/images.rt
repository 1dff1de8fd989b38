// Images that are written by hand, byte by byte.
use crate::linking::{Section, entry_address, number_of};
use crate::placing::Choice;
use byteorder::{ByteOrder, LittleEndian};
use sc_base::OutOfMemory;
use sc_core::{TypedGlobal, TypedStruct, cells_of};
use sc_event::{CompId, Entry, Import, Interface, Proto};
use sc_tac::{TacSection, TacTree};
use std::alloc::Global;

fn append_half(bytes: &mut Vec<u8>, half: u16) -> Result<(), OutOfMemory> {
    let mut two = [0; 2];
    LittleEndian::write_u16(&mut two, half);
    bytes.extend_from_slice(&two)?;
    Ok(())
}

fn append_word(bytes: &mut Vec<u8>, word: u32) -> Result<(), OutOfMemory> {
    let mut four = [0; 4];
    LittleEndian::write_u32(&mut four, word);
    bytes.extend_from_slice(&four)?;
    Ok(())
}

// A number that isn't too large for its field.
fn append_byte(bytes: &mut Vec<u8>, number: usize) -> Result<(), OutOfMemory> {
    bytes.push(u8::try_from(number).unwrap_or(u8::MAX))?;
    Ok(())
}

fn append_name(bytes: &mut Vec<u8>, name: &[u8]) -> Result<(), OutOfMemory> {
    append_byte(bytes, name.len())?;
    bytes.extend_from_slice(name)?;
    Ok(())
}

fn flags_of(imports: &[Import], heap: bool) -> u8 {
    u8::from(imports.contains(&Import::Input))
        | u8::from(imports.contains(&Import::Output)) << 1
        | u8::from(heap) << 2
}

/// How many there are of what doesn't exceed its field.
fn half_of(count: usize) -> u16 {
    u16::try_from(count).unwrap_or(u16::MAX)
}

fn append_exports(bytes: &mut Vec<u8>, comp: CompId, exports: &[Proto]) -> Result<(), OutOfMemory> {
    append_half(bytes, half_of(exports.len()))?;
    let mut index = 0u16;
    for export in exports {
        append_name(bytes, export.name.as_bytes())?;
        append_byte(bytes, export.params.as_slice().len())?;
        bytes.push(u8::from(export.result.is_some()))?;
        append_word(bytes, entry_address(comp, index))?;
        index = index.wrapping_add(1);
    }
    Ok(())
}

fn is_function(import: &Import) -> bool {
    match import {
        Import::Function { .. } => true,
        _ => false,
    }
}

fn append_imports(bytes: &mut Vec<u8>, imports: &[Import]) -> Result<(), OutOfMemory> {
    let functions = imports.iter().filter(|import| is_function(import));
    append_half(bytes, half_of(functions.count()))?;
    for import in imports {
        if let Import::Function { comp, index } = import {
            bytes.push(comp.number())?;
            append_half(bytes, *index)?;
        }
    }
    Ok(())
}

fn append_code(bytes: &mut Vec<u8>, words: &[u32]) -> Result<(), OutOfMemory> {
    append_word(bytes, number_of(words.len()).wrapping_mul(4))?;
    for word in words {
        append_word(bytes, *word)?;
    }
    Ok(())
}

// The cells of a global: first those that it begins with, then zeros.
fn append_global(
    bytes: &mut Vec<u8>,
    structs: &[TypedStruct],
    global: &TypedGlobal,
) -> Result<(), OutOfMemory> {
    let init = global.init.as_slice();
    for cell in 0..cells_of(structs, global.ty) {
        append_word(bytes, init.get(cell as usize).copied().unwrap_or(0))?;
    }
    Ok(())
}

fn append_globals(
    bytes: &mut Vec<u8>,
    alloc: Global,
    tree: &TacSection,
) -> Result<(), OutOfMemory> {
    let mut own = Vec::new(alloc);
    for global in tree.globals.as_slice() {
        append_global(&mut own, tree.structs.as_slice(), global)?;
    }
    append_word(bytes, number_of(own.len()))?;
    bytes.extend_from_slice(own.as_slice())?;
    Ok(())
}

// A compartment, and the address of its `main` if it has one; `None` where a function has no code.
fn append_comp(
    bytes: &mut Vec<u8>,
    alloc: Global,
    comp: CompId,
    interface: &Interface,
    tree: &TacSection,
    choice: Choice,
) -> Result<Option<u32>, OutOfMemory> {
    let exports = interface.exports.as_slice();
    let imports = interface.imports.as_slice();
    let count = half_of(exports.len());
    let functions = tree.functions.as_slice();
    let Some(section) = Section::new(alloc, comp, count, tree, choice)? else {
        return Ok(None);
    };
    append_name(bytes, interface.name.as_bytes())?;
    bytes.push(flags_of(imports, section.uses_heap()))?;
    append_exports(bytes, comp, exports)?;
    append_imports(bytes, imports)?;
    append_code(bytes, section.words(alloc, functions, count)?.as_slice())?;
    append_globals(bytes, alloc, tree)?;
    Ok(Some(section.entered(functions, Entry::Main)))
}

/// The image of a program of code, whose temporaries lie by such a choice; `None` where a function has no code.
pub fn image_by(
    alloc: Global,
    program: &TacTree,
    choice: Choice,
) -> Result<Option<Vec<u8>>, OutOfMemory> {
    let interfaces = &program.interfaces;
    let comps = interfaces.comps.as_slice();
    let mut following = Vec::new(alloc);
    let mut main = 0u32;
    let mut number = 0u8;
    for (interface, tree) in comps.iter().zip(program.sections.as_slice()) {
        let Some(comp) = CompId::new(number) else {
            return Ok(None);
        };
        match append_comp(&mut following, alloc, comp, interface, tree, choice)? {
            None => return Ok(None),
            Some(entered) => main |= entered,
        }
        number = number.wrapping_add(1);
    }
    let mut bytes = Vec::from_slice(alloc, b"SCIM\x02\x00")?;
    append_byte(&mut bytes, comps.len())?;
    bytes.push(interfaces.main.number())?;
    append_word(&mut bytes, main)?;
    bytes.extend_from_slice(following.as_slice())?;
    Ok(Some(bytes))
}
