//! The cells with which globals begin (C11 6.7.9p10).
use crate::memory::Memory;
use sc_base::OutOfMemory;
use sc_core::{
    BaseTy, Cell, Ty, TypedGlobal, TypedMember, TypedSection, TypedSections, TypedStruct,
};
use std::alloc::Global;

// The zeros of the structs that stand first.
type Known = Vec<Vec<Cell>>;

fn append_struct(cells: &mut Vec<Cell>, known: &Known, number: u32) -> Result<(), OutOfMemory> {
    match known.get(number as usize) {
        None => Ok(()),
        Some(zeros) => Ok(cells.extend_from_slice(zeros.as_slice())?),
    }
}

fn append_base(
    cells: &mut Vec<Cell>,
    known: &Known,
    stars: u64,
    base: BaseTy,
) -> Result<(), OutOfMemory> {
    if stars > 0 {
        return Ok(cells.push(Cell::Null)?);
    }
    match base {
        BaseTy::Int | BaseTy::Unsigned => Ok(cells.push(Cell::Word(0))?),
        BaseTy::Struct(number) => append_struct(cells, known, number),
    }
}

fn append_array(
    cells: &mut Vec<Cell>,
    known: &Known,
    stars: u64,
    base: BaseTy,
    length: u32,
) -> Result<(), OutOfMemory> {
    for _ in 0..length {
        append_base(cells, known, stars, base)?;
    }
    Ok(())
}

fn append_zeros(cells: &mut Vec<Cell>, known: &Known, ty: Ty) -> Result<(), OutOfMemory> {
    match ty {
        Ty::Int | Ty::Unsigned => Ok(cells.push(Cell::Word(0))?),
        Ty::Struct(number) => append_struct(cells, known, number),
        Ty::Pointer { .. } => Ok(cells.push(Cell::Null)?),
        Ty::Array {
            stars,
            base,
            length,
        } => append_array(cells, known, stars, base, length),
    }
}

fn member_zeros(
    alloc: Global,
    known: &Known,
    members: &[TypedMember],
) -> Result<Vec<Cell>, OutOfMemory> {
    let mut cells = Vec::new(alloc);
    for member in members {
        append_zeros(&mut cells, known, member.ty)?;
    }
    Ok(cells)
}

fn struct_zeros(alloc: Global, structs: &[TypedStruct]) -> Result<Known, OutOfMemory> {
    let mut known: Known = Vec::new(alloc);
    for this in structs {
        let cells = member_zeros(alloc, &known, this.members.as_slice())?;
        known.push(cells)?;
    }
    Ok(known)
}

// The initialiser's words stand in the first cells; in a pointer's place there is null.
fn give_words(cells: &mut Vec<Cell>, words: &[u32]) {
    for (number, word) in words.iter().enumerate() {
        if let Some(cell) = cells.get_mut(number) {
            if *cell != Cell::Null {
                *cell = Cell::Word(*word);
            }
        }
    }
}

fn global_cells(
    alloc: Global,
    known: &Known,
    global: &TypedGlobal,
) -> Result<Vec<Cell>, OutOfMemory> {
    let mut cells = Vec::new(alloc);
    append_zeros(&mut cells, known, global.ty)?;
    give_words(&mut cells, global.init.as_slice());
    Ok(cells)
}

fn begin_section(
    alloc: Global,
    memory: &mut Memory,
    section: &TypedSection,
) -> Result<(), OutOfMemory> {
    let known = struct_zeros(alloc, section.structs.as_slice())?;
    for global in section.globals.as_slice() {
        memory.begin(global_cells(alloc, &known, global)?)?;
    }
    Ok(())
}

/// Makes the globals of all sections. It gives the number of each section's first one.
pub(crate) fn begin_globals(
    alloc: Global,
    memory: &mut Memory,
    sections: &TypedSections,
) -> Result<Vec<usize>, OutOfMemory> {
    let mut firsts = Vec::new(alloc);
    for section in sections.as_slice() {
        firsts.push(memory.len())?;
        begin_section(alloc, memory, section)?;
    }
    Ok(firsts)
}
