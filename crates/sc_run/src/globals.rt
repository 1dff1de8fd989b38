//! The variables with which a program begins (C11 6.2.4p3, 6.7.9p10).

ghost use Rattle.sc_core.specs.Prelude.{most_compartments};
ghost use Rattle.sc_run.specs.Prelude.{base_zeros, cell_with, global_block, globals_of, member_zeros, memory_of};
ghost use Rattle.sc_run.specs.Prelude.{repeated, starred_zeros, struct_zeros, with_blocks, with_words, zeros_of};
ghost use Rattle.sc_run.specs.Numbers.{HasSmallGlobals, HaveSmallGlobals};
ghost use Rattle.std.specs.Prelude.{◌≡◌, ◌<◌, ◌^◌, ◌++◌, [], ◌∷◌, IfOk, OnOk, length, map, slice_get};
ghost use Rattle.std.specs.Prelude.{slice_index_or};

use sc_base::OutOfMemory;
use sc_blocks::Blocks;
use sc_core::{BaseTy, Cell, Ty, TypedGlobal, TypedMember, TypedSection, TypedStruct};
use sc_event::CompId;
use sqlite_items::Items;
use std::alloc::Global;

fn one(alloc: Global, cell: Cell) -> Result<Items<Cell>, OutOfMemory>
    ensures { IfOk result (λ cells. cells ≡ cell ∷ []) }
{
    let mut cells = Items::new(alloc);
    cells.push(cell)?;
    Ok(cells)
}

// The cells of a struct, whose number is known.
fn known_zeros(
    alloc: Global,
    zeros: &[Items<Cell>],
    number: u32,
) -> Result<Items<Cell>, OutOfMemory>
    ensures { IfOk result (λ cells. cells ≡ slice_index_or zeros.now number []) }
{
    match zeros.get(number as usize) {
        Some(known) => Ok(Items::from_slice(alloc, known.as_slice())?),
        None => Ok(Items::new(alloc)),
    }
}

fn base_zeros(
    alloc: Global,
    zeros: &[Items<Cell>],
    base: BaseTy,
) -> Result<Items<Cell>, OutOfMemory>
    ensures { IfOk result (λ cells. cells ≡ base_zeros zeros.now base) }
{
    match base {
        BaseTy::Int => one(alloc, Cell::Word(0)),
        BaseTy::Unsigned => one(alloc, Cell::Word(0)),
        BaseTy::Struct(number) => known_zeros(alloc, zeros, number),
    }
}

fn starred_zeros(
    alloc: Global,
    zeros: &[Items<Cell>],
    stars: u64,
    base: BaseTy,
) -> Result<Items<Cell>, OutOfMemory>
    ensures { IfOk result (λ cells. cells ≡ starred_zeros zeros.now stars base) }
{
    if stars == 0 {
        base_zeros(alloc, zeros, base)
    } else {
        one(alloc, Cell::Null)
    }
}

// The cells, repeated `times` times.
fn repeated(
    alloc: Global,
    zeros: &[Items<Cell>],
    times: u32,
    cells: &[Cell],
) -> Result<Items<Cell>, OutOfMemory>
    ensures { IfOk result (λ all. all ≡ repeated zeros.now times cells.now) }
{
    let mut all = Items::new(alloc);
    for time in 0..times {
        all.append(Items::from_slice(alloc, cells)?)?;
    }
    Ok(all)
}

// The cells of a variable of this type without an initialiser.
fn zeros_of(alloc: Global, zeros: &[Items<Cell>], ty: Ty) -> Result<Items<Cell>, OutOfMemory>
    ensures { IfOk result (λ cells. cells ≡ zeros_of zeros.now ty) }
{
    match ty {
        Ty::Int => one(alloc, Cell::Word(0)),
        Ty::Unsigned => one(alloc, Cell::Word(0)),
        Ty::Struct(number) => known_zeros(alloc, zeros, number),
        Ty::Pointer { .. } => one(alloc, Cell::Null),
        Ty::Array {
            stars,
            base,
            length,
        } => {
            let element = starred_zeros(alloc, zeros, stars, base)?;
            repeated(alloc, zeros, length, element.as_slice())
        }
    }
}

#[tactic(auto, using(crate::proofs::Making::member_more))]
fn member_zeros(
    alloc: Global,
    zeros: &[Items<Cell>],
    members: &[TypedMember],
) -> Result<Items<Cell>, OutOfMemory>
    ensures { IfOk result (λ cells. cells ≡ member_zeros zeros.now members.now) }
{
    let mut all = Items::new(alloc);
    for member in members {
        all.append(zeros_of(alloc, zeros, member.ty)?)?;
    }
    Ok(all)
}

// The cells of each struct.
fn struct_zeros(alloc: Global, structs: &[TypedStruct]) -> Result<Vec<Items<Cell>>, OutOfMemory>
    ensures { IfOk result (λ known. known.items ≡ struct_zeros [] structs.now) }
{
    let mut known = Vec::new(alloc);
    for found in structs {
        let cells = member_zeros(alloc, known.as_slice(), found.members.as_slice())?;
        known.push(cells)?;
    }
    Ok(known)
}

// A cell that begins with this word, if there is one; a pointer is given null.
fn cell_with(word: Option<u32>, cell: Cell) -> Cell
    ensures { result ≡ cell_with word cell }
{
    match word {
        None => cell,
        Some(word) => match cell {
            Cell::Null => Cell::Null,
            Cell::Undef => Cell::Word(word),
            Cell::Word(_) => Cell::Word(word),
            Cell::Ptr(_) => Cell::Word(word),
        },
    }
}

fn word_at(words: &[u32], at: usize) -> Option<u32>
    ensures { result ≡ slice_get words.now at }
{
    match words.get(at) {
        Some(word) => Some(*word),
        None => None,
    }
}

fn with_words(alloc: Global, words: &[u32], cells: &[Cell]) -> Result<Items<Cell>, OutOfMemory>
    ensures { IfOk result (λ all. all ≡ with_words words.now cells.now) }
{
    let mut all = Items::new(alloc);
    for at in 0..cells.len() {
        all.push(cell_with(word_at(words, at), cells[at]))?;
    }
    Ok(all)
}

// The block of a global.
#[tactic(auto, using(crate::proofs::Counts::words_many))]
fn make_global(
    alloc: Global,
    blocks: &mut Blocks,
    comp: CompId,
    zeros: &[Items<Cell>],
    global: &TypedGlobal,
) -> Result<(), OutOfMemory>
    requires few { length (memory_of blocks.old comp) < 2 ^ 63 }
    requires small { length (zeros_of zeros.now global.now.ty) < 2 ^ 32 }
    ensures { OnOk result (memory_of blocks.new ≡ with_blocks comp
        (memory_of blocks.old comp ++ global_block zeros.now global.now ∷ []) (memory_of blocks.old)) }
{
    let cells = zeros_of(alloc, zeros, global.ty)?;
    let cells = with_words(alloc, global.init.as_slice(), cells.as_slice())?;
    blocks.new_block(comp, cells.as_slice())?;
    Ok(())
}

// The blocks of the globals of a section.
fn make_globals(
    alloc: Global,
    blocks: &mut Blocks,
    comp: CompId,
    section: &TypedSection,
) -> Result<(), OutOfMemory>
    requires none { memory_of blocks.old comp ≡ [] }
    requires globals { HasSmallGlobals section.now }
    ensures { OnOk result (memory_of blocks.new ≡ with_blocks comp
        (memory_of blocks.old comp ++ map (global_block (struct_zeros [] section.now.structs)) section.now.globals)
        (memory_of blocks.old)) }
{
    let zeros = struct_zeros(alloc, section.structs.as_slice())?;
    for global in section.globals.as_slice() {
        make_global(alloc, blocks, comp, zeros.as_slice(), global)?;
    }
    Ok(())
}

/// The blocks with which a run begins.
pub fn first_blocks(alloc: Global, sections: &[TypedSection]) -> Result<Blocks, OutOfMemory>
    requires { HaveSmallGlobals sections.now }
    ensures { IfOk result (λ blocks. memory_of blocks ≡ globals_of sections.now) }
{
    let mut blocks = Blocks::new(alloc);
    for at in 0..sections.len() {
        let comp = comp_at(at);
        make_globals(alloc, &mut blocks, comp, &sections[at])?;
    }
    Ok(blocks)
}

// The compartment of this number.
fn comp_at(number: usize) -> CompId
    requires { number < most_compartments }
    ensures { result ≡ number }
{
    CompId::new(number as u8).unwrap()
}
