ghost use Rattle.std.specs.Prelude.{◌≡◌, ◌<◌, ◌^◌, [], ◌∷◌, ◌++◌, length, is_some, IfOk, OnOk, OnErr, Ok, Err};
ghost use Rattle.std.specs.Prelude.{MatchResult, IfSome};
ghost use Rattle.std.specs.Prelude.{MatchOption, Some, slice_get};
ghost use Rattle.std.specs.Option.{option_copied};
ghost use Rattle.sc_core.specs.declared.value.Cell.TheVariants.{Ptr, Word};
ghost use Rattle.sc_core.specs.Memory.{is_live, cells_at, variable};
ghost use Rattle.sc_core.specs.declared.cause.Cause.TheVariants as cause;
ghost use Rattle.sc_blocks.specs.Rows.{or_cause, cause_of, cleared, read_cell, load_cell, store_cell};
ghost use Rattle.sc_blocks.specs.Rows.{cell_count, free_cell, free_place, with_words};
ghost use Rattle.sc_blocks.specs.Slots.{IsOver, LivesWith};

use crate::cells::Cells;
use crate::heap::Heap;
use crate::slots::{Slot, cells_in, lower, place_of, put, remove};
use crate::{BadFree, BlockFault};
use sc_base::OutOfMemory;
use sc_core::{Cell, Pointer};
use std::alloc::{AllocError, Global};
use std::marker::Model;

/// The blocks of one compartment, in the order in which they were made. Only those that live take memory. Contracts see
/// all of them. Allocated blocks stand apart from variables, so that a return costs the same whatever they are.
#[derive(Drop)]
pub struct Row {
    slots: Vec<Slot>,
    heap: Heap,
    made: usize,
}

impl Model for Row {
    ghost use Rattle.std.specs.Prelude.{List};
    ghost use Rattle.sc_core.specs.Memory.{Block};
    ghost use Rattle.sc_blocks.specs.Slots.{AreApart, IsRising, block_at, laid_out};

    ghost Value = { List Block };

    ghost view = { λ row. laid_out (block_at row.slots.items row.heap) row.made 0 };

    ghost invariant = { λ row. IsRising 0 row.made row.slots.items × IsRising 0 row.made row.heap ×
        AreApart row.slots.items row.heap };
}

impl Row {
    pub fn new(alloc: Global) -> Row
        ensures { result ≡ [] }
    {
        Row {
            slots: Vec::new(alloc),
            heap: Heap::new(alloc),
            made: 0,
        }
    }

    #[tactic(auto, using(crate::proofs::Laying::length_laid))]
    pub fn len(&self) -> usize
        ensures { result ≡ length self.now }
    {
        self.made
    }

    /// One more block, with these cells.
    #[tactic(auto, using(crate::proofs::Laying::length_laid))]
    pub fn push(&mut self, cells: Cells) -> Result<(), AllocError>
        requires { length self.old < 2 ^ 63 }
        ensures ok { OnOk result (self.new ≡ self.old ++ variable cells ∷ []) }
        ensures err { OnErr result (self.new ≡ self.old) }
    {
        let number = self.made;
        self.slots.push(Slot {
            number,
            cells,
            place: None,
        })?;
        self.made += 1;
        Ok(())
    }

    /// One more block of `words` cells in which nothing was stored yet, from the least place of the zone from which
    /// they are free; whether there is one.
    #[tactic(auto, using(crate::proofs::Laying::length_laid))]
    pub fn allocate(&mut self, alloc: Global, words: u64) -> Result<bool, OutOfMemory>
        requires { length self.old < 2 ^ 63 }
        ensures there { IfOk result (λ some. some ≡ is_some (free_place self.old words)) }
        ensures made { OnOk result (self.new ≡ with_words words (free_place self.old words) self.old) }
        ensures err { OnErr result (self.new ≡ self.old) }
    {
        let some = self.heap.allocate(alloc, self.made, words)?;
        if some {
            self.made += 1;
        }
        Ok(some)
    }

    /// Frees the block that a pointer is to the start of.
    pub fn free(&mut self, pointer: Pointer) -> Result<(), BadFree>
        ensures value { MatchResult result
            (λ _. free_cell self.old (Ptr pointer) ≡ Ok self.new)
            (λ _. free_cell self.old (Ptr pointer) ≡ Err cause.BadFree) }
        ensures err { OnErr result (self.new ≡ self.old) }
    {
        if pointer.index != 0 {
            return Err(BadFree);
        }
        let Some(at) = place_of(self.heap.as_slice(), pointer.block as usize) else {
            return Err(BadFree);
        };
        if !self.heap.free(at) {
            return Err(BadFree);
        }
        Ok(())
    }

    /// Ends `count` blocks, from number `first` on. Those that were never made stay so.
    pub fn end(&mut self, first: usize, count: usize)
        ensures { self.new ≡ cleared first count self.old }
    {
        let end = first.saturating_add(count);
        let from = lower(self.slots.as_slice(), first);
        let to = lower(self.slots.as_slice(), end);
        remove(&mut self.slots, from, to);
        self.heap.end(first, end);
    }

    // The cells of a block that lives.
    #[inline(always)]
    fn living(&self, block: usize) -> Option<&Cells>
        ensures { MatchOption result (IsOver (slice_get self.now block))
            (λ cells. LivesWith (slice_get self.now block) cells.now) }
    {
        match cells_in(self.slots.as_slice(), block) {
            Some(cells) => Some(cells),
            None => cells_in(self.heap.as_slice(), block),
        }
    }

    // The cells of a variable that lives. None of an allocated block.
    #[inline(always)]
    fn variable(&self, block: usize) -> Option<&Cells>
        ensures { IfSome result (λ cells. LivesWith (slice_get self.now block) cells.now) }
    {
        match cells_in(self.slots.as_slice(), block) {
            Some(cells) => Some(cells),
            None => None,
        }
    }

    pub fn cells(&self, block: usize) -> Result<&[Cell], BlockFault>
        ensures { MatchResult result
            (λ cells. cells_at self.now block ≡ Ok cells.now)
            (λ fault. cells_at self.now block ≡ Err (cause_of fault)) }
    {
        match self.living(block) {
            Some(cells) => Ok(cells.as_slice()),
            None => Err(BlockFault::Dangling),
        }
    }

    #[inline(always)]
    pub fn count(&self, block: usize) -> Option<u32>
        ensures { result ≡ cell_count (slice_get self.now block) }
    {
        match self.living(block) {
            Some(cells) => Some(cells.len()),
            None => None,
        }
    }

    pub fn is_live(&self, block: usize) -> bool
        ensures { result ≡ is_live (slice_get self.now block) }
    {
        match self.living(block) {
            Some(_) => true,
            None => false,
        }
    }

    // What a cell holds, where there is one.
    fn read_cell(&self, cell: Option<&Cell>) -> Result<Cell, BlockFault>
        ensures { or_cause result ≡ read_cell self.now (option_copied cell.entry) }
    {
        match cell {
            None => Err(BlockFault::OutOfBounds),
            Some(Cell::Undef) => Err(BlockFault::Indeterminate),
            Some(Cell::Word(word)) => Ok(Cell::Word(*word)),
            Some(Cell::Null) => Ok(Cell::Null),
            Some(Cell::Ptr(to)) => {
                if self.is_live(to.block as usize) {
                    Ok(Cell::Ptr(*to))
                } else {
                    Err(BlockFault::Dangling)
                }
            }
        }
    }

    pub fn load(&self, place: Pointer) -> Result<Cell, BlockFault>
        ensures { or_cause result ≡ load_cell self.now (Ptr place) }
    {
        match self.cells(place.block as usize) {
            Ok(cells) => self.read_cell(cells.get(place.index as usize)),
            Err(fault) => Err(fault),
        }
    }

    /// The word at an index of a variable, where there is one: what `load` gives there.
    #[inline(always)]
    pub fn word(&self, block: usize, index: usize) -> Option<u32>
        ensures { IfSome result (λ word.
            load_cell self.now (Ptr (record { block = block; index = index })) ≡ Ok (Word word)) }
    {
        match self.variable(block) {
            Some(cells) => match cells.as_slice().get(index) {
                Some(Cell::Word(word)) => Some(*word),
                _ => None,
            },
            None => None,
        }
    }

    #[inline(always)]
    pub fn store(&mut self, place: Pointer, cell: Cell) -> Result<(), BlockFault>
        ensures value { MatchResult result
            (λ _. store_cell self.old (Ptr place) cell ≡ Ok self.new)
            (λ fault. store_cell self.old (Ptr place) cell ≡ Err (cause_of fault)) }
        ensures err { OnErr result (self.new ≡ self.old) }
    {
        if let Some(at) = place_of(self.slots.as_slice(), place.block as usize) {
            return put(&mut self.slots[at], place.index, cell);
        }
        match place_of(self.heap.as_slice(), place.block as usize) {
            Some(at) => self.heap.put(at, place.index, cell),
            None => Err(BlockFault::Dangling),
        }
    }
}
