ghost use Rattle.std.specs.Prelude.{◌≡◌, ◌<◌, ◌^◌, [], ◌∷◌, ◌++◌, length, replicate, IfOk, IfSome, OnOk, OnErr, Ok};
ghost use Rattle.std.specs.Prelude.{Err, MatchResult, IsTrue, option_map, slice_get};
ghost use Rattle.sc_core.specs.declared.value.Cell.TheVariants.{Undef};
ghost use Rattle.sc_core.specs.Memory.{variable, with_blocks};
ghost use Rattle.sc_blocks.specs.Rows.{memory_of, or_cause, cause_of, cleared, is_place, load_cell, store_cell};
ghost use Rattle.sc_blocks.specs.Rows.{cell_count, free_cell, free_place, with_words};
ghost use Rattle.sc_core.specs.declared.cause.Cause.TheVariants as cause;

use crate::cells::Cells;
use crate::row::Row;
use crate::{BadFree, BlockFault};
use sc_base::OutOfMemory;
use sc_core::Cell;
use sc_event::CompId;
use std::alloc::Global;
use std::marker::Model;

/// The blocks of all compartments. Contracts see the rows of blocks, of which `memory_of` is the memory.
/// A block's number is its place among the blocks that its compartment ever had, so numbers never come again.
#[derive(Drop)]
pub struct Blocks {
    alloc: Global,
    rows: Vec<Row>,
}

impl Model for Blocks {
    ghost use Rattle.std.specs.Prelude.{List};
    ghost use Rattle.sc_core.specs.Memory.{Block};

    ghost Value = { List (List Block) };

    ghost view = { λ blocks. blocks.rows.items };
}

impl Blocks {
    /// No blocks yet. Takes no memory.
    pub fn new(alloc: Global) -> Blocks
        ensures { memory_of result ≡ (λ comp. []) }
    {
        Blocks {
            alloc,
            rows: Vec::new(alloc),
        }
    }

    /// The blocks of a compartment, where it ever had one.
    #[inline(always)]
    pub fn row(&self, comp: CompId) -> Option<&Row>
        ensures { IfSome result (λ row. row.now ≡ memory_of self.now comp) }
    {
        self.rows.get(comp.number() as usize)
    }

    // The row of a compartment, made where it isn't there.
    fn make_row(&mut self, comp: CompId) -> Result<(), OutOfMemory>
        ensures same { memory_of self.new ≡ memory_of self.old }
        ensures there { OnOk result (comp < length self.new) }
    {
        while self.rows.len() <= comp.number() as usize {
            self.rows.push(Row::new(self.alloc))?;
        }
        Ok(())
    }

    // A block with these cells, after those of the compartment.
    fn add(&mut self, comp: CompId, cells: Cells) -> Result<u64, OutOfMemory>
        requires { length (memory_of self.old comp) < 2 ^ 63 }
        ensures number { IfOk result (λ number. number ≡ length (memory_of self.old comp)) }
        ensures made { OnOk result (memory_of self.new ≡
            with_blocks comp (memory_of self.old comp ++ variable cells ∷ []) (memory_of self.old)) }
        ensures err { OnErr result (memory_of self.new ≡ memory_of self.old) }
    {
        self.make_row(comp)?;
        let row = &mut self.rows[comp.number() as usize];
        let number = row.len() as u64;
        row.push(cells)?;
        Ok(number)
    }

    /// A new block with these cells, and its number: the next one of the compartment.
    pub fn new_block(&mut self, comp: CompId, cells: &[Cell]) -> Result<u64, OutOfMemory>
        requires few { length (memory_of self.old comp) < 2 ^ 63 }
        requires small { length cells.now < 2 ^ 32 }
        ensures number { IfOk result (λ number. number ≡ length (memory_of self.old comp)) }
        ensures made { OnOk result (memory_of self.new ≡
            with_blocks comp (memory_of self.old comp ++ variable cells.now ∷ []) (memory_of self.old)) }
        ensures err { OnErr result (memory_of self.new ≡ memory_of self.old) }
    {
        let cells = Cells::copied(self.alloc, cells)?;
        self.add(comp, cells)
    }

    /// A new block of `count` cells, in which nothing was stored yet.
    pub fn new_blank(&mut self, comp: CompId, count: u32) -> Result<u64, OutOfMemory>
        requires { length (memory_of self.old comp) < 2 ^ 63 }
        ensures number { IfOk result (λ number. number ≡ length (memory_of self.old comp)) }
        ensures made { OnOk result (memory_of self.new ≡
            with_blocks comp (memory_of self.old comp ++ variable (replicate count Undef) ∷ []) (memory_of self.old)) }
        ensures err { OnErr result (memory_of self.new ≡ memory_of self.old) }
    {
        let cells = Cells::blank(self.alloc, count)?;
        self.add(comp, cells)
    }

    /// A new block of `words` cells in which nothing was stored yet, from the least place of the compartment's zone
    /// from which they are free (C11 7.22.3.4). Its number; `None` where they are free from none, or are none.
    pub fn allocate(&mut self, comp: CompId, words: u64) -> Result<Option<u64>, OutOfMemory>
        requires { length (memory_of self.old comp) < 2 ^ 63 }
        ensures number { IfOk result (λ number. number ≡
            option_map (λ place. length (memory_of self.old comp)) (free_place (memory_of self.old comp) words)) }
        ensures made { OnOk result (memory_of self.new ≡ with_blocks comp
            (with_words words (free_place (memory_of self.old comp) words) (memory_of self.old comp))
            (memory_of self.old)) }
        ensures err { OnErr result (memory_of self.new ≡ memory_of self.old) }
    {
        self.make_row(comp)?;
        let row = &mut self.rows[comp.number() as usize];
        let number = row.len() as u64;
        let some = row.allocate(self.alloc, words)?;
        if !some {
            return Ok(None);
        }
        Ok(Some(number))
    }

    /// Frees what a pointer is to, which is the start of an allocated block that lives (C11 7.22.3.3). Null is none,
    /// and nothing is done.
    pub fn free(&mut self, comp: CompId, pointer: Cell) -> Result<(), BadFree>
        requires { IsTrue (is_place pointer) }
        ensures value { MatchResult result
            (λ _. free_cell (memory_of self.old comp) pointer ≡ Ok (memory_of self.new comp))
            (λ _. free_cell (memory_of self.old comp) pointer ≡ Err cause.BadFree) }
        ensures others { memory_of self.new ≡ with_blocks comp (memory_of self.new comp) (memory_of self.old) }
        ensures err { OnErr result (memory_of self.new ≡ memory_of self.old) }
    {
        let Cell::Ptr(pointer) = pointer else {
            return Ok(());
        };
        if comp.number() as usize >= self.rows.len() {
            return Err(BadFree);
        }
        let row = &mut self.rows[comp.number() as usize];
        row.free(pointer)
    }

    /// How many blocks the compartment ever had, which is the number of its next one.
    pub fn made(&self, comp: CompId) -> u64
        ensures { result ≡ length (memory_of self.now comp) }
    {
        match self.rows.get(comp.number() as usize) {
            Some(row) => row.len() as u64,
            None => 0,
        }
    }

    /// Ends `count` blocks of the compartment, from number `first` on, as at a return (C11 6.2.4p2). Their cells are
    /// given back.
    pub fn end(&mut self, comp: CompId, first: u64, count: u64)
        ensures { memory_of self.new ≡ with_blocks comp (cleared first count (memory_of self.old comp))
            (memory_of self.old) }
    {
        if (comp.number() as usize) < self.rows.len() {
            let row = &mut self.rows[comp.number() as usize];
            row.end(first as usize, count as usize);
        }
    }

    /// How many cells a block has, `None` where it doesn't live.
    pub fn live(&self, comp: CompId, block: u64) -> Option<u32>
        ensures { result ≡ cell_count (slice_get (memory_of self.now comp) block) }
    {
        let row = self.rows.get(comp.number() as usize)?;
        row.count(block as usize)
    }

    /// The cell at a place of the compartment. Its pointer, where it is one, is to a block that lives.
    pub fn load(&self, comp: CompId, place: Cell) -> Result<Cell, BlockFault>
        requires { IsTrue (is_place place) }
        ensures { or_cause result ≡ load_cell (memory_of self.now comp) place }
    {
        let Cell::Ptr(place) = place else {
            return Err(BlockFault::NullUse);
        };
        match self.rows.get(comp.number() as usize) {
            Some(row) => row.load(place),
            None => Err(BlockFault::Dangling),
        }
    }

    /// Puts a cell at a place of the compartment, and changes nothing else.
    #[inline(always)]
    pub fn store(&mut self, comp: CompId, place: Cell, value: Cell) -> Result<(), BlockFault>
        requires { IsTrue (is_place place) }
        ensures value { MatchResult result
            (λ _. store_cell (memory_of self.old comp) place value ≡ Ok (memory_of self.new comp))
            (λ fault. store_cell (memory_of self.old comp) place value ≡ Err (cause_of fault)) }
        ensures others { memory_of self.new ≡ with_blocks comp (memory_of self.new comp) (memory_of self.old) }
        ensures err { OnErr result (memory_of self.new ≡ memory_of self.old) }
    {
        let Cell::Ptr(place) = place else {
            return Err(BlockFault::NullUse);
        };
        if comp.number() as usize >= self.rows.len() {
            return Err(BlockFault::Dangling);
        }
        let row = &mut self.rows[comp.number() as usize];
        row.store(place, value)
    }
}
