ghost use Rattle.std.specs.Prelude.{◌≡◌, ◌<◌, ◌^◌, length, replicate, slice_set, IfOk};
ghost use Rattle.sc_core.specs.declared.value.Cell.TheVariants.{Undef};

use sc_core::Cell;
use sqlite_items::Items;
use std::alloc::{AllocError, Global};
use std::marker::Model;
use std::slice;

// The cell of a variable of one cell stands here, so that most variables take no memory of their own.
#[derive(Drop)]
enum Kept {
    One(Cell),
    Many(Items<Cell>),
}

/// The cells of a block, fewer than 2^32. Contracts see the list.
#[derive(Drop)]
pub struct Cells {
    kept: Kept,
}

impl Model for Cells {
    ghost use Rattle.std.specs.Prelude.{List, ◌<◌, ◌^◌, length};
    ghost use Rattle.sc_core.specs.declared.value.Cell.{Cell};
    ghost use Rattle.sc_blocks.specs.Kept.{kept_cells};

    ghost Value = { List Cell };

    ghost view = { λ cells. kept_cells cells.kept };

    ghost invariant = { λ cells. length (kept_cells cells.kept) < 2 ^ 32 };
}

impl Cells {
    /// These cells again, of which there are fewer than 2^32.
    pub fn copied(alloc: Global, cells: &[Cell]) -> Result<Cells, AllocError>
        requires { length cells.now < 2 ^ 32 }
        ensures { IfOk result (λ made. made ≡ cells.now) }
    {
        let kept = match cells {
            [cell] => Kept::One(*cell),
            _ => Kept::Many(Items::from_slice(alloc, cells)?),
        };
        Ok(Cells { kept })
    }

    /// `count` cells in which nothing was stored yet.
    pub fn blank(alloc: Global, count: u32) -> Result<Cells, AllocError>
        ensures { IfOk result (λ made. made ≡ replicate count Undef) }
    {
        if count == 1 {
            return Ok(Cells {
                kept: Kept::One(Cell::Undef),
            });
        }
        let cells = Vec::from_elem(alloc, Cell::Undef, count as usize)?;
        Ok(Cells {
            kept: Kept::Many(Items::from_vec(cells)),
        })
    }

    /// The cells in order.
    #[inline(always)]
    pub fn as_slice(&self) -> &[Cell]
        ensures { result.now ≡ self.now }
    {
        match &self.kept {
            Kept::One(cell) => slice::from_ref(cell),
            Kept::Many(cells) => cells.as_slice(),
        }
    }

    /// How many there are.
    #[inline(always)]
    pub fn len(&self) -> u32
        ensures { result ≡ length self.now }
    {
        match &self.kept {
            Kept::One(_) => 1,
            Kept::Many(cells) => cells.len() as u32,
        }
    }

    /// Puts another cell at this place.
    #[inline(always)]
    pub fn set(&mut self, at: u32, cell: Cell)
        requires { at < length self.old }
        ensures { self.new ≡ slice_set self.old at cell }
    {
        match &mut self.kept {
            Kept::One(kept) => *kept = cell,
            Kept::Many(cells) => cells.set(at as usize, cell),
        }
    }
}
