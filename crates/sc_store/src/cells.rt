// Bytes by their places, on pages.
#![tactic(auto)]

ghost use Rattle.std.specs.Prelude.{◌≡◌, ◌≤◌, ◌<◌, ◌+◌, ◌*◌, ◌/◌, ◌%◌, if◌then◌else◌, length, slice_index};
ghost use Rattle.std.specs.Prelude.{slice_index_or, EachIndex, IsNone, IsSome, IsTrue, None, is_none, is_some};
ghost use Rattle.std.specs.Prelude.{count_by, replicate, IfOk, ℕ};
ghost use Rattle.sc_store.specs.Cells.{AreOut, AreDistinct, cell, replaced};

use crate::OutOfMemory;
use sc_pool::{PAGE_BYTES, PageId, Pool};
use std::alloc::{AllocError, Global};

// Bytes at the places from 0 on, all 0 at first. A page is taken from the pool at the first write to it.
#[derive(Drop)]
pub(crate) struct Cells {
    table: Vec<Option<PageId>>,
    pool: Pool,
    ghost out: { AreOut table.items pool },
    ghost distinct: { AreDistinct table.items },
    ghost enough: { count_by is_none table.items ≤ pool.spare },
}

fn untaken(alloc: Global, pages: usize) -> Result<Vec<Option<PageId>>, AllocError>
    ensures { IfOk result (λ table. table.items ≡ replicate pages None) }
{
    let mut table = Vec::with_capacity(alloc, pages)?;
    for _ in 0..pages {
        table.push(None)?;
    }
    Ok(table)
}

fn are_zero(bytes: &[u8]) -> bool
    ensures { IsTrue result → EachIndex bytes.now (λ k. slice_index bytes.now k ≡ 0) }
{
    bytes.iter().all(|byte| *byte == 0)
}

impl Cells {
    // Zeros on `pages` pages, none of which is taken.
    pub(crate) fn zeroed(alloc: Global, pages: usize) -> Result<Cells, OutOfMemory>
        ensures length { IfOk result (λ cells. length cells.table.items ≡ pages) }
        ensures zero { IfOk result (λ cells. (k : ℕ) → cell cells.table.items cells.pool k ≡ 0) }
    {
        let table = untaken(alloc, pages)?;
        let mut pool = Pool::new(alloc);
        pool.reserve(pages)?;
        Ok(Cells { table, pool })
    }

    // Copies the bytes from a place on, all on one page.
    #[inline(always)]
    pub(crate) fn read(&self, at: usize, into: &mut [u8])
        requires there { at / 4096 < length self.now.table.items }
        requires within { at % 4096 + length into.old ≤ 4096 }
        ensures { EachIndex into.new (λ k. slice_index into.new k ≡ cell self.now.table.items self.now.pool (at + k)) }
    {
        let from = at % PAGE_BYTES;
        match &self.table[at / PAGE_BYTES] {
            Some(id) => into.copy_from_slice(&self.pool.page(id)[from..from + into.len()]),
            None => into.fill(0),
        }
    }

    // Takes the page of this number, if it isn't taken.
    fn touch(&mut self, number: usize)
        requires { number < length self.old.table.items }
        ensures length { length self.new.table.items ≡ length self.old.table.items }
        ensures taken { IsSome (slice_index_or self.new.table.items number None) }
        ensures same { cell self.new.table.items self.new.pool ≡ cell self.old.table.items self.old.pool }
    {
        if self.table[number].is_none() {
            self.table[number] = self.pool.take();
        }
    }

    // Puts these bytes at the places from `at` on, all on one page, and says whether it is taken. If not, nothing
    // changes.
    #[inline(always)]
    fn write_taken(&mut self, at: usize, bytes: &[u8]) -> bool
        requires there { at / 4096 < length self.old.table.items }
        requires within { at % 4096 + length bytes.now ≤ 4096 }
        ensures taken { result ≡ is_some (slice_index_or self.old.table.items (at / 4096) None) }
        ensures table { self.new.table.items ≡ self.old.table.items }
        ensures bytes { cell self.new.table.items self.new.pool
            ≡ if result then replaced (cell self.old.table.items self.old.pool) at bytes.now
            else cell self.old.table.items self.old.pool }
    {
        let from = at % PAGE_BYTES;
        let Some(id) = &self.table[at / PAGE_BYTES] else {
            return false;
        };
        self.pool.page_mut(id)[from..from + bytes.len()].copy_from_slice(bytes);
        true
    }

    // The same on a page that isn't taken. It stays so where all bytes are 0.
    #[inline(never)]
    #[tactic(auto, using(crate::proofs::Places::zeros_unwritten))]
    fn write_untaken(&mut self, at: usize, bytes: &[u8])
        requires free { IsNone (slice_index_or self.old.table.items (at / 4096) None) }
        requires there { at / 4096 < length self.old.table.items }
        requires within { at % 4096 + length bytes.now ≤ 4096 }
        ensures length { length self.new.table.items ≡ length self.old.table.items }
        ensures bytes { cell self.new.table.items self.new.pool
            ≡ replaced (cell self.old.table.items self.old.pool) at bytes.now }
    {
        if are_zero(bytes) {
            return;
        }
        self.touch(at / PAGE_BYTES);
        self.write_taken(at, bytes);
    }

    // Puts these bytes at the places from `at` on, all on one page.
    #[inline(always)]
    pub(crate) fn write(&mut self, at: usize, bytes: &[u8])
        requires there { at / 4096 < length self.old.table.items }
        requires within { at % 4096 + length bytes.now ≤ 4096 }
        ensures length { length self.new.table.items ≡ length self.old.table.items }
        ensures bytes { cell self.new.table.items self.new.pool
            ≡ replaced (cell self.old.table.items self.old.pool) at bytes.now }
    {
        if !self.write_taken(at, bytes) {
            self.write_untaken(at, bytes);
        }
    }
}
