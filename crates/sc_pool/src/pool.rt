// A pool of pages.
#![tactic(auto)]

ghost use Rattle.std.specs.Prelude.{◌≡◌, ◌+◌, ◌<◌, ◌^◌, ◌↔◌, [], max, length, Some, OnOk, OnErr, OnSome, IfSome};
ghost use Rattle.std.specs.Prelude.{IsNone, IsSome};
ghost use Rattle.std.specs.Borrow.{sem};
ghost use Rattle.sc_pool.specs.Pages.{page_of, out_of, KeepsOthers, zero_page};

use crate::OutOfMemory;
use slab::Slab;
use std::alloc::Global;
use std::marker::Model;

/// How many bytes a page has.
pub const PAGE_BYTES: usize = 4096;

/// The bytes of one page.
pub type Page = [u8; PAGE_BYTES];

/// The number of a page that is out. Whoever has it gives the page back.
#[derive(Drop)]
pub struct PageId {
    number: usize,
}

impl Model for PageId {
    ghost use Rattle.std.specs.Prelude.{ℕ};

    ghost Value = { ℕ };

    ghost view = { λ s. s.number };
}

/// Pages that are out, by their numbers, and room for more.
#[derive(Drop)]
pub struct Pool {
    pages: Slab<Page>,
    spare: usize,
}

impl Model for Pool {
    ghost use Rattle.std.specs.Prelude.{◌+◌, ◌<◌, ◌^◌};
    ghost use Rattle.slab.specs.Slab.{HasRoomFor, slab_len};
    ghost use Rattle.sc_pool.specs.Pages.{Pages};

    ghost Value = { Pages };

    ghost view = { λ s. record { slots = s.pages.slots; spare = s.spare } };

    ghost invariant = { λ s. HasRoomFor s.pages s.spare × (slab_len s.pages + s.spare < 2 ^ 64) };
}

impl Pool {
    ghost use Rattle.sc_pool.specs.Lends.{LendsPage};

    /// A pool without pages.
    pub fn new(alloc: Global) -> Pool
        ensures empty { result.slots ≡ [] }
        ensures spare { result.spare ≡ 0 }
    {
        Pool {
            pages: Slab::new(alloc),
            spare: 0,
        }
    }

    /// Makes room for `n` more pages, if there isn't as much.
    pub fn reserve(&mut self, n: usize) -> Result<(), OutOfMemory>
        requires { out_of self.old + n < 2 ^ 64 }
        ensures pages { self.new.slots ≡ self.old.slots }
        ensures spare { OnOk result (self.new.spare ≡ max n self.old.spare) }
        ensures refused { OnErr result (self.new.spare ≡ self.old.spare) }
    {
        if self.spare < n {
            self.pages.reserve_exact(n)?;
            self.spare = n;
        }
        Ok(())
    }

    /// How many pages can be taken.
    pub fn spare(&self) -> usize
        ensures { result ≡ self.now.spare }
    {
        self.spare
    }

    /// A page of zeros that wasn't out. There is none exactly where the spare is 0.
    pub fn take(&mut self) -> Option<PageId>
        ensures none { IsNone result ↔ self.old.spare ≡ 0 }
        ensures was_in { IfSome result (λ id. IsNone (page_of self.old id)) }
        ensures zeros { IfSome result (λ id. page_of self.new id ≡ Some zero_page) }
        ensures others { IfSome result (λ id. KeepsOthers self.old self.new id) }
        ensures out { OnSome result (out_of self.new ≡ out_of self.old + 1) }
        ensures spare { OnSome result (self.new.spare + 1 ≡ self.old.spare) }
        ensures unchanged { IsNone result → self.new ≡ self.old }
    {
        if self.spare == 0 {
            return None;
        }
        self.spare -= 1;
        let number = self.pages.insert_reserved([0; PAGE_BYTES]);
        Some(PageId { number })
    }

    /// Gives a page back. The spare rises by one.
    pub fn give(&mut self, id: PageId)
        requires { IsSome (page_of self.old id) }
        ensures is_in { IsNone (page_of self.new id) }
        ensures others { KeepsOthers self.old self.new id }
        ensures out { out_of self.new + 1 ≡ out_of self.old }
        ensures spare { self.new.spare ≡ self.old.spare + 1 }
    {
        self.pages.remove(id.number);
        self.spare += 1;
    }

    /// The bytes of a page that is out.
    pub fn page(&self, id: &PageId) -> &[u8]
        requires { IsSome (page_of self.now id.now) }
        ensures bytes { page_of self.now id.now ≡ Some result.now }
        ensures length { length result.now ≡ 4096 }
    {
        &self.pages[id.number]
    }

    /// The bytes of a page that is out, for writing. All other pages keep theirs.
    pub fn page_mut(&mut self, id: &PageId) -> &mut Page
        requires { IsSome (page_of self.old id.now) }
        ensures* lends { sem 𝓛 (LendsPage self.entry id.now result) }
        ensures bytes { page_of self.old id.now ≡ Some result.now }
    {
        &mut self.pages[id.number]
    }
}
