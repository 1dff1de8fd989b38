// A store on the pages of a pool.
#![tactic(auto)]

ghost use Rattle.std.specs.Prelude.{◌≡◌, ◌<◌, ◌≤◌, ◌*◌, ◌∷◌, [], ℕ, false, Some, length, position, IfOk, IsSome};
ghost use Rattle.std.specs.Prelude.{IsTrue};
ghost use Rattle.sc_store.specs.Region.{AreApart, AreBelow};
ghost use Rattle.sc_store.specs.Memory.{HoldsBytes, HasBytes, load_of, with_bytes};
ghost use Rattle.sc_store.specs.Flat.{Reads, written};
ghost use Rattle.sc_store.specs.Paged.{reaches, regions_in, place_of, place_found, memory_of, AreSingle, ArePlaced};
ghost use Rattle.sc_store.specs.Paged.{IsFocus};
ghost use Rattle.sc_store.specs.Cells.{cell};

use crate::access::{self, Access};
use crate::area::Area;
use crate::cells::Cells;
use crate::{OutOfMemory, Region, Store};
use sc_pool::PAGE_BYTES;
use std::alloc::{AllocError, Global};

/// A store that keeps the bytes of each region on pages of its own. Making it reserves a page for each page of each
/// region, and a page is taken at the first store to it of a byte that isn't 0; until then a load from it gives 0.
#[derive(Drop)]
pub struct PagedStore {
    areas: Vec<Area>,
    // The areas that are looked at first, the one in focus and the one after it, or ones without addresses.
    focus: Area,
    next: Area,
    cells: Cells,
    ghost apart: { AreApart (regions_in areas.items) },
    ghost single: { AreSingle areas.items },
    ghost focused: { IsFocus focus areas.items },
    ghost followed: { IsFocus next areas.items },
    ghost placed: { ArePlaced areas.items (length cells.table.items) },
    ghost holds: { HoldsBytes (memory_of areas.items (cell cells.table.items cells.pool)) },
}

// The regions one after another, each from a new page on, and how many pages they have.
fn laid(alloc: Global, regions: &[Region]) -> Result<(Vec<Area>, usize), AllocError>
    requires apart { AreApart regions.now }
    requires below { AreBelow regions.now }
    ensures regions { IfOk result (λ r. regions_in r.0.items ≡ regions.now) }
    ensures single { IfOk result (λ r. AreSingle r.0.items) }
    ensures placed { IfOk result (λ r. ArePlaced r.0.items r.1) }
{
    let mut areas = Vec::new(alloc);
    let mut pages = 0;
    for region in regions {
        areas.push(Area {
            region: *region,
            first: pages * PAGE_BYTES,
        })?;
        pages += region.pages() as usize;
    }
    Ok((areas, pages))
}

impl PagedStore {
    ghost use Rattle.sc_store.specs.Store.{bytes_in};

    // The place of the first byte, where one region has all the `size` addresses from `at` on.
    #[inline(always)]
    fn place(&self, at: u32, size: usize) -> Option<usize>
        requires some { 0 < size }
        requires few { size ≤ 4 }
        ensures { result ≡ place_found self.now.areas.items at size }
    {
        if self.focus.reaches(at, size) {
            return Some(self.focus.place(at));
        }
        self.search(at, size)
    }

    #[inline(never)]
    fn search(&self, at: u32, size: usize) -> Option<usize>
        requires some { 0 < size }
        requires few { size ≤ 4 }
        ensures { result ≡ place_found self.now.areas.items at size }
    {
        if self.next.reaches(at, size) {
            return Some(self.next.place(at));
        }
        let area = self.areas.iter().find(|area| area.reaches(at, size))?;
        Some(area.place(at))
    }

    // The number of the area with this address.
    fn number(&self, at: u32) -> Option<usize>
        ensures { result ≡ position (reaches at 1) self.now.areas.items }
    {
        self.areas.iter().position(|area| area.reaches(at, 1))
    }

    // The area of this number, or one without addresses where there is none.
    #[tactic(auto, using(crate::proofs::Places::focus_at, crate::proofs::Places::focus_empty))]
    fn area(&self, number: usize) -> Area
        ensures { IsFocus result self.now.areas.items }
    {
        if number < self.areas.len() {
            return self.areas[number];
        }
        Area::empty()
    }
}

impl Access for PagedStore {
    ghost use Rattle.sc_store.specs.Store.{bytes_in};

    ghost bytes = { bytes_in };

    ghost holds_bytes = { λ s. s.holds };

    #[inline(always)]
    #[tactic(auto, using(crate::proofs::Places::has_place))]
    fn byte(&self, at: u32) -> u8 {
        let place = self.place(at, 1).unwrap();
        let mut byte = [0];
        self.cells.read(place, &mut byte);
        byte[0]
    }

    #[inline(always)]
    #[tactic(auto, using(crate::proofs::Places::has_place))]
    fn put(&mut self, at: u32, byte: u8) {
        let place = self.place(at, 1).unwrap();
        self.cells.write(place, &[byte]);
    }

    #[inline(always)]
    fn read(&self, at: u32, into: &mut [u8]) -> bool {
        match self.place(at, into.len()) {
            Some(place) if place % PAGE_BYTES + into.len() <= PAGE_BYTES => {
                self.cells.read(place, into);
                true
            }
            _ => false,
        }
    }

    #[inline(always)]
    fn write(&mut self, at: u32, from: &[u8]) -> bool {
        match self.place(at, from.len()) {
            Some(place) if place % PAGE_BYTES + from.len() <= PAGE_BYTES => {
                self.cells.write(place, from);
                true
            }
            _ => false,
        }
    }
}

impl Store for PagedStore {
    ghost use Rattle.sc_store.specs.Store.{bytes_in};

    ghost bytes = { bytes_in };

    ghost holds_bytes = { λ s. s.holds };

    fn zeroed(alloc: Global, regions: &[Region]) -> Result<PagedStore, OutOfMemory> {
        let (areas, pages) = laid(alloc, regions)?;
        let cells = Cells::zeroed(alloc, pages)?;
        Ok(PagedStore {
            areas,
            focus: Area::empty(),
            next: Area::empty(),
            cells,
        })
    }

    fn focus(&mut self, at: u32) {
        if let Some(number) = self.number(at) {
            self.focus = self.area(number);
            self.next = self.area(number.saturating_add(1));
        }
    }

    #[tactic(auto, using(crate::proofs::Places::has_place))]
    fn has(&self, at: u32) -> bool {
        self.place(at, 1).is_some()
    }

    #[inline(always)]
    fn load8(&self, at: u32) -> u32 {
        access::load8(self, at)
    }

    #[inline(always)]
    fn load16(&self, at: u32) -> u32 {
        access::load16(self, at)
    }

    #[inline(always)]
    fn load32(&self, at: u32) -> u32 {
        access::load32(self, at)
    }

    #[inline(always)]
    fn store8(&mut self, at: u32, value: u32) {
        access::store8(self, at, value);
    }

    #[inline(always)]
    fn store16(&mut self, at: u32, value: u32) {
        access::store16(self, at, value);
    }

    #[inline(always)]
    fn store32(&mut self, at: u32, value: u32) {
        access::store32(self, at, value);
    }
}
