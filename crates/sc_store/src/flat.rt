// A store with one vector per region.
#![tactic(auto)]

ghost use Rattle.std.specs.Prelude.{◌≡◌, ◌<◌, ◌≤◌, ◌∷◌, [], ℕ, false, Some, length, map, position, All, IfOk, IsTrue};
ghost use Rattle.std.specs.Prelude.{IsSome};
ghost use Rattle.sc_store.specs.Region.{AreApart};
ghost use Rattle.sc_store.specs.Memory.{HoldsBytes, HasBytes, load_of, with_bytes};
ghost use Rattle.sc_store.specs.Flat.{regions_of, bytes_of, spans, IsZero, Reads, written};

use crate::access::{self, Access};
use crate::part::Part;
use crate::{OutOfMemory, Region, Store};
use std::alloc::{AllocError, Global};

/// A store that keeps the bytes of each region in a vector. Making it takes memory for every byte.
#[derive(Drop)]
pub struct FlatStore {
    parts: Vec<Part>,
    // The place of the part that is looked at first. The one after it is the second.
    focus: usize,
    ghost apart: { AreApart (regions_of parts.items) },
    ghost holds: { HoldsBytes (bytes_of parts.items) },
}

fn zeroed_parts(alloc: Global, regions: &[Region]) -> Result<Vec<Part>, AllocError>
    ensures regions { IfOk result (λ parts. regions_of parts.items ≡ regions.now) }
    ensures zero { IfOk result (λ parts. All IsZero parts.items) }
{
    let mut parts = Vec::new(alloc);
    for region in regions {
        parts.push(Part::zeroed(alloc, *region)?)?;
    }
    Ok(parts)
}

impl FlatStore {
    // The place of the part that has all the `size` addresses from `at` on.
    #[inline(always)]
    fn find(&self, at: u32, size: usize) -> Option<usize>
        requires some { 0 < size }
        requires few { size ≤ 4 }
        ensures { result ≡ position (spans at size) self.now.parts.items }
    {
        if self.part_spans(self.focus, at, size) {
            return Some(self.focus);
        }
        self.search(at, size)
    }

    // Whether the part at a place has all these addresses.
    #[inline(always)]
    #[tactic(auto, using(crate::proofs::Parts::first_spans))]
    fn part_spans(&self, number: usize, at: u32, size: usize) -> bool
        requires some { 0 < size }
        requires few { size ≤ 4 }
        ensures { IsTrue result → position (spans at size) self.now.parts.items ≡ Some number }
    {
        number < self.parts.len() && self.parts[number].spans(at, size)
    }

    // Where it isn't the part in focus: the one after that, or any other.
    #[inline(never)]
    fn search(&self, at: u32, size: usize) -> Option<usize>
        requires some { 0 < size }
        requires few { size ≤ 4 }
        ensures { result ≡ position (spans at size) self.now.parts.items }
    {
        let next = self.focus.saturating_add(1);
        if self.part_spans(next, at, size) {
            return Some(next);
        }
        self.parts.iter().position(|part| part.spans(at, size))
    }
}

impl Access for FlatStore {
    ghost bytes = { λ s. bytes_of s.parts.items };

    ghost holds_bytes = { λ s. s.holds };

    #[inline(always)]
    #[tactic(auto, using(crate::proofs::Parts::finding))]
    fn byte(&self, at: u32) -> u8 {
        let place = self.find(at, 1).unwrap();
        self.parts[place].byte(at)
    }

    #[inline(always)]
    #[tactic(auto, using(crate::proofs::Parts::found, crate::proofs::Parts::found_spans))]
    fn put(&mut self, at: u32, byte: u8) {
        let place = self.find(at, 1).unwrap();
        self.parts[place].write(at, &[byte]);
    }

    #[inline(always)]
    #[tactic(auto, using(crate::proofs::Parts::found_spans, crate::proofs::Parts::found_bytes))]
    fn read(&self, at: u32, into: &mut [u8]) -> bool {
        let Some(place) = self.find(at, into.len()) else {
            return false;
        };
        self.parts[place].read(at, into);
        true
    }

    #[inline(always)]
    #[tactic(auto, using(crate::proofs::Parts::found_spans))]
    fn write(&mut self, at: u32, from: &[u8]) -> bool {
        let Some(place) = self.find(at, from.len()) else {
            return false;
        };
        self.parts[place].write(at, from);
        true
    }
}

impl Store for FlatStore {
    ghost bytes = { λ s. bytes_of s.parts.items };

    ghost holds_bytes = { λ s. s.holds };

    fn zeroed(alloc: Global, regions: &[Region]) -> Result<FlatStore, OutOfMemory> {
        let parts = zeroed_parts(alloc, regions)?;
        Ok(FlatStore { parts, focus: 0 })
    }

    fn focus(&mut self, at: u32) {
        if let Some(place) = self.search(at, 1) {
            self.focus = place;
        }
    }

    #[tactic(auto, using(crate::proofs::Parts::has_found))]
    fn has(&self, at: u32) -> bool {
        self.find(at, 1).is_some()
    }

    #[inline(always)]
    fn load8(&self, at: u32) -> u32 {
        access::load8(self, at)
    }

    #[inline(always)]
    fn load16(&self, at: u32) -> u32 {
        access::load16(self, at)
    }

    #[inline(always)]
    fn load32(&self, at: u32) -> u32 {
        access::load32(self, at)
    }

    #[inline(always)]
    fn store8(&mut self, at: u32, value: u32) {
        access::store8(self, at, value);
    }

    #[inline(always)]
    fn store16(&mut self, at: u32, value: u32) {
        access::store16(self, at, value);
    }

    #[inline(always)]
    fn store32(&mut self, at: u32, value: u32) {
        access::store32(self, at, value);
    }
}
