//! The zones of the compartments that have a heap.
#![tactic(auto)]

ghost use Rattle.sc_zone.specs.Prelude.{least_free, starts_at, taken, without_span, words_at, zone_words};
ghost use Rattle.std.specs.Prelude.{IfOk, IfSome, IsTrue, [], false, is_some, map, slice_index_or, slice_set};
ghost use Rattle.std.specs.Prelude.{unwrap_or, ◌≡◌, ◌≤◌};

use sc_base::OutOfMemory;
use sc_event::CompId;
use sc_image::CompPart;
use sc_zone::Zone;
use std::alloc::Global;
use std::marker::Model;

/// A zone of each compartment that has a heap. Contracts see the live blocks of each compartment, none where it has no
/// zone, and which compartments have one.
#[derive(Drop)]
pub struct Zones {
    each: Vec<Option<Zone>>,
}

impl Model for Zones {
    ghost use Rattle.std.specs.Prelude.{[], is_some, map, unwrap_or};
    ghost use Rattle.sc_machine.specs.Zoned.{Zoned};

    ghost Value = { Zoned };

    ghost view = { λ zones. record {
      blocks = map (λ zone. unwrap_or zone []) zones.each.items;
      there = map is_some zones.each.items;
    } };
}

impl Zones {
    /// Zones that are all free.
    pub fn new(alloc: Global, comps: &[CompPart]) -> Result<Zones, OutOfMemory>
        ensures blocks { IfOk result (λ zones. zones.blocks ≡ map (λ comp. []) comps.now) }
        ensures there { IfOk result (λ zones. zones.there ≡ map (λ comp. comp.heap) comps.now) }
    {
        let mut each = Vec::new(alloc);
        for comp in comps {
            each.push(zone_of(alloc, comp)?)?;
        }
        Ok(Zones { each })
    }

    /// How many words the block has that starts at a place of a compartment's zone.
    pub fn words_at(&self, comp: CompId, place: u32) -> Option<u32>
        ensures { result ≡ words_at (slice_index_or self.now.blocks comp []) place }
    {
        match self.each.get(comp.number() as usize) {
            Some(Some(zone)) => zone.words_at(place),
            _ => None,
        }
    }

    /// Takes this many words from a compartment's zone, from the least place from which they are free: `None` where
    /// they are free from none, or are none.
    pub fn alloc(&mut self, comp: CompId, words: u64) -> Option<u32>
        requires { IsTrue (slice_index_or self.old.there comp false) }
        ensures place { result ≡ least_free (slice_index_or self.old.blocks comp []) words }
        ensures within { IfSome result (λ place. place ≤ zone_words) }
        ensures blocks { self.new.blocks ≡ slice_set self.old.blocks comp
            (taken words result (slice_index_or self.old.blocks comp [])) }
        ensures there { self.new.there ≡ self.old.there }
    {
        let Some(zone) = &mut self.each[comp.number() as usize] else {
            return None;
        };
        zone.alloc(words)
    }

    /// Gives back the block that starts at a place of a compartment's zone; whether there is one.
    pub fn free(&mut self, comp: CompId, place: u32) -> bool
        requires { IsTrue (slice_index_or self.old.there comp false) }
        ensures given { result ≡ starts_at (slice_index_or self.old.blocks comp []) place }
        ensures blocks { self.new.blocks ≡ slice_set self.old.blocks comp
            (without_span place (slice_index_or self.old.blocks comp [])) }
        ensures there { self.new.there ≡ self.old.there }
        ensures stays { result ≡ false → self.new ≡ self.old }
    {
        let Some(zone) = &mut self.each[comp.number() as usize] else {
            return false;
        };
        zone.free(place)
    }
}

/// The compartment's zone, if it has a heap.
fn zone_of(alloc: Global, comp: &CompPart) -> Result<Option<Zone>, OutOfMemory>
    ensures blocks { IfOk result (λ zone. unwrap_or zone [] ≡ []) }
    ensures there { IfOk result (λ zone. is_some zone ≡ comp.now.heap) }
{
    if !comp.heap {
        return Ok(None);
    }
    Ok(Some(Zone::new(alloc)?))
}
