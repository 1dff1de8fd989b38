ghost use Rattle.std.specs.Prelude.{◌≡◌, ◌<◌, ◌≤◌, ℕ, [], ◌∷◌, ◌++◌, length, replicate, is_some, slice_get, Option};
ghost use Rattle.std.specs.Prelude.{if◌then◌else◌};
ghost use Rattle.std.specs.Prelude.{Err, IfOk, IfSome, MatchResult, Ok, OnErr, OnOk, Some, option_and_then};
ghost use Rattle.std.specs.List.{remove, remove_range};
ghost use Rattle.sc_core.specs.declared.value.Cell.TheVariants.{Undef};
ghost use Rattle.sc_blocks.specs.Cells.{put_at};
ghost use Rattle.sc_blocks.specs.Rows.{cause_of};
ghost use Rattle.sc_blocks.specs.Slots.{IsRising, has_place, spans_in, with_slot, without, zone_spans};
ghost use Rattle.sc_zone.specs.Zone.{least_free, taken, without_span};

use crate::BlockFault;
use crate::cells::Cells;
use crate::slots::{Slot, below, put};
use sc_base::OutOfMemory;
use sc_core::Cell;
use sc_zone::Zone;
use std::alloc::Global;
use std::marker::Model;

/// What one compartment allocated and didn't free. The zone is made when it is first asked, so that a program without
/// `malloc` takes nothing for it.
#[derive(Drop)]
pub(crate) struct Heap {
    slots: Vec<Slot>,
    zone: Option<Zone>,
}

impl Model for Heap {
    ghost use Rattle.std.specs.Prelude.{List, ◌≡◌};
    ghost use Rattle.sc_zone.specs.Gaps.{AreLaid};
    ghost use Rattle.sc_blocks.specs.Slots.{spans_in, zone_spans};
    ghost use Rattle.sc_blocks.specs.declared.slots.Slot.{Slot};

    ghost Value = { List Slot };

    ghost view = { λ heap. heap.slots.items };

    ghost invariant = { λ heap. (zone_spans heap.zone ≡ spans_in heap.slots.items) ×
        AreLaid 0 (spans_in heap.slots.items) };
}

impl Heap {
    pub fn new(alloc: Global) -> Heap
        ensures { result ≡ [] }
    {
        Heap {
            slots: Vec::new(alloc),
            zone: None,
        }
    }

    #[inline(always)]
    pub fn as_slice(&self) -> &[Slot]
        ensures { result.now ≡ self.now }
    {
        self.slots.as_slice()
    }

    /// A block of this number with `words` cells in which nothing was stored yet; whether the zone has them.
    pub fn allocate(
        &mut self,
        alloc: Global,
        number: usize,
        words: u64,
    ) -> Result<bool, OutOfMemory>
        ensures there { IfOk result (λ some. some ≡ is_some (least_free (spans_in self.old) words)) }
        ensures made { OnOk result (self.new ≡
            with_slot number words (least_free (spans_in self.old) words) self.old) }
        ensures err { OnErr result (self.new ≡ self.old) }
    {
        let Some(place) = take_words(&mut self.zone, alloc, words)? else {
            return Ok(false);
        };
        match push_blank(&mut self.slots, alloc, number, words as u32, place) {
            Ok(()) => Ok(true),
            Err(error) => {
                give_back(&mut self.zone, place);
                Err(error)
            }
        }
    }

    /// Takes out a block, and gives back its place in the zone.
    pub fn take_out(&mut self, at: usize)
        requires { at < length self.old }
        ensures { self.new ≡ remove self.old at }
    {
        let slot = self.slots.remove(at);
        if let Some(place) = slot.place {
            give_back(&mut self.zone, place);
        }
    }

    /// Frees a block that has a place in the zone; whether it has one.
    pub fn free(&mut self, at: usize) -> bool
        requires { at < length self.old }
        ensures there { result ≡ has_place (slice_get self.old at) }
        ensures freed { self.new ≡ if result then remove self.old at else self.old }
    {
        let there = self.slots[at].place.is_some();
        if there {
            self.take_out(at);
        }
        there
    }

    /// Ends the blocks of the numbers from one on and below another.
    #[inline(always)]
    pub fn end(&mut self, first: usize, end: usize)
        requires { first ≤ end }
        ensures { (from made : ℕ) → IsRising from made self.old → self.new ≡ without first end self.old }
    {
        if self.slots.is_empty() {
            return;
        }
        self.end_between(first, end);
    }

    // Ends those of these numbers.
    #[inline(never)]
    fn end_between(&mut self, first: usize, end: usize)
        requires { first ≤ end }
        ensures { (from made : ℕ) → IsRising from made self.old → self.new ≡ without first end self.old }
    {
        let from = below(self.slots.as_slice(), first);
        let to = below(self.slots.as_slice(), end);
        self.take_out_range(from, to);
    }

    // Takes out the blocks from a place up to another.
    fn take_out_range(&mut self, from: usize, to: usize)
        requires within { to ≤ length self.old }
        ensures { from ≤ to → self.new ≡ remove_range self.old from to }
    {
        let mut last = to;
        while last > from {
            last -= 1;
            self.take_out(last);
        }
    }

    /// Puts a cell into a block.
    pub fn put(&mut self, at: usize, index: u32, cell: Cell) -> Result<(), BlockFault>
        requires { at < length self.old }
        ensures value { MatchResult result
            (λ _. put_at self.old at index cell ≡ Ok self.new)
            (λ fault. put_at self.old at index cell ≡ Err (cause_of fault)) }
        ensures err { OnErr result (self.new ≡ self.old) }
    {
        put(&mut self.slots[at], index, cell)
    }
}

// Takes words from the zone, which is made where it isn't there.
fn take_words(
    zone: &mut Option<Zone>,
    alloc: Global,
    words: u64,
) -> Result<Option<u32>, OutOfMemory>
    ensures place { IfOk result (λ place. place ≡ least_free (zone_spans zone.old) words) }
    ensures spans { IfOk result (λ place. zone_spans zone.new ≡ taken words place (zone_spans zone.old)) }
    ensures err { OnErr result (zone_spans zone.new ≡ zone_spans zone.old) }
{
    let mut taken = match zone.take() {
        Some(zone) => zone,
        None => Zone::new(alloc)?,
    };
    let place = taken.alloc(words);
    *zone = Some(taken);
    Ok(place)
}

// Gives the block that starts at a place back to the zone.
fn give_back(zone: &mut Option<Zone>, place: u32)
    ensures { zone_spans zone.new ≡ without_span place (zone_spans zone.old) }
{
    if let Some(zone) = zone {
        zone.free(place);
    }
}

// One more block, in which nothing was stored yet.
fn push_blank(
    slots: &mut Vec<Slot>,
    alloc: Global,
    number: usize,
    words: u32,
    place: u32,
) -> Result<(), OutOfMemory>
    ensures ok { OnOk result (slots.new.items ≡ slots.old.items ++
        (record { number = number; cells = replicate words Undef; place = Some place }) ∷ []) }
    ensures err { OnErr result (slots.new.items ≡ slots.old.items) }
{
    let cells = Cells::blank(alloc, words)?;
    slots.push(Slot {
        number,
        cells,
        place: Some(place),
    })?;
    Ok(())
}
