ghost use Rattle.sc_alloc.specs.Prelude.{AreSlots, GivesSlot, HasEnds, HasSlot, IsOut, IsTaken, NoneFree, Placement};
ghost use Rattle.std.specs.Prelude.{◌≡◌, ◌≤◌, ◌<◌, ◌^◌, ℕ, [], List, IfOk, MatchOption};
ghost use Rattle.std.specs.BinaryHeap.{heap_items};

use sc_base::OutOfMemory;
use sc_tac::Interval;
use std::alloc::Global;
use std::cmp::Reverse;
use std::collections::BinaryHeap;

/// A slot, and where the interval ends that got it last.
#[derive(Clone, Copy, PartialEq, Eq, PartialOrd, Ord)]
pub struct SlotEnd {
    pub last: u32,
    pub slot: u32,
}

/// The slots so far: their numbers are those below `count`, and the one that is free soonest comes first.
#[derive(Drop)]
pub struct Slots {
    ends: BinaryHeap<Reverse<SlotEnd>>,
    count: u64,
}

impl Slots {
    pub fn new(alloc: Global) -> Slots
        ensures none { HasEnds [] (heap_items result.ends) result.count }
        ensures rules { AreSlots [] (heap_items result.ends) result.count }
    {
        Slots {
            ends: BinaryHeap::new(alloc),
            count: 0,
        }
    }

    // The slot that is free soonest, where it is free at this point.
    fn take_free(&mut self, at: u32) -> Option<u32>
        ensures soonest { (slots : List ℕ) → HasEnds slots (heap_items self.old.ends) self.old.count →
            MatchOption result (NoneFree slots (heap_items self.new.ends) self.new.count at)
            (IsTaken slots (heap_items self.new.ends) self.new.count at) }
        ensures rules { (placements : List Placement) → AreSlots placements (heap_items self.old.ends) self.old.count →
            MatchOption result (AreSlots placements (heap_items self.new.ends) self.new.count)
            (IsOut placements (heap_items self.new.ends) self.new.count at) }
        ensures count { self.new.count ≡ self.old.count }
    {
        let Reverse(soonest) = *self.ends.peek()?;
        if at <= soonest.last {
            return None;
        }
        self.ends.pop();
        Some(soonest.slot)
    }

    // The slot that is free soonest, where it is free at this point, and else a new one.
    fn take(&mut self, at: u32) -> u32
        requires { self.old.count < 2 ^ 32 }
        ensures slot { (slots : List ℕ) → HasEnds slots (heap_items self.old.ends) self.old.count →
            IsTaken slots (heap_items self.new.ends) self.new.count at result }
        ensures rules { (placements : List Placement) → AreSlots placements (heap_items self.old.ends) self.old.count →
            IsOut placements (heap_items self.new.ends) self.new.count at result }
    {
        match self.take_free(at) {
            Some(slot) => slot,
            None => {
                let slot = self.count as u32;
                self.count += 1;
                slot
            }
        }
    }

    /// The slot that is free soonest, if it is free where the interval begins, and else a new one. It belongs to the
    /// interval from then on.
    pub fn give(&mut self, interval: &Interval) -> Result<u32, OutOfMemory>
        requires ordered { interval.now.first ≤ interval.now.last }
        requires few { self.old.count < 2 ^ 32 }
        ensures slot { (slots : List ℕ) → HasEnds slots (heap_items self.old.ends) self.old.count →
            IfOk result (HasSlot slots interval.now (heap_items self.new.ends) self.new.count) }
        ensures rules { (placements : List Placement) → AreSlots placements (heap_items self.old.ends) self.old.count →
            IfOk result (GivesSlot placements interval.now (heap_items self.new.ends) self.new.count) }
    {
        let slot = self.take(interval.first);
        self.ends.push(Reverse(SlotEnd {
            last: interval.last,
            slot,
        }))?;
        Ok(slot)
    }
}
