ghost use Rattle.sc_alloc.specs.Prelude.{AllBegun, AreFair, AreKnown, HasCome, IsAt, IsChosen, IsNext, IsScan};
ghost use Rattle.sc_alloc.specs.Prelude.{Placement, Scanned, at_first, scan_next};
ghost use Rattle.std.specs.Prelude.{◌≡◌, ◌≤◌, ◌<◌, ◌^◌, [], ◌++◌, ◌∷◌, length, map, IfOk, OnOk};

use crate::placements::Placement;
use crate::registers::Registers;
use crate::slots::Slots;
use sc_base::OutOfMemory;
use sc_tac::{Interval, Place};
use sqlite_items::Items;
use std::alloc::Global;

/// Intervals with their places, in the order in which they begin, and what is known of registers and slots.
#[derive(Drop)]
pub struct Scan {
    placements: Items<Placement>,
    registers: Registers,
    slots: Slots,
}

impl Scan {
    /// No intervals, with room for some.
    pub fn new(alloc: Global, room: usize) -> Result<Scan, OutOfMemory>
        ensures placements { IfOk result (λ scan. scan.placements ≡ []) }
        ensures at { IfOk result (IsAt at_first) }
        ensures rules { IfOk result IsScan }
    {
        Ok(Scan {
            placements: Items::from_vec(Vec::with_capacity(alloc, room)?),
            registers: Registers::new(),
            slots: Slots::new(alloc),
        })
    }

    // A place for the interval: a slot only where it spans a call or no register is free.
    fn choose(&mut self, interval: &Interval) -> Result<Place, OutOfMemory>
        requires ordered { interval.now.first ≤ interval.now.last }
        requires few { length self.old.placements < 2 ^ 32 }
        requires rules { IsScan self.old }
        ensures placements { self.new.placements ≡ self.old.placements }
        ensures next { (s : Scanned) → HasCome s self.old.registers self.old.slots →
            IfOk result (IsNext s interval.now self.new.registers self.new.slots) }
        ensures chosen { IfOk result (IsChosen self.old.placements interval.now self.new.registers self.new.slots) }
    {
        match self.registers.give(interval) {
            Some(register) => Ok(Place::Register(register)),
            None => Ok(Place::Slot(self.slots.give(interval)?)),
        }
    }

    /// Gives the next interval its place.
    pub fn add(&mut self, interval: Interval) -> Result<(), OutOfMemory>
        requires ordered { interval.first ≤ interval.last }
        requires few { length self.old.placements < 2 ^ 32 }
        requires begun { AllBegun self.old.placements interval.first }
        requires rules { IsScan self.old }
        ensures placements { OnOk result (map {A = Placement} (λ g. g.interval) self.new.placements ≡
            map {A = Placement} (λ g. g.interval) self.old.placements ++ interval ∷ []) }
        ensures at { (s : Scanned) → IsAt s self.old → OnOk result (IsAt (scan_next s interval) self.new) }
        ensures rules { OnOk result (IsScan self.new) }
    {
        let place = self.choose(&interval)?;
        self.placements.push(Placement { interval, place })?;
        Ok(())
    }

    /// The intervals with their places.
    pub fn finish(self) -> Items<Placement>
        requires { IsScan self }
        ensures placements { result ≡ self.placements }
        ensures fair { AreFair result }
        ensures known { AreKnown result }
    {
        let Scan { placements, .. } = self;
        placements
    }
}
