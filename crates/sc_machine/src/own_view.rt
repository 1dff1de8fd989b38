//! What belongs to one compartment.
#![tactic(auto, unfolding(sc_image::specs::Step::execute_by))]

ghost use Rattle.std.specs.Prelude.{◌≡◌, ◌↔◌, ◌<◌, length, IsSome, IsTrue};
ghost use Rattle.sc_image.specs.Layout.{are_data};
ghost use Rattle.sc_image.specs.Own.{data_of};
ghost use Rattle.sc_image.specs.State.{saved_sp, zone_of};
ghost use Rattle.sc_machine.specs.Progress.{state_of};
ghost use Rattle.sc_zone.specs.Prelude.{words_at};

use crate::Machine;
use sc_event::CompId;
use sc_store::Store;
use std::marker::Model;

/// What belongs to a compartment of a machine, whether its code runs or not. Contracts see the
/// machine and the compartment.
#[derive(Drop)]
pub struct OwnView<'a, S: Store> {
    machine: &'a Machine<S>,
    comp: CompId,
}

impl<'a, S: Store> Model for OwnView<'a, S> {
    ghost use Rattle.std.specs.Prelude.{◌<◌, length};
    ghost use Rattle.sc_machine.specs.Progress.{Part};

    ghost Value = { Part S };

    ghost view = { λ v. record { machine = v.machine.now; comp = v.comp } };

    ghost invariant = { λ v. v.comp < length v.machine.now.image.comps };
}

impl<'a, S: Store> OwnView<'a, S> {
    pub(crate) fn new(machine: &'a Machine<S>, comp: CompId) -> OwnView<'a, S>
        requires { comp < length machine.now.image.comps }
        ensures machine { result.machine ≡ machine.now }
        ensures comp { result.comp ≡ comp }
    {
        OwnView { machine, comp }
    }

    /// The byte of the compartment's data at an address, `None` where the address isn't one of its
    /// data.
    pub fn byte(&self, at: u32) -> Option<u8>
        ensures byte { result ≡ data_of self.now.machine.image self.now.comp
            (state_of S.bytes self.now.machine).memory at }
        ensures owned { IsSome result ↔ IsTrue (are_data self.now.machine.image self.now.comp at 1) }
    {
        self.machine.byte_of(self.comp, at)
    }

    /// How many words the block has that starts at a place of the compartment's zone; `None` where none does, or the
    /// compartment has no heap.
    pub fn words_at(&self, place: u32) -> Option<u32>
        ensures { result ≡ words_at (zone_of (state_of S.bytes self.now.machine) self.now.comp) place }
    {
        self.machine.words_of(self.comp, place)
    }

    /// The stack pointer that the compartment gets at its next call.
    pub fn saved_sp(&self) -> u32
        ensures { result ≡ saved_sp (state_of S.bytes self.now.machine) self.now.comp }
    {
        self.machine.saved_sp(self.comp)
    }
}
