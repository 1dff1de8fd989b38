//! The state that instructions change, apart from memory.
#![tactic(auto, unfolding(sc_image::specs::Step::execute_by))]

ghost use Rattle.std.specs.Prelude.{◌≡◌, ◌<◌, ◌≤◌, ◌++◌, ◌∷◌, [], length, vec_capacity};

use crate::zones::Zones;
use sc_event::{CompId, Event};
use sc_gate::CrossStack;
use sc_registers::Core;

/// What instructions change, apart from memory.
#[derive(Drop)]
pub struct Hart {
    pub core: Core,
    /// The compartment whose code runs.
    pub active: CompId,
    /// Of each compartment, the sp that it gets at its next call.
    pub saved: Vec<u32>,
    pub zones: Zones,
    /// The calls of other compartments that haven't returned.
    pub cross: CrossStack,
    /// How many inputs were read.
    pub input: usize,
    pub trace: Vec<Event>,
}

impl Hart {
    /// Adds an event, for which there is room.
    pub fn emit(&mut self, event: Event)
        requires { length self.old.trace.items < vec_capacity self.old.trace }
        ensures trace { self.new.trace.items ≡ self.old.trace.items ++ event ∷ [] }
        ensures room { vec_capacity self.old.trace ≤ vec_capacity self.new.trace }
        ensures core { self.new.core ≡ self.old.core }
        ensures active { self.new.active ≡ self.old.active }
        ensures saved { self.new.saved ≡ self.old.saved }
        ensures zones { self.new.zones ≡ self.old.zones }
        ensures cross { self.new.cross ≡ self.old.cross }
        ensures input { self.new.input ≡ self.old.input }
    {
        self.trace.push(event).unwrap();
    }
}
