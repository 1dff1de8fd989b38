// Machines with tags, of which contracts say nothing: a test looks at what they do.
use sc_base::{OutOfMemory, Stop};
use sc_event::Event;
use sc_gate::CrossEntry;
use sc_image::Image;
use sc_store::FlatStore;
use sc_tags::{ByteTag, TagMachine, TagRange};
use std::alloc::Global;

#[derive(Drop)]
pub(crate) struct Tagged {
    machine: TagMachine<FlatStore>,
}

impl Tagged {
    pub(crate) fn load(
        alloc: Global,
        image: Image,
        ranges: &[TagRange],
    ) -> Result<Tagged, OutOfMemory> {
        if !ranges.iter().all(TagRange::is_within) {
            return Err(OutOfMemory);
        }
        match TagMachine::load(alloc, image, ranges, &[], 10) {
            Ok(machine) => Ok(Tagged { machine }),
            Err(_) => Err(OutOfMemory),
        }
    }

    pub(crate) fn run(&mut self, steps: u32) -> Stop {
        self.machine.run(steps)
    }

    pub(crate) fn trace(&self) -> &[Event] {
        self.machine.trace()
    }

    pub(crate) fn tag(&self, at: u32) -> ByteTag {
        self.machine.tag(at)
    }

    pub(crate) fn level(&self) -> u32 {
        self.machine.level()
    }

    pub(crate) fn capability(&self, level: u32) -> Option<CrossEntry> {
        self.machine.capability(level)
    }
}
