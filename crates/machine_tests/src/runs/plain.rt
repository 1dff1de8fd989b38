// Machines with regions, of which contracts say nothing: a test looks at what they do.
use super::machines::START;
use sc_base::{OutOfMemory, Stop};
use sc_event::{CompId, Event};
use sc_image::Image;
use sc_machine::Machine;
use sc_store::FlatStore;
use std::alloc::Global;

#[derive(Drop)]
pub(crate) struct Plain {
    machine: Machine<FlatStore>,
}

impl Plain {
    pub(crate) fn load(
        alloc: Global,
        image: Image,
        inputs: &[i32],
        events: u32,
    ) -> Result<Plain, OutOfMemory> {
        match Machine::load(alloc, image, inputs, events) {
            Ok(machine) => Ok(Plain { machine }),
            Err(_) => Err(OutOfMemory),
        }
    }

    pub(crate) fn run(&mut self, steps: u32) -> Stop {
        self.machine.run(steps)
    }

    pub(crate) fn trace(&self) -> &[Event] {
        self.machine.trace()
    }

    pub(crate) fn pc(&self) -> u32 {
        self.machine.pc()
    }

    // How far the pc is from the start of the first compartment's code.
    pub(crate) fn offset(&self) -> u32 {
        self.machine.pc().wrapping_sub(START)
    }

    pub(crate) fn active(&self) -> CompId {
        self.machine.active()
    }

    pub(crate) fn register(&self, number: u8) -> u32 {
        if number < 32 {
            self.machine.register(number)
        } else {
            0
        }
    }

    pub(crate) fn byte(&self, at: u32) -> Option<u8> {
        self.machine.byte(at)
    }

    // Whether these registers hold these words.
    pub(crate) fn has(&self, words: &[(u8, u32)]) -> bool {
        words
            .iter()
            .all(|(register, word)| self.register(*register) == *word)
    }

    // Whether these registers hold these words, and every other one 0.
    pub(crate) fn has_only(&self, words: &[(u8, u32)]) -> bool {
        (0..32).all(|register| {
            let word = words.iter().find(|word| word.0 == register);
            self.register(register) == word.map_or(0, |word| word.1)
        })
    }
}
