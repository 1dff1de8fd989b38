//! Machines with tags, and their runs in pieces.

ghost use Rattle.sc_gate.specs.Waiting.{crossing_of};
ghost use Rattle.sc_image.specs.Prelude.{RunOf, continued};
ghost use Rattle.sc_machine.specs.Prelude.{word_of};
ghost use Rattle.sc_tags.specs.Prelude.{IsWithinAddresses, Tagged, tag_at, tag_machine, tag_run};
ghost use Rattle.sc_tags.specs.Progress.{IsTagCalled, tag_loaded, tag_run_of, tagged_of};
ghost use Rattle.sc_tags.specs.TagHart.{CanRunTagged, bytes_of, tagged_in};
ghost use Rattle.std.specs.Option.{option_map};
ghost use Rattle.std.specs.Prelude.{◌≡◌, ◌+◌, ◌++◌, ◌∷◌, [], All, IfErr, IfOk, List, map, sum, ℕ};

use crate::execute::step;
use crate::memory::Memory;
use crate::owner::tag_at;
use crate::tag::{ByteTag, TagRange};
use crate::tags::Tags;
use sc_base::Stop;
use sc_event::Event;
use sc_gate::CrossEntry;
use sc_image::Image;
use sc_machine::{Hart, Program, start_hart, stopped};
use sc_store::Store;
use sqlite_items::Items;
use std::alloc::Global;
use std::fmt;
use std::marker::Model;
use thiserror::Error;

/// What a machine was loaded with.
#[derive(Drop)]
struct Loaded {
    program: Program,
    ranges: Items<TagRange>,
    inputs: Items<i32>,
    /// How many events the whole trace has at most.
    events: u32,
}

/// A loaded image on the machine with tags, and how far its run is. It doesn't count the steps of a call.
#[derive(Drop)]
pub struct TagMachine<S: Store> {
    loaded: Loaded,
    hart: Hart,
    memory: Memory<S>,
    stop: Stop,
}

impl<S: Store> Model for TagMachine<S> {
    ghost use Rattle.sc_tags.specs.Progress.{TagProgress};
    ghost use Rattle.sc_tags.specs.TagHart.{CanRunTagged, bytes_of};
    ghost use Rattle.sc_word.specs.Word.{word_of};
    ghost use Rattle.std.specs.Prelude.{map};

    ghost Value = { TagProgress S };

    ghost view = { λ m. record {
      machine = record {
        image = m.loaded.program;
        inputs = map word_of m.loaded.inputs;
        events = m.loaded.events;
        registers = m.hart.core.registers;
        pc = m.hart.core.pc;
        active = m.hart.active;
        saved = m.hart.saved.items;
        zones = m.hart.zones.blocks;
        cross = m.hart.cross.calls;
        input = m.hart.input;
        trace = m.hart.trace.items;
        store = m.memory;
        stop = m.stop;
        taken = 0;
      };
      ranges = m.loaded.ranges;
    } };

    ghost invariant = { λ m. CanRunTagged m.loaded.program m.loaded.events m.hart (bytes_of S.bytes m.memory) };
}

/// A machine that can't be made.
#[derive(Drop, Error)]
pub enum TagLoadFault {
    /// The memory for it was not there. The image comes back.
    #[error("out of memory")]
    OutOfMemory(Image),
}

impl fmt::Debug for TagLoadFault {
    fn fmt<W: fmt::Write>(&self, f: &mut fmt::Formatter<W>) -> fmt::Result {
        write!(f, "{self}")
    }
}

impl<S: Store> TagMachine<S> {
    /// A machine at the image's entry, with memory for all owned bytes, for a trace of `events` events and for as many
    /// capabilities. Each owned byte has its owner's tag, unless a range gives it another: the last one that has it.
    pub fn load(
        alloc: Global,
        image: Image,
        ranges: &[TagRange],
        inputs: &[i32],
        events: u32,
    ) -> Result<TagMachine<S>, TagLoadFault>
        requires ranges { All IsWithinAddresses ranges.now }
        ensures image { IfOk result (λ machine. machine.machine.image ≡ image) }
        ensures ranges { IfOk result (λ machine. machine.ranges ≡ ranges.now) }
        ensures inputs { IfOk result (λ machine. machine.machine.inputs ≡ map word_of inputs.now) }
        ensures events { IfOk result (λ machine. machine.machine.events ≡ events) }
        ensures run { IfOk result (λ machine. tag_run_of S.bytes machine ≡ tag_loaded image) }
        ensures back { IfErr result (λ fault. fault ≡ TagLoadFault.OutOfMemory image) }
    {
        let Ok(ranges) = Items::from_slice(alloc, ranges) else {
            return Err(TagLoadFault::OutOfMemory(image));
        };
        let Ok(inputs) = Items::from_slice(alloc, inputs) else {
            return Err(TagLoadFault::OutOfMemory(image));
        };
        let Ok(memory) = Memory::start(alloc, &image) else {
            return Err(TagLoadFault::OutOfMemory(image));
        };
        let Ok(hart) = start_hart(alloc, &image, events) else {
            return Err(TagLoadFault::OutOfMemory(image));
        };
        let program = match Program::new(alloc, image) {
            Ok(program) => program,
            Err(image) => return Err(TagLoadFault::OutOfMemory(image)),
        };
        Ok(TagMachine {
            loaded: Loaded {
                program,
                ranges,
                inputs,
                events,
            },
            hart,
            memory,
            stop: Stop::StepsOut,
        })
    }

    /// Goes on for at most `steps` steps, and says why it stopped. A run that stopped for another reason than
    /// `StepsOut` stays so: the answer is the same, and nothing changes.
    #[tactic(auto, using(crate::proofs::TagRuns::called_again, crate::proofs::TagRuns::sum_of_calls))]
    pub fn run(&mut self, steps: u32) -> Stop
        ensures run { let old = self.old.machine in tag_run_of S.bytes self.new ≡
            continued (tag_run old.image self.old.ranges old.inputs old.events steps) (tag_run_of S.bytes self.old) }
        ensures again { (earlier : List ℕ) → IsTagCalled S.bytes self.old earlier →
            IsTagCalled S.bytes self.new (earlier ++ steps ∷ []) }
        ensures any_calls { let old = self.old.machine in
            (earlier : List ℕ) → IsTagCalled S.bytes self.old earlier → tag_run_of S.bytes self.new ≡
            tag_machine old.image self.old.ranges old.inputs (sum earlier + steps) old.events }
        ensures answer { result ≡ self.new.machine.stop }
        ensures image { self.new.machine.image ≡ self.old.machine.image }
        ensures ranges { self.new.ranges ≡ self.old.ranges }
        ensures inputs { self.new.machine.inputs ≡ self.old.machine.inputs }
        ensures events { self.new.machine.events ≡ self.old.machine.events }
    {
        if let Stop::StepsOut = self.stop {
            self.stop = run(&self.loaded, &mut self.hart, &mut self.memory, steps);
        }
        self.stop
    }

    /// The events so far, the oldest first.
    pub fn trace(&self) -> &[Event]
        ensures { result.now ≡ (tagged_of S.bytes self.now).core.trace }
    {
        &self.hart.trace
    }

    /// The tag of the byte at an address.
    pub fn tag(&self, at: u32) -> ByteTag
        ensures { result ≡ tag_at self.now.machine.image self.now.ranges at }
    {
        tag_at(
            self.loaded.program.image(),
            self.loaded.ranges.as_slice(),
            at,
        )
    }

    /// The call level.
    pub fn level(&self) -> u32
        ensures { result ≡ (tagged_of S.bytes self.now).level }
    {
        self.hart.cross.count()
    }

    /// The live return capability of a level, `None` where there is none.
    pub fn capability(&self, level: u32) -> Option<CrossEntry>
        ensures { option_map crossing_of result ≡ (tagged_of S.bytes self.now).capabilities level }
    {
        self.hart.cross.at(level)
    }
}

/// Takes at most `steps` steps.
fn run<S: Store>(loaded: &Loaded, hart: &mut Hart, memory: &mut Memory<S>, steps: u32) -> Stop
    requires ready { CanRunTagged loaded.now.program loaded.now.events hart.old (bytes_of S.bytes memory.old) }
    ensures run { ◌≡◌ {A = RunOf Tagged}
        (record { state = tagged_in (bytes_of S.bytes memory.new) hart.new; stop = result })
        (tag_run loaded.now.program loaded.now.ranges (map word_of loaded.now.inputs) loaded.now.events steps
        (tagged_in (bytes_of S.bytes memory.old) hart.old)) }
    ensures ready { CanRunTagged loaded.now.program loaded.now.events hart.new (bytes_of S.bytes memory.new) }
{
    let mut tags = Tags::of(&loaded.program, loaded.ranges.as_slice(), hart.active);
    memory.focus(hart.active);
    if let Some(stop) = stopped(loaded.events, &hart.trace) {
        return stop;
    }
    for _ in 0..steps {
        if let Err(reason) = step(&tags, loaded.inputs.as_slice(), hart, memory) {
            return Stop::Trap {
                reason,
                pc: hart.core.pc,
            };
        }
        tags.follow(memory, hart.active);
        if let Some(stop) = stopped(loaded.events, &hart.trace) {
            return stop;
        }
    }
    Stop::StepsOut
}
