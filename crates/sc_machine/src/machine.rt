//! Machines, and their runs in pieces.
#![tactic(auto, unfolding(sc_image::specs::Step::execute_by))]

ghost use Rattle.std.specs.Prelude.{◌≡◌, ◌<◌, ◌↔◌, ◌+◌, ℕ, List, [], ◌∷◌, ◌++◌, sum, length, map, IfOk, IfErr, IsSome};
ghost use Rattle.std.specs.Prelude.{IsTrue};
ghost use Rattle.sc_word.specs.Word.{word_of};
ghost use Rattle.sc_image.specs.Layout.{are_data};
ghost use Rattle.sc_image.specs.Own.{data_of};
ghost use Rattle.sc_image.specs.State.{reg, saved_sp, start_memory, zone_of};
ghost use Rattle.sc_image.specs.Machine.{run, machine, continued};
ghost use Rattle.sc_machine.specs.Progress.{state_of, run_of};
ghost use Rattle.sc_machine.specs.Calls.{IsCalled, IsTaken, loaded};
ghost use Rattle.sc_zone.specs.Prelude.{words_at};

use crate::hart::Hart;
use crate::here::Here;
use crate::loading::{start_hart, start_memory};
use crate::own_view::OwnView;
use crate::program::Program;
use crate::run::{Halt, run};
use sc_base::Stop;
use sc_event::{CompId, Event, Trace};
use sc_image::Image;
use sc_store::Store;
use sqlite_items::Items;
use std::alloc::Global;
use std::fmt;
use std::marker::Model;
use thiserror::Error;

/// An image with a run of it, which may be taken in pieces, over a store that keeps its data.
#[derive(Drop)]
pub struct Machine<S: Store> {
    program: Program,
    inputs: Items<i32>,
    events: u32,
    hart: Hart,
    memory: S,
    halt: Halt,
}

impl<S: Store> Model for Machine<S> {
    ghost use Rattle.std.specs.Prelude.{map};
    ghost use Rattle.sc_word.specs.Word.{word_of};
    ghost use Rattle.sc_machine.specs.Progress.{Progress};

    ghost Value = { Progress S };

    ghost use Rattle.sc_machine.specs.Hart.{CanRun};

    ghost view = { λ m. record {
      image = m.program;
      inputs = map word_of m.inputs;
      events = m.events;
      registers = m.hart.core.registers;
      pc = m.hart.core.pc;
      active = m.hart.active;
      saved = m.hart.saved.items;
      zones = m.hart.zones.blocks;
      cross = m.hart.cross.calls;
      input = m.hart.input;
      trace = m.hart.trace.items;
      store = m.memory;
      stop = m.halt.stop;
      taken = m.halt.steps;
    } };

    ghost invariant = { λ m. CanRun m.program m.events m.hart (S.bytes m.memory) };
}

/// A machine that can't be made.
#[derive(Drop, Error)]
pub enum LoadFault {
    /// The memory for it was not there. The image comes back.
    #[error("out of memory")]
    OutOfMemory(Image),
}

impl fmt::Debug for LoadFault {
    fn fmt<W: fmt::Write>(&self, f: &mut fmt::Formatter<W>) -> fmt::Result {
        write!(f, "{self}")
    }
}

impl<S: Store> Machine<S> {
    /// A machine at the image's entry, with memory for its data, for a trace of
    /// `events` events and for as many calls.
    /// The inputs are what the environment is to give, one after the other.
    pub fn load(
        alloc: Global,
        image: Image,
        inputs: &[i32],
        events: u32,
    ) -> Result<Machine<S>, LoadFault>
        ensures image { IfOk result (λ machine. machine.image ≡ image) }
        ensures inputs { IfOk result (λ machine. machine.inputs ≡ map word_of inputs.now) }
        ensures events { IfOk result (λ machine. machine.events ≡ events) }
        ensures run { IfOk result (λ machine. run_of S.bytes machine ≡ loaded image) }
        ensures back { IfErr result (λ fault. fault ≡ LoadFault.OutOfMemory image) }
    {
        let Ok(inputs) = Items::from_slice(alloc, inputs) else {
            return Err(LoadFault::OutOfMemory(image));
        };
        let Ok(memory) = start_memory(alloc, &image) else {
            return Err(LoadFault::OutOfMemory(image));
        };
        let Ok(hart) = start_hart(alloc, &image, events) else {
            return Err(LoadFault::OutOfMemory(image));
        };
        let program = match Program::new(alloc, image) {
            Ok(program) => program,
            Err(image) => return Err(LoadFault::OutOfMemory(image)),
        };
        Ok(Machine {
            program,
            inputs,
            events,
            hart,
            memory,
            halt: Halt {
                stop: Stop::StepsOut,
                steps: 0,
            },
        })
    }

    /// Goes on for at most `steps` steps, and says why it stopped. A run that stopped for another reason than
    /// `StepsOut` stays so: the answer is the same, and nothing changes. However a run is cut into calls, it is the
    /// run of all their steps, up to its first such stop.
    #[tactic(auto, using(crate::proofs::Runs::called_again, crate::proofs::Runs::sum_of_calls))]
    pub fn run(&mut self, steps: u32) -> Stop
        ensures run { run_of S.bytes self.new ≡ continued (run self.old.image self.old.inputs self.old.events steps)
            (run_of S.bytes self.old) }
        ensures again { (earlier : List ℕ) → IsCalled S.bytes self.old earlier →
            IsCalled S.bytes self.new (earlier ++ steps ∷ []) }
        ensures any_calls { (earlier : List ℕ) → IsCalled S.bytes self.old earlier → run_of S.bytes self.new ≡
            machine self.old.image self.old.inputs (sum earlier + steps) self.old.events }
        ensures answer { result ≡ self.new.stop }
        ensures taken { IsTaken self.old.image self.old.inputs self.old.events steps (run_of S.bytes self.old)
            self.new.taken }
        ensures image { self.new.image ≡ self.old.image }
        ensures inputs { self.new.inputs ≡ self.old.inputs }
        ensures events { self.new.events ≡ self.old.events }
    {
        if let Stop::StepsOut = self.halt.stop {
            let inputs = self.inputs.as_slice();
            self.halt = run(
                &self.program,
                inputs,
                self.events,
                &mut self.hart,
                &mut self.memory,
                steps,
            );
        } else {
            self.halt.steps = 0;
        }
        self.halt.stop
    }

    /// How many steps the latest call of `run` took, 0 before the first. With a step less it would have answered
    /// `StepsOut`.
    pub fn steps_taken(&self) -> u32
        ensures { result ≡ self.now.taken }
    {
        self.halt.steps
    }

    /// The events so far, the oldest first.
    pub fn trace(&self) -> &[Event]
        ensures { result.now ≡ (state_of S.bytes self.now).trace }
    {
        &self.hart.trace
    }

    /// The same events, without the machine.
    pub fn into_trace(self) -> Trace
        ensures { result ≡ (state_of S.bytes self).trace }
    {
        let Machine { hart, .. } = self;
        let Hart { trace, .. } = hart;
        Trace::from_vec(trace)
    }

    /// The compartment whose code runs.
    pub fn active(&self) -> CompId
        ensures { result ≡ (state_of S.bytes self.now).active }
    {
        self.hart.active
    }

    /// The address of the next instruction, or after a trap of the one that can't be executed.
    pub fn pc(&self) -> u32
        ensures { result ≡ (state_of S.bytes self.now).pc }
    {
        self.hart.core.pc
    }

    /// The word in x0 to x31.
    pub fn register(&self, r: u8) -> u32
        requires { r < 32 }
        ensures { result ≡ reg (state_of S.bytes self.now) r }
    {
        self.hart.core.registers[r as usize]
    }

    /// The byte of a compartment's data at an address, `None` where the address is nobody's.
    pub fn byte(&self, at: u32) -> Option<u8>
        ensures byte { result ≡ (state_of S.bytes self.now).memory at }
        ensures owned { IsSome result ↔ IsSome (start_memory self.now.image at) }
    {
        if !self.memory.has(at) {
            return None;
        }
        Some(self.memory.load8(at) as u8)
    }

    /// What belongs to a compartment of the image.
    pub fn own_part(&self, comp: CompId) -> OwnView<'_, S>
        requires { comp < length self.now.image.comps }
        ensures machine { result.machine ≡ self.now }
        ensures comp { result.comp ≡ comp }
    {
        OwnView::new(self, comp)
    }

    /// The byte of that compartment's data at an address.
    pub(crate) fn byte_of(&self, comp: CompId, at: u32) -> Option<u8>
        requires { comp < length self.now.image.comps }
        ensures byte { result ≡ data_of self.now.image comp (state_of S.bytes self.now).memory at }
        ensures owned { IsSome result ↔ IsTrue (are_data self.now.image comp at 1) }
    {
        if !Here::of(&self.program, comp).are_data(at, 1) {
            return None;
        }
        Some(self.memory.load8(at) as u8)
    }

    /// How many words the block has that starts at a place of the compartment's zone.
    pub(crate) fn words_of(&self, comp: CompId, place: u32) -> Option<u32>
        ensures { result ≡ words_at (zone_of (state_of S.bytes self.now) comp) place }
    {
        self.hart.zones.words_at(comp, place)
    }

    /// The stack pointer that a compartment gets at its next call.
    pub(crate) fn saved_sp(&self, comp: CompId) -> u32
        requires { comp < length self.now.image.comps }
        ensures { result ≡ saved_sp (state_of S.bytes self.now) comp }
    {
        self.hart.saved[comp.number() as usize]
    }
}
