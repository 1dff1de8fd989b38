//! A run: steps until something stops it.
#![tactic(auto, unfolding(sc_image::specs::Step::execute_by))]

ghost use Rattle.sc_machine.specs.Prelude.{CanRun, IsTaken, MachineRun, is_ended, run, state_in, stopped, word_of};
ghost use Rattle.sc_base.specs.declared.stop.Stop.TheVariants.{StepsOut};
ghost use Rattle.std.specs.Prelude.{◌≡◌, map};

use crate::execute::step;
use crate::hart::Hart;
use crate::here::Here;
use crate::program::Program;
use sc_base::Stop;
use sc_event::Event;
use sc_image::layout::data_start;
use sc_store::Store;

/// Why a run stopped, and how many steps it took.
#[derive(Clone, Copy)]
pub(crate) struct Halt {
    pub stop: Stop,
    pub steps: u32,
}

/// Takes at most `steps` steps, with room for `events` events in the whole trace.
#[inline(never)]
pub(crate) fn run<S: Store>(
    program: &Program,
    inputs: &[i32],
    events: u32,
    hart: &mut Hart,
    memory: &mut S,
    steps: u32,
) -> Halt
    requires ready { CanRun program.now events hart.old (S.bytes memory.old) }
    ensures run { ◌≡◌ {A = MachineRun} (record { state = state_in (S.bytes memory.new) hart.new; stop = result.stop })
        (run program.now (map word_of inputs.now) events steps (state_in (S.bytes memory.old) hart.old)) }
    ensures taken { IsTaken program.now (map word_of inputs.now) events steps
        (record { state = state_in (S.bytes memory.old) hart.old; stop = StepsOut }) result.steps }
    ensures ready { CanRun program.now events hart.new (S.bytes memory.new) }
{
    let mut here = Here::of(program, hart.active);
    memory.focus(data_start(here.comp()));
    if let Some(stop) = stopped(events, &hart.trace) {
        return Halt { stop, steps: 0 };
    }
    for taken in 0..steps {
        let loud = match step(&here, inputs, hart, memory) {
            Ok(loud) => loud,
            Err(reason) => {
                let pc = hart.core.pc;
                return Halt {
                    stop: Stop::Trap { reason, pc },
                    steps: taken + 1,
                };
            }
        };
        if !loud {
            continue;
        }
        here.follow(memory, hart.active);
        if let Some(stop) = stopped(events, &hart.trace) {
            return Halt {
                stop,
                steps: taken + 1,
            };
        }
    }
    Halt {
        stop: Stop::StepsOut,
        steps,
    }
}

/// Why a run with this trace stops before another step, if it does.
#[tactic(auto, unfolding(sc_image::specs::Machine::stopped))]
pub fn stopped(events: u32, trace: &[Event]) -> Option<Stop>
    ensures { result ≡ stopped events trace.now }
{
    if is_ended(trace) {
        return Some(Stop::Ended);
    }
    if events as usize <= trace.len() {
        return Some(Stop::EventsOut);
    }
    None
}

/// Whether the last event is `End`.
fn is_ended(trace: &[Event]) -> bool
    ensures { result ≡ is_ended trace.now }
{
    matches!(trace.last(), Some(Event::End { .. }))
}
