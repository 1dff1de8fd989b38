//! The state of a run.

ghost use Rattle.sc_blocks.specs.Rows.{memory_of};
ghost use Rattle.sc_run.specs.Numbers.{NumbersSuffice};

use sc_blocks::Blocks;
use sc_event::Trace;
use std::alloc::Global;

/// What a run has come to: its variables, its events, and the turns and inputs that are left. Numbers suffice for the
/// variables of the calls in these turns. With `most_events` events the run stops.
#[derive(Drop)]
pub struct Machine<'a> {
    pub alloc: Global,
    pub blocks: Blocks,
    pub trace: Trace,
    pub turns: u32,
    pub most_events: u32,
    pub inputs: &'a [i32],
    ghost numbers: { NumbersSuffice (memory_of blocks) turns },
}
