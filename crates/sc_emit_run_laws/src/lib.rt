//! Simulation: the machine on a linked image beside the runs of its program's code.
#![tactic(auto)]

mod laws;

pub use laws::{outcomes_simulate, scripts_simulate, scripts_stop, simulates, stands_but_for};
