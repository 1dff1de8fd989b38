//! Runs of the whole program over memory, for the crates that have only tests.
#![tactic(auto)]

mod byte_by_byte;
mod program;

pub use program::{Ran, Run};
