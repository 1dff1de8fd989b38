//! Calls between the compartments of a machine: what is kept of them until they return, and what
//! passes in the registers.
#![tactic(auto)]

mod clear;
mod entry;
mod stack;

pub use clear::{clear_for_call, clear_for_ret};
pub use entry::CrossEntry;
pub use stack::CrossStack;
