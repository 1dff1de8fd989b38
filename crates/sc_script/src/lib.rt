//! What one compartment does in a trace: the script by which it can be replayed.
#![tactic(auto)]

mod rows;
mod walk;

pub use rows::part;
