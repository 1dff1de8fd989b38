//! Texts of programs for the crates that have only tests: those that several of them run, and others from a seed.
#![tactic(auto)]

mod generate;
pub mod programs;

pub use generate::{EVENTS, FIRST, STEPS, generated};
