//! Texts of programs and their three-address code, for the crates that have only tests.
#![tactic(auto)]

mod code;
mod long;
mod programs;

pub use code::lowered;
pub use long::{append, repeated};
pub use programs::{BLOCKS, CONSTANTS, DIVISION_BY_ZERO, MEMBERS, PROGRAMS};
