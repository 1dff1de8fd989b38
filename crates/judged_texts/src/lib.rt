//! Texts and what they must give, for the crates that have only tests: their program, or the phase and the line at
//! which they are refused.
#![tactic(auto)]

mod rows;

pub use rows::{DECLARATIONS, Frame, Row, STATEMENTS, WHOLE, Wrong, judge, wrong_rows};
