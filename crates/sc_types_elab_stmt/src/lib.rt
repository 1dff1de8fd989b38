//! Statements with their types: how they are built, the rules of types on their parts, and the lines at which these are
//! broken.
#![tactic(auto)]

mod noting;
mod rules;
mod stmt;

pub use rules::Place;
pub use stmt::{build_stmts, build_value};
