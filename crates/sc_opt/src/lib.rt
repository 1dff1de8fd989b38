//! The optimiser on three-address code: constants are folded, copies are read where they come from, and dead code goes.
#![tactic(auto)]

mod constants;
mod facts;
mod known;
mod laws;
mod pass;
mod program;
mod sources;
mod uses;

pub use laws::{
    chain_goes_at_once, optimiser_keeps_meaning, optimiser_keeps_rules, optimiser_keeps_shape,
    results_are_lean,
};
pub use program::{optimise, optimise_function};
