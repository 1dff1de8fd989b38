//! Numbers as texts.
#![tactic(auto)]

mod numbers;

pub use numbers::{integer, number_within};
