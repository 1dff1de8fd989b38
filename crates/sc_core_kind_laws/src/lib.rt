//! What the values of well-typed programs are: laws that say that no operator meets an operand of another kind than its
//! type's, that calls ask only for what may be called, and that only numbers cross between compartments.
#![tactic(auto)]

mod laws;

pub use laws::{results_have_kinds, values_have_kinds};
