//! Sections that perform: the text that performs a compartment's part of a trace is a section that keeps the rules.
#![tactic(auto)]

mod laws;

pub use laws::{
    counts_hold, legal_rows_fit, names_hold, parts_perform, recomposed_hold, rows_perform,
    types_hold,
};
