//! Back-translation of one compartment: the text of a section that performs the compartment's part of a trace.
#![tactic(auto)]

mod action;
mod function;
mod head;
mod section;

pub use section::back_section;
