//! What expressions of a typed tree give, over the blocks of a running program.
#![tactic(auto)]

mod access;
mod arguments;
mod at_once;
mod elements;
mod expressions;
mod moves;
mod plans;
mod pointers;
mod quick;
mod standing;
mod words;

pub use access::{cell_of, free, load, store};
pub use arguments::{Arguments, are_found};
pub use at_once::{holds, is_assigned};
pub use expressions::{evaluate, evaluate_all, value_at_once, variable_at};
pub use plans::{
    Assignment, Operand, Plan, Target, assignment_of, holds_by, is_assigned_by, plan_of,
};
pub use standing::Scope;
pub use words::{applied_one, is_true, on_words};
