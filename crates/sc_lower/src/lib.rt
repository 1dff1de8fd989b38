//! From typed programs to three-address code: what is emitted, and that it means the same.
#![tactic(auto)]

mod calls;
mod code;
mod expr;
mod function;
mod heap;
mod laws;
mod nodes;
mod program;
mod selection;
mod stmt;

pub use laws::{code_has_no_lines, keeps_branches, keeps_meaning, keeps_rules};
pub use nodes::function_nodes;
pub use program::{lower, lower_function};
