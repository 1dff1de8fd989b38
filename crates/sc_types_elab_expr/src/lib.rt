//! Expressions with their types: what their names stand for where they stand, how they are built, and what is judged of
//! them.
#![tactic(auto)]

mod callees;
mod expr;
mod judged;
mod scope;
mod structs;
mod ty;
mod type_name;
mod variables;

pub use callees::{Callees, Signature};
pub use expr::{Built, build_expr, going_to};
pub use judged::{Judged, is_type};
pub use scope::{FunctionScope, SectionScope};
pub use structs::{MOST_CELLS, Structs};
pub use type_name::{base_of, cells_under, type_of_name};
pub use variables::{Found, Variables};
