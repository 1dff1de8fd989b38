//! Instruction selection: the machine code of three-address code.
#![tactic(auto)]

mod backward;
mod calls;
mod control;
mod function;
mod homes;
mod jumps;
mod kinds;
mod needs;
mod operators;
mod pieces;
mod roles;
mod statements;

pub use backward::Backward;
pub use control::Distances;
pub use function::select;
pub use homes::Homes;
pub use needs::Needs;
pub use operators::{Operands, ShortForm};
pub use pieces::{lower_part, upper_part};
pub use roles::Role;
