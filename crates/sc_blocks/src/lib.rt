//! The memory of a running program: blocks of cells. Variables live from the start of a call to its return, and what is
//! allocated until it is freed.
#![tactic(auto)]

mod blocks;
mod cells;
mod fault;
mod heap;
mod row;
mod slots;

pub use blocks::Blocks;
pub use fault::{BadFree, BlockFault};
pub use row::Row;
pub use sc_core::{Cell, Pointer};
