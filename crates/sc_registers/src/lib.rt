//! The registers and the pc, and the instructions that change nothing else: what each machine that runs images has.
#![tactic(auto)]

mod arithmetic;
mod registers;

pub use arithmetic::{compares, op, op_imm, shift, upper};
pub use registers::{Core, word_of};
