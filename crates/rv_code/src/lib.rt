//! The instruction words of RV32IM: the type of instructions, its encoding and its decoding, as in
//! the RISC-V Unprivileged ISA manual's chapters "RV32I Base Integer Instruction Set" and "M
//! Extension", and its listing of instruction encodings.
#![tactic(auto)]

mod decoding;
mod encoding;
mod field;
mod instr;
mod laws;
mod table;

pub use decoding::decode;
pub use encoding::encode;
pub use field::{BranchOffset, Immediate, JumpOffset, Reg, ShiftAmount, UpperImmediate};
pub use instr::{BranchOp, Instr, LoadOp, OpImmOp, OpOp, ShiftOp, StoreOp, UpperOp};
pub use laws::one_word_each;
