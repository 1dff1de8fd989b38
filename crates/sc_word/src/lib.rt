//! Arithmetic on 32-bit words held as `u32`, in two forms.
//!
//! The C forms are the operators of `int` and `unsigned int`, with a [`WordFault`] wherever C11
//! leaves the result undefined. The machine forms are the register instructions of RV32IM, which
//! answer a word for every two words. `the_machine_computes_what_c_computes` ties the two: an
//! instruction computes what its operator computes, wherever that computes anything.
#![tactic(auto)]

mod agreement;
mod c_arithmetic;
mod fault;
mod machine;

pub use agreement::{operators_are_instructions, the_machine_computes_what_c_computes};
pub use c_arithmetic::{
    add_signed, div_signed, div_unsigned, mul_signed, neg_signed, rem_signed, rem_unsigned,
    shl_signed, shl_unsigned, shr_signed, shr_unsigned, sub_signed,
};
pub use fault::WordFault;
pub use machine::{
    add, div, divu, mul, mulh, mulhsu, mulhu, rem, remu, sll, slt, sltu, sra, srl, sub,
};
