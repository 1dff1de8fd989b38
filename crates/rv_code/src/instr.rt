//! The instructions of RV32I and of its M extension, by their forms.

use crate::field::{BranchOffset, Immediate, JumpOffset, Reg, ShiftAmount, UpperImmediate};

/// The instructions of the U form.
#[derive(Clone, Copy, Debug, PartialEq, Eq)]
pub enum UpperOp {
    Lui,
    Auipc,
}

/// The comparisons of the branches.
#[derive(Clone, Copy, Debug, PartialEq, Eq)]
pub enum BranchOp {
    Beq,
    Bne,
    Blt,
    Bge,
    Bltu,
    Bgeu,
}

/// The loads, by size and by how a short value is extended.
#[derive(Clone, Copy, Debug, PartialEq, Eq)]
pub enum LoadOp {
    Lb,
    Lh,
    Lw,
    Lbu,
    Lhu,
}

/// The stores, by size.
#[derive(Clone, Copy, Debug, PartialEq, Eq)]
pub enum StoreOp {
    Sb,
    Sh,
    Sw,
}

/// The operations on a register and an immediate.
#[derive(Clone, Copy, Debug, PartialEq, Eq)]
pub enum OpImmOp {
    Addi,
    Slti,
    Sltiu,
    Xori,
    Ori,
    Andi,
}

/// The shifts by a constant.
#[derive(Clone, Copy, Debug, PartialEq, Eq)]
pub enum ShiftOp {
    Slli,
    Srli,
    Srai,
}

/// The operations on two registers, those of the M extension last.
#[derive(Clone, Copy, Debug, PartialEq, Eq)]
pub enum OpOp {
    Add,
    Sub,
    Sll,
    Slt,
    Sltu,
    Xor,
    Srl,
    Sra,
    Or,
    And,
    Mul,
    Mulh,
    Mulhsu,
    Mulhu,
    Div,
    Divu,
    Rem,
    Remu,
}

/// An instruction of RV32IM. `rd` is the register written, `rs1` and `rs2` are those read.
#[derive(Clone, Copy, Debug, PartialEq, Eq)]
pub enum Instr {
    /// LUI and AUIPC.
    Upper {
        op: UpperOp,
        rd: Reg,
        imm: UpperImmediate,
    },
    /// A jump by an offset from its own address.
    Jal {
        rd: Reg,
        imm: JumpOffset,
    },
    /// A jump to a register plus an immediate.
    Jalr {
        rd: Reg,
        rs1: Reg,
        imm: Immediate,
    },
    /// A branch by an offset from its own address, where `rs1` and `rs2` compare so.
    Branch {
        op: BranchOp,
        rs1: Reg,
        rs2: Reg,
        imm: BranchOffset,
    },
    /// A load from `rs1` plus an immediate.
    Load {
        op: LoadOp,
        rd: Reg,
        rs1: Reg,
        imm: Immediate,
    },
    /// A store of `rs2` at `rs1` plus an immediate.
    Store {
        op: StoreOp,
        rs1: Reg,
        rs2: Reg,
        imm: Immediate,
    },
    /// An operation on `rs1` and an immediate.
    OpImm {
        op: OpImmOp,
        rd: Reg,
        rs1: Reg,
        imm: Immediate,
    },
    /// A shift of `rs1` by a constant.
    Shift {
        op: ShiftOp,
        rd: Reg,
        rs1: Reg,
        amount: ShiftAmount,
    },
    /// An operation on `rs1` and `rs2`.
    Op {
        op: OpOp,
        rd: Reg,
        rs1: Reg,
        rs2: Reg,
    },
    /// An order of memory accesses. The fields say which, and are kept as they are.
    Fence {
        imm: Immediate,
        rs1: Reg,
        rd: Reg,
    },
    /// A call of the environment.
    Ecall,
    /// A breakpoint.
    Ebreak,
}
