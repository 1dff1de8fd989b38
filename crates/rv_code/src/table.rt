//! The opcodes and function codes of the instructions, both ways, as the manual lists them.

ghost use Rattle.rv_code.specs.Prelude.{branch_funct3, branch_op_of, load_funct3, load_op_of, op_funct3, op_funct7};
ghost use Rattle.rv_code.specs.Prelude.{op_imm_funct3, op_imm_op_of, op_op_of, shift_funct3, shift_funct7, shift_op_of};
ghost use Rattle.rv_code.specs.Prelude.{store_funct3, store_op_of, upper_opcode};
ghost use Rattle.std.specs.Prelude.{◌≡◌};

use crate::instr::{BranchOp, LoadOp, OpImmOp, OpOp, ShiftOp, StoreOp, UpperOp};

pub(crate) const LUI: u32 = 0b0110111;

pub(crate) const AUIPC: u32 = 0b0010111;

pub(crate) const JAL: u32 = 0b1101111;

pub(crate) const JALR: u32 = 0b1100111;

pub(crate) const BRANCH: u32 = 0b1100011;

pub(crate) const LOAD: u32 = 0b0000011;

pub(crate) const STORE: u32 = 0b0100011;

pub(crate) const OP_IMM: u32 = 0b0010011;

pub(crate) const OP: u32 = 0b0110011;

pub(crate) const FENCE: u32 = 0b0001111;

/// ECALL is encoded by this word only.
pub(crate) const ECALL_WORD: u32 = 0x0000_0073;

/// EBREAK is encoded by this word only.
pub(crate) const EBREAK_WORD: u32 = 0x0010_0073;

impl UpperOp {
    /// Bits 6 to 0.
    pub(crate) fn opcode(self) -> u32
        ensures { result ≡ upper_opcode self }
    {
        match self {
            UpperOp::Lui => LUI,
            UpperOp::Auipc => AUIPC,
        }
    }
}

impl BranchOp {
    /// Bits 14 to 12.
    pub(crate) fn funct3(self) -> u32
        ensures { result ≡ branch_funct3 self }
    {
        match self {
            BranchOp::Beq => 0b000,
            BranchOp::Bne => 0b001,
            BranchOp::Blt => 0b100,
            BranchOp::Bge => 0b101,
            BranchOp::Bltu => 0b110,
            BranchOp::Bgeu => 0b111,
        }
    }

    /// The operation with that code, if there is one.
    #[inline(always)]
    #[tactic(auto, unfolding(crate::specs::Decoding::branch_op_of))]
    pub(crate) fn from_funct3(funct3: u32) -> Option<BranchOp>
        ensures { result ≡ branch_op_of funct3 }
    {
        match funct3 {
            0b000 => Some(BranchOp::Beq),
            0b001 => Some(BranchOp::Bne),
            0b100 => Some(BranchOp::Blt),
            0b101 => Some(BranchOp::Bge),
            0b110 => Some(BranchOp::Bltu),
            0b111 => Some(BranchOp::Bgeu),
            _ => None,
        }
    }
}

impl LoadOp {
    /// Bits 14 to 12.
    pub(crate) fn funct3(self) -> u32
        ensures { result ≡ load_funct3 self }
    {
        match self {
            LoadOp::Lb => 0b000,
            LoadOp::Lh => 0b001,
            LoadOp::Lw => 0b010,
            LoadOp::Lbu => 0b100,
            LoadOp::Lhu => 0b101,
        }
    }

    /// The operation with that code, if there is one.
    #[inline(always)]
    #[tactic(auto, unfolding(crate::specs::Decoding::load_op_of))]
    pub(crate) fn from_funct3(funct3: u32) -> Option<LoadOp>
        ensures { result ≡ load_op_of funct3 }
    {
        match funct3 {
            0b000 => Some(LoadOp::Lb),
            0b001 => Some(LoadOp::Lh),
            0b010 => Some(LoadOp::Lw),
            0b100 => Some(LoadOp::Lbu),
            0b101 => Some(LoadOp::Lhu),
            _ => None,
        }
    }
}

impl StoreOp {
    /// Bits 14 to 12.
    pub(crate) fn funct3(self) -> u32
        ensures { result ≡ store_funct3 self }
    {
        match self {
            StoreOp::Sb => 0b000,
            StoreOp::Sh => 0b001,
            StoreOp::Sw => 0b010,
        }
    }

    /// The operation with that code, if there is one.
    #[inline(always)]
    #[tactic(auto, unfolding(crate::specs::Decoding::store_op_of))]
    pub(crate) fn from_funct3(funct3: u32) -> Option<StoreOp>
        ensures { result ≡ store_op_of funct3 }
    {
        match funct3 {
            0b000 => Some(StoreOp::Sb),
            0b001 => Some(StoreOp::Sh),
            0b010 => Some(StoreOp::Sw),
            _ => None,
        }
    }
}

impl OpImmOp {
    /// Bits 14 to 12.
    pub(crate) fn funct3(self) -> u32
        ensures { result ≡ op_imm_funct3 self }
    {
        match self {
            OpImmOp::Addi => 0b000,
            OpImmOp::Slti => 0b010,
            OpImmOp::Sltiu => 0b011,
            OpImmOp::Xori => 0b100,
            OpImmOp::Ori => 0b110,
            OpImmOp::Andi => 0b111,
        }
    }

    /// The operation with that code, if there is one.
    #[inline(always)]
    #[tactic(auto, unfolding(crate::specs::Decoding::op_imm_op_of))]
    pub(crate) fn from_funct3(funct3: u32) -> Option<OpImmOp>
        ensures { result ≡ op_imm_op_of funct3 }
    {
        match funct3 {
            0b000 => Some(OpImmOp::Addi),
            0b010 => Some(OpImmOp::Slti),
            0b011 => Some(OpImmOp::Sltiu),
            0b100 => Some(OpImmOp::Xori),
            0b110 => Some(OpImmOp::Ori),
            0b111 => Some(OpImmOp::Andi),
            _ => None,
        }
    }
}

impl ShiftOp {
    /// Bits 14 to 12.
    pub(crate) fn funct3(self) -> u32
        ensures { result ≡ shift_funct3 self }
    {
        match self {
            ShiftOp::Slli => 0b001,
            ShiftOp::Srli => 0b101,
            ShiftOp::Srai => 0b101,
        }
    }

    /// Bits 31 to 25.
    pub(crate) fn funct7(self) -> u32
        ensures { result ≡ shift_funct7 self }
    {
        match self {
            ShiftOp::Slli => 0b0000000,
            ShiftOp::Srli => 0b0000000,
            ShiftOp::Srai => 0b0100000,
        }
    }

    /// The operation with those codes, if there is one.
    #[inline(always)]
    #[tactic(auto, unfolding(crate::specs::Decoding::shift_op_of))]
    pub(crate) fn from_codes(funct7: u32, funct3: u32) -> Option<ShiftOp>
        ensures { result ≡ shift_op_of funct7 funct3 }
    {
        match (funct7, funct3) {
            (0b0000000, 0b001) => Some(ShiftOp::Slli),
            (0b0000000, 0b101) => Some(ShiftOp::Srli),
            (0b0100000, 0b101) => Some(ShiftOp::Srai),
            _ => None,
        }
    }
}

impl OpOp {
    /// Bits 14 to 12.
    pub(crate) fn funct3(self) -> u32
        ensures { result ≡ op_funct3 self }
    {
        match self {
            OpOp::Add => 0b000,
            OpOp::Sub => 0b000,
            OpOp::Sll => 0b001,
            OpOp::Slt => 0b010,
            OpOp::Sltu => 0b011,
            OpOp::Xor => 0b100,
            OpOp::Srl => 0b101,
            OpOp::Sra => 0b101,
            OpOp::Or => 0b110,
            OpOp::And => 0b111,
            OpOp::Mul => 0b000,
            OpOp::Mulh => 0b001,
            OpOp::Mulhsu => 0b010,
            OpOp::Mulhu => 0b011,
            OpOp::Div => 0b100,
            OpOp::Divu => 0b101,
            OpOp::Rem => 0b110,
            OpOp::Remu => 0b111,
        }
    }

    /// Bits 31 to 25.
    pub(crate) fn funct7(self) -> u32
        ensures { result ≡ op_funct7 self }
    {
        match self {
            OpOp::Sub | OpOp::Sra => 0b0100000,
            OpOp::Mul
            | OpOp::Mulh
            | OpOp::Mulhsu
            | OpOp::Mulhu
            | OpOp::Div
            | OpOp::Divu
            | OpOp::Rem
            | OpOp::Remu => 0b0000001,
            _ => 0b0000000,
        }
    }

    /// The operation with those codes, if there is one.
    #[inline(always)]
    #[tactic(auto, unfolding(crate::specs::Decoding::op_op_of))]
    pub(crate) fn from_codes(funct7: u32, funct3: u32) -> Option<OpOp>
        ensures { result ≡ op_op_of funct7 funct3 }
    {
        match funct7 {
            0b0000000 => plain_op(funct3),
            0b0100000 => other_op(funct3),
            0b0000001 => product_op(funct3),
            _ => None,
        }
    }
}

/// The operation of RV32I with that code and no bit of funct7.
#[tactic(auto, unfolding(crate::specs::Decoding::op_op_of))]
fn plain_op(funct3: u32) -> Option<OpOp>
    ensures { result ≡ op_op_of 0 funct3 }
{
    match funct3 {
        0b000 => Some(OpOp::Add),
        0b001 => Some(OpOp::Sll),
        0b010 => Some(OpOp::Slt),
        0b011 => Some(OpOp::Sltu),
        0b100 => Some(OpOp::Xor),
        0b101 => Some(OpOp::Srl),
        0b110 => Some(OpOp::Or),
        0b111 => Some(OpOp::And),
        _ => None,
    }
}

/// The operation of RV32I with that code and bit 30.
#[tactic(auto, unfolding(crate::specs::Decoding::op_op_of))]
fn other_op(funct3: u32) -> Option<OpOp>
    ensures { result ≡ op_op_of 32 funct3 }
{
    match funct3 {
        0b000 => Some(OpOp::Sub),
        0b101 => Some(OpOp::Sra),
        _ => None,
    }
}

/// The operation of the M extension with that code.
#[tactic(auto, unfolding(crate::specs::Decoding::op_op_of))]
fn product_op(funct3: u32) -> Option<OpOp>
    ensures { result ≡ op_op_of 1 funct3 }
{
    match funct3 {
        0b000 => Some(OpOp::Mul),
        0b001 => Some(OpOp::Mulh),
        0b010 => Some(OpOp::Mulhsu),
        0b011 => Some(OpOp::Mulhu),
        0b100 => Some(OpOp::Div),
        0b101 => Some(OpOp::Divu),
        0b110 => Some(OpOp::Rem),
        0b111 => Some(OpOp::Remu),
        _ => None,
    }
}
