//! From an instruction to its word.

ghost use Rattle.rv_code.specs.Prelude.{HasWord, IsAmount, IsBranchOffset, IsImmediate, IsInstr, IsJumpOffset, IsReg};
ghost use Rattle.rv_code.specs.Prelude.{IsUpper, b_word, decoded, i_word, j_word, r_word, residue, s_word, u_word};
ghost use Rattle.rv_code.specs.Prelude.{word_of};
ghost use Rattle.std.specs.Prelude.{◌≡◌, ◌*◌, ◌^◌, ◌<◌, Some};

use crate::field::{BranchOffset, Immediate, JumpOffset, Reg, UpperImmediate};
use crate::instr::Instr;
use crate::table::{BRANCH, EBREAK_WORD, ECALL_WORD, FENCE, JAL, JALR, LOAD, OP, OP_IMM, STORE};

/// The word of an instruction.
pub fn encode(instr: Instr) -> u32
    ensures has_word { HasWord instr result }
    ensures word { result ≡ word_of instr }
    // What is written is read again.
    ensures read_back { decoded result ≡ Some instr }
{
    word_by_form(instr)
}

#[tactic(auto, unfolding(crate::specs::Words::word_of))]
fn word_by_form(instr: Instr) -> u32
    ensures word { result ≡ word_of instr }
    ensures in_range { IsInstr instr }
{
    match instr {
        Instr::Upper { op, rd, imm } => u_form(op.opcode(), rd, imm),
        Instr::Jal { rd, imm } => j_form(JAL, rd, imm),
        Instr::Jalr { rd, rs1, imm } => i_form(JALR, rd, 0, rs1, imm),
        Instr::Branch { op, rs1, rs2, imm } => b_form(BRANCH, op.funct3(), rs1, rs2, imm),
        Instr::Load { op, rd, rs1, imm } => i_form(LOAD, rd, op.funct3(), rs1, imm),
        Instr::Store { op, rs1, rs2, imm } => s_form(STORE, op.funct3(), rs1, rs2, imm),
        Instr::OpImm { op, rd, rs1, imm } => i_form(OP_IMM, rd, op.funct3(), rs1, imm),
        Instr::Shift {
            op,
            rd,
            rs1,
            amount,
        } => r_form(OP_IMM, rd, op.funct3(), rs1, amount.bits(), op.funct7()),
        Instr::Op { op, rd, rs1, rs2 } => {
            r_form(OP, rd, op.funct3(), rs1, rs2.number(), op.funct7())
        }
        Instr::Fence { imm, rs1, rd } => i_form(FENCE, rd, 0, rs1, imm),
        Instr::Ecall => ECALL_WORD,
        Instr::Ebreak => EBREAK_WORD,
    }
}

/// `rs2` may be a shift's amount.
fn r_form(opcode: u32, rd: Reg, funct3: u32, rs1: Reg, rs2: u8, funct7: u32) -> u32
    requires opcode { opcode < 2 ^ 7 }
    requires funct3 { funct3 < 2 ^ 3 }
    requires rs2 { rs2 < 2 ^ 5 }
    requires funct7 { funct7 < 2 ^ 7 }
    ensures word { result ≡ r_word opcode rd funct3 rs1 rs2 funct7 }
    ensures rd { IsReg rd }
    ensures rs1 { IsReg rs1 }
{
    let rd = u32::from(rd.number());
    let rs1 = u32::from(rs1.number());
    join(opcode, rd, funct3, rs1, u32::from(rs2), funct7)
}

fn i_form(opcode: u32, rd: Reg, funct3: u32, rs1: Reg, imm: Immediate) -> u32
    requires opcode { opcode < 2 ^ 7 }
    requires funct3 { funct3 < 2 ^ 3 }
    ensures word { result ≡ i_word opcode rd funct3 rs1 imm }
    ensures rd { IsReg rd }
    ensures rs1 { IsReg rs1 }
    ensures imm { IsImmediate imm }
{
    let rd = u32::from(rd.number());
    let rs1 = u32::from(rs1.number());
    let bits = immediate_bits(imm);
    join(opcode, rd, funct3, rs1, bits % 32, bits >> 5)
}

fn s_form(opcode: u32, funct3: u32, rs1: Reg, rs2: Reg, imm: Immediate) -> u32
    requires opcode { opcode < 2 ^ 7 }
    requires funct3 { funct3 < 2 ^ 3 }
    ensures word { result ≡ s_word opcode funct3 rs1 rs2 imm }
    ensures rs1 { IsReg rs1 }
    ensures rs2 { IsReg rs2 }
    ensures imm { IsImmediate imm }
{
    let rs1 = u32::from(rs1.number());
    let rs2 = u32::from(rs2.number());
    let bits = immediate_bits(imm);
    join(opcode, bits % 32, funct3, rs1, rs2, bits >> 5)
}

fn b_form(opcode: u32, funct3: u32, rs1: Reg, rs2: Reg, imm: BranchOffset) -> u32
    requires opcode { opcode < 2 ^ 7 }
    requires funct3 { funct3 < 2 ^ 3 }
    ensures word { result ≡ b_word opcode funct3 rs1 rs2 imm }
    ensures rs1 { IsReg rs1 }
    ensures rs2 { IsReg rs2 }
    ensures imm { IsBranchOffset imm }
{
    let rs1 = u32::from(rs1.number());
    let rs2 = u32::from(rs2.number());
    let bits = branch_bits(imm);
    let low = (bits >> 11) % 2 + 2 * ((bits >> 1) % 16);
    let high = (bits >> 5) % 64 + 64 * (bits >> 12);
    join(opcode, low, funct3, rs1, rs2, high)
}

fn u_form(opcode: u32, rd: Reg, imm: UpperImmediate) -> u32
    requires { opcode < 2 ^ 7 }
    ensures word { result ≡ u_word opcode rd imm }
    ensures rd { IsReg rd }
    ensures imm { IsUpper imm }
{
    opcode + (u32::from(rd.number()) << 7) + imm.value()
}

fn j_form(opcode: u32, rd: Reg, imm: JumpOffset) -> u32
    requires { opcode < 2 ^ 7 }
    ensures word { result ≡ j_word opcode rd imm }
    ensures rd { IsReg rd }
    ensures imm { IsJumpOffset imm }
{
    let rd = u32::from(rd.number());
    let bits = jump_bits(imm);
    let middle = (((bits >> 12) % 256) << 12) + (((bits >> 11) % 2) << 20);
    let high = (((bits >> 1) % 1024) << 21) + ((bits >> 20) << 31);
    opcode + (rd << 7) + middle + high
}

/// The word of six fields in their places.
fn join(opcode: u32, rd: u32, funct3: u32, rs1: u32, rs2: u32, funct7: u32) -> u32
    requires opcode { opcode < 2 ^ 7 }
    requires rd { rd < 2 ^ 5 }
    requires funct3 { funct3 < 2 ^ 3 }
    requires rs1 { rs1 < 2 ^ 5 }
    requires rs2 { rs2 < 2 ^ 5 }
    requires funct7 { funct7 < 2 ^ 7 }
    ensures { result ≡ r_word opcode rd funct3 rs1 rs2 funct7 }
{
    opcode + (rd << 7) + (funct3 << 12) + (rs1 << 15) + (rs2 << 20) + (funct7 << 25)
}

fn immediate_bits(imm: Immediate) -> u32
    ensures bits { result ≡ residue (2 ^ 12) imm }
    ensures below { result < 2 ^ 12 }
    ensures imm { IsImmediate imm }
{
    imm.value().cast_unsigned() % (1 << 12)
}

fn branch_bits(imm: BranchOffset) -> u32
    ensures bits { result ≡ residue (2 ^ 13) imm }
    ensures below { result < 2 ^ 13 }
    ensures imm { IsBranchOffset imm }
{
    imm.value().cast_unsigned() % (1 << 13)
}

fn jump_bits(imm: JumpOffset) -> u32
    ensures bits { result ≡ residue (2 ^ 21) imm }
    ensures below { result < 2 ^ 21 }
    ensures imm { IsJumpOffset imm }
{
    imm.value().cast_unsigned() % (1 << 21)
}
