//! From a word to its instruction.

ghost use Rattle.rv_code.specs.Prelude.{HasWord, IsBranchOffset, IsImmediate, IsJumpOffset, b_imm_of, branch_in};
ghost use Rattle.rv_code.specs.Prelude.{decoded, fence_in, funct3_of, funct7_of, i_imm_of, j_imm_of, jalr_in, load_in};
ghost use Rattle.rv_code.specs.Prelude.{op_imm_in, op_in, rd_of, rs1_of, rs2_of, s_imm_of, shift_in, signed, store_in};
ghost use Rattle.rv_code.specs.Prelude.{system_in, u_imm_of};
ghost use Rattle.std.specs.Prelude.{◌≡◌, ◌+◌, ◌*◌, ◌/◌, ◌%◌, ◌^◌, ◌<◌, IfSome, IsNone};

use crate::field::{BranchOffset, Immediate, JumpOffset, Reg, ShiftAmount, UpperImmediate};
use crate::instr::{BranchOp, Instr, LoadOp, OpImmOp, OpOp, ShiftOp, StoreOp, UpperOp};
use crate::table::{
    AUIPC, BRANCH, EBREAK_WORD, ECALL_WORD, FENCE, JAL, JALR, LOAD, LUI, OP, OP_IMM, STORE,
};

/// The instruction of a word, if the word is one of RV32IM. It stands in the loop that decodes, so that no instruction
/// is built there in memory.
#[inline(always)]
pub fn decode(word: u32) -> Option<Instr>
    ensures same { result ≡ decoded word }
    ensures found { IfSome result (λ instr. HasWord instr word) }
    ensures none { IsNone result → (i : Instr) → HasWord i word → ⊥ }
{
    decode_by_opcode(word)
}

#[inline(always)]
#[tactic(auto, unfolding(crate::specs::Decoding::decoded))]
fn decode_by_opcode(word: u32) -> Option<Instr>
    ensures { result ≡ decoded word }
{
    match word % 128 {
        LUI => Some(upper(UpperOp::Lui, word)),
        AUIPC => Some(upper(UpperOp::Auipc, word)),
        JAL => Some(jal(word)),
        JALR => jalr(word),
        BRANCH => branch(word),
        LOAD => load(word),
        STORE => store(word),
        OP_IMM => op_imm(word),
        OP => op(word),
        FENCE => fence(word),
        _ => system(word),
    }
}

#[inline(always)]
fn upper(op: UpperOp, word: u32) -> Instr
    ensures { result ≡ Instr.Upper op (rd_of word) (u_imm_of word) }
{
    Instr::Upper {
        op,
        rd: rd(word),
        imm: u_imm(word),
    }
}

#[inline(always)]
fn jal(word: u32) -> Instr
    ensures { result ≡ Instr.Jal (rd_of word) (j_imm_of word) }
{
    Instr::Jal {
        rd: rd(word),
        imm: j_imm(word),
    }
}

#[inline(always)]
#[tactic(auto, unfolding(crate::specs::Decoding::jalr_in))]
fn jalr(word: u32) -> Option<Instr>
    ensures { result ≡ jalr_in word }
{
    if funct3(word) != 0 {
        return None;
    }
    Some(Instr::Jalr {
        rd: rd(word),
        rs1: rs1(word),
        imm: i_imm(word),
    })
}

#[inline(always)]
#[tactic(auto, unfolding(crate::specs::Decoding::branch_in))]
fn branch(word: u32) -> Option<Instr>
    ensures { result ≡ branch_in word }
{
    let (rs1, rs2, imm) = (rs1(word), rs2(word), b_imm(word));
    let op = BranchOp::from_funct3(funct3(word))?;
    Some(Instr::Branch { op, rs1, rs2, imm })
}

#[inline(always)]
#[tactic(auto, unfolding(crate::specs::Decoding::load_in))]
fn load(word: u32) -> Option<Instr>
    ensures { result ≡ load_in word }
{
    let (rd, rs1, imm) = (rd(word), rs1(word), i_imm(word));
    let op = LoadOp::from_funct3(funct3(word))?;
    Some(Instr::Load { op, rd, rs1, imm })
}

#[inline(always)]
#[tactic(auto, unfolding(crate::specs::Decoding::store_in))]
fn store(word: u32) -> Option<Instr>
    ensures { result ≡ store_in word }
{
    let (rs1, rs2, imm) = (rs1(word), rs2(word), s_imm(word));
    let op = StoreOp::from_funct3(funct3(word))?;
    Some(Instr::Store { op, rs1, rs2, imm })
}

#[inline(always)]
#[tactic(auto, unfolding(crate::specs::Decoding::op_imm_in))]
fn op_imm(word: u32) -> Option<Instr>
    ensures { result ≡ op_imm_in word }
{
    let Some(op) = OpImmOp::from_funct3(funct3(word)) else {
        return shift(word);
    };
    Some(Instr::OpImm {
        op,
        rd: rd(word),
        rs1: rs1(word),
        imm: i_imm(word),
    })
}

#[inline(always)]
#[tactic(auto, unfolding(crate::specs::Decoding::shift_in))]
fn shift(word: u32) -> Option<Instr>
    ensures { result ≡ shift_in word }
{
    let op = ShiftOp::from_codes(funct7(word), funct3(word))?;
    Some(Instr::Shift {
        op,
        rd: rd(word),
        rs1: rs1(word),
        amount: amount(word),
    })
}

#[inline(always)]
#[tactic(auto, unfolding(crate::specs::Decoding::op_in))]
fn op(word: u32) -> Option<Instr>
    ensures { result ≡ op_in word }
{
    let (rd, rs1, rs2) = (rd(word), rs1(word), rs2(word));
    let op = OpOp::from_codes(funct7(word), funct3(word))?;
    Some(Instr::Op { op, rd, rs1, rs2 })
}

#[inline(always)]
#[tactic(auto, unfolding(crate::specs::Decoding::fence_in))]
fn fence(word: u32) -> Option<Instr>
    ensures { result ≡ fence_in word }
{
    if funct3(word) != 0 {
        return None;
    }
    Some(Instr::Fence {
        imm: i_imm(word),
        rs1: rs1(word),
        rd: rd(word),
    })
}

#[inline(always)]
#[tactic(auto, unfolding(crate::specs::Decoding::system_in))]
fn system(word: u32) -> Option<Instr>
    ensures { result ≡ system_in word }
{
    match word {
        ECALL_WORD => Some(Instr::Ecall),
        EBREAK_WORD => Some(Instr::Ebreak),
        _ => None,
    }
}

fn funct3(word: u32) -> u32
    ensures { result ≡ funct3_of word }
{
    (word >> 12) % 8
}

fn funct7(word: u32) -> u32
    ensures { result ≡ funct7_of word }
{
    word >> 25
}

fn rd(word: u32) -> Reg
    ensures { result ≡ rd_of word }
{
    register_at(word, 7)
}

fn rs1(word: u32) -> Reg
    ensures { result ≡ rs1_of word }
{
    register_at(word, 15)
}

fn rs2(word: u32) -> Reg
    ensures { result ≡ rs2_of word }
{
    register_at(word, 20)
}

/// The register whose number's lowest bit is bit `place`.
fn register_at(word: u32, place: u32) -> Reg
    requires { place < 32 }
    ensures { result ≡ word / 2 ^ place % 2 ^ 5 }
{
    Reg::new(((word >> place) % 32) as u8).unwrap()
}

fn amount(word: u32) -> ShiftAmount
    ensures { result ≡ rs2_of word }
{
    ShiftAmount::new(((word >> 20) % 32) as u8).unwrap()
}

fn u_imm(word: u32) -> UpperImmediate
    ensures { result ≡ u_imm_of word }
{
    UpperImmediate::new((word >> 12) << 12).unwrap()
}

fn i_imm(word: u32) -> Immediate
    ensures { result ≡ i_imm_of word }
{
    immediate(word >> 20)
}

fn s_imm(word: u32) -> Immediate
    ensures { result ≡ s_imm_of word }
{
    immediate(32 * (word >> 25) + (word >> 7) % 32)
}

/// The immediate of these 12 bits, the highest of which is its sign.
fn immediate(bits: u32) -> Immediate
    requires { bits < 2 ^ 12 }
    ensures { result ≡ signed (2 ^ 11) bits }
{
    Immediate::new(signed_12(bits)).unwrap()
}

/// The number of these 12 bits in two's complement, without a branch.
fn signed_12(bits: u32) -> i32
    requires { bits < 2 ^ 12 }
    ensures { result ≡ signed (2 ^ 11) bits }
{
    ((bits + 2048) % 4096) as i32 - 2048
}

fn b_imm(word: u32) -> BranchOffset
    ensures { result ≡ b_imm_of word }
{
    let low = (((word >> 7) % 2) << 11) + (((word >> 25) % 64) << 5) + 2 * ((word >> 8) % 16);
    BranchOffset::new(sign_extended(low, word >> 31, 1 << 12)).unwrap()
}

fn j_imm(word: u32) -> JumpOffset
    ensures { result ≡ j_imm_of word }
{
    let low = (((word >> 12) % 256) << 12) + (((word >> 20) % 2) << 11) + 2 * ((word >> 21) % 1024);
    JumpOffset::new(sign_extended(low, word >> 31, 1 << 20)).unwrap()
}

/// The number of these bits in two's complement, with one above them that is the sign and has the value `weight`.
fn sign_extended(low: u32, sign: u32, weight: u32) -> i32
    requires sign { sign < 2 }
    requires weight { weight < 2 ^ 30 }
    requires low { low < weight }
    ensures { result ≡ signed weight (weight * sign + low) }
{
    if sign == 0 {
        return low as i32;
    }
    low as i32 - weight as i32
}
