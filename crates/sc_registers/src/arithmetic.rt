//! The instructions that only compute (RISC-V Unprivileged ISA, chapters "RV32I Base Integer
//! Instruction Set" and "M Extension").

ghost use Rattle.sc_image.specs.Prelude.{compares, on_registers, op_result, shift_on_registers, upper_result};
ghost use Rattle.sc_registers.specs.Registers.{written_at_next};
ghost use Rattle.sc_word.specs.Prelude.{word_of};
ghost use Rattle.std.specs.Prelude.{◌≡◌, ◌+◌, ◌^◌, ◌<◌, slice_index};

use crate::registers::{Core, word_of};
use rv_code::{
    BranchOp, Immediate, OpImmOp, OpOp, Reg, ShiftAmount, ShiftOp, UpperImmediate, UpperOp,
};
use sc_word::{add, div, divu, mul, mulh, mulhsu, mulhu, rem, remu, sll, slt, sltu, sra, srl, sub};

/// LUI gives its immediate, AUIPC adds it to the pc.
pub fn upper(core: &mut Core, op: UpperOp, rd: Reg, imm: UpperImmediate)
    requires { core.old.pc + 4 < 2 ^ 32 }
    ensures { core.new ≡ written_at_next core.old rd (upper_result op core.old.pc imm) }
{
    match op {
        UpperOp::Lui => core.give(rd, imm.value()),
        UpperOp::Auipc => core.give(rd, add(core.pc, imm.value())),
    }
}

/// An operation on a register and an immediate.
pub fn op_imm(core: &mut Core, op: OpImmOp, rd: Reg, rs1: Reg, imm: Immediate)
    requires { core.old.pc + 4 < 2 ^ 32 }
    ensures { core.new ≡ written_at_next core.old rd
        (op_result (on_registers op) (slice_index core.old.registers rs1) (word_of imm)) }
{
    let word = with_immediate(op, core.register(rs1), word_of(imm));
    core.give(rd, word);
}

/// A shift of a register by a constant.
pub fn shift(core: &mut Core, op: ShiftOp, rd: Reg, rs1: Reg, amount: ShiftAmount)
    requires { core.old.pc + 4 < 2 ^ 32 }
    ensures { core.new ≡ written_at_next core.old rd
        (op_result (shift_on_registers op) (slice_index core.old.registers rs1) amount) }
{
    let word = shifted(op, core.register(rs1), amount.bits() as u32);
    core.give(rd, word);
}

/// An operation on two registers.
#[inline(always)]
pub fn op(core: &mut Core, op: OpOp, rd: Reg, rs1: Reg, rs2: Reg)
    requires { core.old.pc + 4 < 2 ^ 32 }
    ensures { core.new ≡ written_at_next core.old rd
        (op_result op (slice_index core.old.registers rs1) (slice_index core.old.registers rs2)) }
{
    let word = computed(op, core.register(rs1), core.register(rs2));
    core.give(rd, word);
}

fn with_immediate(op: OpImmOp, a: u32, b: u32) -> u32
    ensures { result ≡ op_result (on_registers op) a b }
{
    match op {
        OpImmOp::Addi => add(a, b),
        OpImmOp::Slti => slt(a, b),
        OpImmOp::Sltiu => sltu(a, b),
        OpImmOp::Xori => a ^ b,
        OpImmOp::Ori => a | b,
        OpImmOp::Andi => a & b,
    }
}

fn shifted(op: ShiftOp, a: u32, bits: u32) -> u32
    ensures { result ≡ op_result (shift_on_registers op) a bits }
{
    match op {
        ShiftOp::Slli => sll(a, bits),
        ShiftOp::Srli => srl(a, bits),
        ShiftOp::Srai => sra(a, bits),
    }
}

#[inline(always)]
fn computed(op: OpOp, a: u32, b: u32) -> u32
    ensures { result ≡ op_result op a b }
{
    match op {
        OpOp::Add => add(a, b),
        OpOp::Sub => sub(a, b),
        OpOp::Sll => sll(a, b),
        OpOp::Slt => slt(a, b),
        OpOp::Sltu => sltu(a, b),
        OpOp::Xor => a ^ b,
        OpOp::Srl => srl(a, b),
        OpOp::Sra => sra(a, b),
        OpOp::Or => a | b,
        OpOp::And => a & b,
        OpOp::Mul => mul(a, b),
        OpOp::Mulh => mulh(a, b),
        OpOp::Mulhsu => mulhsu(a, b),
        OpOp::Mulhu => mulhu(a, b),
        OpOp::Div => div(a, b),
        OpOp::Divu => divu(a, b),
        OpOp::Rem => rem(a, b),
        OpOp::Remu => remu(a, b),
    }
}

/// Whether two registers compare so.
pub fn compares(op: BranchOp, a: u32, b: u32) -> bool
    ensures { result ≡ compares op a b }
{
    match op {
        BranchOp::Beq => a == b,
        BranchOp::Bne => a != b,
        BranchOp::Blt => a.cast_signed() < b.cast_signed(),
        BranchOp::Bge => b.cast_signed() <= a.cast_signed(),
        BranchOp::Bltu => a < b,
        BranchOp::Bgeu => b <= a,
    }
}
