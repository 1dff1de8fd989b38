//! Jumps and branches, and what lies beyond the own code.
#![tactic(auto, unfolding(sc_image::specs::Step::execute_by))]

ghost use Rattle.sc_machine.specs.Prelude.{Instr, IsReady, IsReg, LeavesSound, ByteMemory, MachineState, Traps};
ghost use Rattle.sc_machine.specs.Prelude.{add_word, at};
ghost use Rattle.sc_machine.specs.Prelude.{jump_outside, comp_in, execute, jump, outcome_of, state_in, word_of};
ghost use Rattle.std.specs.Prelude.{◌≡◌, ◌+◌, ◌^◌, ◌<◌, ℕ, List, OnErr};
ghost use Rattle.sc_base.specs.declared.stop.TrapReason.TheVariants.{BadJump};

use crate::calling::call_out;
use crate::hart::Hart;
use crate::here::Here;
use crate::returning::leave;
use rv_code::{BranchOffset, BranchOp, Immediate, JumpOffset, Reg};
use sc_base::TrapReason;
use sc_image::layout::GATE;
use sc_registers::{Core, compares};
use sc_word::add;

/// Where a jump from the pc leads.
pub fn jump_target(core: &Core, imm: JumpOffset) -> u32
    ensures { result ≡ add_word core.now.pc (word_of imm) }
{
    add(core.pc, imm.value().cast_unsigned())
}

/// Where a branch from the pc leads.
pub fn branch_target(core: &Core, imm: BranchOffset) -> u32
    ensures { result ≡ add_word core.now.pc (word_of imm) }
{
    add(core.pc, imm.value().cast_unsigned())
}

/// Jumps to a place of the own code, with the address of the next instruction in a register. A jump
/// out of it may be a call.
fn jump(here: &Here<'_>, hart: &mut Hart, rd: u8, target: u32) -> Result<(), TrapReason>
    requires pc { hart.old.core.pc + 4 < 2 ^ 32 }
    requires ready { IsReady here.now hart.old }
    requires register { IsReg rd }
    ensures outcome { (memory : ByteMemory) → outcome_of result (state_in memory hart.new) ≡
        jump here.now.image (state_in memory hart.old) rd target
        (jump_outside here.now.image (state_in memory hart.old) rd target) }
    ensures leaves { LeavesSound here.now.image result hart.old hart.new }
{
    if target % 4 != 0 {
        return Err(TrapReason::Misaligned);
    }
    if here.word_at(target).is_none() {
        return call_out(here, hart, rd, target);
    }
    hart.core.link(rd, target);
    Ok(())
}

/// Jumps to a place of the own code, as a branch does. There is no other place to branch to.
#[tactic(auto, unfolding(sc_image::specs::Step::execute_by), using(crate::proofs::Words::aligned))]
fn jump_within(here: &Here<'_>, core: &mut Core, target: u32) -> Result<(), TrapReason>
    ensures outcome { (state : MachineState) → let there = comp_in here.now.comp state in
        outcome_of result (at there core.new) ≡ jump here.now.image (at there core.old) 0 target (Traps BadJump) }
    ensures trap { OnErr result (core.new ≡ core.old) }
{
    if here.word_at(target).is_some() {
        core.pc = target;
        return Ok(());
    }
    if target % 4 != 0 {
        return Err(TrapReason::Misaligned);
    }
    Err(TrapReason::BadJump)
}

pub(crate) fn jal(
    here: &Here<'_>,
    hart: &mut Hart,
    rd: Reg,
    imm: JumpOffset,
) -> Result<(), TrapReason>
    requires pc { hart.old.core.pc + 4 < 2 ^ 32 }
    requires ready { IsReady here.now hart.old }
    ensures outcome { (inputs : List ℕ) (memory : ByteMemory) →
        outcome_of result (state_in memory hart.new) ≡
        execute here.now.image inputs (state_in memory hart.old) (Instr.Jal rd imm) }
    ensures leaves { LeavesSound here.now.image result hart.old hart.new }
{
    let target = jump_target(&hart.core, imm);
    jump(here, hart, rd.number(), target)
}

pub(crate) fn branch(
    here: &Here<'_>,
    core: &mut Core,
    op: BranchOp,
    rs1: Reg,
    rs2: Reg,
    imm: BranchOffset,
) -> Result<(), TrapReason>
    requires pc { core.old.pc + 4 < 2 ^ 32 }
    ensures outcome { (inputs : List ℕ) (state : MachineState) → let there = comp_in here.now.comp state in
        outcome_of result (at there core.new) ≡ execute here.now.image inputs (at there core.old)
        (Instr.Branch op rs1 rs2 imm) }
    ensures trap { OnErr result (core.new ≡ core.old) }
{
    if !compares(op, core.register(rs1), core.register(rs2)) {
        core.advance();
        return Ok(());
    }
    let target = branch_target(core, imm);
    jump_within(here, core, target)
}

/// A jump to a register plus an immediate. Through the gate it returns.
#[inline(never)]
pub(crate) fn jalr(
    here: &Here<'_>,
    hart: &mut Hart,
    rd: Reg,
    rs1: Reg,
    imm: Immediate,
) -> Result<(), TrapReason>
    requires pc { hart.old.core.pc + 4 < 2 ^ 32 }
    requires ready { IsReady here.now hart.old }
    ensures outcome { (inputs : List ℕ) (memory : ByteMemory) →
        outcome_of result (state_in memory hart.new) ≡
        execute here.now.image inputs (state_in memory hart.old) (Instr.Jalr rd rs1 imm) }
    ensures leaves { LeavesSound here.now.image result hart.old hart.new }
{
    let target = hart.core.displaced(rs1, imm) / 2 * 2;
    if rd.number() != 0 || target != GATE {
        return jump(here, hart, rd.number(), target);
    }
    leave(here, hart);
    Ok(())
}
