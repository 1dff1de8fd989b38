//! Jumps and branches, and what lies beyond the own code.
#![tactic(auto, unfolding(sc_image::specs::Step::execute_by))]

ghost use Rattle.sc_image.specs.Prelude.{Traps, execute_by, jump_by};
ghost use Rattle.sc_machine.specs.Prelude.{ByteMemory, Instr, IsReady, IsReg, LeavesSound};
ghost use Rattle.sc_tags.specs.Prelude.{Tagged, by_tag, core_of, tag_jumps};
ghost use Rattle.sc_tags.specs.TagHart.{is_own_code, place_of, running_in, tag_outcome, tagged_in};
ghost use Rattle.sc_base.specs.declared.stop.TrapReason.TheVariants.{BadJump};
ghost use Rattle.std.specs.Prelude.{◌≡◌, ◌+◌, ◌<◌, ◌^◌, List, OnErr, ℕ};

use crate::tags::Tags;
use rv_code::{BranchOffset, BranchOp, Immediate, JumpOffset, Reg};
use sc_base::TrapReason;
use sc_image::layout::{GATE, comp_of_code};
use sc_machine::{Hart, branch_target, call_out, jump_target, leave};
use sc_registers::{Core, compares};

/// Jumps to a place of the own code, with the address of the next instruction in a register. A jump
/// out of it may be a call.
fn jump(tags: &Tags<'_>, hart: &mut Hart, rd: u8, target: u32) -> Result<(), TrapReason>
    requires pc { hart.old.core.pc + 4 < 2 ^ 32 }
    requires ready { IsReady (place_of tags.now) hart.old }
    requires register { IsReg rd }
    ensures outcome { (memory : ByteMemory) → let before = tagged_in memory hart.old in
        tag_outcome result (tagged_in memory hart.new) ≡
        jump_by core_of (is_own_code tags.now target) before rd target (tag_jumps tags.now.image before rd target) }
    ensures leaves { LeavesSound tags.now.image result hart.old hart.new }
{
    if target % 4 != 0 {
        return Err(TrapReason::Misaligned);
    }
    if tags.are_code(target) {
        hart.core.link(rd, target);
        return Ok(());
    }
    // An own entry that is retagged is none to call.
    if comp_of_code(target) == tags.here().comp().number() as usize {
        return Err(TrapReason::BadJump);
    }
    call_out(tags.here(), hart, rd, target)
}

/// Jumps to a place of the own code, as a branch does. There is no other place to branch to.
fn jump_within(tags: &Tags<'_>, core: &mut Core, target: u32) -> Result<(), TrapReason>
    ensures outcome { (memory : ByteMemory) (tagged : Tagged) →
        tag_outcome result (running_in tags.now.comp memory core.new tagged) ≡ jump_by core_of
        (is_own_code tags.now target) (running_in tags.now.comp memory core.old tagged) 0 target (Traps BadJump) }
    ensures trap { OnErr result (core.new ≡ core.old) }
{
    if target % 4 != 0 {
        return Err(TrapReason::Misaligned);
    }
    if !tags.are_code(target) {
        return Err(TrapReason::BadJump);
    }
    core.pc = target;
    Ok(())
}

pub(crate) fn jal(
    tags: &Tags<'_>,
    hart: &mut Hart,
    rd: Reg,
    imm: JumpOffset,
) -> Result<(), TrapReason>
    requires pc { hart.old.core.pc + 4 < 2 ^ 32 }
    requires ready { IsReady (place_of tags.now) hart.old }
    ensures outcome { (inputs : List ℕ) (memory : ByteMemory) →
        tag_outcome result (tagged_in memory hart.new) ≡ execute_by
        (by_tag tags.now.image tags.now.ranges inputs) (tagged_in memory hart.old) (Instr.Jal rd imm) }
    ensures leaves { LeavesSound tags.now.image result hart.old hart.new }
{
    let target = jump_target(&hart.core, imm);
    jump(tags, hart, rd.number(), target)
}

pub(crate) fn branch(
    tags: &Tags<'_>,
    core: &mut Core,
    op: BranchOp,
    rs1: Reg,
    rs2: Reg,
    imm: BranchOffset,
) -> Result<(), TrapReason>
    requires pc { core.old.pc + 4 < 2 ^ 32 }
    ensures outcome { (inputs : List ℕ) (memory : ByteMemory) (tagged : Tagged) →
        tag_outcome result (running_in tags.now.comp memory core.new tagged) ≡ execute_by
        (by_tag tags.now.image tags.now.ranges inputs) (running_in tags.now.comp memory core.old tagged)
        (Instr.Branch op rs1 rs2 imm) }
    ensures trap { OnErr result (core.new ≡ core.old) }
{
    if !compares(op, core.register(rs1), core.register(rs2)) {
        core.advance();
        return Ok(());
    }
    let target = branch_target(core, imm);
    jump_within(tags, core, target)
}

/// A jump to a register plus an immediate. Through the gate it returns, which is nobody's code.
pub(crate) fn jalr(
    tags: &Tags<'_>,
    hart: &mut Hart,
    rd: Reg,
    rs1: Reg,
    imm: Immediate,
) -> Result<(), TrapReason>
    requires pc { hart.old.core.pc + 4 < 2 ^ 32 }
    requires ready { IsReady (place_of tags.now) hart.old }
    ensures outcome { (inputs : List ℕ) (memory : ByteMemory) →
        tag_outcome result (tagged_in memory hart.new) ≡ execute_by
        (by_tag tags.now.image tags.now.ranges inputs) (tagged_in memory hart.old) (Instr.Jalr rd rs1 imm) }
    ensures leaves { LeavesSound tags.now.image result hart.old hart.new }
{
    let target = hart.core.displaced(rs1, imm) / 2 * 2;
    if rd.number() == 0 && target == GATE {
        leave(tags.here(), hart);
        return Ok(());
    }
    jump(tags, hart, rd.number(), target)
}
