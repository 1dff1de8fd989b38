//! One step, by the instruction at the pc. A step that can't be made changes nothing.
#![tactic(auto, unfolding(sc_image::specs::Step::execute_by))]

ghost use Rattle.sc_image.specs.Prelude.{execute_by};
ghost use Rattle.sc_machine.specs.Prelude.{IsReady, LeavesSound, word_of};
ghost use Rattle.sc_tags.specs.Prelude.{by_tag, tag_step};
ghost use Rattle.sc_tags.specs.TagHart.{IsOwned, bytes_of, place_of, tag_outcome, tagged_in};
ghost use Rattle.std.specs.Prelude.{◌≡◌, ◌+◌, ◌<◌, ◌^◌, OnErr, map};

use crate::access::{load, store};
use crate::jump::{branch, jal, jalr};
use crate::memory::Memory;
use crate::tags::Tags;
use rv_code::{Instr, LoadOp, decode};
use sc_base::TrapReason;
use sc_machine::{Hart, environment_call};
use sc_registers::{op, op_imm, shift, upper};
use sc_store::Store;

/// Executes the instruction at the pc.
pub(crate) fn step<S: Store>(
    tags: &Tags<'_>,
    inputs: &[i32],
    hart: &mut Hart,
    memory: &mut Memory<S>,
) -> Result<(), TrapReason>
    requires ready { IsReady (place_of tags.now) hart.old }
    requires owned { IsOwned tags.now.image (bytes_of S.bytes memory.old) }
    ensures outcome { tag_outcome result (tagged_in (bytes_of S.bytes memory.new) hart.new) ≡
        tag_step tags.now.image tags.now.ranges (map word_of inputs.now)
        (tagged_in (bytes_of S.bytes memory.old) hart.old) }
    ensures leaves { LeavesSound tags.now.image result hart.old hart.new }
    ensures memory { OnErr result (bytes_of S.bytes memory.new ≡ bytes_of S.bytes memory.old) }
    ensures owned { IsOwned tags.now.image (bytes_of S.bytes memory.new) }
{
    if !tags.are_code(hart.core.pc) {
        return Err(TrapReason::BadJump);
    }
    let Some(instr) = decode(memory.loaded(LoadOp::Lw, hart.core.pc)) else {
        return Err(TrapReason::Illegal);
    };
    execute(tags, inputs, hart, memory, &instr)
}

fn execute<S: Store>(
    tags: &Tags<'_>,
    inputs: &[i32],
    hart: &mut Hart,
    memory: &mut Memory<S>,
    instr: &Instr,
) -> Result<(), TrapReason>
    requires pc { hart.old.core.pc + 4 < 2 ^ 32 }
    requires ready { IsReady (place_of tags.now) hart.old }
    requires owned { IsOwned tags.now.image (bytes_of S.bytes memory.old) }
    ensures outcome { tag_outcome result (tagged_in (bytes_of S.bytes memory.new) hart.new) ≡
        execute_by (by_tag tags.now.image tags.now.ranges (map word_of inputs.now))
        (tagged_in (bytes_of S.bytes memory.old) hart.old) instr.now }
    ensures leaves { LeavesSound tags.now.image result hart.old hart.new }
    ensures memory { OnErr result (bytes_of S.bytes memory.new ≡ bytes_of S.bytes memory.old) }
    ensures owned { IsOwned tags.now.image (bytes_of S.bytes memory.new) }
{
    match *instr {
        Instr::Upper { op, rd, imm } => upper(&mut hart.core, op, rd, imm),
        Instr::OpImm { op, rd, rs1, imm } => op_imm(&mut hart.core, op, rd, rs1, imm),
        Instr::Shift {
            op,
            rd,
            rs1,
            amount,
        } => shift(&mut hart.core, op, rd, rs1, amount),
        Instr::Op {
            op: kind,
            rd,
            rs1,
            rs2,
        } => op(&mut hart.core, kind, rd, rs1, rs2),
        Instr::Fence { .. } => hart.core.advance(),
        Instr::Load { op, rd, rs1, imm } => {
            let address = hart.core.displaced(rs1, imm);
            return load(tags, &mut hart.core, memory, op, rd, address);
        }
        Instr::Store { op, rs1, rs2, imm } => {
            let address = hart.core.displaced(rs1, imm);
            let word = hart.core.register(rs2);
            return store(tags, &mut hart.core, memory, op, address, word);
        }
        Instr::Jal { rd, imm } => return jal(tags, hart, rd, imm),
        Instr::Branch { op, rs1, rs2, imm } => {
            return branch(tags, &mut hart.core, op, rs1, rs2, imm);
        }
        Instr::Jalr { rd, rs1, imm } => return jalr(tags, hart, rd, rs1, imm),
        Instr::Ecall => return environment_call(tags.here(), inputs, hart),
        Instr::Ebreak => return Err(TrapReason::Breakpoint),
    }
    Ok(())
}
