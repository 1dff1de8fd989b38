//! Instructions that emit nothing and go on in the own code. Why a run stops before another step, and
//! which compartment's code runs, is the same after them.
#![tactic(auto, unfolding(sc_image::specs::Step::execute_by))]

ghost use Rattle.sc_machine.specs.Prelude.{Goes, IsBacked, IsReg, Outcome, MachineState, at, comp_in, execute, jump};
ghost use Rattle.sc_machine.specs.Prelude.{running};
ghost use Rattle.std.specs.Prelude.{◌≡◌, ◌+◌, ◌^◌, ◌<◌, ℕ, List, false, IsTrue};

use crate::here::Here;
use crate::jump::{branch, jump_target};
use crate::memory::{load, store};
use rv_code::Instr;
use sc_registers::{Core, op, op_imm, shift, upper};
use sc_store::Store;

/// Executes an instruction, if that emits nothing and goes on in the own code, and says whether it
/// did. Otherwise nothing changes.
#[inline(always)]
pub(crate) fn execute_quick<S: Store>(
    here: &Here<'_>,
    core: &mut Core,
    memory: &mut S,
    instr: &Instr,
) -> bool
    requires backed { IsBacked here.now.image (S.bytes memory.old) }
    requires pc { core.old.pc + 4 < 2 ^ 32 }
    ensures goes { IsTrue result → (inputs : List ℕ) (state : MachineState) →
        Goes (running here.now.comp (S.bytes memory.new) core.new state) ≡
        execute here.now.image inputs (running here.now.comp (S.bytes memory.old) core.old state) instr.now }
    ensures stays { result ≡ false → core.new ≡ core.old }
    ensures memory { result ≡ false → S.bytes memory.new ≡ S.bytes memory.old }
    ensures backed { IsBacked here.now.image (S.bytes memory.new) }
{
    match *instr {
        Instr::Upper { op, rd, imm } => upper(core, op, rd, imm),
        Instr::OpImm { op, rd, rs1, imm } => op_imm(core, op, rd, rs1, imm),
        Instr::Shift {
            op,
            rd,
            rs1,
            amount,
        } => shift(core, op, rd, rs1, amount),
        Instr::Op {
            op: kind,
            rd,
            rs1,
            rs2,
        } => op(core, kind, rd, rs1, rs2),
        Instr::Fence { .. } => core.advance(),
        Instr::Load { op, rd, rs1, imm } => {
            let address = core.displaced(rs1, imm);
            return load(here, core, memory, op, rd, address).is_ok();
        }
        Instr::Store { op, rs1, rs2, imm } => {
            let address = core.displaced(rs1, imm);
            let word = core.register(rs2);
            return store(here, core, memory, op, address, word).is_ok();
        }
        Instr::Branch { op, rs1, rs2, imm } => {
            return branch(here, core, op, rs1, rs2, imm).is_ok();
        }
        Instr::Jal { rd, imm } => {
            let target = jump_target(core, imm);
            return jump_inside(here, core, rd.number(), target);
        }
        Instr::Jalr { rd, rs1, imm } => {
            let target = core.displaced(rs1, imm) / 2 * 2;
            return jump_inside(here, core, rd.number(), target);
        }
        Instr::Ecall | Instr::Ebreak => return false,
    }
    true
}

/// Jumps, if the target lies in the own code, with the address of the next instruction in a
/// register. Otherwise nothing changes.
#[tactic(auto, unfolding(sc_image::specs::Step::execute_by), using(crate::proofs::Words::aligned))]
fn jump_inside(here: &Here<'_>, core: &mut Core, rd: u8, target: u32) -> bool
    requires pc { core.old.pc + 4 < 2 ^ 32 }
    requires register { IsReg rd }
    ensures goes { IsTrue result → (state : MachineState) (elsewhere : Outcome) →
        let there = comp_in here.now.comp state in
        Goes (at there core.new) ≡ jump here.now.image (at there core.old) rd target elsewhere }
    ensures stays { result ≡ false → core.new ≡ core.old }
{
    if here.word_at(target).is_none() {
        return false;
    }
    core.link(rd, target);
    true
}
