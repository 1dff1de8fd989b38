//! One step, by the instruction at the pc. A step that can't be made changes nothing.
#![tactic(auto, unfolding(sc_image::specs::Step::execute_by))]

ghost use Rattle.sc_machine.specs.Prelude.{IsBacked, IsReady, LeavesSound, execute, outcome_of, state_in, step};
ghost use Rattle.sc_machine.specs.Prelude.{word_of};
ghost use Rattle.rv_code.specs.Prelude.{decoded};
ghost use Rattle.rv_code.specs.declared.instr.Instr.{Instr};
ghost use Rattle.std.specs.Prelude.{◌≡◌, ◌+◌, ◌^◌, ◌<◌, false, map, Ok, OnErr, Some};

use crate::environment::environment_call;
use crate::hart::Hart;
use crate::here::Here;
use crate::jump::{branch, jal, jalr};
use crate::memory::{load, store};
use crate::quick::execute_quick;
use rv_code::{Instr, decode};
use sc_base::TrapReason;
use sc_registers::{op, op_imm, shift, upper};
use sc_store::Store;

/// Executes the instruction at the pc. Says whether the trace or the compartment that runs may have
/// changed.
pub(crate) fn step<S: Store>(
    here: &Here<'_>,
    inputs: &[i32],
    hart: &mut Hart,
    memory: &mut S,
) -> Result<bool, TrapReason>
    requires ready { IsReady here.now hart.old }
    requires backed { IsBacked here.now.image (S.bytes memory.old) }
    ensures outcome { outcome_of result (state_in (S.bytes memory.new) hart.new) ≡
        step here.now.image (map word_of inputs.now) (state_in (S.bytes memory.old) hart.old) }
    ensures leaves { LeavesSound here.now.image result hart.old hart.new }
    ensures memory { OnErr result (S.bytes memory.new ≡ S.bytes memory.old) }
    ensures backed { IsBacked here.now.image (S.bytes memory.new) }
    ensures quiet { result ≡ Ok false → hart.new ≡ record hart.old { core = hart.new.core } }
{
    let Some(word) = here.word_at(hart.core.pc) else {
        return Err(TrapReason::BadJump);
    };
    let Some(instr) = decode(word) else {
        return Err(TrapReason::Illegal);
    };
    if execute_quick(here, &mut hart.core, memory, &instr) {
        return Ok(false);
    }
    match execute_other(here, inputs, hart, memory, &instr, word) {
        Ok(()) => Ok(true),
        Err(reason) => Err(reason),
    }
}

/// Executes an instruction that isn't quick. All but JALR, which calls and returns, are decoded once more from their
/// word: so no instruction that is quick has to be kept in memory.
#[inline(always)]
fn execute_other<S: Store>(
    here: &Here<'_>,
    inputs: &[i32],
    hart: &mut Hart,
    memory: &mut S,
    instr: &Instr,
    word: u32,
) -> Result<(), TrapReason>
    requires ready { IsReady here.now hart.old }
    requires backed { IsBacked here.now.image (S.bytes memory.old) }
    requires pc { hart.old.core.pc + 4 < 2 ^ 32 }
    requires word { decoded word ≡ Some instr.now }
    ensures outcome { outcome_of result (state_in (S.bytes memory.new) hart.new) ≡
        execute here.now.image (map word_of inputs.now) (state_in (S.bytes memory.old) hart.old) instr.now }
    ensures leaves { LeavesSound here.now.image result hart.old hart.new }
    ensures memory { OnErr result (S.bytes memory.new ≡ S.bytes memory.old) }
    ensures backed { IsBacked here.now.image (S.bytes memory.new) }
{
    if let Instr::Jalr { rd, rs1, imm } = *instr {
        return jalr(here, hart, rd, rs1, imm);
    }
    execute_word(here, inputs, hart, memory, word)
}

/// Executes the instruction of a word.
#[inline(never)]
fn execute_word<S: Store>(
    here: &Here<'_>,
    inputs: &[i32],
    hart: &mut Hart,
    memory: &mut S,
    word: u32,
) -> Result<(), TrapReason>
    requires ready { IsReady here.now hart.old }
    requires backed { IsBacked here.now.image (S.bytes memory.old) }
    requires pc { hart.old.core.pc + 4 < 2 ^ 32 }
    ensures outcome { (instr : Instr) → decoded word ≡ Some instr →
        outcome_of result (state_in (S.bytes memory.new) hart.new) ≡
        execute here.now.image (map word_of inputs.now) (state_in (S.bytes memory.old) hart.old) instr }
    ensures leaves { LeavesSound here.now.image result hart.old hart.new }
    ensures memory { OnErr result (S.bytes memory.new ≡ S.bytes memory.old) }
    ensures backed { IsBacked here.now.image (S.bytes memory.new) }
{
    match decode(word) {
        Some(instr) => execute(here, inputs, hart, memory, &instr),
        None => Err(TrapReason::Illegal),
    }
}

fn execute<S: Store>(
    here: &Here<'_>,
    inputs: &[i32],
    hart: &mut Hart,
    memory: &mut S,
    instr: &Instr,
) -> Result<(), TrapReason>
    requires ready { IsReady here.now hart.old }
    requires backed { IsBacked here.now.image (S.bytes memory.old) }
    requires pc { hart.old.core.pc + 4 < 2 ^ 32 }
    ensures outcome { outcome_of result (state_in (S.bytes memory.new) hart.new) ≡
        execute here.now.image (map word_of inputs.now) (state_in (S.bytes memory.old) hart.old) instr.now }
    ensures leaves { LeavesSound here.now.image result hart.old hart.new }
    ensures memory { OnErr result (S.bytes memory.new ≡ S.bytes memory.old) }
    ensures backed { IsBacked here.now.image (S.bytes memory.new) }
{
    match *instr {
        Instr::Upper { op, rd, imm } => upper(&mut hart.core, op, rd, imm),
        Instr::OpImm { op, rd, rs1, imm } => op_imm(&mut hart.core, op, rd, rs1, imm),
        Instr::Shift {
            op,
            rd,
            rs1,
            amount,
        } => shift(&mut hart.core, op, rd, rs1, amount),
        Instr::Op {
            op: kind,
            rd,
            rs1,
            rs2,
        } => op(&mut hart.core, kind, rd, rs1, rs2),
        Instr::Fence { .. } => hart.core.advance(),
        Instr::Load { op, rd, rs1, imm } => {
            let address = hart.core.displaced(rs1, imm);
            return load(here, &mut hart.core, memory, op, rd, address);
        }
        Instr::Store { op, rs1, rs2, imm } => {
            let address = hart.core.displaced(rs1, imm);
            let word = hart.core.register(rs2);
            return store(here, &mut hart.core, memory, op, address, word);
        }
        Instr::Jal { rd, imm } => return jal(here, hart, rd, imm),
        Instr::Branch { op, rs1, rs2, imm } => {
            return branch(here, &mut hart.core, op, rs1, rs2, imm);
        }
        Instr::Jalr { rd, rs1, imm } => return jalr(here, hart, rd, rs1, imm),
        Instr::Ecall => return environment_call(here, inputs, hart),
        Instr::Ebreak => return Err(TrapReason::Breakpoint),
    }
    Ok(())
}
