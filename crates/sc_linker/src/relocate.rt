//! Code with the addresses of what it refers to.

ghost use Rattle.sc_linker.specs.Prelude.{AreKnown, Fits, IsCodeAddress, IsInstr, IsJumpOffset, IsKnown, addresses_of};
ghost use Rattle.sc_linker.specs.Prelude.{with_jump, with_upper, word_of};
ghost use Rattle.sc_emit_select.specs.Prelude.{Addresses, linked, low_of_target, relocations_after, target_at};
ghost use Rattle.sc_emit_select.specs.Prelude.{upper_part, with_low, with_target};
ghost use Rattle.std.specs.Prelude.{◌≡◌, ◌≤◌, ◌++◌, drop, pos, ◌-ℤ◌, All, IfSome, Some, OnOk, length, map};

use crate::layout::{SectionLayout, entry_address};
use rv_code::{Instr, JumpOffset, encode};
use sc_base::{OutOfMemory, Words};
use sc_emit_select::{lower_part, upper_part};
use sc_tac::{CodeTree, Relocation, Target};

/// How far a jump at an address leads to another.
pub fn jump_offset(from: u32, to: u32) -> JumpOffset
    requires { IsJumpOffset (pos to -ℤ pos from) }
    ensures { result ≡ pos to -ℤ pos from }
{
    JumpOffset::new(to.wrapping_sub(from).cast_signed()).unwrap()
}

// What the instruction of this number refers to, where the next relocation is its. That one is then passed.
fn take_target(at: u32, relocations: &[Relocation], next: &mut usize) -> Option<Target>
    requires { next.old ≤ length relocations.now }
    ensures target { (addresses : Addresses) → result ≡ target_at addresses at (drop next.old relocations.now) }
    ensures following { (addresses : Addresses) →
        relocations_after addresses at (drop next.old relocations.now) ≡ drop next.new relocations.now }
    ensures within { next.new ≤ length relocations.now }
{
    match relocations.get(*next) {
        Some(relocation) if relocation.at == at => {
            *next += 1;
            Some(relocation.target)
        }
        _ => None,
    }
}

fn with_jump(pc: u32, to: u32, instr: Instr) -> Instr
    requires { IsJumpOffset (pos to -ℤ pos pc) }
    ensures { result ≡ with_jump pc to instr }
{
    match instr {
        Instr::Jal { rd, .. } => Instr::Jal {
            rd,
            imm: jump_offset(pc, to),
        },
        _ => instr,
    }
}

fn with_upper(address: u32, instr: Instr) -> Instr
    ensures { result ≡ with_upper address instr }
{
    match instr {
        Instr::Upper { op, rd, .. } => Instr::Upper {
            op,
            rd,
            imm: upper_part(address),
        },
        _ => instr,
    }
}

// The instruction at an address that refers to this, and the address whose low 12 bits the next one adds.
fn referring(layout: &SectionLayout, pc: u32, target: Target, instr: Instr) -> (Instr, Option<u32>)
    requires functions { All (IsCodeAddress layout.now.comp) layout.now.functions }
    requires here { IsCodeAddress layout.now.comp pc }
    requires known { IsKnown (length layout.now.functions) (length layout.now.globals) target }
    ensures instr { result.0 ≡ with_target (addresses_of layout.now) pc (Some target) instr }
    ensures low { result.1 ≡ low_of_target (addresses_of layout.now) (Some target) }
{
    match target {
        Target::Function(number) => (with_jump(pc, layout.function(number as usize), instr), None),
        Target::Entry(comp, index) => {
            let address = entry_address(comp, index);
            (with_upper(address, instr), Some(address))
        }
        Target::Global(number) => {
            let address = layout.global(number as usize);
            (with_upper(address, instr), Some(address))
        }
    }
}

// The same of an instruction that may refer to nothing.
fn completed(
    layout: &SectionLayout,
    pc: u32,
    target: Option<Target>,
    instr: Instr,
) -> (Instr, Option<u32>)
    requires functions { All (IsCodeAddress layout.now.comp) layout.now.functions }
    requires here { IsCodeAddress layout.now.comp pc }
    requires known { IfSome target (IsKnown (length layout.now.functions) (length layout.now.globals)) }
    ensures instr { result.0 ≡ with_target (addresses_of layout.now) pc target instr }
    ensures low { result.1 ≡ low_of_target (addresses_of layout.now) target }
    // It is made of registers and immediates.
    ensures known { IsInstr instr }
{
    match target {
        None => (instr, None),
        Some(target) => referring(layout, pc, target, instr),
    }
}

fn with_low(low: Option<u32>, instr: Instr) -> Instr
    ensures { result ≡ with_low low instr }
{
    let Some(address) = low else {
        return instr;
    };
    match instr {
        Instr::OpImm { op, rd, rs1, .. } => Instr::OpImm {
            op,
            rd,
            rs1,
            imm: lower_part(address),
        },
        Instr::Jalr { rd, rs1, .. } => Instr::Jalr {
            rd,
            rs1,
            imm: lower_part(address),
        },
        _ => instr,
    }
}

/// The words of a function's code as it stands at an address.
pub fn link_code(
    words: &mut Words,
    layout: &SectionLayout,
    address: u32,
    code: &CodeTree,
) -> Result<(), OutOfMemory>
    requires functions { All (IsCodeAddress layout.now.comp) layout.now.functions }
    requires room { Fits layout.now.comp address (length code.now.instrs) }
    requires known { AreKnown (length layout.now.functions) (length layout.now.globals) code.now.relocations }
    ensures words { OnOk result (words.new ≡ words.old ++
        map word_of (linked (addresses_of layout.now) address code.now)) }
    ensures instrs { OnOk result (All IsInstr code.now.instrs) }
{
    let relocations = code.relocations.as_slice();
    let mut next = 0;
    let mut low = None;
    let mut pc = address;
    let mut at = 0;
    for instr in code.instrs.as_slice() {
        let target = take_target(at, relocations, &mut next);
        let (instr, low_of_next) = completed(layout, pc, target, *instr);
        words.push(encode(with_low(low, instr)))?;
        low = low_of_next;
        at += 1;
        pc += 4;
    }
    Ok(())
}
