//! Calls of other compartments.
#![tactic(auto, unfolding(sc_image::specs::Step::execute_by))]

ghost use Rattle.sc_base.specs.Prelude.{most_params};
ghost use Rattle.sc_machine.specs.Prelude.{IsCallee, IsReady, IsWellFormed, LeavesSound, ByteMemory, MachineState};
ghost use Rattle.sc_machine.specs.Prelude.{StaysSound};
ghost use Rattle.sc_machine.specs.Prelude.{Traps, arguments, on_call, jump_outside, comp_of_code, entered};
ghost use Rattle.sc_machine.specs.Prelude.{entered_export};
ghost use Rattle.sc_machine.specs.Prelude.{export_called, exported_by, may_call_export, outcome_of, export_params};
ghost use Rattle.sc_machine.specs.Prelude.{state_in};
ghost use Rattle.std.specs.Prelude.{◌≡◌, ◌==◌, position, ◌+◌, ◌^◌, ◌<◌, ◌≤◌, Some, IfOk, IfErr, OnErr};

use crate::hart::Hart;
use crate::here::Here;
use sc_base::TrapReason;
use sc_event::{Args, CompId, Entry, Event};
use sc_gate::{CrossEntry, clear_for_call};
use sc_image::layout::{A0, GATE, RA, SP, comp_id, comp_of_code};
use sc_image::{ExportPart, Image};
use sc_registers::Core;
use std::alloc::Global;

/// A function of another compartment that may be called.
#[derive(Clone, Copy)]
pub struct Callee {
    /// The address where it begins.
    pub entry: u32,
    pub comp: CompId,
    /// Its place among the exports of its compartment.
    pub index: u16,
    /// How many words it takes.
    pub params: u8,
}

/// A jump out of the own code, to an address that is a multiple of 4. It is a call where the address
/// of the next instruction is put into ra.
pub fn call_out(here: &Here<'_>, hart: &mut Hart, rd: u8, target: u32) -> Result<(), TrapReason>
    requires pc { hart.old.core.pc + 4 < 2 ^ 32 }
    requires ready { IsReady here.now hart.old }
    ensures outcome { (memory : ByteMemory) → outcome_of result (state_in memory hart.new) ≡
        jump_outside here.now.image (state_in memory hart.old) rd target }
    ensures leaves { LeavesSound here.now.image result hart.old hart.new }
{
    if rd as usize != RA {
        return Err(TrapReason::BadJump);
    }
    if let Some(callee) = here.callee(target) {
        call(here, hart, callee);
        return Ok(());
    }
    match find_callee(here.image(), here.comp(), target) {
        Ok(callee) => {
            call(here, hart, &callee);
            Ok(())
        }
        Err(reason) => Err(reason),
    }
}

/// The function that begins at an address, if the compartment may call it.
fn find_callee(image: &Image, caller: CompId, target: u32) -> Result<Callee, TrapReason>
    requires { IsWellFormed image.now }
    ensures callee { IfOk result (IsCallee image.now caller) }
    ensures entry { IfOk result (λ callee. callee.entry ≡ target) }
    ensures trap { IfErr result (λ reason. (state : MachineState) → state.active ≡ caller →
        Traps reason ≡ export_called image.now state (comp_of_code target) target
        (entered_export image.now (comp_of_code target) target)) }
{
    let comp = comp_of_code(target);
    let exports = exports(image, comp);
    let Some(index) = export_at(exports, target) else {
        return Err(TrapReason::BadJump);
    };
    let callee = Callee {
        entry: target,
        comp: comp_id(comp),
        index: index as u16,
        params: exports[index].params,
    };
    if !may_call(image, caller, callee.comp, callee.index) {
        return Err(TrapReason::NoImport);
    }
    Ok(callee)
}

/// What the compartment of that number offers: nothing where there is none.
fn exports(image: &Image, comp: usize) -> &[ExportPart]
    ensures { result.now ≡ exported_by image.now comp }
{
    match image.parts().comps.get(comp) {
        Some(part) => part.exports.as_slice(),
        None => &[],
    }
}

/// The place of the export that begins at an address.
fn export_at(exports: &[ExportPart], address: u32) -> Option<usize>
    ensures { result ≡ position (λ export. export.entry == address) exports.now }
{
    exports.iter().position(|export| export.entry == address)
}

/// Whether a compartment may call that export of another.
fn may_call(image: &Image, caller: CompId, comp: CompId, index: u16) -> bool
    ensures { result ≡ may_call_export image.now caller comp index }
{
    match image.parts().comps.get(caller.number() as usize) {
        Some(part) => part
            .imports
            .as_slice()
            .iter()
            .any(|import| import.comp == comp && import.index == index),
        None => false,
    }
}

/// Calls a function.
fn call(here: &Here<'_>, hart: &mut Hart, callee: &Callee)
    requires pc { hart.old.core.pc + 4 < 2 ^ 32 }
    requires ready { IsReady here.now hart.old }
    requires callee { IsCallee here.now.image here.now.comp callee.now }
    ensures state { (memory : ByteMemory) → state_in memory hart.new ≡
        on_call (state_in memory hart.old) callee.now.comp callee.now.index callee.now.params callee.now.entry }
    ensures stays { StaysSound here.now.image hart.old hart.new }
{
    let caller = here.comp();
    let sp = hart.core.registers[SP];
    let saved = hart.saved[callee.comp.number() as usize];
    let args = arguments(*hart.trace.allocator(), &hart.core, callee.params);
    hart.emit(Event::Call {
        from: caller,
        to: callee.comp,
        index: callee.index,
        args,
    });
    hart.cross.call(CrossEntry {
        caller,
        pc: hart.core.pc + 4,
        sp,
        callee: callee.comp,
        entry: Entry::Export(callee.index),
        saved,
    });
    hart.saved[caller.number() as usize] = sp;
    enter(&mut hart.core, callee.params, saved, callee.entry);
    hart.active = callee.comp;
}

/// The words of `params` arguments.
fn arguments(alloc: Global, core: &Core, params: u8) -> Args
    requires { params ≤ most_params }
    ensures { result ≡ arguments params core.now.registers }
{
    Args::from_slice(alloc, &core.registers[A0..A0 + params as usize]).unwrap()
}

/// Goes to the beginning of a function, with nothing in the registers but its arguments, its stack
/// and the gate to return through.
fn enter(core: &mut Core, params: u8, sp: u32, entry: u32)
    requires { params ≤ most_params }
    ensures { core.new ≡ entered core.old params sp entry }
{
    clear_for_call(&mut core.registers, params);
    core.registers[RA] = GATE;
    core.registers[SP] = sp;
    core.pc = entry;
}
