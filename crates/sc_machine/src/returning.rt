//! Returns through the gate.
#![tactic(auto, unfolding(sc_image::specs::Step::execute_by))]

ghost use Rattle.sc_machine.specs.Prelude.{IsReady, ByteMemory, StaysSound, a0, has_result, resumed, on_return};
ghost use Rattle.sc_machine.specs.Prelude.{state_in};
ghost use Rattle.std.specs.Prelude.{◌≡◌, Some, None, if◌then◌else◌, slice_index};

use crate::hart::Hart;
use crate::here::Here;
use sc_event::{CompId, Entry, Event};
use sc_gate::clear_for_ret;
use sc_image::Image;
use sc_image::layout::{A0, SP};
use sc_registers::Core;

/// Returns to the latest caller that waits. Where none does, the run ends.
pub fn leave(here: &Here<'_>, hart: &mut Hart)
    requires ready { IsReady here.now hart.old }
    ensures state { (memory : ByteMemory) → state_in memory hart.new ≡
        on_return here.now.image (state_in memory hart.old) hart.old.cross.calls }
    ensures stays { StaysSound here.now.image hart.old hart.new }
{
    let leaving = here.comp();
    let Some(call) = hart.cross.ret() else {
        hart.emit(Event::End {
            comp: leaving,
            value: hart.core.registers[A0],
        });
        return;
    };
    let has_result = has_result(here.image(), call.callee, call.entry);
    let value = given_back(&hart.core, has_result);
    hart.emit(Event::Ret {
        from: leaving,
        to: call.caller,
        value,
    });
    hart.saved[leaving.number() as usize] = call.saved;
    go_on(&mut hart.core, has_result, call.sp, call.pc);
    hart.active = call.caller;
}

/// Whether a function of a compartment gives a word back.
fn has_result(image: &Image, comp: CompId, entry: Entry) -> bool
    ensures { result ≡ has_result image.now comp entry }
{
    let Entry::Export(index) = entry else {
        return true;
    };
    match image.parts().comps.get(comp.number() as usize) {
        Some(part) => match part.exports.get(index as usize) {
            Some(export) => export.result,
            None => false,
        },
        None => false,
    }
}

/// What a function gives back, where it has a result.
fn given_back(core: &Core, has_result: bool) -> Option<u32>
    ensures { result ≡ (if has_result then Some (slice_index core.now.registers a0) else None) }
{
    has_result.then_some(core.registers[A0])
}

/// Goes on after a call, with nothing in the registers but the result and the own stack.
fn go_on(core: &mut Core, has_result: bool, sp: u32, pc: u32)
    ensures { core.new ≡ resumed core.old has_result sp pc }
{
    clear_for_ret(&mut core.registers, has_result);
    core.registers[SP] = sp;
    core.pc = pc;
}
