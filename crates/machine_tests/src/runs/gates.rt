ghost use Rattle.std.specs.Prelude.{◌≤◌};

use sc_base::OutOfMemory;
use sc_event::{CompId, Entry};
use sc_gate::{CrossEntry, CrossStack, clear_for_call, clear_for_ret};
use std::alloc::Global;

// A call from the first compartment to itself, which goes on at this address.
fn call_at(pc: u32) -> CrossEntry {
    CrossEntry {
        caller: CompId::first(),
        pc,
        sp: 0x1001_0000,
        callee: CompId::first(),
        entry: Entry::Export(2),
        saved: 0x1101_0000,
    }
}

// Whether a stack with room for two calls gives back the latest first, and then none.
fn gives_back_the_latest(alloc: Global) -> Result<bool, OutOfMemory> {
    let mut stack = CrossStack::with_room(alloc, 2)?;
    if stack.room() != 2 || stack.ret().is_some() {
        return Ok(false);
    }
    stack.call(call_at(4));
    stack.call(call_at(8));
    Ok(stack.room() == 0 && gives_back_both(&mut stack))
}

fn gives_back_both(stack: &mut CrossStack) -> bool {
    stack.ret() == Some(call_at(8))
        && stack.room() == 1
        && stack.ret() == Some(call_at(4))
        && stack.ret().is_none()
}

#[test]
fn latest_returns_first(rt: HostRuntime) -> Result<(), OutOfMemory> {
    assert!(rt; gives_back_the_latest(rt.alloc())?);
    Ok(())
}

// Whether the registers from a0 on, so many of them, are 7, and all others 0.
fn only_kept(regs: &[u32; 32], kept: usize) -> bool {
    regs.iter().enumerate().all(|(number, word)| {
        let holds = number.wrapping_sub(10) < kept;
        *word == if holds { 7 } else { 0 }
    })
}

fn keeps_arguments(params: u8) -> bool
    requires { params ≤ 8 }
{
    let mut regs = [7; 32];
    clear_for_call(&mut regs, params);
    only_kept(&regs, usize::from(params))
}

fn keeps_the_result(has_result: bool) -> bool {
    let mut regs = [7; 32];
    clear_for_ret(&mut regs, has_result);
    only_kept(&regs, usize::from(has_result))
}

#[test]
fn clears_registers(rt: HostRuntime) {
    assert!(rt; keeps_arguments(0) && keeps_arguments(1) && keeps_arguments(8));
    assert!(rt; keeps_the_result(false) && keeps_the_result(true));
}
