//! The state that a run starts in.
#![tactic(auto, unfolding(sc_image::specs::Step::execute_by))]

ghost use Rattle.sc_base.specs.Prelude.{most_compartments};
ghost use Rattle.sc_machine.specs.Prelude.{HasBytes, HasRoom, IsSound, stack_tops, start, start_memory, state_in};
ghost use Rattle.sc_machine.specs.Prelude.{zeros};
ghost use Rattle.sc_store.specs.Prelude.{written};
ghost use Rattle.std.specs.Prelude.{◌≡◌, ◌+◌, ◌<◌, ◌^◌, ◌≤◌, ◌++◌, length, vec_capacity, All, IfOk, OnOk};
ghost use Rattle.sc_machine.specs.Regions.{HasFewGlobals, all_data, filled_with, own_regions, regions_of};
ghost use Rattle.sc_machine.specs.Regions.{store_regions};

use crate::hart::Hart;
use crate::zones::Zones;
use sc_base::OutOfMemory;
use sc_event::CompId;
use sc_gate::CrossStack;
use sc_image::layout::{
    GATE, RA, SP, STACK_SIZE, ZONE_SIZE, comp_id, data_start, stack_top, zone_start,
};
use sc_image::{CompPart, Image};
use sc_registers::Core;
use sc_store::{Region, Store};
use std::alloc::{AllocError, Global};

/// At the image's entry, with room for `events` events.
pub fn start_hart(alloc: Global, image: &Image, events: u32) -> Result<Hart, OutOfMemory>
    ensures state { IfOk result (λ hart. state_in (start_memory image.now) hart ≡ start image.now) }
    ensures sound { IfOk result (IsSound image.now) }
    ensures room { IfOk result (HasRoom events) }
{
    let parts = image.parts();
    let comps = parts.comps.as_slice();
    let Ok(cross) = CrossStack::with_room(alloc, events) else {
        return Err(OutOfMemory);
    };
    let mut registers = [0; 32];
    registers[RA] = GATE;
    registers[SP] = stack_top(parts.main);
    Ok(Hart {
        core: Core {
            registers,
            pc: parts.entry,
        },
        active: parts.main,
        saved: stack_tops(alloc, comps)?,
        zones: Zones::new(alloc, comps)?,
        cross,
        input: 0,
        trace: Vec::with_capacity(alloc, events as usize)?,
    })
}

/// The tops of all stacks.
#[tactic(auto, using(crate::proofs::Start::next_top))]
fn stack_tops(alloc: Global, comps: &[CompPart]) -> Result<Vec<u32>, AllocError>
    requires { length comps.now ≤ most_compartments }
    ensures { IfOk result (λ tops. tops.items ≡ stack_tops 0 comps.now) }
{
    let mut tops = Vec::new(alloc);
    for number in 0..comps.len() {
        tops.push(stack_top(comp_id(number)))?;
    }
    Ok(tops)
}

/// Stacks and zones of zeros, and globals with the image's bytes.
pub fn start_memory<S: Store>(alloc: Global, image: &Image) -> Result<S, OutOfMemory>
    ensures { IfOk result (λ memory. S.bytes memory ≡ start_memory image.now) }
{
    let comps = image.parts().comps.as_slice();
    let regions = regions(alloc, comps)?;
    let mut memory = S::zeroed(alloc, &regions)?;
    fill_all(&mut memory, comps);
    Ok(memory)
}

/// The regions of each compartment's data.
fn regions(alloc: Global, comps: &[CompPart]) -> Result<Vec<Region>, AllocError>
    requires count { length comps.now ≤ most_compartments }
    requires few { All HasFewGlobals comps.now }
    ensures { IfOk result (λ regions. regions.items ≡ store_regions 0 comps.now) }
{
    let mut regions = Vec::new(alloc);
    for (number, comp) in comps.iter().enumerate() {
        add_data(&mut regions, comp_id(number), comp)?;
    }
    Ok(regions)
}

/// Adds the regions of the compartment's data: its stack with its globals, and its zone if it has a heap.
fn add_data(regions: &mut Vec<Region>, number: CompId, comp: &CompPart) -> Result<(), AllocError>
    requires { HasFewGlobals comp.now }
    ensures { OnOk result (regions.new.items ≡ regions.old.items ++
        own_regions number comp.now.globals comp.now.heap) }
{
    regions.push(Region {
        start: data_start(number),
        bytes: STACK_SIZE + comp.globals.as_bytes().len() as u32,
    })?;
    if comp.heap {
        regions.push(Region {
            start: zone_start(number),
            bytes: ZONE_SIZE,
        })?;
    }
    Ok(())
}

/// Puts the bytes that each compartment's data begin with: its globals, since a stack and a zone
/// begin with none.
fn fill_all<S: Store>(memory: &mut S, comps: &[CompPart])
    requires count { length comps.now ≤ most_compartments }
    requires few { All HasFewGlobals comps.now }
    requires zeros { S.bytes memory.old ≡ zeros (regions_of (all_data 0 comps.now)) }
    ensures { S.bytes memory.new ≡ filled_with (all_data 0 comps.now) (S.bytes memory.old) }
{
    for (number, comp) in comps.iter().enumerate() {
        fill(memory, stack_top(comp_id(number)), comp.globals.as_bytes());
    }
}

/// Puts these bytes at the addresses from `start` on.
fn fill<S: Store>(memory: &mut S, start: u32, bytes: &[u8])
    requires below { start + length bytes.now ≤ 2 ^ 32 }
    requires there { HasBytes (S.bytes memory.old) start (length bytes.now) }
    ensures { S.bytes memory.new ≡ written (S.bytes memory.old) start bytes.now }
{
    memory.focus(start);
    for (k, byte) in bytes.iter().enumerate() {
        memory.store8(start + k as u32, *byte as u32);
    }
}
