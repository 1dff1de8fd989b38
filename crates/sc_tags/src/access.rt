//! Loads and stores.

ghost use Rattle.sc_image.specs.Prelude.{load_by, store_by};
ghost use Rattle.sc_image.specs.Step.{refused_by};
ghost use Rattle.sc_machine.specs.Prelude.{HasBytes, load_size, store_size};
ghost use Rattle.sc_tags.specs.Prelude.{Tagged, core_of, first_bytes};
ghost use Rattle.sc_tags.specs.TagHart.{IsOwned, are_own_data, bytes_of, running_in, tag_outcome};
ghost use Rattle.std.specs.Prelude.{◌≡◌, ◌%◌, ◌+◌, ◌<◌, ◌^◌, ◌≤◌, IfNone, OnErr};

use crate::memory::Memory;
use crate::tags::Tags;
use rv_code::{LoadOp, Reg, StoreOp};
use sc_base::TrapReason;
use sc_machine::{load_size, store_size};
use sc_registers::Core;
use sc_store::Store;

/// Loads from an address into a register.
pub(crate) fn load<S: Store>(
    tags: &Tags<'_>,
    core: &mut Core,
    memory: &Memory<S>,
    op: LoadOp,
    rd: Reg,
    address: u32,
) -> Result<(), TrapReason>
    requires pc { core.old.pc + 4 < 2 ^ 32 }
    requires owned { IsOwned tags.now.image (bytes_of S.bytes memory.now) }
    ensures outcome { (tagged : Tagged) →
        tag_outcome result (running_in tags.now.comp (bytes_of S.bytes memory.now) core.new tagged) ≡
        load_by core_of (are_own_data tags.now address (load_size op))
        (running_in tags.now.comp (bytes_of S.bytes memory.now) core.old tagged) op rd address }
    ensures trap { OnErr result (core.new ≡ core.old) }
{
    if let Some(reason) = refused(tags, load_size(op), address) {
        return Err(reason);
    }
    core.give(rd, memory.loaded(op, address));
    Ok(())
}

/// Stores the lowest bytes of a word at an address.
pub(crate) fn store<S: Store>(
    tags: &Tags<'_>,
    core: &mut Core,
    memory: &mut Memory<S>,
    op: StoreOp,
    address: u32,
    word: u32,
) -> Result<(), TrapReason>
    requires pc { core.old.pc + 4 < 2 ^ 32 }
    requires owned { IsOwned tags.now.image (bytes_of S.bytes memory.old) }
    ensures outcome { (tagged : Tagged) →
        tag_outcome result (running_in tags.now.comp (bytes_of S.bytes memory.new) core.new tagged) ≡
        store_by core_of (are_own_data tags.now address (store_size op))
        (running_in tags.now.comp (bytes_of S.bytes memory.old) core.old tagged) op address word }
    ensures owned { IsOwned tags.now.image (bytes_of S.bytes memory.new) }
    ensures trap { OnErr result (core.new ≡ core.old) }
    ensures memory { OnErr result (bytes_of S.bytes memory.new ≡ bytes_of S.bytes memory.old) }
{
    if let Some(reason) = refused(tags, store_size(op), address) {
        return Err(reason);
    }
    memory.put(op, address, word);
    core.advance();
    Ok(())
}

/// Why the compartment may not access the `size` bytes at an address, if it may not.
fn refused(tags: &Tags<'_>, size: u32, address: u32) -> Option<TrapReason>
    requires some { 0 < size }
    requires few { size ≤ 4 }
    requires end { address % size ≡ 0 → address + size ≤ 2 ^ 32 }
    ensures reason { result ≡ refused_by (are_own_data tags.now address size) size address }
    ensures aligned { IfNone result (address % size ≡ 0) }
    ensures there { IfNone result (HasBytes (first_bytes tags.now.image) address size) }
{
    if address % size != 0 {
        return Some(TrapReason::Misaligned);
    }
    if !tags.are_data(address, size) {
        return Some(TrapReason::Owner);
    }
    None
}
