//! Loads and stores, through whatever keeps the bytes.
#![tactic(auto, unfolding(sc_image::specs::Step::execute_by))]

ghost use Rattle.sc_machine.specs.Prelude.{HasBytes, IsBacked, MachineState, active_in, at, extended, load, load_of};
ghost use Rattle.sc_machine.specs.Prelude.{load_size, outcome_of, refused, start_memory, store, store_size, with_bytes};
ghost use Rattle.std.specs.Prelude.{◌≡◌, ◌+◌, ◌^◌, ◌<◌, ◌≤◌, ℕ, length, OnErr, OnSome, IfNone, IfSome};

use crate::here::Here;
use rv_code::{LoadOp, Reg, StoreOp};
use sc_base::TrapReason;
use sc_registers::Core;
use sc_store::Store;

/// Loads from an address into a register. Whole words, the most frequent, are loaded without a call.
#[inline(always)]
pub(crate) fn load<S: Store>(
    here: &Here<'_>,
    core: &mut Core,
    memory: &S,
    op: LoadOp,
    rd: Reg,
    address: u32,
) -> Result<(), TrapReason>
    requires pc { core.old.pc + 4 < 2 ^ 32 }
    requires backed { IsBacked here.now.image (S.bytes memory.now) }
    ensures outcome { (state : MachineState) → let there = active_in here.now.comp (S.bytes memory.now) state in
        outcome_of result (at there core.new) ≡ load here.now.image (at there core.old) op rd address }
    ensures trap { OnErr result (core.new ≡ core.old) }
{
    match op {
        LoadOp::Lw => load_word(here, core, memory, rd, address),
        _ => load_any(here, core, memory, op, rd, address),
    }
}

/// Loads a whole word.
#[inline(always)]
fn load_word<S: Store>(
    here: &Here<'_>,
    core: &mut Core,
    memory: &S,
    rd: Reg,
    address: u32,
) -> Result<(), TrapReason>
    requires pc { core.old.pc + 4 < 2 ^ 32 }
    requires backed { IsBacked here.now.image (S.bytes memory.now) }
    ensures outcome { (state : MachineState) → let there = active_in here.now.comp (S.bytes memory.now) state in
        outcome_of result (at there core.new) ≡ load here.now.image (at there core.old) LoadOp.Lw rd address }
    ensures trap { OnErr result (core.new ≡ core.old) }
{
    if !here.is_near_word(address) {
        return load_any(here, core, memory, LoadOp::Lw, rd, address);
    }
    core.give(rd, memory.load32(address));
    Ok(())
}

/// Loads what the operation says.
#[inline(never)]
fn load_any<S: Store>(
    here: &Here<'_>,
    core: &mut Core,
    memory: &S,
    op: LoadOp,
    rd: Reg,
    address: u32,
) -> Result<(), TrapReason>
    requires pc { core.old.pc + 4 < 2 ^ 32 }
    requires backed { IsBacked here.now.image (S.bytes memory.now) }
    ensures outcome { (state : MachineState) → let there = active_in here.now.comp (S.bytes memory.now) state in
        outcome_of result (at there core.new) ≡ load here.now.image (at there core.old) op rd address }
    ensures trap { OnErr result (core.new ≡ core.old) }
{
    if let Some(reason) = refused(here, load_size(op), address) {
        return Err(reason);
    }
    core.give(rd, loaded(memory, op, address));
    Ok(())
}

/// Stores the lowest bytes of a word at an address. Whole words are stored without a call.
#[inline(always)]
pub(crate) fn store<S: Store>(
    here: &Here<'_>,
    core: &mut Core,
    memory: &mut S,
    op: StoreOp,
    address: u32,
    word: u32,
) -> Result<(), TrapReason>
    requires pc { core.old.pc + 4 < 2 ^ 32 }
    requires backed { IsBacked here.now.image (S.bytes memory.old) }
    ensures outcome { (state : MachineState) → outcome_of result
        (at (active_in here.now.comp (S.bytes memory.new) state) core.new) ≡
        store here.now.image (at (active_in here.now.comp (S.bytes memory.old) state) core.old) op address word }
    ensures trap { OnErr result (core.new ≡ core.old) }
    ensures memory { OnErr result (S.bytes memory.new ≡ S.bytes memory.old) }
    ensures backed { IsBacked here.now.image (S.bytes memory.new) }
{
    match op {
        StoreOp::Sw => store_word(here, core, memory, address, word),
        _ => store_any(here, core, memory, op, address, word),
    }
}

/// Stores a whole word.
#[inline(always)]
fn store_word<S: Store>(
    here: &Here<'_>,
    core: &mut Core,
    memory: &mut S,
    address: u32,
    word: u32,
) -> Result<(), TrapReason>
    requires pc { core.old.pc + 4 < 2 ^ 32 }
    requires backed { IsBacked here.now.image (S.bytes memory.old) }
    ensures outcome { (state : MachineState) → outcome_of result
        (at (active_in here.now.comp (S.bytes memory.new) state) core.new) ≡
        store here.now.image (at (active_in here.now.comp (S.bytes memory.old) state) core.old)
        StoreOp.Sw address word }
    ensures trap { OnErr result (core.new ≡ core.old) }
    ensures memory { OnErr result (S.bytes memory.new ≡ S.bytes memory.old) }
    ensures backed { IsBacked here.now.image (S.bytes memory.new) }
{
    if !here.is_near_word(address) {
        return store_any(here, core, memory, StoreOp::Sw, address, word);
    }
    memory.store32(address, word);
    core.advance();
    Ok(())
}

/// Stores what the operation says.
#[inline(never)]
fn store_any<S: Store>(
    here: &Here<'_>,
    core: &mut Core,
    memory: &mut S,
    op: StoreOp,
    address: u32,
    word: u32,
) -> Result<(), TrapReason>
    requires pc { core.old.pc + 4 < 2 ^ 32 }
    requires backed { IsBacked here.now.image (S.bytes memory.old) }
    ensures outcome { (state : MachineState) → outcome_of result
        (at (active_in here.now.comp (S.bytes memory.new) state) core.new) ≡
        store here.now.image (at (active_in here.now.comp (S.bytes memory.old) state) core.old) op address word }
    ensures trap { OnErr result (core.new ≡ core.old) }
    ensures memory { OnErr result (S.bytes memory.new ≡ S.bytes memory.old) }
    ensures backed { IsBacked here.now.image (S.bytes memory.new) }
{
    if let Some(reason) = refused(here, store_size(op), address) {
        return Err(reason);
    }
    put(memory, op, address, word);
    core.advance();
    Ok(())
}

/// Why the compartment may not access the `size` bytes from an address on, if it may not.
fn refused(here: &Here<'_>, size: u32, address: u32) -> Option<TrapReason>
    requires some { 0 < size }
    requires few { size ≤ 4 }
    ensures reason { result ≡ refused here.now.image here.now.comp size address }
    ensures there { IfNone result (HasBytes (start_memory here.now.image) address size) }
{
    if address % size != 0 {
        return Some(TrapReason::Misaligned);
    }
    if !here.are_data(address, size) {
        return Some(TrapReason::Owner);
    }
    None
}

/// How many bytes the load reads.
pub fn load_size(op: LoadOp) -> u32
    ensures size { result ≡ load_size op }
    ensures some { 0 < result }
    ensures few { result ≤ 4 }
{
    match op {
        LoadOp::Lb | LoadOp::Lbu => 1,
        LoadOp::Lh | LoadOp::Lhu => 2,
        LoadOp::Lw => 4,
    }
}

/// How many bytes the store writes.
pub fn store_size(op: StoreOp) -> u32
    ensures size { result ≡ store_size op }
    ensures some { 0 < result }
    ensures few { result ≤ 4 }
{
    match op {
        StoreOp::Sb => 1,
        StoreOp::Sh => 2,
        StoreOp::Sw => 4,
    }
}

/// The word that is loaded from an address. Whole words, the most frequent, are loaded without a call.
#[inline(always)]
pub fn loaded<S: Store>(memory: &S, op: LoadOp, address: u32) -> u32
    requires { HasBytes (S.bytes memory.now) address (load_size op) }
    ensures { result ≡ extended op (load_of (S.bytes memory.now) address (load_size op)) }
{
    match op {
        LoadOp::Lw => memory.load32(address),
        _ => loaded_any(memory, op, address),
    }
}

#[inline(never)]
fn loaded_any<S: Store>(memory: &S, op: LoadOp, address: u32) -> u32
    requires { HasBytes (S.bytes memory.now) address (load_size op) }
    ensures { result ≡ extended op (load_of (S.bytes memory.now) address (load_size op)) }
{
    match op {
        LoadOp::Lb => signed_byte(memory.load8(address)),
        LoadOp::Lh => signed_half(memory.load16(address)),
        LoadOp::Lw => memory.load32(address),
        LoadOp::Lbu => memory.load8(address),
        LoadOp::Lhu => memory.load16(address),
    }
}

/// A byte with its sign in all higher bits.
fn signed_byte(byte: u32) -> u32
    requires { byte < 2 ^ 8 }
    ensures { result ≡ extended LoadOp.Lb byte }
{
    if byte < 0x80 {
        byte
    } else {
        0xffff_ff00 + byte
    }
}

/// A half word with its sign in all higher bits.
fn signed_half(half: u32) -> u32
    requires { half < 2 ^ 16 }
    ensures { result ≡ extended LoadOp.Lh half }
{
    if half < 0x8000 {
        half
    } else {
        0xffff_0000 + half
    }
}

/// Puts the lowest bytes of a word at an address. Whole words are put without a call.
#[inline(always)]
pub fn put<S: Store>(memory: &mut S, op: StoreOp, address: u32, word: u32)
    requires { HasBytes (S.bytes memory.old) address (store_size op) }
    ensures { S.bytes memory.new ≡ with_bytes (S.bytes memory.old) address (store_size op) word }
{
    match op {
        StoreOp::Sw => memory.store32(address, word),
        _ => put_any(memory, op, address, word),
    }
}

#[inline(never)]
fn put_any<S: Store>(memory: &mut S, op: StoreOp, address: u32, word: u32)
    requires { HasBytes (S.bytes memory.old) address (store_size op) }
    ensures { S.bytes memory.new ≡ with_bytes (S.bytes memory.old) address (store_size op) word }
{
    match op {
        StoreOp::Sb => memory.store8(address, word),
        StoreOp::Sh => memory.store16(address, word),
        StoreOp::Sw => memory.store32(address, word),
    }
}
