//! The compartment whose code runs. What instructions need of it is looked up once, until another
//! compartment's code runs.
#![tactic(auto, unfolding(sc_image::specs::Step::execute_by))]

ghost use Rattle.std.specs.List.{HoldsAt};
ghost use Rattle.std.specs.Prelude.{IfSome, IsTrue, OnSome, length, ◌≡◌, ◌≢◌, ◌+◌, ◌-◌, ◌*◌, ◌/◌, ◌%◌, ◌^◌, ◌<◌, ◌≤◌};
ghost use Rattle.sc_image.specs.Layout.{are_data, code_in, data_start, has_heap, initial_globals, most_globals};
ghost use Rattle.sc_image.specs.Layout.{stack_size, stretch, word_at};
ghost use Rattle.sc_store.specs.Memory.{HasBytes};
ghost use Rattle.sc_image.specs.State.{start_memory};
ghost use Rattle.sc_machine.specs.Place.{IsPlace};
ghost use Rattle.sc_machine.specs.Passing.{IsCallee};

use crate::calling::Callee;
use crate::program::Program;
use sc_event::CompId;
use sc_image::Image;
use sc_image::layout::{STACK_SIZE, ZONE, ZONE_SIZE, code_start, data_start};
use sc_store::Store;
use sqlite_items::at;
use std::marker::Model;

/// A compartment of an image, with its code and the bounds of its data. Contracts see the image and the
/// compartment's number.
#[derive(Drop)]
pub struct Here<'a> {
    program: &'a Program,
    comp: CompId,
    code: &'a [u32],
    code_from: u32,
    data_from: u32,
    data_bytes: u32,
    has_zone: bool,
}

impl<'a> Model for Here<'a> {
    ghost use Rattle.sc_machine.specs.Place.{Site, IsPlace, IsLookedUp};

    ghost Value = { Site };

    ghost view = { λ h. record { image = h.program.now; comp = h.comp } };

    ghost invariant = { λ h. IsPlace h.program.now h.comp ×
        IsLookedUp h.program.now h.comp h.code.now h.code_from h.data_from h.data_bytes
        h.has_zone };
}

impl<'a> Here<'a> {
    /// Looks a compartment up.
    #[inline(never)]
    pub fn of(program: &'a Program, comp: CompId) -> Here<'a>
        requires { IsPlace program.now comp }
        ensures image { result.image ≡ program.now }
        ensures comp { result.comp ≡ comp }
    {
        let image = program.image();
        let code = code(image, comp);
        let globals = globals(image, comp);
        Here {
            program,
            comp,
            code,
            code_from: code_start(comp),
            data_from: data_start(comp),
            data_bytes: STACK_SIZE + globals.len() as u32,
            has_zone: has_heap(image, comp),
        }
    }

    /// The image that it is of.
    pub fn image(&self) -> &'a Image
        ensures { result.now ≡ self.now.image }
    {
        self.program.image()
    }

    /// Its number.
    pub fn comp(&self) -> CompId
        ensures { result ≡ self.now.comp }
    {
        self.comp
    }

    /// Whether it has a heap, and so a zone.
    pub fn has_zone(&self) -> bool
        ensures { result ≡ has_heap self.now.image self.now.comp }
    {
        self.has_zone
    }

    /// Goes over to the compartment that runs now, with the memory focused on its data. It is looked
    /// up where it isn't this one.
    pub fn follow<S: Store>(&mut self, memory: &mut S, active: CompId)
        requires { IsPlace self.old.image active }
        ensures image { self.new.image ≡ self.old.image }
        ensures comp { self.new.comp ≡ active }
        ensures memory { S.bytes memory.new ≡ S.bytes memory.old }
    {
        if self.comp != active {
            *self = Here::of(self.program, active);
            memory.focus(data_start(active));
        }
    }

    /// The word of the compartment's code at an address, if the address is that of a whole word of
    /// it.
    #[tactic(auto, using(crate::proofs::Words::looked_from))]
    pub fn word_at(&self, address: u32) -> Option<u32>
        ensures word { result ≡ word_at self.now.image self.now.comp address }
        ensures within { OnSome result (address + 4 < 2 ^ 32) }
    {
        at(self.code, word_number(self.code_from, address) as usize).copied()
    }

    /// The function that begins at an address, if it was looked up at the load as one that the
    /// compartment may call. Where it wasn't, the image decides what a jump there is.
    pub fn callee(&self, entry: u32) -> Option<&Callee>
        ensures entry { IfSome result (λ callee. callee.now.entry ≡ entry) }
        ensures callee { IfSome result (λ callee. IsCallee self.now.image self.now.comp callee.now) }
    {
        let callees = self.program.callees(self.comp);
        let place = place_of(callees, entry)?;
        Some(&callees[place])
    }

    /// Whether a whole word of the compartment's stack and globals begins at an address. Most accesses are to such
    /// words, and this takes one test.
    #[inline(always)]
    #[tactic(auto, using(crate::proofs::Words::looked_data_from))]
    pub(crate) fn is_near_word(&self, address: u32) -> bool
        ensures whole { IsTrue result → address % 4 ≡ 0 }
        ensures data { IsTrue result → IsTrue (are_data self.now.image self.now.comp address 4) }
        ensures there { IsTrue result → HasBytes (start_memory self.now.image) address 4 }
    {
        word_number(self.data_from, address) < self.data_bytes / 4
    }

    /// Whether the `size` bytes from an address on all lie in the compartment's stack, globals and zone.
    pub fn are_data(&self, address: u32, size: u32) -> bool
        requires some { 0 < size }
        requires few { size ≤ 4 }
        ensures data { result ≡ are_data self.now.image self.now.comp address size }
        ensures there { IsTrue result → HasBytes (start_memory self.now.image) address size }
    {
        if address < self.data_from {
            return false;
        }
        let offset = address - self.data_from;
        if offset <= self.data_bytes - size {
            return true;
        }
        if !self.has_zone {
            return false;
        }
        self.are_in_zone(offset, size)
    }

    /// Whether the `size` bytes at an offset in the compartment's data, which reach beyond its globals, all lie in its
    /// zone, or in its globals and its zone where there is nothing between them.
    #[inline(never)]
    fn are_in_zone(&self, offset: u32, size: u32) -> bool
        requires some { 0 < size }
        requires few { size ≤ 4 }
        requires heap { IsTrue (has_heap self.now.image self.now.comp) }
        requires beyond { stack_size + length (initial_globals self.now.image self.now.comp) < offset + size }
        ensures { result ≡ are_data self.now.image self.now.comp (data_start self.now.comp + offset) size }
    {
        if offset < ZONE {
            return self.data_bytes >= ZONE;
        }
        offset <= ZONE + ZONE_SIZE - size
    }
}

/// The number of the word at an address, of those from another address on. Where no whole word begins there, it is
/// beyond all code. It takes no test, since each step asks for it.
#[inline(always)]
fn word_number(from: u32, address: u32) -> u32
    requires whole { from % 4 ≡ 0 }
    requires low { from < 2 ^ 30 }
    ensures word { from ≤ address → address % 4 ≡ 0 → result ≡ (address - from) / 4 }
    ensures before { address < from → 2 ^ 29 ≤ result }
    ensures between { address % 4 ≢ 0 → 2 ^ 29 ≤ result }
{
    let offset = address.wrapping_sub(from);
    offset / 4 + ((offset % 4) << 30)
}

/// The place of the function that begins at an address, in a list in the order of addresses.
fn place_of(callees: &[Callee], entry: u32) -> Option<usize>
    ensures within { IfSome result (λ place. place < length callees.now) }
    ensures entry { IfSome result (HoldsAt (λ callee. callee.entry ≡ entry) callees.now) }
{
    match callees.binary_search_by_key(&entry, |callee| callee.entry) {
        Ok(place) => Some(place),
        Err(_) => None,
    }
}

/// The compartment's instructions, one word each.
#[tactic(auto, using(crate::proofs::Words::short_code))]
fn code(image: &Image, comp: CompId) -> &[u32]
    ensures code { result.now ≡ code_in image.now comp }
    ensures short { 4 * length result.now ≤ stretch }
{
    match image.parts().comps.get(comp.number() as usize) {
        Some(part) => part.code.as_slice(),
        None => &[],
    }
}

/// Whether the compartment has a heap.
fn has_heap(image: &Image, comp: CompId) -> bool
    ensures { result ≡ has_heap image.now comp }
{
    match image.parts().comps.get(comp.number() as usize) {
        Some(part) => part.heap,
        None => false,
    }
}

/// What the compartment's globals hold at the start.
#[tactic(auto, using(crate::proofs::Words::short_globals))]
fn globals(image: &Image, comp: CompId) -> &[u8]
    ensures globals { result.now ≡ initial_globals image.now comp }
    ensures short { length result.now ≤ most_globals }
{
    match image.parts().comps.get(comp.number() as usize) {
        Some(part) => part.globals.as_bytes(),
        None => &[],
    }
}
