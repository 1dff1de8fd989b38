//! All owned bytes, those of code too.

ghost use Rattle.sc_base.specs.Prelude.{most_compartments};
ghost use Rattle.sc_machine.specs.Prelude.{HasBytes, extended, load_of, load_size, store_size, with_bytes, zeros};
ghost use Rattle.sc_tags.specs.CodeBytes.{HasShortCode, code_regions, with_words};
ghost use Rattle.sc_tags.specs.Prelude.{code_byte, first_bytes};
ghost use Rattle.sc_tags.specs.TagHart.{IsBelowData, bytes_of};
ghost use Rattle.std.specs.Prelude.{All, IfOk, IsSome, IsTrue, length, ◌↔◌, ◌≡◌, ◌%◌, ◌*◌, ◌+◌, ◌^◌, ◌≤◌};

use rv_code::{LoadOp, StoreOp};
use sc_base::OutOfMemory;
use sc_event::CompId;
use sc_image::layout::{DATA, code_start, comp_id, data_start};
use sc_image::{CompPart, Image};
use sc_machine::{loaded, put, start_memory};
use sc_store::{Region, Store};
use std::alloc::{AllocError, Global};
use std::marker::Model;

/// The bytes of code in one store and those of data in another, so that each has its own focus. Contracts see both
/// stores, and by `bytes_of` the map of all bytes.
#[derive(Drop)]
pub(crate) struct Memory<S: Store> {
    code_bytes: S,
    data_bytes: S,
}

impl<S: Store> Model for Memory<S> {
    ghost use Rattle.sc_tags.specs.TagHart.{AreWholeWords, IsBelowData, Stores};

    ghost Value = { Stores S };

    ghost view = { λ memory. record { code_bytes = memory.code_bytes; data_bytes = memory.data_bytes } };

    ghost invariant = { λ memory. AreWholeWords (S.bytes memory.code_bytes) × IsBelowData (S.bytes memory.code_bytes) };
}

impl<S: Store> Memory<S> {
    /// The bytes at the start.
    pub fn start(alloc: Global, image: &Image) -> Result<Memory<S>, OutOfMemory>
        ensures { IfOk result (λ memory. bytes_of S.bytes memory ≡ first_bytes image.now) }
    {
        Ok(Memory {
            code_bytes: start_code(alloc, image)?,
            data_bytes: start_memory(alloc, image)?,
        })
    }

    /// Looks first in what belongs to a compartment. Each answer stays the same.
    pub fn focus(&mut self, comp: CompId)
        ensures { bytes_of S.bytes self.new ≡ bytes_of S.bytes self.old }
    {
        self.code_bytes.focus(code_start(comp));
        self.data_bytes.focus(data_start(comp));
    }

    /// The word that is loaded from an address.
    pub fn loaded(&self, op: LoadOp, address: u32) -> u32
        requires aligned { address % load_size op ≡ 0 }
        requires there { HasBytes (bytes_of S.bytes self.now) address (load_size op) }
        ensures { result ≡ extended op (load_of (bytes_of S.bytes self.now) address (load_size op)) }
    {
        if has_code(&self.code_bytes, address) {
            return loaded(&self.code_bytes, op, address);
        }
        loaded(&self.data_bytes, op, address)
    }

    /// Puts the lowest bytes of a word at an address.
    pub fn put(&mut self, op: StoreOp, address: u32, word: u32)
        requires aligned { address % store_size op ≡ 0 }
        requires there { HasBytes (bytes_of S.bytes self.old) address (store_size op) }
        ensures { bytes_of S.bytes self.new ≡ with_bytes (bytes_of S.bytes self.old) address (store_size op) word }
    {
        if has_code(&self.code_bytes, address) {
            return put(&mut self.code_bytes, op, address, word);
        }
        put(&mut self.data_bytes, op, address, word);
    }
}

/// Whether there is a byte of code at an address. No code lies among data, where most accesses are.
#[inline(always)]
fn has_code<S: Store>(code: &S, address: u32) -> bool
    requires { IsBelowData (S.bytes code.now) }
    ensures { IsTrue result ↔ IsSome (S.bytes code.now address) }
{
    address < DATA && code.has(address)
}

/// The bytes of all code.
fn start_code<S: Store>(alloc: Global, image: &Image) -> Result<S, OutOfMemory>
    ensures bytes { IfOk result (λ code. S.bytes code ≡ code_byte image.now) }
    ensures below { IfOk result (λ code. IsBelowData (S.bytes code)) }
{
    let regions = code_regions(alloc, image.parts().comps.as_slice())?;
    let mut code = S::zeroed(alloc, &regions)?;
    put_code(&mut code, image);
    Ok(code)
}

/// The regions of each compartment's code.
fn code_regions(alloc: Global, comps: &[CompPart]) -> Result<Vec<Region>, AllocError>
    requires count { length comps.now ≤ most_compartments }
    requires short { All HasShortCode comps.now }
    ensures { IfOk result (λ regions. regions.items ≡ code_regions 0 comps.now) }
{
    let mut regions = Vec::new(alloc);
    for (number, comp) in comps.iter().enumerate() {
        regions.push(Region {
            start: code_start(comp_id(number)),
            bytes: 4 * comp.code.len() as u32,
        })?;
    }
    Ok(regions)
}

/// Puts the words of each compartment's code.
fn put_code<S: Store>(code: &mut S, image: &Image)
    requires { S.bytes code.old ≡ zeros (code_regions 0 image.now.comps) }
    ensures { S.bytes code.new ≡ code_byte image.now }
{
    let comps = image.parts().comps.as_slice();
    for (number, comp) in comps.iter().enumerate() {
        put_words(code, code_start(comp_id(number)), comp.code.as_slice());
    }
}

/// Puts these words at the addresses from `start` on.
fn put_words<S: Store>(code: &mut S, start: u32, words: &[u32])
    requires below { start + 4 * length words.now ≤ 2 ^ 32 }
    requires there { HasBytes (S.bytes code.old) start (4 * length words.now) }
    ensures { S.bytes code.new ≡ with_words (S.bytes code.old) start words.now (length words.now) }
{
    code.focus(start);
    for (k, word) in words.iter().enumerate() {
        code.store32(start + 4 * k as u32, *word);
    }
}
