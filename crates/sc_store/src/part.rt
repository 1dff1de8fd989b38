// The bytes of one region.
#![tactic(auto)]

ghost use Rattle.std.specs.Prelude.{◌≡◌, ◌<◌, ◌^◌, ℕ, Some, length, IfOk, IsTrue};

use crate::Region;
use std::alloc::{AllocError, Global};

// The bytes at the addresses from `start` on.
#[derive(Drop)]
pub(crate) struct Part {
    start: u32,
    bytes: Vec<u8>,
}

impl Part {
    ghost use Rattle.sc_store.specs.Flat.{region_of, piece_of, spans, IsZero, Reads, written};

    pub(crate) fn zeroed(alloc: Global, region: Region) -> Result<Part, AllocError>
        ensures region { IfOk result (λ part. region_of part ≡ region) }
        ensures zero { IfOk result IsZero }
    {
        Ok(Part {
            start: region.start,
            bytes: vec![in alloc; 0; region.bytes as usize]?,
        })
    }

    // Whether this region has the `size` addresses from `at` on.
    pub(crate) fn spans(&self, at: u32, size: usize) -> bool
        requires { size < 2 ^ 32 }
        ensures { result ≡ spans at size self.now }
    {
        self.start <= at && (at - self.start) as usize + size <= self.bytes.len()
    }

    pub(crate) fn byte(&self, at: u32) -> u8
        requires { IsTrue (spans at 1 self.now) }
        ensures { piece_of self.now at ≡ Some result }
    {
        self.bytes[(at - self.start) as usize]
    }

    // Copies the bytes from `at` on.
    pub(crate) fn read(&self, at: u32, into: &mut [u8])
        requires { IsTrue (spans at (length into.old) self.now) }
        ensures { Reads (piece_of self.now) at into.new }
    {
        let from = (at - self.start) as usize;
        into.copy_from_slice(&self.bytes[from..from + into.len()]);
    }

    // Puts these bytes at the addresses from `at` on.
    pub(crate) fn write(&mut self, at: u32, bytes: &[u8])
        requires { IsTrue (spans at (length bytes.now) self.old) }
        ensures region { region_of self.new ≡ region_of self.old }
        ensures bytes { piece_of self.new ≡ written (piece_of self.old) at bytes.now }
    {
        let from = (at - self.start) as usize;
        self.bytes[from..from + bytes.len()].copy_from_slice(bytes);
    }
}
