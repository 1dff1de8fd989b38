// Bytes at addresses.
#![tactic(auto)]

ghost use Rattle.std.specs.Prelude.{◌≡◌, ◌↔◌, ℕ, ◌+◌, ◌<◌, Option, IfOk, IsTrue, IsSome};
ghost use Rattle.sc_store.specs.Region.{AreApart, AreBelow};
ghost use Rattle.sc_store.specs.Memory.{ByteMemory, HoldsBytes, HasBytes, zeros, load_of, with_bytes};

use crate::{OutOfMemory, Region};
use std::alloc::Global;

/// Memory that a machine owns: a byte at each address of some regions, and nothing at any other address.
///
/// Words stand with their least significant byte first, at any address. A load or a store may reach from one region
/// into another that begins where the first ends. Only making a store takes memory.
pub trait Store: Drop {
    /// The byte at each address that has one.
    ghost bytes: { Self → ByteMemory };

    /// A store of zeros at the addresses of these regions. No address may be in two of them, and their last address
    /// is 4,294,967,295 at most.
    fn zeroed(alloc: Global, regions: &[Region]) -> Result<Self, OutOfMemory>
        requires apart { AreApart regions.now }
        requires below { AreBelow regions.now }
        ensures { IfOk result (λ store. bytes store ≡ zeros regions.now) };

    /// Looks first in the region of this address from now on, and then in the one that follows it in the list for
    /// `zeroed`. Loads and stores answer as before; those in these two are found at once.
    fn focus(&mut self, at: u32)
        ensures { bytes self.new ≡ bytes self.old };

    /// Whether there is a byte at this address.
    fn has(&self, at: u32) -> bool
        ensures { IsTrue result ↔ IsSome (bytes self.now at) };

    /// The byte at this address.
    fn load8(&self, at: u32) -> u32
        requires { HasBytes (bytes self.now) at 1 }
        ensures { result ≡ load_of (bytes self.now) at 1 };

    /// The number of two bytes from this address on.
    fn load16(&self, at: u32) -> u32
        requires { HasBytes (bytes self.now) at 2 }
        ensures { result ≡ load_of (bytes self.now) at 2 };

    /// The number of four bytes from this address on.
    fn load32(&self, at: u32) -> u32
        requires { HasBytes (bytes self.now) at 4 }
        ensures { result ≡ load_of (bytes self.now) at 4 };

    /// Puts the lowest byte of `value` at this address.
    fn store8(&mut self, at: u32, value: u32)
        requires { HasBytes (bytes self.old) at 1 }
        ensures { bytes self.new ≡ with_bytes (bytes self.old) at 1 value };

    /// Puts the two lowest bytes of `value` at this address and the next.
    fn store16(&mut self, at: u32, value: u32)
        requires { HasBytes (bytes self.old) at 2 }
        ensures { bytes self.new ≡ with_bytes (bytes self.old) at 2 value };

    /// Puts the four bytes of `value` at this address and the next three.
    fn store32(&mut self, at: u32, value: u32)
        requires { HasBytes (bytes self.old) at 4 }
        ensures { bytes self.new ≡ with_bytes (bytes self.old) at 4 value };

    /// Addresses have 32 bits, and what stands there is a byte.
    ghost holds_bytes: { (s : Self) → HoldsBytes (bytes s) };
}
