// Words in memory, wherever their bytes lie.
#![tactic(auto)]

ghost use Rattle.std.specs.Prelude.{◌≡◌, ◌<◌, ◌≤◌, ◌∷◌, [], false, Some, length, IsSome, IsTrue};
ghost use Rattle.sc_store.specs.Memory.{ByteMemory, HasBytes, HoldsBytes, load_of, with_bytes};
ghost use Rattle.sc_store.specs.Flat.{Reads, written};

// What a store can do with single bytes, and with a few that lie side by side.
pub(crate) trait Access: Drop {
    ghost bytes: { Self → ByteMemory };

    fn byte(&self, at: u32) -> u8
        requires { IsSome (bytes self.now at) }
        ensures { bytes self.now at ≡ Some result };

    fn put(&mut self, at: u32, byte: u8)
        requires { IsSome (bytes self.old at) }
        ensures { bytes self.new ≡ written (bytes self.old) at (byte ∷ []) };

    // Reads bytes that lie side by side, and says whether they do.
    fn read(&self, at: u32, into: &mut [u8]) -> bool
        requires some { 0 < length into.old }
        requires size { length into.old ≤ 4 }
        ensures length { length into.new ≡ length into.old }
        ensures bytes { IsTrue result → Reads (bytes self.now) at into.new };

    // Writes bytes that come to lie side by side, and says whether they do. If not, nothing changes.
    fn write(&mut self, at: u32, from: &[u8]) -> bool
        requires some { 0 < length from.now }
        requires size { length from.now ≤ 4 }
        requires there { HasBytes (bytes self.old) at (length from.now) }
        ensures written { IsTrue result → bytes self.new ≡ written (bytes self.old) at from.now }
        ensures unchanged { result ≡ false → bytes self.new ≡ bytes self.old };

    // Addresses have 32 bits.
    ghost holds_bytes: { (s : Self) → HoldsBytes (bytes s) };
}

// Byte by byte, wherever they lie.
fn read_each<S: Access>(store: &S, at: u32, into: &mut [u8])
    requires size { length into.old ≤ 4 }
    requires there { HasBytes (S.bytes store.now) at (length into.old) }
    ensures { Reads (S.bytes store.now) at into.new }
{
    for (k, byte) in into.iter_mut().enumerate() {
        *byte = store.byte(at + k as u32);
    }
}

fn write_each<S: Access>(store: &mut S, at: u32, from: &[u8])
    requires size { length from.now ≤ 4 }
    requires there { HasBytes (S.bytes store.old) at (length from.now) }
    ensures { S.bytes store.new ≡ written (S.bytes store.old) at from.now }
{
    for (k, byte) in from.iter().enumerate() {
        store.put(at + k as u32, *byte);
    }
}

// Loads and stores of words whose bytes don't lie side by side.
#[inline(never)]
fn load16_each<S: Access>(store: &S, at: u32) -> u32
    requires { HasBytes (S.bytes store.now) at 2 }
    ensures { result ≡ load_of (S.bytes store.now) at 2 }
{
    let mut bytes = [0; 2];
    read_each(store, at, &mut bytes);
    u16::from_le_bytes(bytes).into()
}

#[inline(never)]
fn load32_each<S: Access>(store: &S, at: u32) -> u32
    requires { HasBytes (S.bytes store.now) at 4 }
    ensures { result ≡ load_of (S.bytes store.now) at 4 }
{
    let mut bytes = [0; 4];
    read_each(store, at, &mut bytes);
    u32::from_le_bytes(bytes)
}

#[inline(never)]
fn store_each<S: Access>(store: &mut S, at: u32, value: u32, size: usize)
    requires size { size ≤ 4 }
    requires there { HasBytes (S.bytes store.old) at size }
    ensures { S.bytes store.new ≡ with_bytes (S.bytes store.old) at size value }
{
    write_each(store, at, &value.to_le_bytes()[..size]);
}

#[inline(always)]
pub(crate) fn load8<S: Access>(store: &S, at: u32) -> u32
    requires { HasBytes (S.bytes store.now) at 1 }
    ensures { result ≡ load_of (S.bytes store.now) at 1 }
{
    store.byte(at).into()
}

#[inline(always)]
pub(crate) fn load16<S: Access>(store: &S, at: u32) -> u32
    requires { HasBytes (S.bytes store.now) at 2 }
    ensures { result ≡ load_of (S.bytes store.now) at 2 }
{
    let mut bytes = [0; 2];
    if !store.read(at, &mut bytes) {
        return load16_each(store, at);
    }
    u16::from_le_bytes(bytes).into()
}

#[inline(always)]
pub(crate) fn load32<S: Access>(store: &S, at: u32) -> u32
    requires { HasBytes (S.bytes store.now) at 4 }
    ensures { result ≡ load_of (S.bytes store.now) at 4 }
{
    let mut bytes = [0; 4];
    if !store.read(at, &mut bytes) {
        return load32_each(store, at);
    }
    u32::from_le_bytes(bytes)
}

#[inline(always)]
pub(crate) fn store8<S: Access>(store: &mut S, at: u32, value: u32)
    requires { HasBytes (S.bytes store.old) at 1 }
    ensures { S.bytes store.new ≡ with_bytes (S.bytes store.old) at 1 value }
{
    store.put(at, value.to_le_bytes()[0]);
}

#[inline(always)]
pub(crate) fn store16<S: Access>(store: &mut S, at: u32, value: u32)
    requires { HasBytes (S.bytes store.old) at 2 }
    ensures { S.bytes store.new ≡ with_bytes (S.bytes store.old) at 2 value }
{
    if !store.write(at, &value.to_le_bytes()[..2]) {
        store_each(store, at, value, 2);
    }
}

#[inline(always)]
pub(crate) fn store32<S: Access>(store: &mut S, at: u32, value: u32)
    requires { HasBytes (S.bytes store.old) at 4 }
    ensures { S.bytes store.new ≡ with_bytes (S.bytes store.old) at 4 value }
{
    if !store.write(at, &value.to_le_bytes()) {
        store_each(store, at, value, 4);
    }
}
