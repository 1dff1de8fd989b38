ghost use Rattle.sc_tags.specs.Prelude.{IsWithinAddresses};
ghost use Rattle.std.specs.Prelude.{IsTrue, ◌↔◌};

use sc_event::CompId;

/// What a byte of memory is tagged as.
#[derive(Clone, Copy, Debug, PartialEq, Eq)]
pub enum ByteTag {
    /// Code of a compartment: it may execute the byte, and nobody may load it or store to it.
    Code(CompId),
    /// Data of a compartment: it may load the byte and store to it, and nobody may execute it.
    Data(CompId),
    /// Nobody's.
    Unowned,
}

/// Addresses whose bytes get another tag, where they have an owner.
#[derive(Clone, Copy, Debug, PartialEq, Eq)]
pub struct TagRange {
    pub start: u32,
    pub bytes: u32,
    pub tag: ByteTag,
}

impl TagRange {
    /// Whether it has no more bytes than there are addresses from its start on.
    pub fn is_within(&self) -> bool
        ensures { IsTrue result ↔ IsWithinAddresses self.now }
    {
        u64::from(self.start) + u64::from(self.bytes) <= 1 << 32
    }
}
