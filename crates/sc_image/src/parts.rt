use sc_base::{Name, Text, Words};
use sc_event::CompId;
use sc_fields::ImportParts;
use sqlite_items::Items;

/// The compartments of an image, in the order of their numbers. Contracts see the list.
pub type CompParts = Items<CompPart>;

/// The functions that a compartment offers, in the order of their indexes. Contracts see the list.
pub type ExportParts = Items<ExportPart>;

/// What an image is made of.
#[derive(Drop)]
pub struct ImageParts {
    /// The compartment that the run starts in.
    pub main: CompId,
    /// The address of the first instruction.
    pub entry: u32,
    pub comps: CompParts,
}

/// A compartment of an image.
#[derive(Drop)]
pub struct CompPart {
    pub name: Name,
    /// Whether it may read inputs.
    pub input: bool,
    /// Whether it may output.
    pub output: bool,
    /// Whether it has a heap, and so a zone.
    pub heap: bool,
    pub exports: ExportParts,
    pub imports: ImportParts,
    /// Its instructions, one word each.
    pub code: Words,
    /// The bytes that its globals hold at the start.
    pub globals: Text,
}

/// A function that a compartment offers to the others.
#[derive(Clone, Copy)]
pub struct ExportPart {
    pub name: Name,
    /// How many words it takes, 0 to 8.
    pub params: u8,
    /// Whether it gives a word back.
    pub result: bool,
    /// The address of its first instruction.
    pub entry: u32,
}
