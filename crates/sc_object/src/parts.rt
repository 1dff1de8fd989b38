use sc_base::{Name, Text, Words};
use sc_event::CompId;
use sc_fields::ImportParts;
use sqlite_items::Items;

/// The compartments as objects know them, in the order of their numbers. Contracts see the list.
pub type Faces = Items<Face>;

/// The functions that a compartment offers, in the order of their indexes. Contracts see the list.
pub type FaceExports = Items<FaceExport>;

/// What an object is made of: the code and the globals of one compartment, and the faces of all.
#[derive(Drop)]
pub struct ObjectParts {
    /// The compartment that the run starts in.
    pub main: CompId,
    /// The compartment whose object it is.
    pub own: CompId,
    pub faces: Faces,
    /// Whether the compartment has a heap.
    pub heap: bool,
    /// Its instructions, one word each.
    pub code: Words,
    /// In the main compartment how many bytes of code stand before `main`, else 0.
    pub main_at: u32,
    /// The bytes that its globals hold at the start.
    pub globals: Text,
}

/// A compartment as the others see it.
#[derive(Drop)]
pub struct Face {
    pub name: Name,
    /// Whether it may read inputs.
    pub input: bool,
    /// Whether it may output.
    pub output: bool,
    pub exports: FaceExports,
    pub imports: ImportParts,
}

/// A function that a compartment offers to the others.
#[derive(Clone, Copy)]
pub struct FaceExport {
    pub name: Name,
    /// How many words it takes, 0 to 8.
    pub params: u8,
    /// Whether it gives a word back.
    pub result: bool,
}
