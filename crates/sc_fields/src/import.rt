use sc_event::CompId;
use sqlite_items::Items;

/// The functions of others that a compartment may call. Contracts see the list.
pub type ImportParts = Items<ImportPart>;

/// A function that a compartment may call: the export of that index of that compartment.
#[derive(Clone, Copy, Debug, PartialEq, Eq)]
pub struct ImportPart {
    pub comp: CompId,
    pub index: u16,
}
