use sqlite_items::Items;

/// Words of 32 bits in order, as the inputs of a run. Contracts see the list.
pub type Words = Items<u32>;
