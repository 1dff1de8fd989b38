//! Owned memory: bytes at addresses of 32 bits, in regions.
//!
//! A [`Store`] is seen as a map from addresses to bytes. Its regions say which addresses have a byte; every other
//! address has none. Words of one, two and four bytes are read and written with the least significant byte first.
//! [`FlatStore`] keeps one vector per region, and [`PagedStore`] pages of a pool.
#![tactic(auto)]

mod access;
mod area;
mod cells;
mod flat;
mod laws;
mod paged;
mod part;
mod region;
mod store;

pub use crate::flat::FlatStore;
pub use crate::laws::{gives_stored, keeps_addresses, keeps_apart};
pub use crate::paged::PagedStore;
pub use crate::region::Region;
pub use crate::store::Store;
pub use sc_base::OutOfMemory;
