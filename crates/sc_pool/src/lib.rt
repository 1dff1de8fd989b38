//! Pages of 4,096 bytes under typed numbers.
//!
//! A [`Pool`] is seen as what each page that is out has, by its number, and as the spare: how many more pages it gives
//! with no memory taken. Only reserving takes memory.
#![tactic(auto)]

mod pool;

pub use crate::pool::{PAGE_BYTES, Page, PageId, Pool};
pub use sc_base::OutOfMemory;
