//! The heap of a compartment: a zone of 65,536 words, from which blocks are taken and to which they are given back.
#![tactic(auto)]

mod gaps;
mod span;
mod table;
mod zone;

pub use span::Span;
pub use zone::{ZONE_WORDS, Zone};
