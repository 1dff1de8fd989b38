//! A machine that protects memory by tags on bytes, and calls by levels and capabilities. Without ranges that give
//! other tags it makes the same runs as the machine with regions.
#![tactic(auto)]

mod access;
mod execute;
mod jump;
mod laws;
mod machine;
mod memory;
mod owner;
mod tag;
mod tags;

pub use laws::{capabilities_are_linear, tag_traces_are_known, tags_agree};
pub use machine::{TagLoadFault, TagMachine};
pub use tag::{ByteTag, TagRange};
