//! The edge of a program: where its bytes come from and where they go.
//!
//! A program reads from a [`Source`] and writes to a [`Sink`]. Each states, in its contract, the bytes that it still
//! has or that it took, and how often it has failed, so that a caller can say where a failure came from. [`MemSource`]
//! and [`MemSink`] work in memory and fail at the calls that they were made to fail at; [`StdSource`] and [`StdSink`]
//! stand for the world outside and state nothing about their bytes.
#![tactic(auto)]

mod calls;
mod error;
mod mem_sink;
mod mem_source;
mod sink;
mod source;
mod standard;

pub use crate::error::Failed;
pub use crate::mem_sink::MemSink;
pub use crate::mem_source::MemSource;
pub use crate::sink::Sink;
pub use crate::source::Source;
pub use crate::standard::{StdSink, StdSource};
pub use sc_base::OutOfMemory;
