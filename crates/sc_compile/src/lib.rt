//! The compiler: from a program to the image that the machine runs.
#![tactic(auto)]

mod fault;
mod globals;
mod laws;
mod passes;
mod sizes;

pub use fault::CompileFault;
pub use laws::{finds_origin, images_are_apart, parts_are_separate};
pub use passes::compile;
