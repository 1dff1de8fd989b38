//! The texts of a chain: those in which the sections of some compartments perform their parts of a trace, and the chain
//! of them that accounts for a run of the machine.
#![tactic(auto)]

mod account;
mod composed;
mod fault;
mod laws;
mod replacing;

pub use account::{explain, explain_image};
pub use composed::{Replacement, recompose};
pub use fault::{ExplainFault, ImageFault};
pub use laws::{own_images_are_explained, robust_safety};
pub use replacing::{recomposed_text, replaced};
