//! What a typed section follows from: its own bytes, and the interfaces.
#![tactic(auto)]

mod laws;

pub use laws::sections_are_typed_alone;
