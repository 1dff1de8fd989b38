//! The frames of functions: where the return address, the slots of temporaries and the objects of variables lie.
#![tactic(auto)]

mod bound;
mod frame;

pub use bound::fits;
pub use frame::lay;
