//! Which temporaries of three-address code are live where, and from which point to which each is used.
#![tactic(auto)]

mod function;
mod live;
mod marks;
mod walk;

pub use function::intervals;
