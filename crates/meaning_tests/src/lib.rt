//! What the machine emits on compiled programs, beside what the source gives where some compartments only perform their
//! part of it. The source's side is `second_meaning`'s. This crate has only tests.
#![tactic(auto)]

#[cfg(test)]
mod again;
#[cfg(test)]
mod emitted;
