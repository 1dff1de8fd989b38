//! Three-address code, what a compartment does in a trace, and where the values of functions lie. This crate has only
//! tests.
#![tactic(auto)]

#[cfg(test)]
mod code;
#[cfg(test)]
mod parts;
#[cfg(test)]
mod places;
