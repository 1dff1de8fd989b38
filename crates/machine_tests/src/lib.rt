//! Images, and machines that run them. This crate has only tests.
#![tactic(auto)]

#[cfg(test)]
mod runs;
