//! From bytes to trees and back, and texts that are accepted or refused. This crate has only tests.
#![tactic(auto)]

#[cfg(test)]
mod again;
#[cfg(test)]
mod syntax;
#[cfg(test)]
mod trees;
