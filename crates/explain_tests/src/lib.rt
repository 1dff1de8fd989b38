//! Explanations, and texts in which compartments perform, by runs of the whole program in memory. This crate has only
//! tests.
#![tactic(auto)]

#[cfg(test)]
mod drawn;
#[cfg(test)]
mod explain;
#[cfg(test)]
mod lines;
#[cfg(test)]
mod performing;
#[cfg(test)]
mod traces;
