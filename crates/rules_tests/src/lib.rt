//! Texts that are accepted or refused by the rules of names, types, interfaces and numbers, with the line of each
//! refusal. This crate has only tests.
#![tactic(auto)]

#[cfg(test)]
mod count;
#[cfg(test)]
mod interface;
#[cfg(test)]
mod names;
#[cfg(test)]
mod parts;
#[cfg(test)]
mod results;
#[cfg(test)]
mod types;
