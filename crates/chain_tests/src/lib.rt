//! Explanations of generated programs, looked at from outside. This crate has only tests.
#![tactic(auto)]

#[cfg(test)]
mod chains;
#[cfg(test)]
mod given;
#[cfg(test)]
mod meant;
#[cfg(test)]
mod sets;
#[cfg(test)]
mod trapped;
