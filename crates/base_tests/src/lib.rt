//! Names, events, blocks, zones, pages and stores, sources and sinks, and words and instructions, as one sees them from
//! outside. This crate has only tests.
#![tactic(auto)]

#[cfg(test)]
mod blocks;
#[cfg(test)]
mod edge;
#[cfg(test)]
mod event;
#[cfg(test)]
mod names;
#[cfg(test)]
mod pages;
#[cfg(test)]
mod policies;
#[cfg(test)]
mod words;
#[cfg(test)]
mod zone;
