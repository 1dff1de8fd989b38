//! The machine code of three-address code, run by the machine over places that the tests choose. Its events are
//! written by hand, and for operators computed. And objects of sections, their bytes, and images linked from them. This
//! crate has only tests.
#![tactic(auto)]

#[cfg(test)]
mod arithmetic;
#[cfg(test)]
mod images;
#[cfg(test)]
mod linking;
#[cfg(test)]
mod object_causes;
#[cfg(test)]
mod object_links;
#[cfg(test)]
mod object_sections;
#[cfg(test)]
mod operators;
#[cfg(test)]
mod placing;
#[cfg(test)]
mod programs;
#[cfg(test)]
mod runs;
