//! The program as one sees it from outside: its words, its reports, and runs of it in memory. This crate has only
//! tests.
#![tactic(auto)]

#[cfg(test)]
mod command_line;
#[cfg(test)]
mod commands;
#[cfg(test)]
mod examples;
#[cfg(test)]
mod made;
#[cfg(test)]
mod report;
