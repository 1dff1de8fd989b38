//! The rules of interfaces, and the interfaces of the texts that keep them.
#![tactic(auto)]

mod agreements;
mod building;
mod decls;
mod exports;
mod heads;
mod imports;
mod names;
mod phase;
mod tables;

pub use building::interfaces;
pub use phase::broken_interface;
