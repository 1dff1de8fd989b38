//! Only laws: the texts that are made from a size and a seed are programs, and small ones.
#![tactic(auto)]

mod laws;

pub use laws::made_texts_are_accepted;
