//! The machine as proofs about code see it: registers as a function of their numbers, words of memory, and instructions
//! at an address. Its lemmas say what one instruction does there.
#![tactic(auto)]

mod laws;

pub use laws::{code_is_fetched, words_are_kept};
