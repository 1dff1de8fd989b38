//! From a text to the trees of its sections: the text is split, its parts are cut into tokens, and the tokens of each
//! section are parsed.
#![tactic(auto)]

mod laws;
mod reading;

pub use laws::{one_phase, one_reading, read_or_fails, read_or_refused};
pub use reading::{Trees, read_trees};
pub use sc_lex::TextFault;
