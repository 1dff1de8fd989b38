//! Replay: texts that perform parts of a trace mean what the compartments do that perform them.
#![tactic(auto)]

mod laws;

pub use laws::texts_perform;
