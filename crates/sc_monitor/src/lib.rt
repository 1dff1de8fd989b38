//! Judging traces by policies: the first violation, and whether the compartment that commits it was compromised.
#![tactic(auto)]

mod judging;
mod laws;
mod matching;
mod verdict;

pub use judging::judge;
pub use laws::{first_violations, no_links, trace_and_links, unnamed_events};
pub use verdict::Verdict;
