//! The texts that list interfaces, report runs, explanations and verdicts, and those of made programs: what the
//! commands write.
#![tactic(auto)]

mod chain;
mod interface;
mod make;
mod run;
mod summary;
mod verdict;

pub use chain::{append_trapped, explain_text};
pub use interface::check_text;
pub use make::make_text;
pub use run::{meaning_text, run_text};
pub use summary::summary_text;
pub use verdict::append_verdict;
