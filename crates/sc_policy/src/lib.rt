//! Policies over traces: small automata whose rules say which events lead from state to state, and which are
//! violations.
#![tactic(auto)]

mod fault;
mod index;
mod laws;
mod names;
mod patterns;
mod policy;
mod progress;
mod read;
mod rules;
mod words;

pub use fault::PolicyFault;
pub use laws::{one_policy, policy_or_bad};
pub use names::Names;
pub use policy::{ArgTest, Compare, Pattern, Policy, Rule, Test, Who};
pub use read::{PolicyRead, read_policy};
pub use rules::Rules;
