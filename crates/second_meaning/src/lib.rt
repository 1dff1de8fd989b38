//! What programs mean where some compartments only perform their part of a trace, implemented a second time and in
//! another way, for the crates that have only tests: by recursion, over one memory, with the place in a part counted
//! anew at each action.
#![tactic(auto)]

mod calls;
mod expressions;
mod memory;
mod pointers;
mod run;
mod script;
mod set;
mod task;
mod words;
mod zeros;

pub use set::CompSet;
pub use task::{Task, run_task};
