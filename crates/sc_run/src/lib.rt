//! Runs programs as their source meaning says, with a stack of its own.
#![tactic(auto)]

mod calls;
mod globals;
mod heap;
mod inside;
mod leaves;
mod lookups;
mod machine;
mod plain;
mod planned;
mod rounds;
mod run;
mod simple;
mod state;
mod steps;
mod taken;
mod work;

pub use run::run_source;
