//! The program `secomp` as one function: from words and bytes to a status and bytes.
#![tactic(auto)]

mod account;
mod chain;
mod command;
mod exec;
mod failure;
mod input;
mod judge;
mod laws;
mod link;
mod machine;
mod make;
mod object;
mod output;
mod printing;
mod status;
mod tags;
mod text;
mod top;

pub use laws::{
    accounts_run_as_exec, compiled_images_are_explained, compiled_images_are_judged,
    compiled_images_run, executions_are_apart, explained_are_tagged, images_are_within,
    judgments_run_as_exec, linked_images_are_explained, linking_is_compiling, one_answer,
    one_output, same_texts_fit, sections_are_apart, tags_run_as_exec,
};
pub use printing::print;
pub use status::{BadJoin, Status, TooLarge};
pub use top::secomp;
