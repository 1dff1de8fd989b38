//! The command line of `secomp`: its words as a [`Command`], exactly by a definition on lists of words.
//!
//! | command | options |
//! |---|---|
//! | `check` | none |
//! | `meaning` | `--turns N`, `--events M`, `--in LIST` |
//! | `compile`, `link` | none |
//! | `object` | `--section C` |
//! | `run`, `exec` | `--steps N`, `--events M`, `--in LIST` |
//! | `tags` | `--steps N`, `--events M`, `--in LIST`, `--data START,BYTES,C` |
//! | `explain` | `--steps N`, `--events M`, `--in LIST`, `--show K`, `--image`, `--trapped` |
//! | `judge` | `--steps N`, `--events M`, `--in LIST`, `--image`, `--trapped` |
//! | `make` | `--size K`, `--seed N`, `--summary` |
//!
//! The first word is the command. An option is written `--name value` or `--name=value`, in any order, and at most
//! once. A value in a word of its own doesn't begin with a hyphen. `--image`, `--trapped` and `--summary` are flags,
//! which have no value. `make` needs its other two, and `object` its one.
//! Every other word makes the words no command, also `--`, `-h`, `--help`, `help` and an abbreviation.
//!
//! | value | what it may be | where the option isn't given |
//! |---|---|---|
//! | N of `--steps` and `--turns` | 0 to 16,777,216 | 1,000,000 |
//! | M of `--events` | 0 to 4,096 | 1,024 |
//! | LIST of `--in` | 1 to 65,536 integers from -2147483648 to 2147483647 with single commas between them | no integers
//! |
//! | START,BYTES,C of `--data` | 0 to 4,294,967,295, the first two at most 4,294,967,296 together; 0 to 31 | none |
//! | K of `--show` | 0 to 32 | none |
//! | K of `--size` | 1 to 1,000 | |
//! | N of `--seed` | 0 to 4,294,967,295 | |
//! | C of `--section` | an identifier other than `Env` | |
//!
//! A number is one decimal digit or more, with no sign but the `-` of an integer. A list that begins with `-` is
//! written `--in=-5,3`.
#![tactic(auto)]

mod application;
mod command;
mod fault;
mod numbers;
mod ranges;
mod read;
mod usage_text;
mod values;

pub use command::{
    Command, DataRange, ExplainOptions, JudgeOptions, MakeOptions, MeaningOptions, ObjectOptions,
    RunOptions,
};
pub use fault::WordsFault;
pub use read::read_command;
pub use usage_text::usage;
