//! What every layer shares: names and texts, operators and their levels, limits, words, how a machine stops, and
//! lemmas on lists that std lacks.
#![tactic(auto)]

mod first_by_name;
mod limits;
mod name;
mod name_list;
mod name_table;
mod op;
mod out_of_memory;
mod reserved;
mod stop;
mod text;
mod words;

pub use first_by_name::FirstByName;
pub use limits::{MAX_BRACKETS, MAX_HEIGHT};
pub use name::{Name, is_name};
pub use name_list::NameList;
pub use name_table::NameTable;
pub use op::{BinaryOp, LOOSEST, POSTFIX, UNARY, UnaryOp, level_of};
pub use out_of_memory::OutOfMemory;
pub use reserved::is_reserved;
pub use stop::{Stop, TrapReason};
pub use text::Text;
pub use words::Words;
