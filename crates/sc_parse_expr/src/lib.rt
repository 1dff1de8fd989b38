//! Expressions, and the types that `sizeof` takes: tokens with what they say, the grammar, and its parser.
//!
//! A lexeme is a token with what its text says, so that the grammar speaks of no bytes. The grammar is a relation
//! between lists of lexemes and the trees of `sc_ast`.
#![tactic(auto)]

mod fault;
mod lexeme;
mod lexemes;
mod mark;
mod operator;
mod parser;
mod reading;
mod types;

pub use fault::SyntaxFault;
pub use lexeme::{Lexeme, Symbol};
pub use lexemes::{Lexemes, begins_with, refused, refused_before, take};
pub use mark::{Keyword, Mark};
pub use operator::{Extension, Prefix};
pub use parser::{Built, one_expr, one_parse, parse_expr, parse_level, parse_unary};
pub use types::{base_at, name_at, skip_int, take_stars, type_name_at};
