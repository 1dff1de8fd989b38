//! Parsing a section: its lexemes to its tree.
//!
//! The grammar of declarators, statements, declarations and sections is a relation between lists of lexemes and the
//! trees of `sc_ast`, over that of types and expressions in `sc_parse_expr`.
#![tactic(auto)]

mod brackets;
mod calls;
mod copy;
mod functions;
mod globals;
mod heads;
mod heap;
mod lookahead;
mod members;
mod reading;
mod says;
mod section;
mod simple;
mod stmts;
mod types;

pub use reading::parse;
pub use says::tokens_say;
pub use section::one_section;

// Why a section was not parsed.
pub use sc_lex::TextFault as ParseFault;
