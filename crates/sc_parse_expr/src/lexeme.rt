use crate::mark::{Keyword, Mark};
use sc_ast::{Ident, Literal};
use sc_base::Name;

/// What a token says.
#[derive(Clone, Copy)]
pub enum Symbol {
    /// An identifier that is no reserved word.
    Ident(Ident),
    /// An integer constant.
    Integer(Literal),
    /// An operator or a punctuator.
    Mark(Mark),
    /// A reserved word.
    Keyword(Keyword),
    /// `#pragma compartment C`
    Compartment(Name),
    /// `#pragma export F`
    Export(Name),
    /// `#pragma import C F`
    Import { comp: Name, name: Name },
}

/// A token as the grammar sees it: what it says, and its line, counted in its section.
#[derive(Clone, Copy)]
pub struct Lexeme {
    pub symbol: Symbol,
    pub line: u32,
}
