//! Tokens as lexemes.

ghost use Rattle.sc_parse_expr.specs.Prelude.{IsSpan, fourth_word, ident_in, import_symbol, keyword_of, mark_of};
ghost use Rattle.sc_parse_expr.specs.Prelude.{name_of};
ghost use Rattle.sc_parse_expr.specs.Prelude.{number_in, says, symbol_of, third_word, words};
ghost use Rattle.std.specs.Prelude.{◌≡◌, [], ◌∷◌, bytes_eq, get_or, Some, None, if◌then◌else◌};
ghost use Rattle.std.specs.Option.{option_map};

use crate::lexeme::Symbol;
use crate::mark::{Keyword, Mark};
use sc_ast::{Ident, Literal};
use sc_base::Name;
use sc_lex::{Token, TokenKind, first_words, heading_name, integer_of};

/// The mark that a text is.
#[tactic(auto, unfolding(crate::specs::Lexemes::mark_of))]
pub fn mark_of(text: &[u8]) -> Option<Mark>
    ensures { result ≡ mark_of text.now }
{
    match text {
        [only] => single_mark(*only),
        [first, second] => mark_pair(*first, *second),
        [b'<', b'<', b'='] => Some(Mark::LessLessEqual),
        [b'>', b'>', b'='] => Some(Mark::GreaterGreaterEqual),
        _ => None,
    }
}

#[tactic(auto, unfolding(crate::specs::Lexemes::mark_of))]
fn single_mark(only: u8) -> Option<Mark>
    ensures { result ≡ mark_of (only ∷ []) }
{
    match only {
        b'+' => Some(Mark::Plus),
        b'-' => Some(Mark::Minus),
        b'*' => Some(Mark::Star),
        b'/' => Some(Mark::Slash),
        b'%' => Some(Mark::Percent),
        b'<' => Some(Mark::Less),
        b'>' => Some(Mark::Greater),
        b'&' => Some(Mark::And),
        b'^' => Some(Mark::Caret),
        b'|' => Some(Mark::Or),
        b'!' => Some(Mark::Not),
        b'~' => Some(Mark::Tilde),
        b'=' => Some(Mark::Equal),
        b'.' => Some(Mark::Dot),
        b'(' => Some(Mark::OpenParen),
        b')' => Some(Mark::CloseParen),
        b'[' => Some(Mark::OpenSquare),
        b']' => Some(Mark::CloseSquare),
        b'{' => Some(Mark::OpenCurly),
        b'}' => Some(Mark::CloseCurly),
        b',' => Some(Mark::Comma),
        b';' => Some(Mark::Semicolon),
        _ => None,
    }
}

#[tactic(auto, unfolding(crate::specs::Lexemes::mark_of))]
fn mark_pair(first: u8, second: u8) -> Option<Mark>
    ensures { result ≡ mark_of (first ∷ second ∷ []) }
{
    match (first, second) {
        (_, b'=') => mark_before_equal(first),
        (b'<', b'<') => Some(Mark::LessLess),
        (b'>', b'>') => Some(Mark::GreaterGreater),
        (b'&', b'&') => Some(Mark::AndAnd),
        (b'|', b'|') => Some(Mark::OrOr),
        (b'+', b'+') => Some(Mark::PlusPlus),
        (b'-', b'-') => Some(Mark::MinusMinus),
        (b'-', b'>') => Some(Mark::Arrow),
        _ => None,
    }
}

// The mark of this byte and a `=`.
#[tactic(auto, unfolding(crate::specs::Lexemes::mark_of))]
fn mark_before_equal(first: u8) -> Option<Mark>
    ensures { result ≡ mark_of (first ∷ 61 ∷ []) }
{
    match first {
        b'<' => Some(Mark::LessEqual),
        b'>' => Some(Mark::GreaterEqual),
        b'=' => Some(Mark::EqualEqual),
        b'!' => Some(Mark::NotEqual),
        b'+' => Some(Mark::PlusEqual),
        b'-' => Some(Mark::MinusEqual),
        b'*' => Some(Mark::StarEqual),
        b'/' => Some(Mark::SlashEqual),
        b'%' => Some(Mark::PercentEqual),
        b'&' => Some(Mark::AndEqual),
        b'^' => Some(Mark::CaretEqual),
        b'|' => Some(Mark::OrEqual),
        _ => None,
    }
}

// The keyword where this is how it goes on after its first letter.
fn keyword_if(ending: &[u8], rest: &[u8], keyword: Keyword) -> Option<Keyword>
    ensures { result ≡ (if bytes_eq ending.now rest.now then Some keyword else None) }
{
    if ending == rest { Some(keyword) } else { None }
}

#[tactic(auto, unfolding(crate::specs::Lexemes::keyword_of))]
fn keyword_after_f(rest: &[u8]) -> Option<Keyword>
    ensures { result ≡ keyword_of (102 ∷ rest.now) }
{
    if b"or".as_slice() == rest {
        Some(Keyword::For)
    } else {
        keyword_if(b"ree", rest, Keyword::Free)
    }
}

#[tactic(auto, unfolding(crate::specs::Lexemes::keyword_of))]
fn keyword_after_i(rest: &[u8]) -> Option<Keyword>
    ensures { result ≡ keyword_of (105 ∷ rest.now) }
{
    if b"f".as_slice() == rest {
        Some(Keyword::If)
    } else {
        keyword_if(b"nt", rest, Keyword::Int)
    }
}

#[tactic(auto, unfolding(crate::specs::Lexemes::keyword_of))]
fn keyword_after_s(rest: &[u8]) -> Option<Keyword>
    ensures { result ≡ keyword_of (115 ∷ rest.now) }
{
    if b"igned".as_slice() == rest {
        Some(Keyword::Signed)
    } else if b"izeof".as_slice() == rest {
        Some(Keyword::Sizeof)
    } else {
        keyword_if(b"truct", rest, Keyword::Struct)
    }
}

/// The reserved word that a text is, of those that have a place in the grammar.
#[tactic(auto, unfolding(crate::specs::Lexemes::keyword_of))]
pub fn keyword_of(text: &[u8]) -> Option<Keyword>
    ensures { result ≡ keyword_of text.now }
{
    let [first, rest @ ..] = text else {
        return None;
    };
    match first {
        b'b' => keyword_if(b"reak", rest, Keyword::Break),
        b'c' => keyword_if(b"ontinue", rest, Keyword::Continue),
        b'e' => keyword_if(b"lse", rest, Keyword::Else),
        b'f' => keyword_after_f(rest),
        b'i' => keyword_after_i(rest),
        b'm' => keyword_if(b"alloc", rest, Keyword::Malloc),
        b'r' => keyword_if(b"eturn", rest, Keyword::Return),
        b's' => keyword_after_s(rest),
        b'u' => keyword_if(b"nsigned", rest, Keyword::Unsigned),
        b'v' => keyword_if(b"oid", rest, Keyword::Void),
        b'w' => keyword_if(b"hile", rest, Keyword::While),
        _ => None,
    }
}

/// The identifier that a text is.
pub fn ident_in(text: &[u8]) -> Option<Ident>
    ensures { result ≡ ident_in text.now }
{
    let name = Name::new(text)?;
    Ident::new(name)
}

fn number_in(text: &[u8]) -> Option<Literal>
    ensures { result ≡ number_in text.now }
{
    let constant = integer_of(text)?;
    Literal::new(constant.value, constant.unsigned)
}

fn third_word(line: &[u8]) -> Option<Name>
    ensures { result ≡ third_word line.now }
{
    Name::new(first_words(line).first)
}

fn fourth_word(line: &[u8]) -> Option<Name>
    ensures { result ≡ fourth_word line.now }
{
    Name::new(first_words(line).second)
}

fn import_of(comp: Option<Name>, name: Option<Name>) -> Option<Symbol>
    ensures { result ≡ import_symbol comp name }
{
    match (comp, name) {
        (Some(comp), Some(name)) => Some(Symbol::Import { comp, name }),
        _ => None,
    }
}

#[tactic(auto, unfolding(crate::specs::Lexemes::says))]
fn says(kind: TokenKind, text: &[u8]) -> Option<Symbol>
    ensures { result ≡ says kind text.now }
{
    match kind {
        TokenKind::Ident => Some(Symbol::Ident(ident_in(text)?)),
        TokenKind::Integer => Some(Symbol::Integer(number_in(text)?)),
        TokenKind::Mark => Some(Symbol::Mark(mark_of(text)?)),
        TokenKind::Reserved => Some(Symbol::Keyword(keyword_of(text)?)),
        TokenKind::Compartment => Some(Symbol::Compartment(heading_name(text)?)),
        TokenKind::Export => Some(Symbol::Export(third_word(text)?)),
        TokenKind::Import => import_of(third_word(text), fourth_word(text)),
    }
}

/// What a token of these bytes says.
pub fn symbol_of(bytes: &[u8], token: &Token) -> Symbol
    requires { IsSpan bytes.now token.now }
    ensures { result ≡ symbol_of bytes.now token.now }
{
    match says(token.kind, &bytes[token.start..token.end]) {
        Some(symbol) => symbol,
        None => Symbol::Keyword(Keyword::Unused),
    }
}
