//! What a list of lexemes begins with.
//!
//! A parser takes the lexemes that are left by `&mut`, and leaves those after what it read.

ghost use Rattle.sc_parse.specs.Prelude.{Agrees, after_inner_comma, begins_call, ended_by};
ghost use Rattle.sc_parse.specs.Prelude.{following, integer_by, is_base, is_else, is_void};
ghost use Rattle.std.specs.Prelude.{◌≡◌, IsSome, true, false, Some, None};

use sc_ast::Literal;
use sc_parse_expr::{Keyword, Lexemes, Mark, Symbol, SyntaxFault, begins_with, take};

/// Whether the lexemes begin with an identifier and `(`.
pub fn begins_call(rest: &Lexemes<'_>) -> bool
    ensures { result ≡ begins_call rest.now }
{
    rest.begins_ident() && begins_with(Mark::OpenParen, &rest.past())
}

/// Goes past a mark, if the lexemes begin with it.
pub fn skip(mark: Mark, rest: &mut Lexemes<'_>) -> bool
    ensures found { result ≡ true → following mark rest.old ≡ Some rest.new }
    ensures none { result ≡ false → following mark rest.old ≡ None }
    ensures same { result ≡ false → rest.new ≡ rest.old }
{
    if begins_with(mark, rest) {
        rest.advance();
        true
    } else {
        false
    }
}

/// Goes past a comma at the start, if there is one and no `}` after it.
pub fn skip_inner_comma(rest: &mut Lexemes<'_>) -> bool
    ensures found { result ≡ true → after_inner_comma rest.old ≡ Some rest.new }
    ensures none { result ≡ false → after_inner_comma rest.old ≡ None }
    ensures same { result ≡ false → rest.new ≡ rest.old }
{
    if begins_with(Mark::CloseCurly, &rest.past()) {
        false
    } else {
        skip(Mark::Comma, rest)
    }
}

/// A value that was read, where this mark follows it. Goes past the mark.
pub fn ended_by<T: Drop>(mark: Mark, value: T, rest: &mut Lexemes<'_>) -> Result<T, SyntaxFault>
    ensures { Agrees (λ x. (x, rest.new)) result (ended_by mark value rest.old) }
{
    take(mark, rest)?;
    Ok(value)
}

/// Whether the word is `void`.
pub fn is_void(word: Option<Keyword>) -> bool
    ensures value { result ≡ is_void word }
    ensures some { result ≡ true → IsSome word }
{
    matches!(word, Some(Keyword::Void))
}

/// Whether the word is `else`.
pub fn is_else(word: Option<Keyword>) -> bool
    ensures value { result ≡ is_else word }
    ensures some { result ≡ true → IsSome word }
{
    matches!(word, Some(Keyword::Else))
}

/// Whether a declaration of variables begins with the word.
pub fn is_base(word: Option<Keyword>) -> bool
    ensures { result ≡ is_base word }
{
    match word {
        Some(Keyword::Int) => true,
        Some(Keyword::Signed) => true,
        Some(Keyword::Unsigned) => true,
        Some(Keyword::Struct) => true,
        _ => false,
    }
}

/// The integer that a symbol is.
pub fn integer_by(symbol: &Symbol) -> Option<Literal>
    ensures { result ≡ integer_by symbol.now }
{
    match symbol {
        Symbol::Integer(literal) => Some(*literal),
        _ => None,
    }
}
