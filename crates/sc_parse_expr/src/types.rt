//! Types that are no arrays.
//!
//! A parser takes the lexemes that are left by `&mut`, and leaves those after what it read.

ghost use Rattle.sc_parse_expr.specs.Prelude.{Agrees, base_at, base_by, name_at, past_int};
ghost use Rattle.sc_parse_expr.specs.Prelude.{star_count, type_in_parens, type_name_at};
ghost use Rattle.std.specs.Prelude.{◌≡◌, drop};

use crate::fault::SyntaxFault;
use crate::lexemes::{Lexemes, begins_with, refused, refused_before, take};
use crate::mark::{Keyword, Mark};
use sc_ast::{BaseTree, Ident, TypeName};

/// Goes past an `int` that may come first.
pub fn skip_int(rest: &mut Lexemes<'_>)
    ensures { rest.new ≡ past_int rest.old }
{
    if let Some(Keyword::Int) = rest.keyword() {
        rest.advance();
    }
}

/// The identifier at the start.
pub fn name_at(rest: &mut Lexemes<'_>) -> Result<Ident, SyntaxFault>
    ensures { Agrees (λ x. (x, rest.new)) result (name_at rest.old) }
{
    match rest.ident() {
        Some(name) => {
            rest.advance();
            Ok(name)
        }
        None => Err(refused(rest)),
    }
}

/// How many `*` are at the start. Goes past them.
#[tactic(auto, using(crate::proofs::Steps::stars))]
pub fn take_stars(rest: &mut Lexemes<'_>) -> u64
    ensures count { result ≡ star_count rest.old }
    ensures past { rest.new ≡ drop (star_count rest.old) rest.old }
{
    let mut count = 0;
    for _ in 0..rest.len() {
        if !begins_with(Mark::Star, rest) {
            return count;
        }
        rest.advance();
        count += 1;
    }
    count
}

// The base that a reserved word begins, where these lexemes follow it. A word that begins none is refused itself.
fn base_by(word: Option<Keyword>, rest: &mut Lexemes<'_>) -> Result<BaseTree, SyntaxFault>
    ensures { Agrees (λ x. (x, rest.new)) result (base_by word rest.old) }
{
    match word {
        Some(Keyword::Int) => Ok(BaseTree::Int),
        Some(Keyword::Signed) => {
            skip_int(rest);
            Ok(BaseTree::Int)
        }
        Some(Keyword::Unsigned) => {
            skip_int(rest);
            Ok(BaseTree::Unsigned)
        }
        Some(Keyword::Struct) => Ok(BaseTree::Struct(name_at(rest)?)),
        _ => Err(refused_before(rest)),
    }
}

/// What a declaration begins with.
#[tactic(auto, unfolding(crate::specs::TypeReaders::base_at))]
pub fn base_at(rest: &mut Lexemes<'_>) -> Result<BaseTree, SyntaxFault>
    ensures { Agrees (λ x. (x, rest.new)) result (base_at rest.old) }
{
    let word = rest.keyword();
    if word.is_none() {
        return Err(refused(rest));
    }
    rest.advance();
    base_by(word, rest)
}

/// A type that is no array.
#[tactic(auto, unfolding(crate::specs::TypeReaders::type_name_at))]
pub fn type_name_at(rest: &mut Lexemes<'_>) -> Result<TypeName, SyntaxFault>
    ensures { Agrees (λ x. (x, rest.new)) result (type_name_at rest.old) }
{
    let base = base_at(rest)?;
    let stars = take_stars(rest);
    Ok(TypeName { base, stars })
}

/// A type in parentheses.
#[tactic(auto, unfolding(crate::specs::TypeReaders::type_in_parens))]
pub fn type_in_parens(rest: &mut Lexemes<'_>) -> Result<TypeName, SyntaxFault>
    ensures { Agrees (λ x. (x, rest.new)) result (type_in_parens rest.old) }
{
    take(Mark::OpenParen, rest)?;
    let ty = type_name_at(rest)?;
    take(Mark::CloseParen, rest)?;
    Ok(ty)
}
