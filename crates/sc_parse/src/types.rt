//! Declarators.

ghost use Rattle.sc_parse.specs.Prelude.{Agrees, bracketed_length, declarator_at, elements_at, length_at};
ghost use Rattle.std.specs.Prelude.{◌≡◌, length};

use crate::lookahead::{integer_by, skip};
use sc_ast::{ArrayLength, Ident};
use sc_parse_expr::{Lexemes, Mark, SyntaxFault, name_at, refused, take, take_stars};

fn elements_at(rest: &mut Lexemes<'_>) -> Result<ArrayLength, SyntaxFault>
    ensures { Agrees (λ x. (x, rest.new)) result (elements_at rest.old) }
{
    let Some(first) = rest.first() else {
        return Err(refused(rest));
    };
    let Some(literal) = integer_by(&first.symbol) else {
        return Err(refused(rest));
    };
    match ArrayLength::new(literal.value()) {
        Some(elements) => {
            rest.advance();
            Ok(elements)
        }
        None => Err(refused(rest)),
    }
}

fn bracketed_length(rest: &mut Lexemes<'_>) -> Result<Option<ArrayLength>, SyntaxFault>
    ensures { Agrees (λ x. (x, rest.new)) result (bracketed_length rest.old) }
{
    let elements = elements_at(rest)?;
    take(Mark::CloseSquare, rest)?;
    Ok(Some(elements))
}

#[tactic(auto, unfolding(crate::specs::Readers::length_at))]
fn length_at(rest: &mut Lexemes<'_>) -> Result<Option<ArrayLength>, SyntaxFault>
    ensures { Agrees (λ x. (x, rest.new)) result (length_at rest.old) }
{
    if skip(Mark::OpenSquare, rest) {
        bracketed_length(rest)
    } else {
        Ok(None)
    }
}

/// `*` `stars` times, a name, and the length of an array in brackets.
#[derive(Clone, Copy)]
pub struct Declarator {
    pub stars: u64,
    pub name: Ident,
    pub length: Option<ArrayLength>,
}

/// A declarator, after its base.
#[tactic(auto, unfolding(crate::specs::Readers::declarator_at))]
pub fn declarator_at(rest: &mut Lexemes<'_>) -> Result<Declarator, SyntaxFault>
    ensures { Agrees (λ x. (x, rest.new)) result (declarator_at rest.old) }
{
    let stars = take_stars(rest);
    let name = name_at(rest)?;
    let length = length_at(rest)?;
    Ok(Declarator {
        stars,
        name,
        length,
    })
}
