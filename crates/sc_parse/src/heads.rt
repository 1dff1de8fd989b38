//! Parameters, and the heads of functions and prototypes.

ghost use Rattle.sc_parse.specs.Prelude.{Agrees, adds, all_separated, begins_call, begins_head, head_at, is_void};
ghost use Rattle.sc_parse.specs.Prelude.{keyword_at};
ghost use Rattle.sc_parse.specs.Prelude.{name_at, param_at, params_at, params_in_parens, past_base, past_stars};
ghost use Rattle.sc_parse.specs.Prelude.{result_at};
ghost use Rattle.sc_parse.specs.Prelude.{star_count};
ghost use Rattle.std.specs.Prelude.{◌≡◌, ℕ, ◌+◌, List, [], length, drop, true, false, None, Some};

use crate::lookahead::{begins_call, is_void, skip};
use sc_ast::{HeadTree, Ident, ParamTree, ParamTrees, TypeName};
use sc_parse_expr::{
    Keyword, Lexemes, Mark, SyntaxFault, name_at, refused, skip_int, take, take_stars, type_name_at,
};
use sqlite_items::Items;
use std::alloc::Global;

// The name of a parameter, if one stands there.
fn maybe_name(rest: &mut Lexemes<'_>) -> Option<Ident>
    ensures some { (name : List ℕ) → result ≡ Some name → name_at rest.old ≡ Some (name, rest.new) }
    ensures none { result ≡ None → name_at rest.old ≡ None }
    ensures same { result ≡ None → rest.new ≡ rest.old }
{
    let name = rest.ident()?;
    rest.advance();
    Some(name)
}

// One more parameter: its type, and its name if one stands there.
#[tactic(auto, unfolding(crate::specs::Readers::adds, crate::specs::Readers::param_at))]
fn with_param(mut params: ParamTrees, rest: &mut Lexemes<'_>) -> Result<ParamTrees, SyntaxFault>
    ensures { Agrees (λ x. (x, rest.new)) result (adds param_at params rest.old) }
{
    let TypeName { base, stars } = type_name_at(rest)?;
    let name = maybe_name(rest);
    let ty = TypeName { base, stars };
    params.push(ParamTree { ty, name })?;
    Ok(params)
}

#[tactic(auto, using(crate::proofs::Steps::turns))]
fn all_params(alloc: Global, rest: &mut Lexemes<'_>) -> Result<ParamTrees, SyntaxFault>
    ensures { Agrees (λ x. (x, rest.new)) result (all_separated (adds param_at) [] rest.old) }
{
    let mut params = Items::new(alloc);
    for _ in 0..rest.len() + 1 {
        params = with_param(params, rest)?;
        if !skip(Mark::Comma, rest) {
            return Ok(params);
        }
    }
    Err(refused(rest))
}

// Goes past `void`, if the lexemes begin with it.
fn skip_void(rest: &mut Lexemes<'_>) -> bool
    ensures value { result ≡ is_void (keyword_at rest.old) }
    ensures found { result ≡ true → rest.new ≡ drop 1 rest.old }
    ensures same { result ≡ false → rest.new ≡ rest.old }
{
    let found = is_void(rest.keyword());
    if found {
        rest.advance();
    }
    found
}

#[tactic(auto, unfolding(crate::specs::Readers::params_at))]
fn params_at(alloc: Global, rest: &mut Lexemes<'_>) -> Result<ParamTrees, SyntaxFault>
    ensures { Agrees (λ x. (x, rest.new)) result (params_at rest.old) }
{
    if skip_void(rest) {
        Ok(Items::new(alloc))
    } else {
        all_params(alloc, rest)
    }
}

#[tactic(auto, unfolding(crate::specs::Readers::result_at))]
fn result_at(rest: &mut Lexemes<'_>) -> Result<Option<TypeName>, SyntaxFault>
    ensures { Agrees (λ x. (x, rest.new)) result (result_at rest.old) }
{
    if skip_void(rest) {
        Ok(None)
    } else {
        Ok(Some(type_name_at(rest)?))
    }
}

fn params_in_parens(alloc: Global, rest: &mut Lexemes<'_>) -> Result<ParamTrees, SyntaxFault>
    ensures { Agrees (λ x. (x, rest.new)) result (params_in_parens rest.old) }
{
    take(Mark::OpenParen, rest)?;
    let params = params_at(alloc, rest)?;
    take(Mark::CloseParen, rest)?;
    Ok(params)
}

/// The head of a function or a prototype.
#[tactic(auto, unfolding(crate::specs::Readers::head_at))]
pub fn head_at(alloc: Global, rest: &mut Lexemes<'_>) -> Result<HeadTree, SyntaxFault>
    ensures { Agrees (λ x. (x, rest.new)) result (head_at rest.old) }
{
    let line = rest.line();
    let result = result_at(rest)?;
    let name = name_at(rest)?;
    let params = params_in_parens(alloc, rest)?;
    Ok(HeadTree {
        result,
        name,
        params,
        line,
    })
}

fn skip_base(rest: &mut Lexemes<'_>)
    ensures { rest.new ≡ past_base rest.old }
{
    let word = rest.keyword();
    rest.advance();
    match word {
        Some(Keyword::Signed) => skip_int(rest),
        Some(Keyword::Unsigned) => skip_int(rest),
        Some(Keyword::Struct) => rest.advance(),
        _ => {}
    }
}

// Whether a call begins after a base and any `*`.
fn calls_past_base(rest: &Lexemes<'_>) -> bool
    ensures { result ≡ begins_call (past_stars (past_base rest.now)) }
{
    let mut rest = rest.again();
    skip_base(&mut rest);
    take_stars(&mut rest);
    begins_call(&rest)
}

/// Whether the lexemes begin with the head of a function or a prototype.
#[tactic(auto, unfolding(crate::specs::Readers::begins_head))]
pub fn begins_head(rest: &Lexemes<'_>) -> bool
    ensures { result ≡ begins_head rest.now }
{
    is_void(rest.keyword()) || calls_past_base(rest)
}
