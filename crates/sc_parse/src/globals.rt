//! Globals and what they begin with.

ghost use Rattle.sc_parse.specs.Prelude.{Agrees, add_global, adds, after_inner_comma, all_consts, all_separated};
ghost use Rattle.sc_parse.specs.Prelude.{const_at, consts_at, declaration_at, global_at, init_at, initialiser_at};
ghost use Rattle.sc_parse.specs.Prelude.{literal_at, one_at, past_comma, separated};
ghost use Rattle.std.specs.Prelude.{◌≡◌, ◌≤◌, ◌+◌, [], length};

use crate::lookahead::{integer_by, skip, skip_inner_comma};
use crate::types::{Declarator, declarator_at};
use sc_ast::{BaseTree, ConstTree, Decl, Decls, GlobalTree, InitTree, NonEmpty, TypeTree};
use sc_parse_expr::{Lexemes, Mark, SyntaxFault, base_at, refused, take};
use sqlite_items::Items;
use std::alloc::Global;

fn literal_at(negative: bool, rest: &mut Lexemes<'_>) -> Result<ConstTree, SyntaxFault>
    ensures { Agrees (λ x. (x, rest.new)) result (literal_at negative rest.old) }
{
    let Some(first) = rest.first() else {
        return Err(refused(rest));
    };
    match integer_by(&first.symbol) {
        Some(literal) => {
            rest.advance();
            Ok(ConstTree { negative, literal })
        }
        None => Err(refused(rest)),
    }
}

#[tactic(auto, unfolding(crate::specs::Readers::const_at))]
fn const_at(rest: &mut Lexemes<'_>) -> Result<ConstTree, SyntaxFault>
    ensures { Agrees (λ x. (x, rest.new)) result (const_at rest.old) }
{
    if skip(Mark::Minus, rest) {
        literal_at(true, rest)
    } else {
        literal_at(false, rest)
    }
}

#[tactic(auto, unfolding(crate::specs::Readers::adds))]
fn with_const(
    mut values: Items<ConstTree>,
    rest: &mut Lexemes<'_>,
) -> Result<Items<ConstTree>, SyntaxFault>
    ensures { Agrees (λ x. (x, rest.new)) result (adds const_at values rest.old) }
{
    values.push(const_at(rest)?)?;
    Ok(values)
}

#[tactic(auto, using(crate::proofs::Steps::turns))]
fn all_consts(alloc: Global, rest: &mut Lexemes<'_>) -> Result<Items<ConstTree>, SyntaxFault>
    ensures { Agrees (λ x. (x, rest.new)) result (all_consts rest.old) }
{
    let mut values = Items::new(alloc);
    for _ in 0..rest.len() + 1 {
        values = with_const(values, rest)?;
        if !skip_inner_comma(rest) {
            return Ok(values);
        }
    }
    Err(refused(rest))
}

fn past_comma(rest: &mut Lexemes<'_>)
    ensures { rest.new ≡ past_comma rest.old }
{
    let _found = skip(Mark::Comma, rest);
}

// The constants after `{`, and the `}`.
#[tactic(auto, unfolding(crate::specs::Readers::consts_at))]
fn consts_at(alloc: Global, rest: &mut Lexemes<'_>) -> Result<InitTree, SyntaxFault>
    ensures { Agrees (λ x. (x, rest.new)) result (consts_at rest.old) }
{
    let values = all_consts(alloc, rest)?;
    past_comma(rest);
    take(Mark::CloseCurly, rest)?;
    match NonEmpty::new(values) {
        Some(values) => Ok(InitTree::Many(values)),
        None => Err(refused(rest)),
    }
}

fn one_at(rest: &mut Lexemes<'_>) -> Result<InitTree, SyntaxFault>
    ensures { Agrees (λ x. (x, rest.new)) result (one_at rest.old) }
{
    Ok(InitTree::One(const_at(rest)?))
}

// What follows `=`.
#[tactic(auto, unfolding(crate::specs::Readers::initialiser_at))]
fn initialiser_at(alloc: Global, rest: &mut Lexemes<'_>) -> Result<InitTree, SyntaxFault>
    ensures { Agrees (λ x. (x, rest.new)) result (initialiser_at rest.old) }
{
    if skip(Mark::OpenCurly, rest) {
        consts_at(alloc, rest)
    } else {
        one_at(rest)
    }
}

#[tactic(auto, unfolding(crate::specs::Readers::init_at))]
fn init_at(alloc: Global, rest: &mut Lexemes<'_>) -> Result<InitTree, SyntaxFault>
    ensures { Agrees (λ x. (x, rest.new)) result (init_at rest.old) }
{
    if skip(Mark::Equal, rest) {
        initialiser_at(alloc, rest)
    } else {
        Ok(InitTree::Absent)
    }
}

#[tactic(auto, unfolding(crate::specs::Readers::global_at))]
fn global_at(
    alloc: Global,
    base: &BaseTree,
    line: u32,
    rest: &mut Lexemes<'_>,
) -> Result<Decl, SyntaxFault>
    ensures { Agrees (λ x. (x, rest.new)) result (global_at base.now line rest.old) }
{
    let Declarator {
        stars,
        name,
        length,
    } = declarator_at(rest)?;
    let init = init_at(alloc, rest)?;
    let ty = TypeTree {
        base: *base,
        stars,
        length,
    };
    Ok(Decl::Global(GlobalTree {
        ty,
        name,
        init,
        line,
    }))
}

#[tactic(auto, unfolding(crate::specs::Readers::adds))]
fn with_global(
    alloc: Global,
    base: &BaseTree,
    line: u32,
    mut decls: Decls,
    rest: &mut Lexemes<'_>,
) -> Result<Decls, SyntaxFault>
    ensures { Agrees (λ x. (x, rest.new)) result (add_global base.now line decls rest.old) }
{
    decls.push(global_at(alloc, base, line, rest)?)?;
    Ok(decls)
}

#[tactic(auto, using(crate::proofs::Steps::turns))]
fn with_globals(
    alloc: Global,
    base: &BaseTree,
    line: u32,
    mut decls: Decls,
    rest: &mut Lexemes<'_>,
) -> Result<Decls, SyntaxFault>
    ensures { Agrees (λ x. (x, rest.new)) result (all_separated (add_global base.now line) decls rest.old) }
{
    for _ in 0..rest.len() + 1 {
        decls = with_global(alloc, base, line, decls, rest)?;
        if !skip(Mark::Comma, rest) {
            return Ok(decls);
        }
    }
    Err(refused(rest))
}

/// A declaration of globals, added to the declarations before.
#[tactic(auto, unfolding(crate::specs::Readers::declaration_at))]
pub fn globals_at(alloc: Global, decls: Decls, rest: &mut Lexemes<'_>) -> Result<Decls, SyntaxFault>
    ensures { Agrees (λ x. (x, rest.new)) result (declaration_at add_global decls rest.old) }
{
    let line = rest.line();
    let base = base_at(rest)?;
    let decls = with_globals(alloc, &base, line, decls, rest)?;
    take(Mark::Semicolon, rest)?;
    Ok(decls)
}
