//! Locals and functions.

ghost use Rattle.sc_base.specs.Prelude.{most_brackets, most_height};
ghost use Rattle.sc_parse.specs.Prelude.{Agrees, add_local, all_separated, body_at, declaration_at, function_at};
ghost use Rattle.sc_parse.specs.Prelude.{grouped, headed_at, local_at, locals_at, named_head, no_base, past_head};
ghost use Rattle.sc_parse.specs.Prelude.{value_at};
ghost use Rattle.std.specs.Prelude.{◌≡◌, ◌+◌, [], length};

use crate::calls::expr_at;
use crate::heads::head_at;
use crate::lookahead::{is_base, skip};
use crate::stmts::stmts_at;
use crate::types::{Declarator, declarator_at};
use sc_ast::{
    BaseTree, Decl, ExprTree, FunctionHead, FunctionTree, HeadTree, LocalTree, LocalTrees, TypeTree,
};
use sc_base::MAX_HEIGHT;
use sc_parse_expr::{Lexemes, Mark, SyntaxFault, base_at, refused, take};
use sqlite_items::{Boxed, Items};
use std::alloc::Global;

#[tactic(auto, unfolding(crate::specs::SectionReaders::value_at))]
fn value_at(alloc: Global, rest: &mut Lexemes<'_>) -> Result<Option<Boxed<ExprTree>>, SyntaxFault>
    ensures { Agrees (λ x. (x, rest.new)) result (value_at most_brackets most_height rest.old) }
{
    if skip(Mark::Equal, rest) {
        Ok(Some(expr_at(alloc, MAX_HEIGHT, rest)?))
    } else {
        Ok(None)
    }
}

#[tactic(auto, unfolding(crate::specs::SectionReaders::local_at))]
fn local_at(
    alloc: Global,
    base: &BaseTree,
    line: u32,
    rest: &mut Lexemes<'_>,
) -> Result<LocalTree, SyntaxFault>
    ensures { Agrees (λ x. (x, rest.new)) result (local_at most_brackets most_height base.now line rest.old) }
{
    let Declarator {
        stars,
        name,
        length,
    } = declarator_at(rest)?;
    let init = value_at(alloc, rest)?;
    let ty = TypeTree {
        base: *base,
        stars,
        length,
    };
    Ok(LocalTree {
        ty,
        name,
        init,
        line,
    })
}

#[tactic(auto, unfolding(crate::specs::Readers::adds))]
fn with_local(
    alloc: Global,
    base: &BaseTree,
    line: u32,
    mut locals: LocalTrees,
    rest: &mut Lexemes<'_>,
) -> Result<LocalTrees, SyntaxFault>
    ensures { Agrees (λ x. (x, rest.new)) result
        (add_local most_brackets most_height base.now line locals rest.old) }
{
    locals.push(local_at(alloc, base, line, rest)?)?;
    Ok(locals)
}

#[tactic(auto, using(crate::proofs::Steps::turns))]
fn with_locals(
    alloc: Global,
    base: &BaseTree,
    line: u32,
    mut locals: LocalTrees,
    rest: &mut Lexemes<'_>,
) -> Result<LocalTrees, SyntaxFault>
    ensures { Agrees (λ x. (x, rest.new)) result (all_separated
        (add_local most_brackets most_height base.now line) locals rest.old) }
{
    for _ in 0..rest.len() + 1 {
        locals = with_local(alloc, base, line, locals, rest)?;
        if !skip(Mark::Comma, rest) {
            return Ok(locals);
        }
    }
    Err(refused(rest))
}

#[tactic(auto, unfolding(crate::specs::Readers::declaration_at))]
fn local_line(
    alloc: Global,
    locals: LocalTrees,
    rest: &mut Lexemes<'_>,
) -> Result<LocalTrees, SyntaxFault>
    ensures { Agrees (λ x. (x, rest.new)) result
        (declaration_at (add_local most_brackets most_height) locals rest.old) }
{
    let line = rest.line();
    let base = base_at(rest)?;
    let locals = with_locals(alloc, &base, line, locals, rest)?;
    take(Mark::Semicolon, rest)?;
    Ok(locals)
}

fn no_base(rest: &Lexemes<'_>) -> bool
    ensures { result ≡ no_base rest.now }
{
    !is_base(rest.keyword())
}

#[tactic(auto, using(crate::proofs::Steps::groups))]
fn locals_at(alloc: Global, rest: &mut Lexemes<'_>) -> Result<LocalTrees, SyntaxFault>
    ensures { Agrees (λ x. (x, rest.new)) result (locals_at most_brackets most_height rest.old) }
{
    let mut locals = Items::new(alloc);
    for _ in 0..rest.len() + 1 {
        if no_base(rest) {
            return Ok(locals);
        }
        locals = local_line(alloc, locals, rest)?;
    }
    Err(refused(rest))
}

// The head as that of a function, refused before these lexemes where a parameter has no name.
#[tactic(auto, using(crate::proofs::Naming::names))]
fn named_head(
    alloc: Global,
    head: &HeadTree,
    rest: &Lexemes<'_>,
) -> Result<FunctionHead, SyntaxFault>
    ensures { Agrees (λ x. x) result (named_head head.now) }
{
    match head.named(alloc) {
        Ok(Some(named)) => Ok(named),
        Ok(None) => Err(refused(rest)),
        Err(_) => Err(SyntaxFault::OutOfMemory),
    }
}

#[tactic(auto, unfolding(crate::specs::SectionReaders::body_at))]
fn body_at(
    alloc: Global,
    head: FunctionHead,
    rest: &mut Lexemes<'_>,
) -> Result<FunctionTree, SyntaxFault>
    ensures { Agrees (λ x. (x, rest.new)) result (body_at most_brackets most_height head rest.old) }
{
    take(Mark::OpenCurly, rest)?;
    let locals = locals_at(alloc, rest)?;
    let body = stmts_at(alloc, MAX_HEIGHT, rest)?;
    let close_line = rest.line();
    take(Mark::CloseCurly, rest)?;
    Ok(FunctionTree {
        head,
        locals,
        body,
        close_line,
    })
}

#[tactic(auto, unfolding(crate::specs::SectionReaders::function_at))]
fn function_at(alloc: Global, head: &HeadTree, rest: &mut Lexemes<'_>) -> Result<Decl, SyntaxFault>
    ensures { Agrees (λ x. (x, rest.new)) result (function_at most_brackets most_height head.now rest.old) }
{
    let named = named_head(alloc, head, rest)?;
    Ok(Decl::Function(body_at(alloc, named, rest)?))
}

fn past_head(alloc: Global, head: HeadTree, rest: &mut Lexemes<'_>) -> Result<Decl, SyntaxFault>
    ensures { Agrees (λ x. (x, rest.new)) result (past_head most_brackets most_height head rest.old) }
{
    if skip(Mark::Semicolon, rest) {
        Ok(Decl::Proto(head))
    } else {
        function_at(alloc, &head, rest)
    }
}

/// A prototype or a function.
#[tactic(auto, unfolding(crate::specs::SectionReaders::headed_at))]
pub fn headed_at(alloc: Global, rest: &mut Lexemes<'_>) -> Result<Decl, SyntaxFault>
    ensures { Agrees (λ x. (x, rest.new)) result (headed_at most_brackets most_height rest.old) }
{
    let head = head_at(alloc, rest)?;
    past_head(alloc, head, rest)
}
