//! Expressions in statements, and calls.

ghost use Rattle.sc_base.specs.Prelude.{most_brackets};
ghost use Rattle.sc_parse.specs.Prelude.{Agrees, add_arg, all_separated, args_at, args_in_parens, call_at};
ghost use Rattle.sc_parse.specs.Prelude.{condition_at, expr_at};
ghost use Rattle.std.specs.Prelude.{◌≡◌, ◌+◌, [], length};

use crate::lookahead::{ended_by, skip};
use sc_ast::{CallTree, ExprTree, Exprs};
use sc_base::{LOOSEST, MAX_BRACKETS};
use sc_parse_expr::{
    Built, Lexemes, Mark, SyntaxFault, begins_with, name_at, parse_level, refused, take,
};
use sqlite_items::{Boxed, Items};
use std::alloc::Global;

/// An expression, at most `room` high.
#[tactic(auto, unfolding(crate::specs::StmtReaders::expr_at))]
pub fn expr_at(
    alloc: Global,
    room: u32,
    rest: &mut Lexemes<'_>,
) -> Result<Boxed<ExprTree>, SyntaxFault>
    ensures { Agrees (λ x. (x, rest.new)) result (expr_at most_brackets room rest.old) }
{
    let Built { tree, .. } = parse_level(alloc, MAX_BRACKETS, room, LOOSEST, rest)?;
    Ok(tree)
}

#[tactic(auto, unfolding(crate::specs::Readers::adds))]
fn with_arg(
    alloc: Global,
    room: u32,
    mut args: Exprs,
    rest: &mut Lexemes<'_>,
) -> Result<Exprs, SyntaxFault>
    ensures { Agrees (λ x. (x, rest.new)) result (add_arg most_brackets room args rest.old) }
{
    args.push(expr_at(alloc, room, rest)?.into_inner())?;
    Ok(args)
}

#[tactic(auto, using(crate::proofs::Steps::turns))]
fn all_args(alloc: Global, room: u32, rest: &mut Lexemes<'_>) -> Result<Exprs, SyntaxFault>
    ensures { Agrees (λ x. (x, rest.new)) result (all_separated (add_arg most_brackets room) [] rest.old) }
{
    let mut args = Items::new(alloc);
    for _ in 0..rest.len() + 1 {
        args = with_arg(alloc, room, args, rest)?;
        if !skip(Mark::Comma, rest) {
            return Ok(args);
        }
    }
    Err(refused(rest))
}

#[tactic(auto, unfolding(crate::specs::StmtReaders::args_at))]
fn args_at(alloc: Global, room: u32, rest: &mut Lexemes<'_>) -> Result<Exprs, SyntaxFault>
    ensures { Agrees (λ x. (x, rest.new)) result (args_at most_brackets room rest.old) }
{
    if begins_with(Mark::CloseParen, rest) {
        Ok(Items::new(alloc))
    } else {
        all_args(alloc, room, rest)
    }
}

fn args_in_parens(alloc: Global, room: u32, rest: &mut Lexemes<'_>) -> Result<Exprs, SyntaxFault>
    ensures { Agrees (λ x. (x, rest.new)) result (args_in_parens most_brackets room rest.old) }
{
    take(Mark::OpenParen, rest)?;
    let args = args_at(alloc, room, rest)?;
    ended_by(Mark::CloseParen, args, rest)
}

/// A call, whose arguments are at most `room` high.
#[tactic(auto, unfolding(crate::specs::StmtReaders::call_at))]
pub fn call_at(
    alloc: Global,
    room: u32,
    rest: &mut Lexemes<'_>,
) -> Result<Boxed<CallTree>, SyntaxFault>
    ensures { Agrees (λ x. (x, rest.new)) result (call_at most_brackets room rest.old) }
{
    let name = name_at(rest)?;
    let args = args_in_parens(alloc, room, rest)?;
    Ok(Boxed::new(alloc, CallTree { name, args })?)
}

/// A condition in its parentheses.
#[tactic(auto, unfolding(crate::specs::StmtReaders::condition_at))]
pub fn condition_at(
    alloc: Global,
    room: u32,
    rest: &mut Lexemes<'_>,
) -> Result<Boxed<ExprTree>, SyntaxFault>
    ensures { Agrees (λ x. (x, rest.new)) result (condition_at most_brackets room rest.old) }
{
    take(Mark::OpenParen, rest)?;
    let cond = expr_at(alloc, room, rest)?;
    ended_by(Mark::CloseParen, cond, rest)
}
