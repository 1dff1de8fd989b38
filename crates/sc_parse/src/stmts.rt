//! Statements and blocks.

ghost use Rattle.sc_base.specs.Prelude.{most_brackets};
ghost use Rattle.sc_parse.specs.Prelude.{Agrees, adds, after_else, after_for, after_if, after_while, block_at, else_at};
ghost use Rattle.sc_parse.specs.Prelude.{ended_at, first_part, for_head, is_else, keyword_at, kind_by, last_part};
ghost use Rattle.sc_parse.specs.Prelude.{loop_of, middle_part, plain_at, returned, simple_or_none, stmt_at};
ghost use Rattle.sc_parse.specs.Prelude.{stmt_within, stmts_at, value_returned};
ghost use Rattle.std.specs.Prelude.{◌≡◌, ◌≤◌, ◌<◌, ◌+◌, [], ◌∷◌, length, drop, true, false, IfOk};
ghost use Rattle.sc_parse.specs.StmtReaders.{lone_if};

use crate::calls::{call_at, condition_at, expr_at};
use crate::lookahead::{begins_call, ended_by, is_else};
use crate::simple::{part_at, simple_at, test_at};
use sc_ast::{ExprTree, SimpleTree, StmtKind, StmtTree, Stmts};
use sc_parse_expr::{Keyword, Lexemes, Mark, SyntaxFault, begins_with, refused, take};
use sqlite_items::{Boxed, Items};
use std::alloc::Global;

/// What stands between `for` and its body.
#[derive(Drop)]
struct ForHead {
    first: Option<Boxed<SimpleTree>>,
    cond: Boxed<ExprTree>,
    next: Option<Boxed<SimpleTree>>,
}

fn value_returned(alloc: Global, room: u32, rest: &mut Lexemes<'_>) -> Result<StmtKind, SyntaxFault>
    ensures { Agrees (λ x. (x, rest.new)) result (value_returned most_brackets room rest.old) }
{
    if begins_call(rest) {
        Ok(StmtKind::ReturnCall(call_at(alloc, room, rest)?))
    } else {
        Ok(StmtKind::ReturnValue(expr_at(alloc, room, rest)?))
    }
}

// What follows `return`, without the `;`.
#[tactic(auto, unfolding(crate::specs::StmtReaders::returned))]
fn returned(alloc: Global, room: u32, rest: &mut Lexemes<'_>) -> Result<StmtKind, SyntaxFault>
    ensures { Agrees (λ x. (x, rest.new)) result (returned most_brackets room rest.old) }
{
    if begins_with(Mark::Semicolon, rest) {
        Ok(StmtKind::Return)
    } else {
        value_returned(alloc, room, rest)
    }
}

fn simple_or_none(alloc: Global, room: u32, rest: &mut Lexemes<'_>) -> Result<StmtKind, SyntaxFault>
    requires { room < 4294967295 }
    ensures { Agrees (λ x. (x, rest.new)) result (simple_or_none most_brackets room rest.old) }
{
    if begins_with(Mark::Semicolon, rest) {
        Ok(StmtKind::Empty)
    } else {
        Ok(simple_at(alloc, room, rest)?.into_stmt_kind())
    }
}

// A statement that is no `if` and no loop, without its `;`.
#[tactic(auto, unfolding(crate::specs::StmtReaders::plain_at))]
fn plain_at(
    alloc: Global,
    room: u32,
    word: Option<Keyword>,
    rest: &mut Lexemes<'_>,
) -> Result<StmtKind, SyntaxFault>
    requires { room < 4294967295 }
    ensures { Agrees (λ x. (x, rest.new)) result (plain_at most_brackets room word rest.old) }
{
    match word {
        Some(Keyword::Break) => {
            rest.advance();
            Ok(StmtKind::Break)
        }
        Some(Keyword::Continue) => {
            rest.advance();
            Ok(StmtKind::Continue)
        }
        Some(Keyword::Return) => {
            rest.advance();
            returned(alloc, room, rest)
        }
        _ => simple_or_none(alloc, room, rest),
    }
}

#[tactic(auto, unfolding(crate::specs::StmtReaders::ended_at))]
fn ended_at(alloc: Global, room: u32, rest: &mut Lexemes<'_>) -> Result<StmtKind, SyntaxFault>
    requires { room < 4294967295 }
    ensures { Agrees (λ x. (x, rest.new)) result (ended_at most_brackets room rest.old) }
{
    let kind = plain_at(alloc, room, rest.keyword(), rest)?;
    ended_by(Mark::Semicolon, kind, rest)
}

#[tactic(auto, unfolding(crate::specs::StmtReaders::first_part))]
fn first_part(
    alloc: Global,
    room: u32,
    rest: &mut Lexemes<'_>,
) -> Result<Option<Boxed<SimpleTree>>, SyntaxFault>
    ensures { Agrees (λ x. (x, rest.new)) result (first_part most_brackets room rest.old) }
{
    take(Mark::OpenParen, rest)?;
    let part = part_at(alloc, room, Mark::Semicolon, rest)?;
    ended_by(Mark::Semicolon, part, rest)
}

#[tactic(auto, unfolding(crate::specs::StmtReaders::middle_part))]
fn middle_part(
    alloc: Global,
    room: u32,
    rest: &mut Lexemes<'_>,
) -> Result<Boxed<ExprTree>, SyntaxFault>
    ensures { Agrees (λ x. (x, rest.new)) result (middle_part most_brackets room rest.old) }
{
    let cond = test_at(alloc, room, rest)?;
    ended_by(Mark::Semicolon, cond, rest)
}

#[tactic(auto, unfolding(crate::specs::StmtReaders::last_part))]
fn last_part(
    alloc: Global,
    room: u32,
    rest: &mut Lexemes<'_>,
) -> Result<Option<Boxed<SimpleTree>>, SyntaxFault>
    ensures { Agrees (λ x. (x, rest.new)) result (last_part most_brackets room rest.old) }
{
    let part = part_at(alloc, room, Mark::CloseParen, rest)?;
    ended_by(Mark::CloseParen, part, rest)
}

#[tactic(auto, unfolding(crate::specs::StmtReaders::for_head))]
fn for_head(alloc: Global, room: u32, rest: &mut Lexemes<'_>) -> Result<ForHead, SyntaxFault>
    ensures { Agrees (λ x. (x, rest.new)) result (for_head most_brackets room rest.old) }
{
    let first = first_part(alloc, room, rest)?;
    let cond = middle_part(alloc, room, rest)?;
    let next = last_part(alloc, room, rest)?;
    Ok(ForHead { first, cond, next })
}

fn loop_of(head: ForHead, body: Stmts) -> StmtKind
    ensures { result ≡ loop_of head body }
{
    let ForHead { first, cond, next } = head;
    StmtKind::For {
        first,
        cond,
        next,
        body,
    }
}

/// Statements up to `}`, each at most `room` high.
#[cycle(statements)]
#[tactic(auto, using(crate::proofs::Steps::groups))]
pub fn stmts_at(alloc: Global, room: u32, rest: &mut Lexemes<'_>) -> Result<Stmts, SyntaxFault>
    ensures { Agrees (λ x. (x, rest.new)) result (stmts_at (stmt_at most_brackets room) rest.old) }
{
    let mut stmts = Items::new(alloc);
    for _ in 0..rest.len() + 1 {
        if begins_with(Mark::CloseCurly, rest) {
            return Ok(stmts);
        }
        stmts = with_stmt(alloc, room, stmts, rest)?;
    }
    Err(refused(rest))
}

#[cycle(statements)]
#[tactic(auto, unfolding(crate::specs::Readers::adds))]
fn with_stmt(
    alloc: Global,
    room: u32,
    mut stmts: Stmts,
    rest: &mut Lexemes<'_>,
) -> Result<Stmts, SyntaxFault>
    ensures { Agrees (λ x. (x, rest.new)) result (adds (stmt_at most_brackets room) stmts rest.old) }
{
    stmts.push(stmt_at(alloc, room, rest)?)?;
    Ok(stmts)
}

#[cycle(statements)]
#[tactic(auto, unfolding(crate::specs::StmtReaders::block_at))]
fn block_at(alloc: Global, room: u32, rest: &mut Lexemes<'_>) -> Result<Stmts, SyntaxFault>
    ensures { Agrees (λ x. (x, rest.new)) result (block_at (stmt_at most_brackets room) rest.old) }
{
    take(Mark::OpenCurly, rest)?;
    let stmts = stmts_at(alloc, room, rest)?;
    ended_by(Mark::CloseCurly, stmts, rest)
}

// The `if` after an `else`, as a list of one statement.
#[cycle(statements)]
fn lone_if(alloc: Global, room: u32, rest: &mut Lexemes<'_>) -> Result<Stmts, SyntaxFault>
    ensures { Agrees (λ x. (x, rest.new)) result (lone_if (stmt_at most_brackets room) rest.old) }
{
    let mut stmts = Items::new(alloc);
    stmts.push(stmt_at(alloc, room, rest)?)?;
    Ok(stmts)
}

#[cycle(statements)]
#[tactic(auto, unfolding(crate::specs::StmtReaders::after_else))]
fn after_else(alloc: Global, room: u32, rest: &mut Lexemes<'_>) -> Result<Stmts, SyntaxFault>
    ensures { Agrees (λ x. (x, rest.new)) result (after_else (stmt_at most_brackets room) rest.old) }
{
    match rest.keyword() {
        Some(Keyword::If) => lone_if(alloc, room, rest),
        _ => block_at(alloc, room, rest),
    }
}

#[cycle(statements)]
#[tactic(auto, unfolding(crate::specs::StmtReaders::else_at))]
fn else_at(alloc: Global, room: u32, rest: &mut Lexemes<'_>) -> Result<Stmts, SyntaxFault>
    ensures { Agrees (λ x. (x, rest.new)) result (else_at (stmt_at most_brackets room) rest.old) }
{
    if is_else(rest.keyword()) {
        rest.advance();
        after_else(alloc, room, rest)
    } else {
        Ok(Items::new(alloc))
    }
}

#[cycle(statements)]
#[tactic(auto, unfolding(crate::specs::StmtReaders::after_if))]
fn after_if(alloc: Global, room: u32, rest: &mut Lexemes<'_>) -> Result<StmtKind, SyntaxFault>
    ensures { Agrees (λ x. (x, rest.new)) result
        (after_if most_brackets (stmt_at most_brackets room) room rest.old) }
{
    let cond = condition_at(alloc, room, rest)?;
    let then_part = block_at(alloc, room, rest)?;
    let else_part = else_at(alloc, room, rest)?;
    Ok(StmtKind::If {
        cond,
        then_part,
        else_part,
    })
}

#[cycle(statements)]
#[tactic(auto, unfolding(crate::specs::StmtReaders::after_while))]
fn after_while(alloc: Global, room: u32, rest: &mut Lexemes<'_>) -> Result<StmtKind, SyntaxFault>
    ensures { Agrees (λ x. (x, rest.new)) result
        (after_while most_brackets (stmt_at most_brackets room) room rest.old) }
{
    let cond = condition_at(alloc, room, rest)?;
    let body = block_at(alloc, room, rest)?;
    Ok(StmtKind::While { cond, body })
}

#[cycle(statements)]
#[tactic(auto, unfolding(crate::specs::StmtReaders::after_for))]
fn after_for(alloc: Global, room: u32, rest: &mut Lexemes<'_>) -> Result<StmtKind, SyntaxFault>
    ensures { Agrees (λ x. (x, rest.new)) result
        (after_for most_brackets (stmt_at most_brackets room) room rest.old) }
{
    let head = for_head(alloc, room, rest)?;
    let body = block_at(alloc, room, rest)?;
    Ok(loop_of(head, body))
}

#[cycle(statements)]
fn kind_by(
    alloc: Global,
    room: u32,
    word: Option<Keyword>,
    rest: &mut Lexemes<'_>,
) -> Result<StmtKind, SyntaxFault>
    requires { room < 4294967295 }
    ensures { Agrees (λ x. (x, rest.new)) result
        (kind_by most_brackets (stmt_at most_brackets room) room word rest.old) }
{
    match word {
        Some(Keyword::If) => {
            rest.advance();
            after_if(alloc, room, rest)
        }
        Some(Keyword::While) => {
            rest.advance();
            after_while(alloc, room, rest)
        }
        Some(Keyword::For) => {
            rest.advance();
            after_for(alloc, room, rest)
        }
        _ => ended_at(alloc, room, rest),
    }
}

// A statement whose parts are at most `room` high.
#[cycle(statements)]
#[tactic(auto, unfolding(crate::specs::StmtReaders::stmt_within))]
fn stmt_within(alloc: Global, room: u32, rest: &mut Lexemes<'_>) -> Result<StmtTree, SyntaxFault>
    requires { room < 4294967295 }
    ensures { Agrees (λ x. (x, rest.new)) result
        (stmt_within most_brackets (stmt_at most_brackets room) room rest.old) }
{
    let line = rest.line();
    let kind = kind_by(alloc, room, rest.keyword(), rest)?;
    Ok(StmtTree { line, kind })
}

// A statement, at most `room` high.
#[cycle(statements)]
#[tactic(auto, using(crate::proofs::Steps::depths))]
fn stmt_at(alloc: Global, room: u32, rest: &mut Lexemes<'_>) -> Result<StmtTree, SyntaxFault>
    ensures { Agrees (λ x. (x, rest.new)) result (stmt_at most_brackets room rest.old) }
{
    match room.checked_sub(1) {
        Some(below) => stmt_within(alloc, below, rest),
        None => Err(refused(rest)),
    }
}
