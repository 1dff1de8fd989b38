//! Assignments, `++` and `--`, `malloc` and `free`, and calls as statements.

ghost use Rattle.sc_base.specs.Prelude.{most_brackets};
ghost use Rattle.sc_parse.specs.Prelude.{Agrees, always, assigned_at, assignment_at, begins_value, call_statement};
ghost use Rattle.sc_parse.specs.Prelude.{change_at, change_of, changed, compound_of, makes_value, mark_at, mark_by};
ghost use Rattle.sc_parse.specs.Prelude.{operand_at, part_at, place_at, simple_at, step_at, step_of, stepped, test_at};
ghost use Rattle.sc_parse.specs.Prelude.{unfreed, unstepped, updates, value_assigned};
ghost use Rattle.std.specs.Prelude.{◌≡◌, ◌≤◌, ◌<◌, ◌+◌, drop, length, IsSome, IfOk, Some};
ghost use Rattle.sc_parse.specs.Statements.{one};
ghost use Rattle.sc_parse.specs.StmtReaders.{step_before};
ghost use Rattle.sc_ast.specs.declared.expr.ExprTree;
ghost use Rattle.std.specs.Option.{option_map};

use crate::calls::{call_at, expr_at};
use crate::copy::copy_expr;
use crate::heap::{allocated_at, free_statement, is_free, is_malloc};
use crate::lookahead::begins_call;
use sc_ast::{ExprTree, Literal, PlaceTree, SimpleKind, SimpleTree};
use sc_base::{BinaryOp, MAX_BRACKETS, UNARY};
use sc_parse_expr::{
    Built, Lexemes, Mark, SyntaxFault, begins_with, parse_level, refused, refused_before,
};
use sqlite_items::Boxed;
use std::alloc::{AllocError, Global};

/// What a mark after a place does to it.
#[derive(Clone, Copy)]
enum Change {
    /// `=`
    Set,
    /// `+=` and the like
    By(BinaryOp),
    /// `++` and `--`
    Step(BinaryOp),
}

/// A place, and its height.
#[derive(Drop)]
struct Placed {
    place: PlaceTree,
    height: u32,
}

fn compound_of(mark: Mark) -> Option<BinaryOp>
    ensures { result ≡ compound_of mark }
{
    match mark {
        Mark::PlusEqual => Some(BinaryOp::Add),
        Mark::MinusEqual => Some(BinaryOp::Sub),
        Mark::StarEqual => Some(BinaryOp::Mul),
        Mark::SlashEqual => Some(BinaryOp::Div),
        Mark::PercentEqual => Some(BinaryOp::Rem),
        Mark::LessLessEqual => Some(BinaryOp::ShiftLeft),
        Mark::GreaterGreaterEqual => Some(BinaryOp::ShiftRight),
        Mark::AndEqual => Some(BinaryOp::BitAnd),
        Mark::CaretEqual => Some(BinaryOp::BitXor),
        Mark::OrEqual => Some(BinaryOp::BitOr),
        _ => None,
    }
}

fn step_of(mark: Mark) -> Option<BinaryOp>
    ensures { result ≡ step_of mark }
{
    match mark {
        Mark::PlusPlus => Some(BinaryOp::Add),
        Mark::MinusMinus => Some(BinaryOp::Sub),
        _ => None,
    }
}

fn change_of(mark: Mark) -> Option<Change>
    ensures { result ≡ change_of mark }
{
    match mark {
        Mark::Equal => Some(Change::Set),
        _ => match compound_of(mark) {
            Some(op) => Some(Change::By(op)),
            None => match step_of(mark) {
                Some(op) => Some(Change::Step(op)),
                None => None,
            },
        },
    }
}

fn mark_at(rest: &Lexemes<'_>) -> Option<Mark>
    ensures value { result ≡ mark_at rest.now }
    ensures some { IsSome result → 1 ≤ length rest.now }
{
    rest.mark()
}

fn change_at(rest: &Lexemes<'_>) -> Option<Change>
    ensures value { result ≡ change_at rest.now }
    ensures some { IsSome result → 1 ≤ length rest.now }
{
    let mark = mark_at(rest)?;
    change_of(mark)
}

fn step_at(rest: &Lexemes<'_>) -> Option<BinaryOp>
    ensures value { result ≡ step_at rest.now }
    ensures some { IsSome result → 1 ≤ length rest.now }
{
    let mark = mark_at(rest)?;
    step_of(mark)
}

fn makes_value(mark: Mark) -> bool
    ensures { result ≡ makes_value mark }
{
    matches!(
        mark,
        Mark::Minus | Mark::Plus | Mark::Not | Mark::Tilde | Mark::And
    )
}

fn begins_value(rest: &Lexemes<'_>) -> bool
    ensures { result ≡ begins_value rest.now }
{
    match mark_at(rest) {
        Some(mark) => makes_value(mark),
        None => false,
    }
}

#[tactic(auto, unfolding(crate::specs::StmtReaders::place_at))]
fn place_at(alloc: Global, room: u32, rest: &mut Lexemes<'_>) -> Result<Placed, SyntaxFault>
    ensures { Agrees (λ x. (x, rest.new)) result (place_at most_brackets room rest.old) }
{
    if begins_value(rest) {
        return Err(refused(rest));
    }
    let Built { tree, height } = parse_level(alloc, MAX_BRACKETS, room, UNARY, rest)?;
    match PlaceTree::new(tree) {
        Ok(place) => Ok(Placed { place, height }),
        Err(_) => Err(refused(rest)),
    }
}

// What follows `=`, where it is no `malloc`.
fn value_assigned(
    alloc: Global,
    room: u32,
    place: PlaceTree,
    rest: &mut Lexemes<'_>,
) -> Result<SimpleKind, SyntaxFault>
    ensures { Agrees (λ x. (x, rest.new)) result (value_assigned most_brackets room place rest.old) }
{
    if begins_call(rest) {
        let call = call_at(alloc, room, rest)?;
        Ok(SimpleKind::AssignCall { place, call })
    } else {
        let value = expr_at(alloc, room, rest)?;
        Ok(SimpleKind::Assign { place, value })
    }
}

#[tactic(auto, unfolding(crate::specs::StmtReaders::assigned_at))]
fn assigned_at(
    alloc: Global,
    room: u32,
    place: PlaceTree,
    rest: &mut Lexemes<'_>,
) -> Result<SimpleKind, SyntaxFault>
    requires { room < 4294967295 }
    ensures { Agrees (λ x. (x, rest.new)) result (assigned_at most_brackets room place rest.old) }
{
    if is_malloc(rest.keyword()) {
        rest.advance();
        allocated_at(alloc, room, place, rest)
    } else {
        value_assigned(alloc, room, place, rest)
    }
}

// The assignment to a place of what an operator makes of it and of an operand.
fn updates(
    alloc: Global,
    op: BinaryOp,
    place: PlaceTree,
    operand: Boxed<ExprTree>,
) -> Result<SimpleKind, AllocError>
    ensures { IfOk result (λ kind. kind ≡ updates op place operand) }
{
    let left = Boxed::new(alloc, copy_expr(alloc, place.get())?)?;
    let value = Boxed::new(
        alloc,
        ExprTree::Binary {
            op,
            left,
            right: operand,
        },
    )?;
    Ok(SimpleKind::Assign { place, value })
}

fn one() -> Option<Literal>
    ensures { option_map ExprTree.Literal result ≡ Some one }
{
    Literal::new(1, false)
}

#[tactic(auto, unfolding(crate::specs::StmtReaders::operand_at))]
fn operand_at(
    alloc: Global,
    room: u32,
    op: BinaryOp,
    placed: Placed,
    rest: &mut Lexemes<'_>,
) -> Result<SimpleKind, SyntaxFault>
    ensures { Agrees (λ x. (x, rest.new)) result (operand_at most_brackets room op placed rest.old) }
{
    if placed.height >= room {
        return Err(refused_before(rest));
    }
    let operand = expr_at(alloc, room - 1, rest)?;
    Ok(updates(alloc, op, placed.place, operand)?)
}

#[tactic(auto, unfolding(crate::specs::StmtReaders::stepped))]
fn stepped(
    alloc: Global,
    room: u32,
    op: BinaryOp,
    placed: Placed,
    rest: &Lexemes<'_>,
) -> Result<SimpleKind, SyntaxFault>
    ensures { Agrees (λ x. (x, rest.now)) result (stepped room op placed rest.now) }
{
    if placed.height >= room {
        return Err(refused_before(rest));
    }
    match one() {
        Some(one) => {
            let one = Boxed::new(alloc, ExprTree::Literal(one))?;
            Ok(updates(alloc, op, placed.place, one)?)
        }
        None => Err(refused(rest)),
    }
}

fn changed(
    alloc: Global,
    room: u32,
    change: Option<Change>,
    placed: Placed,
    rest: &mut Lexemes<'_>,
) -> Result<SimpleKind, SyntaxFault>
    requires { room < 4294967295 }
    ensures { Agrees (λ x. (x, rest.new)) result (changed most_brackets room change placed rest.old) }
{
    match change {
        None => Err(refused_before(rest)),
        Some(Change::Set) => assigned_at(alloc, room, placed.place, rest),
        Some(Change::By(op)) => operand_at(alloc, room, op, placed, rest),
        Some(Change::Step(op)) => stepped(alloc, room, op, placed, rest),
    }
}

// The change at the start. Goes past the first lexeme.
fn take_change(rest: &mut Lexemes<'_>) -> Option<Change>
    ensures value { result ≡ change_at rest.old }
    ensures moved { rest.new ≡ drop 1 rest.old }
{
    let change = change_at(rest);
    rest.advance();
    change
}

#[tactic(auto, unfolding(crate::specs::StmtReaders::assignment_at))]
fn assignment_at(
    alloc: Global,
    room: u32,
    rest: &mut Lexemes<'_>,
) -> Result<SimpleKind, SyntaxFault>
    requires { room < 4294967295 }
    ensures { Agrees (λ x. (x, rest.new)) result (assignment_at most_brackets room rest.old) }
{
    let placed = place_at(alloc, room, rest)?;
    let change = take_change(rest);
    changed(alloc, room, change, placed, rest)
}

#[tactic(auto, unfolding(crate::specs::StmtReaders::step_before))]
fn step_before(
    alloc: Global,
    room: u32,
    op: BinaryOp,
    rest: &mut Lexemes<'_>,
) -> Result<SimpleKind, SyntaxFault>
    ensures { Agrees (λ x. (x, rest.new)) result (step_before most_brackets room op rest.old) }
{
    let placed = place_at(alloc, room, rest)?;
    stepped(alloc, room, op, placed, rest)
}

fn call_statement(
    alloc: Global,
    room: u32,
    rest: &mut Lexemes<'_>,
) -> Result<SimpleKind, SyntaxFault>
    ensures { Agrees (λ x. (x, rest.new)) result (call_statement most_brackets room rest.old) }
{
    Ok(SimpleKind::Call(call_at(alloc, room, rest)?))
}

/// What may stand in the head of a `for`, where its parts are at most `room` high.
#[tactic(auto, unfolding(crate::specs::StmtReaders::simple_at))]
pub fn simple_at(
    alloc: Global,
    room: u32,
    rest: &mut Lexemes<'_>,
) -> Result<SimpleKind, SyntaxFault>
    requires { room < 4294967295 }
    ensures { Agrees (λ x. (x, rest.new)) result (simple_at most_brackets room rest.old) }
{
    match step_at(rest) {
        Some(op) => {
            rest.advance();
            step_before(alloc, room, op, rest)
        }
        None => unstepped(alloc, room, rest),
    }
}

fn unstepped(alloc: Global, room: u32, rest: &mut Lexemes<'_>) -> Result<SimpleKind, SyntaxFault>
    requires { room < 4294967295 }
    ensures { Agrees (λ x. (x, rest.new)) result (unstepped most_brackets room rest.old) }
{
    if is_free(rest.keyword()) {
        rest.advance();
        free_statement(alloc, room, rest)
    } else {
        unfreed(alloc, room, rest)
    }
}

fn unfreed(alloc: Global, room: u32, rest: &mut Lexemes<'_>) -> Result<SimpleKind, SyntaxFault>
    requires { room < 4294967295 }
    ensures { Agrees (λ x. (x, rest.new)) result (unfreed most_brackets room rest.old) }
{
    if begins_call(rest) {
        call_statement(alloc, room, rest)
    } else {
        assignment_at(alloc, room, rest)
    }
}

/// The first or the last part of a `for`, up to a mark.
#[tactic(auto, unfolding(crate::specs::StmtReaders::part_at))]
pub fn part_at(
    alloc: Global,
    room: u32,
    ends: Mark,
    rest: &mut Lexemes<'_>,
) -> Result<Option<Boxed<SimpleTree>>, SyntaxFault>
    ensures { Agrees (λ x. (x, rest.new)) result (part_at most_brackets room ends rest.old) }
{
    if begins_with(ends, rest) {
        return Ok(None);
    }
    if room < 1 {
        return Err(refused(rest));
    }
    let line = rest.line();
    let kind = simple_at(alloc, room - 1, rest)?;
    Ok(Some(Boxed::new(alloc, SimpleTree { line, kind })?))
}

fn always(alloc: Global, room: u32, rest: &Lexemes<'_>) -> Result<Boxed<ExprTree>, SyntaxFault>
    ensures { Agrees (λ x. (x, rest.now)) result (always room rest.now) }
{
    if room < 1 {
        return Err(refused(rest));
    }
    match one() {
        Some(one) => Ok(Boxed::new(alloc, ExprTree::Literal(one))?),
        None => Err(refused(rest)),
    }
}

/// The condition of a `for`; an absent one is the literal 1.
#[tactic(auto, unfolding(crate::specs::StmtReaders::test_at))]
pub fn test_at(
    alloc: Global,
    room: u32,
    rest: &mut Lexemes<'_>,
) -> Result<Boxed<ExprTree>, SyntaxFault>
    ensures { Agrees (λ x. (x, rest.new)) result (test_at most_brackets room rest.old) }
{
    if begins_with(Mark::Semicolon, rest) {
        always(alloc, room, rest)
    } else {
        expr_at(alloc, room, rest)
    }
}
