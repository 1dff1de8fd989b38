//! Statements that are done at once, without anything that waits: where one isn't, the steps of `steps` do it.

ghost use Rattle.sc_core.specs.Prelude.{stmt_nodes};
ghost use Rattle.sc_run.specs.Prelude.{IsLess, Passes, PassesIf, assign, block_acts, block_nodes, c_arith, calls_in};
ghost use Rattle.sc_run.specs.Prelude.{ended_so, exit_of, here_of, in_body, in_round, kept_by, leave, left_at};
ghost use Rattle.sc_run.specs.Prelude.{loop_acts, next_acts, simple_does, stmt_acts, way_in};
ghost use Rattle.sc_core.specs.declared.value.Value.TheVariants.{Word};
ghost use Rattle.sc_run.specs.Prelude.{Return};
ghost use Rattle.std.specs.Prelude.{◌≡◌, ◌<◌, ◌≤◌, ◌∷◌, IfSome, List, MatchOption, Some, drop, length, suc, true};

use crate::planned::{is_short, planned_rounds};
use crate::state::Machine;
use crate::work::{Frame, Leaving, Loop, Position};
use sc_core::{
    Program, TypedExpr, TypedSimple, TypedSimpleKind, TypedStmt, TypedStmtKind, Value, Want,
};
use sc_run_value::is_true;

// An assignment that meets no cause of blame, or nothing.
#[inline(always)]
fn is_assigned(
    machine: &mut Machine,
    frame: &Frame,
    place: &TypedExpr,
    value: &TypedExpr,
    line: u32,
) -> bool
    ensures { PassesIf result (kept_by machine.old) (kept_by machine.new)
        (λ n. assign (here_of frame.now.scope) (way_in frame.now place.now) (way_in frame.now value.now) line tt)
        ended_so }
{
    sc_run_value::is_assigned(&mut machine.blocks, &frame.scope, place, value)
}

/// A statement that makes no call and doesn't leave, or nothing.
#[inline(always)]
pub fn is_done(program: &Program, machine: &mut Machine, frame: &Frame, stmt: &TypedStmt) -> bool
    ensures { PassesIf result (kept_by machine.old) (kept_by machine.new)
        (λ n. stmt_acts program.now n frame.now stmt.now tt) ended_so }
{
    match &stmt.kind {
        TypedStmtKind::Empty => true,
        TypedStmtKind::Assign { place, value } => {
            is_assigned(machine, frame, place.get(), value.get(), stmt.line)
        }
        _ => false,
    }
}

// How many of the first statements were done at once, of those that choose nothing.
fn done_plainly(
    program: &Program,
    machine: &mut Machine,
    frame: &Frame,
    stmts: &[TypedStmt],
) -> usize
    ensures within { result ≤ length stmts.now }
    ensures passes { Passes (kept_by machine.old) (kept_by machine.new)
        (λ n s. block_acts program.now n frame.now stmts.now tt s)
        (λ n s. block_acts program.now n frame.now (drop result stmts.now) tt s) }
{
    for at in 0..stmts.len() {
        if !is_done(program, machine, frame, &stmts[at]) {
            return at;
        }
    }
    stmts.len()
}

// The statements that a condition chooses, where it is known.
fn chosen<'a>(
    program: &'a Program,
    machine: &Machine,
    frame: &Frame,
    stmt: &'a TypedStmt,
) -> Option<&'a [TypedStmt]>
    ensures passes { IfSome result (λ part. Passes (kept_by machine.now) (kept_by machine.now)
        (λ n. stmt_acts program.now n frame.now stmt.now tt) (λ n. block_acts program.now n frame.now part.now tt)) }
    ensures less { IfSome result (λ part. block_nodes part.now < stmt_nodes stmt.now) }
{
    match &stmt.kind {
        TypedStmtKind::If {
            cond,
            then_part,
            else_part,
        } => match sc_run_value::evaluate(&machine.blocks, &frame.scope, Want::Value, cond.get()) {
            Ok(value) => {
                if is_true(value) {
                    return Some(then_part.as_slice());
                }
                Some(else_part.as_slice())
            }
            Err(_) => None,
        },
        _ => None,
    }
}

// What is left of a statement once what of it is done at once was done. None where nothing is.
#[inline(always)]
fn left_of<'a>(
    program: &'a Program,
    machine: &mut Machine,
    frame: &Frame,
    stmt: &'a TypedStmt,
) -> Option<&'a [TypedStmt]>
    ensures passes { MatchOption result (kept_by machine.new ≡ kept_by machine.old)
        (λ rest. Passes (kept_by machine.old) (kept_by machine.new)
        (λ n. stmt_acts program.now n frame.now stmt.now tt) (λ n. block_acts program.now n frame.now rest.now tt)) }
    ensures less { IfSome result (λ rest. block_nodes rest.now < stmt_nodes stmt.now) }
{
    if is_done(program, machine, frame, stmt) {
        return Some(&[]);
    }
    let part = chosen(program, machine, frame, stmt)?;
    let count = done_plainly(program, machine, frame, part);
    Some(&part[count..])
}

/// Does at once what it can of statements: where that stopped, if not after the last one.
pub fn done_first<'a>(
    program: &'a Program,
    machine: &mut Machine,
    frame: &Frame,
    stmts: &'a [TypedStmt],
) -> Option<Position<'a>>
    ensures within { IfSome result (λ at. at.count ≤ length stmts.now) }
    ensures less { IfSome result (λ at. IsLess stmts.now at) }
    ensures passes { Passes (kept_by machine.old) (kept_by machine.new)
        (λ n. block_acts program.now n frame.now stmts.now tt) (left_at program.now frame.now stmts.now result) }
{
    for at in 0..stmts.len() {
        match left_of(program, machine, frame, &stmts[at]) {
            None => {
                return Some(Position {
                    part: &[],
                    count: at,
                });
            }
            Some(part) => {
                if !part.is_empty() {
                    return Some(Position {
                        part,
                        count: at + 1,
                    });
                }
            }
        }
    }
    None
}

// How control leaves a function by a statement, where that is known.
#[inline(always)]
fn exit_by(program: &Program, machine: &Machine, frame: &Frame, stmt: &TypedStmt) -> Option<Leaving>
    ensures { IfSome result (λ exit. (rest : List TypedStmt) → Passes (kept_by machine.now) (kept_by machine.now)
        (λ n s. block_acts program.now n frame.now (stmt.now ∷ rest) tt s) (λ n s. leave (exit_of exit) tt s)) }
{
    match &stmt.kind {
        TypedStmtKind::Return => Some(Leaving::Return(None)),
        TypedStmtKind::ReturnValue(value) => {
            let value = value.get();
            if let Some(known) = sc_run_value::value_at_once(&machine.blocks, &frame.scope, value) {
                return Some(Leaving::Return(Some(known)));
            }
            match sc_run_value::evaluate(&machine.blocks, &frame.scope, Want::Value, value) {
                Ok(value) => Some(Leaving::Return(Some(value))),
                Err(_) => None,
            }
        }
        _ => None,
    }
}

/// How control leaves the last statements of a function, where that is known at once.
pub fn exit_at_once(
    program: &Program,
    machine: &Machine,
    frame: &Frame,
    stmts: &[TypedStmt],
) -> Option<Leaving>
    ensures { IfSome result (λ exit. Passes (kept_by machine.now) (kept_by machine.now)
        (λ n s. block_acts program.now n frame.now stmts.now tt s) (λ n s. leave (exit_of exit) tt s)) }
{
    match stmts {
        [] => Some(Leaving::Next),
        [stmt, ..] => exit_by(program, machine, frame, stmt),
    }
}

// The word that a function returns by a statement, where it is known at once.
#[inline(always)]
fn word_by(program: &Program, machine: &Machine, frame: &Frame, stmt: &TypedStmt) -> Option<u32>
    ensures { IfSome result (λ word. (rest : List TypedStmt) → Passes (kept_by machine.now) (kept_by machine.now)
        (λ n s. block_acts program.now n frame.now (stmt.now ∷ rest) tt s)
        (λ n s. leave (Return (Some (Word word))) tt s)) }
{
    match &stmt.kind {
        TypedStmtKind::ReturnValue(value) => {
            match sc_run_value::value_at_once(&machine.blocks, &frame.scope, value.get()) {
                Some(Value::Word(word)) => Some(word),
                _ => None,
            }
        }
        _ => None,
    }
}

/// The word that a function returns by the first of its last statements, where it is known at once.
#[inline(never)]
pub fn word_returned(
    program: &Program,
    machine: &Machine,
    frame: &Frame,
    stmts: &[TypedStmt],
) -> Option<u32>
    ensures { IfSome result (λ word. Passes (kept_by machine.now) (kept_by machine.now)
        (λ n s. block_acts program.now n frame.now stmts.now tt s)
        (λ n s. leave (Return (Some (Word word))) tt s)) }
{
    match stmts {
        [] => None,
        [stmt, ..] => word_by(program, machine, frame, stmt),
    }
}

/// A part of a `for` that makes no call, or nothing.
#[inline(always)]
pub fn is_part_done(
    program: &Program,
    machine: &mut Machine,
    frame: &Frame,
    part: &TypedSimple,
) -> bool
    ensures { PassesIf result (kept_by machine.old) (kept_by machine.new)
        (λ n. simple_does c_arith frame.now.scope.structs.now (here_of frame.now.scope) frame.now.scope.params
        (calls_in program.now n) part.now.kind part.now.line tt) ended_so }
{
    match &part.kind {
        TypedSimpleKind::Assign { place, value } => {
            is_assigned(machine, frame, place.get(), value.get(), part.line)
        }
        _ => false,
    }
}

/// What comes before the next round of a loop, or nothing.
pub fn is_next_done(program: &Program, machine: &mut Machine, frame: &Frame, whole: &Loop) -> bool
    ensures { PassesIf result (kept_by machine.old) (kept_by machine.new)
        (λ n. next_acts program.now n frame.now whole.now tt) ended_so }
{
    match whole.next {
        None => true,
        Some(next) => is_part_done(program, machine, frame, next),
    }
}

// The test of a loop where it holds, and a turn; or nothing.
#[inline(always)]
fn is_begun(program: &Program, machine: &mut Machine, frame: &Frame, whole: &Loop) -> bool
    ensures passes { PassesIf result (kept_by machine.old) (kept_by machine.new)
        (λ n. loop_acts program.now n frame.now whole.now tt)
        (in_body program.now frame.now whole.now whole.now.body.now) }
    ensures taken { result ≡ true → machine.old.turns ≡ suc machine.new.turns }
{
    if machine.turns == 0 {
        return false;
    }
    if !sc_run_value::holds(&machine.blocks, &frame.scope, whole.cond) {
        return false;
    }
    machine.turns -= 1;
    true
}

/// As many rounds of a loop as are done at once: where that stopped in the body of a round, or none where the loop
/// stands before a round.
pub fn done_rounds<'a>(
    program: &'a Program,
    machine: &mut Machine,
    frame: &Frame,
    whole: &Loop<'a>,
) -> Option<Position<'a>>
    ensures within { IfSome result (λ at. at.count ≤ length whole.now.body.now) }
    ensures less { IfSome result (λ at. IsLess whole.now.body.now at) }
    ensures taken { IfSome result (λ at. machine.new.turns < machine.old.turns) }
    ensures passes { Passes (kept_by machine.old) (kept_by machine.new)
        (λ n. loop_acts program.now n frame.now whole.now tt) (in_round program.now frame.now whole.now result) }
{
    if is_short(whole.body) {
        return planned_rounds(program, machine, frame, whole);
    }
    while is_begun(program, machine, frame, whole) {
        if let Some(at) = done_first(program, machine, frame, whole.body) {
            return Some(at);
        }
        if !is_next_done(program, machine, frame, whole) {
            return Some(Position {
                part: &[],
                count: whole.body.len(),
            });
        }
    }
    None
}
