//! Statements, one step at a time.

ghost use Rattle.sc_run.specs.Prelude.{Advances, Next, Return, and_then, block_acts, choose, evaluated, follow};
ghost use Rattle.sc_run.specs.Prelude.{here_of, in_order, leave, left_at, loop, loop_acts, part_acts, stmt_acts, test};
ghost use Rattle.sc_run.specs.Prelude.{AnotherSuffices, block_nodes, block_weight, kept_by, leaf_weight, loop_weight};
ghost use Rattle.sc_run.specs.Prelude.{place_weight, stmt_weight, way_in};
ghost use Rattle.std.specs.Prelude.{◌≡◌, ◌≤◌, ◌+◌, ◌*◌, IfOk, Some, length};
ghost use Rattle.std.specs.Option.{option_copied};
ghost use Rattle.sc_core.specs.declared.value.Want.TheVariants as want;

use crate::heap::{free, malloc};
use crate::inside::call_made;
use crate::machine::{evaluated, take_turn};
use crate::plain::{done_first, done_rounds};
use crate::rounds::rounds;
use crate::simple::{assigned, simple};
use crate::work::{Leaving, Loop, Made, Now, Position, Run, Step, To, Work};
use sc_base::OutOfMemory;
use sc_core::{Program, TypedExpr, TypedSimple, TypedStmt, TypedStmtKind, Want};
use sc_run_value::is_true;
use sqlite_items::Boxed;

// The statement in the head of a `for`, if it is there.
fn part_of(part: &Option<Boxed<TypedSimple>>) -> Option<&TypedSimple>
    ensures { option_copied result ≡ part.now }
{
    match part {
        None => None,
        Some(part) => Some(part.get()),
    }
}

// The first statements where the condition holds, else the second.
fn branch<'a>(
    program: &'a Program,
    run: &Run<'a, '_>,
    cond: &TypedExpr,
    line: u32,
    first: &'a [TypedStmt],
    second: &'a [TypedStmt],
) -> Step<'a>
    ensures { Advances program.now (3 + 8 * (block_nodes first.now + block_nodes second.now)) run.now (λ n s. and_then
        (evaluated (here_of run.now.frame.scope) want.Value (way_in run.now.frame cond.now) line s)
        (λ v s. choose v (block_acts program.now n run.now.frame first.now tt s)
        (block_acts program.now n run.now.frame second.now tt s))) result run.now }
{
    match evaluated(&run.machine, &run.frame, Want::Value, cond, line) {
        Ok(value) => {
            if is_true(value) {
                Step::Go(Now::Run(first))
            } else {
                Step::Go(Now::Run(second))
            }
        }
        Err(end) => Step::Stop(end),
    }
}

/// A round of a loop: its test, a turn, and its body.
pub fn begin_round<'a>(
    program: &'a Program,
    run: &mut Run<'a, '_>,
    whole: &Loop<'a>,
) -> Result<Step<'a>, OutOfMemory>
    ensures { IfOk result (λ step. Advances program.now (loop_weight whole.now) run.old
        (λ n. loop_acts program.now n run.old.frame whole.now tt) step run.new) }
{
    match evaluated(
        &run.machine,
        &run.frame,
        Want::Value,
        whole.cond,
        whole.line,
    ) {
        Ok(value) => {
            if !is_true(value) {
                return Ok(Step::Go(Now::Leave(Leaving::Next)));
            }
            match take_turn(&mut run.machine) {
                Ok(()) => {
                    run.work.push(Work::Body(*whole))?;
                    Ok(Step::Go(Now::Run(whole.body)))
                }
                Err(end) => Ok(Step::Stop(end)),
            }
        }
        Err(end) => Ok(Step::Stop(end)),
    }
}

/// Statements from a place in them. Those after a part wait for it, if there are any.
pub fn go_on<'a>(
    program: &'a Program,
    run: &mut Run<'a, '_>,
    stmts: &'a [TypedStmt],
    at: Position<'a>,
) -> Result<Step<'a>, OutOfMemory>
    requires { at.count ≤ length stmts.now }
    ensures { IfOk result (λ step. Advances program.now (place_weight stmts.now at.entry) run.old
        (left_at program.now run.old.frame stmts.now (Some at.entry)) step run.new) }
{
    let rest = &stmts[at.count..];
    if at.part.is_empty() {
        return Ok(Step::Go(Now::Run(rest)));
    }
    if rest.is_empty() {
        return Ok(Step::Go(Now::Run(at.part)));
    }
    run.work.push(Work::Rest(rest))?;
    Ok(Step::Go(Now::Run(at.part)))
}

/// A loop from here.
pub fn round<'a>(
    program: &'a Program,
    run: &mut Run<'a, '_>,
    whole: &Loop<'a>,
) -> Result<Step<'a>, OutOfMemory>
    ensures { IfOk result (λ step. Advances program.now (loop_weight whole.now) run.old
        (λ n. loop_acts program.now n run.old.frame whole.now tt) step run.new) }
{
    match done_rounds(program, &mut run.machine, &run.frame, whole) {
        None => begin_round(program, run, whole),
        Some(at) => {
            run.work.push(Work::Body(*whole))?;
            rounds(program, run, whole, at)
        }
    }
}

// A `while`.
fn while_loop<'a>(
    program: &'a Program,
    run: &mut Run<'a, '_>,
    cond: &'a TypedExpr,
    body: &'a [TypedStmt],
    line: u32,
) -> Result<Step<'a>, OutOfMemory>
    ensures { IfOk result (λ step. Advances program.now (block_weight body.now) run.old
        (λ n. loop (test (here_of run.old.frame.scope) (way_in run.old.frame cond.now) line)
        (block_acts program.now n run.old.frame body.now) (leave Next) tt) step run.new) }
{
    let whole = Loop {
        cond,
        body,
        next: None,
        line,
    };
    round(program, run, &whole)
}

// The first part of a `for`, and then the loop.
fn first_part<'a>(
    program: &'a Program,
    run: &mut Run<'a, '_>,
    first: &'a Option<Boxed<TypedSimple>>,
    whole: &Loop<'a>,
) -> Result<Step<'a>, OutOfMemory>
    requires { AnotherSuffices (kept_by run.old.machine) }
    ensures { IfOk result (λ step. Advances program.now (2 + loop_weight whole.now) run.old
        (λ n s. follow in_order (part_acts program.now n run.old.frame first.now tt s)
        (loop_acts program.now n run.old.frame whole.now)) step run.new) }
{
    match first {
        None => round(program, run, whole),
        Some(first) => {
            run.work.push(Work::First(*whole))?;
            simple(program, run, first.get())
        }
    }
}

// A value to return.
fn returned_value<'a>(
    program: &'a Program,
    run: &Run<'a, '_>,
    value: &TypedExpr,
    line: u32,
) -> Step<'a>
    ensures { Advances program.now leaf_weight run.now (λ n s. and_then
        (evaluated (here_of run.now.frame.scope) want.Value (way_in run.now.frame value.now) line s)
        (λ v s. leave (Return (Some v)) tt s)) result run.now }
{
    match evaluated(&run.machine, &run.frame, Want::Value, value, line) {
        Ok(value) => Step::Go(Now::Leave(Leaving::Return(Some(value)))),
        Err(end) => Step::Stop(end),
    }
}

// A statement.
fn statement<'a>(
    program: &'a Program,
    run: &mut Run<'a, '_>,
    stmt: &'a TypedStmt,
) -> Result<Step<'a>, OutOfMemory>
    requires { AnotherSuffices (kept_by run.old.machine) }
    ensures { IfOk result (λ step. Advances program.now (stmt_weight stmt.now) run.old
        (λ n. stmt_acts program.now n run.old.frame stmt.now tt) step run.new) }
{
    let line = stmt.line;
    match &stmt.kind {
        TypedStmtKind::Empty => Ok(Step::Go(Now::Leave(Leaving::Next))),
        TypedStmtKind::Break => Ok(Step::Go(Now::Leave(Leaving::Break))),
        TypedStmtKind::Continue => Ok(Step::Go(Now::Leave(Leaving::Continue))),
        TypedStmtKind::Return => Ok(Step::Go(Now::Leave(Leaving::Return(None)))),
        TypedStmtKind::Assign { place, value } => Ok(assigned(
            program,
            run,
            place.get(),
            value.get(),
            line,
        )),
        TypedStmtKind::AssignCall { place, call } => {
            let to = To::Place(place.get(), line);
            let call = call.get();
            call_made(program, run, &Made { call, to, line })
        }
        TypedStmtKind::Call(call) => {
            let to = To::Nowhere;
            let call = call.get();
            call_made(program, run, &Made { call, to, line })
        }
        TypedStmtKind::Malloc {
            place,
            count,
            cells,
        } => malloc(program, run, place.get(), count, *cells, line),
        TypedStmtKind::Free(pointer) => Ok(free(program, run, pointer.get(), line)),
        TypedStmtKind::ReturnCall(call) => {
            let to = To::Back;
            let call = call.get();
            call_made(program, run, &Made { call, to, line })
        }
        TypedStmtKind::ReturnValue(value) => { Ok(returned_value(program, run, value.get(), line)) }
        TypedStmtKind::If {
            cond,
            then_part,
            else_part,
        } => Ok(branch(
            program,
            run,
            cond.get(),
            line,
            then_part.as_slice(),
            else_part.as_slice(),
        )),
        TypedStmtKind::While { cond, body } => {
            let body = body.as_slice();
            while_loop(program, run, cond.get(), body, line)
        }
        TypedStmtKind::For {
            first,
            cond,
            next,
            body,
        } => {
            let whole = Loop {
                cond: cond.get(),
                body: body.as_slice(),
                next: part_of(next),
                line,
            };
            first_part(program, run, first, &whole)
        }
    }
}

// The first of these statements, or what follows them. Nothing waits after the last one.
fn run_first<'a>(
    program: &'a Program,
    run: &mut Run<'a, '_>,
    stmts: &'a [TypedStmt],
) -> Result<Step<'a>, OutOfMemory>
    requires { AnotherSuffices (kept_by run.old.machine) }
    ensures { IfOk result (λ step. Advances program.now (block_weight stmts.now) run.old
        (λ n s. block_acts program.now n run.old.frame stmts.now tt s) step run.new) }
{
    match stmts {
        [] => Ok(Step::Go(Now::Leave(Leaving::Next))),
        [stmt, rest @ ..] => {
            if stmts.len() == 1 {
                return statement(program, run, stmt);
            }
            run.work.push(Work::Rest(rest))?;
            statement(program, run, stmt)
        }
    }
}

/// The first of these statements that isn't done at once, or what follows them.
pub fn run_list<'a>(
    program: &'a Program,
    run: &mut Run<'a, '_>,
    stmts: &'a [TypedStmt],
) -> Result<Step<'a>, OutOfMemory>
    requires { AnotherSuffices (kept_by run.old.machine) }
    ensures { IfOk result (λ step. Advances program.now (block_weight stmts.now) run.old
        (λ n s. block_acts program.now n run.old.frame stmts.now tt s) step run.new) }
{
    match done_first(program, &mut run.machine, &run.frame, stmts) {
        None => Ok(Step::Go(Now::Leave(Leaving::Next))),
        Some(at) => {
            if at.part.is_empty() {
                return run_first(program, run, &stmts[at.count..]);
            }
            go_on(program, run, stmts, at)
        }
    }
}
