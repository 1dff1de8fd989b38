//! Statements with calls in them, and rounds of loops, as far as they are done at once.

ghost use Rattle.sc_run.specs.Prelude.{Advances, Completes, IsCall, IsLess, ReachesOr, WaitsFirst, block_acts};
ghost use Rattle.sc_run.specs.Prelude.{block_weight, call_acts, follow, in_order, kept_by, left_at, place_weight};
ghost use Rattle.sc_run.specs.Prelude.{unless_done};
ghost use Rattle.std.specs.Prelude.{◌≡◌, ◌+◌, ◌≤◌, IfOk, IfSome, Some, length, suc};

use crate::inside::made_at_once;
use crate::plain::{done_first, done_rounds, is_next_done};
use crate::planned::{done_rounds_by, is_next_done_by, loop_plan};
use crate::steps::{begin_round, go_on};
use crate::taken::{keep_end, keep_now, keep_statements, last_step};
use crate::work::{Leaving, Loop, Made, Now, Position, Run, Step, To, Work};
use sc_base::OutOfMemory;
use sc_core::{Program, TypedStmt, TypedStmtKind};

// The call of a statement that is no more.
#[inline(always)]
fn call_in<'a>(program: &'a Program, stmt: &'a TypedStmt) -> Option<Made<'a>>
    ensures call { IfSome result (λ made. IsCall program.now stmt.now made.call.now made.to) }
    ensures line { IfSome result (λ made. made.line ≡ stmt.now.line) }
{
    match &stmt.kind {
        TypedStmtKind::AssignCall { place, call } => Some(Made {
            call: call.get(),
            to: To::Place(place.get(), stmt.line),
            line: stmt.line,
        }),
        TypedStmtKind::Call(call) => Some(Made {
            call: call.get(),
            to: To::Nowhere,
            line: stmt.line,
        }),
        _ => None,
    }
}

// A call before statements that follow it. They wait for it where it isn't done at once.
fn made_before<'a>(
    program: &'a Program,
    run: &mut Run<'a, '_>,
    made: &Made<'a>,
    rest: &'a [TypedStmt],
) -> Result<bool, OutOfMemory>
    ensures { IfOk result (λ done. ReachesOr program.now (unless_done done run.new.taken)
        (8 + block_weight rest.now) (kept_by run.old.machine)
        run.old.work.items run.old.frame (λ n s. follow in_order
        (call_acts program.now run.old.frame made.now.call.now made.now.to made.now.line n s)
        (block_acts program.now n run.old.frame rest.now)) run.old.work.items run.old.frame run.new
        (suc (block_weight rest.now)) (λ n s. block_acts program.now n run.old.frame rest.now tt s)) }
{
    run.work.push(Work::Rest(rest))?;
    match made_at_once(program, run, made) {
        Ok(done) => {
            if done {
                run.work.pop();
                return Ok(true);
            }
            Ok(false)
        }
        Err(error) => Err(error),
    }
}

// Statements from a place in a part of one, a step later.
fn left_for_later<'a>(
    program: &'a Program,
    run: &mut Run<'a, '_>,
    stmts: &'a [TypedStmt],
    at: Position<'a>,
) -> Result<bool, OutOfMemory>
    requires { at.count ≤ length stmts.now }
    ensures { IfOk result (λ done. Completes program.now (unless_done done run.new.taken)
        (place_weight stmts.now at.entry) run.old
        (left_at program.now run.old.frame stmts.now (Some at.entry)) run.new) }
{
    match go_on(program, run, stmts, at) {
        Ok(Step::Go(now)) => Ok(keep_now(&mut run.taken, now)),
        Ok(Step::Stop(end)) => Ok(keep_end(&mut run.taken, end)),
        Err(error) => Err(error),
    }
}

// Statements, of which the first isn't done at once where it calls nobody.
fn done_with_calls<'a>(
    program: &'a Program,
    run: &mut Run<'a, '_>,
    stmts: &'a [TypedStmt],
) -> Result<bool, OutOfMemory>
    ensures { IfOk result (λ done. Completes program.now (unless_done done run.new.taken)
        (suc (block_weight stmts.now)) run.old
        (λ n s. block_acts program.now n run.old.frame stmts.now tt s) run.new) }
{
    let mut at = 0;
    while at < stmts.len() {
        let Some(made) = call_in(program, &stmts[at]) else {
            return Ok(keep_statements(&mut run.taken, &stmts[at..]));
        };
        let rest = &stmts[at + 1..];
        if rest.is_empty() {
            return made_at_once(program, run, &made);
        }
        match made_before(program, run, &made, rest) {
            Ok(done) => {
                if !done {
                    return Ok(false);
                }
            }
            Err(error) => return Err(error),
        }
        match done_first(program, &mut run.machine, &run.frame, rest) {
            None => return Ok(true),
            Some(place) => {
                if !place.part.is_empty() {
                    return left_for_later(program, run, rest, place);
                }
                at += 1 + place.count;
            }
        }
    }
    Ok(true)
}

// Statements from a place in them.
fn done_from<'a>(
    program: &'a Program,
    run: &mut Run<'a, '_>,
    stmts: &'a [TypedStmt],
    at: Position<'a>,
) -> Result<bool, OutOfMemory>
    requires { at.count ≤ length stmts.now }
    ensures { IfOk result (λ done. Completes program.now (unless_done done run.new.taken)
        (place_weight stmts.now at.entry) run.old
        (left_at program.now run.old.frame stmts.now (Some at.entry)) run.new) }
{
    if at.part.is_empty() {
        return done_with_calls(program, run, &stmts[at.count..]);
    }
    left_for_later(program, run, stmts, at)
}

// Rounds of a loop that waits, by its plans, from a place in its body, as far as they are done at once.
fn rounds_by<'a>(
    program: &'a Program,
    run: &mut Run<'a, '_>,
    whole: &Loop<'a>,
    first: Position<'a>,
) -> Result<Step<'a>, OutOfMemory>
    requires within { first.count ≤ length whole.now.body.now }
    requires less { IsLess whole.now.body.now first }
    requires waits { WaitsFirst (Work.Body whole.now) run.old.work.items }
    ensures { IfOk result (λ step. Advances program.now (place_weight whole.now.body.now first.entry) run.old
        (left_at program.now run.old.frame whole.now.body.now (Some first.entry)) step run.new) }
{
    let plan = loop_plan(&run.frame, whole);
    let mut at = first;
    loop {
        match done_from(program, run, whole.body, at) {
            Ok(done) => {
                if !done {
                    return Ok(last_step(&run.taken));
                }
            }
            Err(error) => return Err(error),
        }
        if !is_next_done_by(program, &mut run.machine, &run.frame, whole, &plan.next) {
            return Ok(Step::Go(Now::Leave(Leaving::Next)));
        }
        match done_rounds_by(program, &mut run.machine, &run.frame, whole, &plan) {
            None => {
                run.work.pop();
                return begin_round(program, run, whole);
            }
            Some(place) => at = place,
        }
    }
}

/// Rounds of a loop that waits, from a place in its body, as far as they are done at once. Plans are made
/// for the second round and those after it.
pub fn rounds<'a>(
    program: &'a Program,
    run: &mut Run<'a, '_>,
    whole: &Loop<'a>,
    first: Position<'a>,
) -> Result<Step<'a>, OutOfMemory>
    requires within { first.count ≤ length whole.now.body.now }
    requires less { IsLess whole.now.body.now first }
    requires waits { WaitsFirst (Work.Body whole.now) run.old.work.items }
    ensures { IfOk result (λ step. Advances program.now (place_weight whole.now.body.now first.entry) run.old
        (left_at program.now run.old.frame whole.now.body.now (Some first.entry)) step run.new) }
{
    match done_from(program, run, whole.body, first) {
        Ok(done) => {
            if !done {
                return Ok(last_step(&run.taken));
            }
        }
        Err(error) => return Err(error),
    }
    if !is_next_done(program, &mut run.machine, &run.frame, whole) {
        return Ok(Step::Go(Now::Leave(Leaving::Next)));
    }
    match done_rounds(program, &mut run.machine, &run.frame, whole) {
        None => {
            run.work.pop();
            begin_round(program, run, whole)
        }
        Some(place) => rounds_by(program, run, whole, place),
    }
}
