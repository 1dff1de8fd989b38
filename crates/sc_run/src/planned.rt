//! Rounds of loops by plans, which are made once and followed in each round: of the test, of what comes before the next
//! round, and of a body that is a few assignments.

ghost use Rattle.sc_run.specs.Assignments.{AreStmts, IsFound, IsNext, IsPart, IsStmt};
ghost use Rattle.sc_run.specs.Prelude.{IsLess, Passes, PassesIf, assign, block_acts, c_arith, ended_so, here_of};
ghost use Rattle.sc_run.specs.Prelude.{calls_in, in_body, in_round, kept_by, loop_acts, next_acts, simple_does};
ghost use Rattle.sc_run.specs.Prelude.{stmt_acts, way_in};
ghost use Rattle.sc_run_value.specs.Plans.{IsPlanOf};
ghost use Rattle.std.specs.Prelude.{◌≡◌, ◌<◌, ◌≤◌, IfSome, Some, drop, length, slice_get, suc, true};
ghost use Rattle.sc_core.specs.declared.stmt.TypedStmt.{TypedStmt};

use crate::plain::{done_first, is_done, is_part_done};
use crate::state::Machine;
use crate::work::{Frame, Loop, Position};
use sc_core::{Program, TypedSimple, TypedSimpleKind, TypedStmt, TypedStmtKind};
use sc_run_value::{Assignment, Plan, assignment_of, plan_of};

// A loop with a longer body is done without plans.
const MOST: usize = 4;

// Whether a statement is an assignment without a call.
#[inline(always)]
fn is_assignment(stmt: &TypedStmt) -> bool {
    match &stmt.kind {
        TypedStmtKind::Assign { .. } => true,
        _ => false,
    }
}

/// Whether plans of these statements are worth while: they are few, and assignments.
#[inline(always)]
pub fn is_short(stmts: &[TypedStmt]) -> bool
    ensures { result ≡ true → length stmts.now ≤ 4 }
{
    match stmts {
        [first] => is_assignment(first),
        [first, second] => is_assignment(first) && is_assignment(second),
        [first, second, third] => {
            is_assignment(first) && is_assignment(second) && is_assignment(third)
        }
        [first, second, third, fourth] => {
            is_assignment(first)
                && is_assignment(second)
                && is_assignment(third)
                && is_assignment(fourth)
        }
        _ => false,
    }
}

// The assignment that a statement is.
fn stmt_plan<'a>(frame: &Frame, stmts: &'a [TypedStmt], at: usize) -> Option<Assignment<'a>>
    ensures { (stmt : TypedStmt) → slice_get stmts.now at ≡ Some stmt → IfSome result (IsStmt frame.now stmt) }
{
    if at >= stmts.len() {
        return None;
    }
    match &stmts[at].kind {
        TypedStmtKind::Assign { place, value } => {
            Some(assignment_of(&frame.scope, place.get(), value.get()))
        }
        _ => None,
    }
}

// The assignments that statements are.
#[tactic(auto, using(crate::proofs::Assignments::four))]
fn body_plans<'a>(frame: &Frame, stmts: &'a [TypedStmt]) -> [Option<Assignment<'a>>; MOST]
    ensures { AreStmts frame.now stmts.now result }
{
    [
        stmt_plan(frame, stmts, 0),
        stmt_plan(frame, stmts, 1),
        stmt_plan(frame, stmts, 2),
        stmt_plan(frame, stmts, 3),
    ]
}

// The assignment that comes before the next round.
fn next_plan<'a>(frame: &Frame, whole: &Loop<'a>) -> Option<Assignment<'a>>
    ensures { IsNext frame.now whole.now result }
{
    match whole.next {
        None => None,
        Some(next) => match &next.kind {
            TypedSimpleKind::Assign { place, value } => {
                Some(assignment_of(&frame.scope, place.get(), value.get()))
            }
            _ => None,
        },
    }
}

// Whether the first of these statements is a call, so that none of them is done at once before it.
fn calls_first(stmts: &[TypedStmt]) -> bool {
    match stmts {
        [] => false,
        [first, ..] => match &first.kind {
            TypedStmtKind::AssignCall { .. } => true,
            TypedStmtKind::Call(_) => true,
            _ => false,
        },
    }
}

/// Plans of the test of a loop, and of what comes before its next round; and whether its body begins with a call.
#[derive(Clone, Copy)]
pub struct LoopPlan<'a> {
    pub cond: Plan,
    pub next: Option<Assignment<'a>>,
    pub calls_first: bool,
}

/// The plans of a loop.
pub fn loop_plan<'a>(frame: &Frame, whole: &Loop<'a>) -> LoopPlan<'a>
    ensures cond { IsPlanOf result.cond (way_in frame.now whole.now.cond.now) }
    ensures next { IsNext frame.now whole.now result.next }
{
    LoopPlan {
        cond: plan_of(&frame.scope, whole.cond),
        next: next_plan(frame, whole),
        calls_first: calls_first(whole.body),
    }
}

// An assignment that meets no cause of blame, or nothing.
#[inline(always)]
fn is_assigned_by(machine: &mut Machine, frame: &Frame, assignment: &Assignment, line: u32) -> bool
    requires { IsFound frame.now assignment.now }
    ensures { PassesIf result (kept_by machine.old) (kept_by machine.new)
        (λ n. assign (here_of frame.now.scope) (way_in frame.now assignment.now.place.now)
        (way_in frame.now assignment.now.value.now) line tt) ended_so }
{
    sc_run_value::is_assigned_by(&mut machine.blocks, &frame.scope, assignment)
}

// A statement that makes no call and doesn't leave, or nothing.
#[inline(always)]
fn is_done_by(
    program: &Program,
    machine: &mut Machine,
    frame: &Frame,
    stmt: &TypedStmt,
    planned: &Option<Assignment>,
) -> bool
    requires { IfSome planned.now (IsStmt frame.now stmt.now) }
    ensures { PassesIf result (kept_by machine.old) (kept_by machine.new)
        (λ n. stmt_acts program.now n frame.now stmt.now tt) ended_so }
{
    match planned {
        Some(assignment) => is_assigned_by(machine, frame, assignment, stmt.line),
        None => is_done(program, machine, frame, stmt),
    }
}

// How many of the first statements were done at once.
#[inline(always)]
#[tactic(auto, using(crate::proofs::Assignments::planned_at))]
fn done_by(
    program: &Program,
    machine: &mut Machine,
    frame: &Frame,
    stmts: &[TypedStmt],
    planned: &[Option<Assignment>; MOST],
) -> usize
    requires short { length stmts.now ≤ 4 }
    requires planned { AreStmts frame.now stmts.now planned.now }
    ensures within { result ≤ length stmts.now }
    ensures passes { Passes (kept_by machine.old) (kept_by machine.new)
        (λ n s. block_acts program.now n frame.now stmts.now tt s)
        (λ n s. block_acts program.now n frame.now (drop result stmts.now) tt s) }
{
    for at in 0..stmts.len() {
        if !is_done_by(program, machine, frame, &stmts[at], &planned[at]) {
            return at;
        }
    }
    stmts.len()
}

// How many of the first statements were done at once, where there is one statement.
#[inline(always)]
fn done_one_by(
    program: &Program,
    machine: &mut Machine,
    frame: &Frame,
    stmts: &[TypedStmt],
    planned: &Option<Assignment>,
) -> usize
    requires one { length stmts.now ≡ 1 }
    requires planned { (stmt : TypedStmt) → slice_get stmts.now 0 ≡ Some stmt →
        IfSome planned.now (IsStmt frame.now stmt) }
    ensures within { result ≤ length stmts.now }
    ensures passes { Passes (kept_by machine.old) (kept_by machine.new)
        (λ n s. block_acts program.now n frame.now stmts.now tt s)
        (λ n s. block_acts program.now n frame.now (drop result stmts.now) tt s) }
{
    if is_done_by(program, machine, frame, &stmts[0], planned) {
        return 1;
    }
    0
}

// A part of a `for` that makes no call, or nothing.
#[inline(always)]
fn is_part_done_by(
    program: &Program,
    machine: &mut Machine,
    frame: &Frame,
    part: &TypedSimple,
    planned: &Option<Assignment>,
) -> bool
    requires { IfSome planned.now (IsPart frame.now part.now) }
    ensures { PassesIf result (kept_by machine.old) (kept_by machine.new)
        (λ n. simple_does c_arith frame.now.scope.structs.now (here_of frame.now.scope) frame.now.scope.params
        (calls_in program.now n) part.now.kind part.now.line tt) ended_so }
{
    match planned {
        Some(assignment) => is_assigned_by(machine, frame, assignment, part.line),
        None => is_part_done(program, machine, frame, part),
    }
}

/// What comes before the next round of a loop, or nothing.
#[inline(always)]
pub fn is_next_done_by(
    program: &Program,
    machine: &mut Machine,
    frame: &Frame,
    whole: &Loop,
    planned: &Option<Assignment>,
) -> bool
    requires { IsNext frame.now whole.now planned.now }
    ensures { PassesIf result (kept_by machine.old) (kept_by machine.new)
        (λ n. next_acts program.now n frame.now whole.now tt) ended_so }
{
    match whole.next {
        None => true,
        Some(next) => is_part_done_by(program, machine, frame, next, planned),
    }
}

// The test of a loop where it holds, and a turn; or nothing.
#[inline(always)]
fn is_begun_by(
    program: &Program,
    machine: &mut Machine,
    frame: &Frame,
    whole: &Loop,
    plan: &Plan,
) -> bool
    requires { IsPlanOf plan.now (way_in frame.now whole.now.cond.now) }
    ensures passes { PassesIf result (kept_by machine.old) (kept_by machine.new)
        (λ n. loop_acts program.now n frame.now whole.now tt)
        (in_body program.now frame.now whole.now whole.now.body.now) }
    ensures taken { result ≡ true → machine.old.turns ≡ suc machine.new.turns }
{
    if machine.turns == 0 {
        return false;
    }
    if !sc_run_value::holds_by(&machine.blocks, &frame.scope, plan, whole.cond) {
        return false;
    }
    machine.turns -= 1;
    true
}

/// As many rounds of a loop as are done at once, as `done_rounds` says, by its plans.
pub fn done_rounds_by<'a>(
    program: &'a Program,
    machine: &mut Machine,
    frame: &Frame,
    whole: &Loop<'a>,
    plan: &LoopPlan,
) -> Option<Position<'a>>
    requires cond { IsPlanOf plan.now.cond (way_in frame.now whole.now.cond.now) }
    requires next { IsNext frame.now whole.now plan.now.next }
    ensures within { IfSome result (λ at. at.count ≤ length whole.now.body.now) }
    ensures less { IfSome result (λ at. IsLess whole.now.body.now at) }
    ensures taken { IfSome result (λ at. machine.new.turns < machine.old.turns) }
    ensures passes { Passes (kept_by machine.old) (kept_by machine.new)
        (λ n. loop_acts program.now n frame.now whole.now tt) (in_round program.now frame.now whole.now result) }
{
    while is_begun_by(program, machine, frame, whole, &plan.cond) {
        if plan.calls_first {
            return Some(Position {
                part: &[],
                count: 0,
            });
        }
        if let Some(at) = done_first(program, machine, frame, whole.body) {
            return Some(at);
        }
        if !is_next_done_by(program, machine, frame, whole, &plan.next) {
            return Some(Position {
                part: &[],
                count: whole.body.len(),
            });
        }
    }
    None
}

// As many rounds of a loop whose body is one statement as are done at once, as `done_rounds` says.
#[inline(never)]
fn rounds_of_one<'a>(
    program: &'a Program,
    machine: &mut Machine,
    frame: &Frame,
    whole: &Loop<'a>,
) -> Option<Position<'a>>
    requires { length whole.now.body.now ≡ 1 }
    ensures within { IfSome result (λ at. at.count ≤ length whole.now.body.now) }
    ensures less { IfSome result (λ at. IsLess whole.now.body.now at) }
    ensures taken { IfSome result (λ at. machine.new.turns < machine.old.turns) }
    ensures passes { Passes (kept_by machine.old) (kept_by machine.new)
        (λ n. loop_acts program.now n frame.now whole.now tt) (in_round program.now frame.now whole.now result) }
{
    let cond = plan_of(&frame.scope, whole.cond);
    let first = stmt_plan(frame, whole.body, 0);
    let next = next_plan(frame, whole);
    while is_begun_by(program, machine, frame, whole, &cond) {
        let count = done_one_by(program, machine, frame, whole.body, &first);
        if count < whole.body.len() {
            return Some(Position { part: &[], count });
        }
        if !is_next_done_by(program, machine, frame, whole, &next) {
            return Some(Position {
                part: &[],
                count: whole.body.len(),
            });
        }
    }
    None
}

/// As many rounds of a loop with a short body as are done at once, as `done_rounds` says.
#[inline(never)]
pub fn planned_rounds<'a>(
    program: &'a Program,
    machine: &mut Machine,
    frame: &Frame,
    whole: &Loop<'a>,
) -> Option<Position<'a>>
    requires { length whole.now.body.now ≤ 4 }
    ensures within { IfSome result (λ at. at.count ≤ length whole.now.body.now) }
    ensures less { IfSome result (λ at. IsLess whole.now.body.now at) }
    ensures taken { IfSome result (λ at. machine.new.turns < machine.old.turns) }
    ensures passes { Passes (kept_by machine.old) (kept_by machine.new)
        (λ n. loop_acts program.now n frame.now whole.now tt) (in_round program.now frame.now whole.now result) }
{
    if whole.body.len() == 1 {
        return rounds_of_one(program, machine, frame, whole);
    }
    let cond = plan_of(&frame.scope, whole.cond);
    let body = body_plans(frame, whole.body);
    let next = next_plan(frame, whole);
    while is_begun_by(program, machine, frame, whole, &cond) {
        let count = done_by(program, machine, frame, whole.body, &body);
        if count < whole.body.len() {
            return Some(Position { part: &[], count });
        }
        if !is_next_done_by(program, machine, frame, whole, &next) {
            return Some(Position {
                part: &[],
                count: whole.body.len(),
            });
        }
    }
    None
}
