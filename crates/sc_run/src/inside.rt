//! Calls that are done at once, up to their return: nothing waits for them. Where one isn't, a step was taken into it.

ghost use Rattle.sc_core.specs.Prelude.{Exit, most_params};
ghost use Rattle.sc_run.specs.Prelude.{Completes, DoneOr, and_then, back_from, block_acts, bodies, body_weight};
ghost use Rattle.sc_run.specs.Prelude.{Seen, State, closes, ended_as, left_by, unless_done};
ghost use Rattle.sc_run.specs.Prelude.{c_arith, call_acts, calls_in, denotations, entry_from, exit_of, function};
ghost use Rattle.sc_run.specs.Prelude.{function_of, kept_by, leaf_weight, leave, result_goes, run_in, turn};
ghost use Rattle.sc_run.specs.Numbers.{HasFewVariables};
ghost use Rattle.sc_run.specs.Prelude.{Advances, Comes, computed, here_of, values, way_in};
ghost use Rattle.std.specs.Prelude.{◌≡◌, ◌≤◌, ◌++◌, ℕ, [], ◌∷◌, IfOk, IfSome, IsTrue, Ok, Some, length, map, take};

use crate::calls::{begin, emit_call};
use crate::leaves::{closed, emit_return, end_variables};
use crate::lookups::{callee_at, entry_callee};
use crate::machine::{init_all, store_at, take_turn};
use crate::plain::{done_first, exit_at_once, word_returned};
use crate::simple;
use crate::simple::{call, may_cross, refusal};
use crate::state::Machine;
use crate::steps::go_on;
use crate::taken::{keep_end, keep_exit, keep_now, last_step};
use crate::work::{Callee, Frame, Leaving, Made, Now, Run, Step, To, Work};
use sc_base::OutOfMemory;
use sc_core::{CallTarget, Program, TypedExpr, Value};
use sc_event::{CompId, Entry};

// How many arguments are found at once.
const FEW: usize = 4;

// The result of a call goes where it is to go. Each function of this file says whether all of it is done; where it
// isn't, `run.taken` is the step that was taken.
#[inline(always)]
fn handed<'a>(program: &'a Program, run: &mut Run<'a, '_>, to: To<'a>, value: Option<Value>) -> bool
    ensures { Completes program.now (unless_done result run.new.taken) leaf_weight run.old
        (λ n s. result_goes program.now run.old.frame to.entry value s) run.new }
{
    match to {
        To::Nowhere => true,
        To::Back => keep_exit(&mut run.taken, Leaving::Return(value)),
        To::Place(place, line) => match value {
            None => true,
            Some(value) => match store_at(&mut run.machine, &run.frame, place, value, line) {
                Ok(()) => true,
                Err(end) => keep_end(&mut run.taken, end),
            },
        },
    }
}

// A value goes back from an export, whose call has ended, with an event.
#[inline(never)]
fn back_across<'a>(
    program: &'a Program,
    run: &mut Run<'a, '_>,
    frame: &Frame<'a>,
    to: To<'a>,
    crossed: Option<u16>,
    value: Option<Value>,
) -> Result<bool, OutOfMemory>
    ensures { IfOk result (λ done. (exit : Exit) (before : Seen) →
        ((s : State) → closes program.now frame.now (record { exit = exit; carried = tt }) s ≡ ended_as (Ok value) s) →
        kept_by run.old.machine ≡ left_by frame.now before →
        DoneOr program.now (unless_done done run.new.taken) 1 before
        (run.old.work.items ++ Work.Caller run.old.frame to.entry crossed ∷ []) frame.now
        (λ n s. leave exit tt s) run.old.work.items run.old.frame run.new) }
{
    let machine = &mut run.machine;
    let back = emit_return(program, machine, &run.frame, frame, crossed, value)?;
    Ok(handed(program, run, to, back))
}

// A call ends whose function called nobody.
#[inline(always)]
fn returned<'a>(
    program: &'a Program,
    run: &mut Run<'a, '_>,
    frame: &Frame<'a>,
    to: To<'a>,
    crossed: Option<u16>,
    exit: Leaving,
) -> Result<bool, OutOfMemory>
    ensures { IfOk result (λ done. DoneOr program.now (unless_done done run.new.taken) 1 (kept_by run.old.machine)
        (run.old.work.items ++ Work.Caller run.old.frame to.entry crossed ∷ []) frame.now
        (λ n s. leave (exit_of exit) tt s) run.old.work.items run.old.frame run.new) }
{
    match closed(program, frame, exit) {
        Err(end) => Ok(keep_end(&mut run.taken, end)),
        Ok(value) => {
            end_variables(&mut run.machine, frame);
            match crossed {
                None => Ok(handed(program, run, to, value)),
                Some(_) => back_across(program, run, frame, to, crossed, value),
            }
        }
    }
}

// The statements of a call that has begun, from the first one on.
#[inline(never)]
fn run_from_first<'a>(
    program: &'a Program,
    run: &mut Run<'a, '_>,
    frame: &Frame<'a>,
    to: To<'a>,
    crossing: Option<u16>,
) -> Result<bool, OutOfMemory>
    ensures { IfOk result (λ done. DoneOr program.now (unless_done done run.new.taken)
        (body_weight frame.now.function.now) (kept_by run.old.machine)
        (run.old.work.items ++ Work.Caller run.old.frame to.entry crossing ∷ []) frame.now
        (λ n s. block_acts program.now n frame.now frame.now.function.now.body tt s)
        run.old.work.items run.old.frame run.new) }
{
    let stmts = frame.function.body.as_slice();
    match done_first(program, &mut run.machine, frame, stmts) {
        None => returned(program, run, frame, to, crossing, Leaving::Next),
        Some(at) => {
            if at.part.is_empty() {
                let rest = &stmts[at.count..];
                if let Some(exit) = exit_at_once(program, &run.machine, frame, rest) {
                    return returned(program, run, frame, to, crossing, exit);
                }
            }
            run.work.push(Work::Caller(run.frame, to, crossing))?;
            run.frame = *frame;
            match go_on(program, run, stmts, at) {
                Ok(Step::Go(now)) => Ok(keep_now(&mut run.taken, now)),
                Ok(Step::Stop(end)) => Ok(keep_end(&mut run.taken, end)),
                Err(error) => Err(error),
            }
        }
    }
}

// The statements of a call that has begun. Where the first one returns a word, it is all that is done.
#[inline(always)]
fn run_at_once<'a>(
    program: &'a Program,
    run: &mut Run<'a, '_>,
    frame: &Frame<'a>,
    to: To<'a>,
    crossing: Option<u16>,
) -> Result<bool, OutOfMemory>
    ensures { IfOk result (λ done. DoneOr program.now (unless_done done run.new.taken)
        (body_weight frame.now.function.now) (kept_by run.old.machine)
        (run.old.work.items ++ Work.Caller run.old.frame to.entry crossing ∷ []) frame.now
        (λ n s. block_acts program.now n frame.now frame.now.function.now.body tt s)
        run.old.work.items run.old.frame run.new) }
{
    let stmts = frame.function.body.as_slice();
    if let Some(word) = word_returned(program, &run.machine, frame, stmts) {
        let exit = Leaving::Return(Some(Value::Word(word)));
        return returned(program, run, frame, to, crossing, exit);
    }
    run_from_first(program, run, frame, to, crossing)
}

// A function, once it is found: a turn, its event, its variables, and its statements.
#[inline(always)]
fn entered<'a>(
    program: &'a Program,
    run: &mut Run<'a, '_>,
    callee: &Callee<'a>,
    args: &[Value],
    to: To<'a>,
    crossing: Option<u16>,
) -> Result<bool, OutOfMemory>
    requires variables { HasFewVariables callee.now.structs.now callee.now.function.now }
    requires words { IfSome crossing (λ _. length args.now ≤ most_params) }
    requires function { function (denotations program.now) callee.now.comp.now callee.now.number ≡
        Some (function_of c_arith program.now.interfaces.main callee.now.structs.now callee.now.function.now) }
    ensures { IfOk result (λ done. Completes program.now (unless_done done run.new.taken) leaf_weight run.old
        (λ n s. and_then (and_then (turn s) (λ _ s. run_in (denotations program.now)
        (bodies program.now n) callee.now.comp.now callee.now.number args.now
        (back_from program.now run.old.frame callee.now crossing)
        (entry_from run.old.frame callee.now args.now crossing s)))
        (result_goes program.now run.old.frame to.entry)) run.new) }
{
    match take_turn(&mut run.machine) {
        Err(end) => Ok(keep_end(&mut run.taken, end)),
        Ok(()) => {
            emit_call(&mut run.machine, &run.frame, callee, args, crossing)?;
            let frame = begin(&mut run.machine, callee, args)?;
            match init_all(&mut run.machine, &frame) {
                Ok(()) => run_at_once(program, run, &frame, to, crossing),
                Err(end) => Ok(keep_end(&mut run.taken, end)),
            }
        }
    }
}

// A function of the compartment is called.
fn called_inside<'a>(
    program: &'a Program,
    run: &mut Run<'a, '_>,
    number: usize,
    args: &[Value],
    to: To<'a>,
) -> Result<bool, OutOfMemory>
    ensures { IfOk result (λ done. Completes program.now (unless_done done run.new.taken) leaf_weight run.old
        (λ n s. and_then (calls_in program.now n run.old.frame.scope.comp.now (CallTarget.Own number) args.now s)
        (result_goes program.now run.old.frame to.entry)) run.new) }
{
    let comp = run.frame.scope.comp;
    match callee_at(program, comp, number) {
        None => {
            let end = refusal(&run.frame);
            Ok(keep_end(&mut run.taken, end))
        }
        Some(callee) => entered(program, run, &callee, args, to, None),
    }
}

// An export of another compartment is called.
#[inline(never)]
fn called_across<'a>(
    program: &'a Program,
    run: &mut Run<'a, '_>,
    comp: &'a CompId,
    index: u16,
    args: &[Value],
    to: To<'a>,
) -> Result<bool, OutOfMemory>
    ensures { IfOk result (λ done. Completes program.now (unless_done done run.new.taken) leaf_weight run.old
        (λ n s. and_then (calls_in program.now n run.old.frame.scope.comp.now
        (CallTarget.Cross comp.now index) args.now s) (result_goes program.now run.old.frame to.entry)) run.new) }
{
    if !may_cross(program, *run.frame.scope.comp, *comp, index, args) {
        let end = refusal(&run.frame);
        return Ok(keep_end(&mut run.taken, end));
    }
    match entry_callee(program, comp, Entry::Export(index)) {
        None => {
            let end = refusal(&run.frame);
            Ok(keep_end(&mut run.taken, end))
        }
        Some(callee) => entered(program, run, &callee, args, to, Some(index)),
    }
}

// Whether the run isn't over by its number of events.
fn may_emit(run: &Run) -> bool {
    run.machine.trace.len() < run.machine.most_events as usize
}

// A call, once its arguments have their values. A call across after the last event is a step, so that the run stops.
fn called<'a>(
    program: &'a Program,
    run: &mut Run<'a, '_>,
    target: &'a CallTarget,
    args: &[Value],
    to: To<'a>,
) -> Result<bool, OutOfMemory>
    ensures { IfOk result (λ done. Completes program.now (unless_done done run.new.taken) leaf_weight run.old
        (λ n s. and_then (calls_in program.now n run.old.frame.scope.comp.now target.now args.now s)
        (result_goes program.now run.old.frame to.entry)) run.new) }
{
    match target {
        CallTarget::Own(number) => {
            return called_inside(program, run, *number as usize, args, to);
        }
        CallTarget::Cross(comp, index) => {
            if may_emit(run) {
                return called_across(program, run, comp, *index, args, to);
            }
        }
        _ => {}
    }
    match simple::called(program, run, target, args, to) {
        Ok(Step::Go(now)) => Ok(keep_now(&mut run.taken, now)),
        Ok(Step::Stop(end)) => Ok(keep_end(&mut run.taken, end)),
        Err(error) => Err(error),
    }
}

// Evaluates arguments into the first places of `found`, where it has room and each value is found at once.
fn are_known(machine: &Machine, frame: &Frame, exprs: &[TypedExpr], found: &mut [Value]) -> bool
    ensures room { IsTrue result → length exprs.now ≤ length found.old }
    ensures many { length found.new ≡ length found.old }
    ensures values { IsTrue result → (line : ℕ) → Comes (kept_by machine.now) (kept_by machine.now)
        (Ok (take (length exprs.now) found.new)) (λ s. computed (here_of frame.now.scope) line
        (values (map (way_in frame.now) exprs.now) (s.memory frame.now.scope.comp.now)) s) }
{
    sc_run_value::are_found(&machine.blocks, &frame.scope, exprs, found)
}

// Takes a step into a call.
#[inline(never)]
fn step_into<'a>(
    program: &'a Program,
    run: &mut Run<'a, '_>,
    made: &Made<'a>,
) -> Result<bool, OutOfMemory>
    ensures { IfOk result (λ done. Completes program.now (unless_done done run.new.taken) leaf_weight run.old
        (call_acts program.now run.old.frame made.now.call.now made.now.to made.now.line) run.new) }
{
    match call(program, run, made.call, made.to, made.line) {
        Ok(Step::Go(now)) => Ok(keep_now(&mut run.taken, now)),
        Ok(Step::Stop(end)) => Ok(keep_end(&mut run.taken, end)),
        Err(error) => Err(error),
    }
}

/// A call, from its arguments to its result, at once where it may be; whether it is done. Else a step into it was
/// taken.
pub fn made_at_once<'a>(
    program: &'a Program,
    run: &mut Run<'a, '_>,
    made: &Made<'a>,
) -> Result<bool, OutOfMemory>
    ensures { IfOk result (λ done. Completes program.now (unless_done done run.new.taken) leaf_weight run.old
        (call_acts program.now run.old.frame made.now.call.now made.now.to made.now.line) run.new) }
{
    let exprs = made.call.args.as_slice();
    let mut values = [Value::Word(0); FEW];
    if are_known(&run.machine, &run.frame, exprs, &mut values) {
        let args = &values[..exprs.len()];
        return called(program, run, &made.call.target, args, made.to);
    }
    step_into(program, run, made)
}

/// A call in a statement.
pub fn call_made<'a>(
    program: &'a Program,
    run: &mut Run<'a, '_>,
    made: &Made<'a>,
) -> Result<Step<'a>, OutOfMemory>
    ensures { IfOk result (λ step. Advances program.now leaf_weight run.old
        (call_acts program.now run.old.frame made.now.call.now made.now.to made.now.line) step run.new) }
{
    match made_at_once(program, run, made) {
        Ok(done) => {
            if done {
                return Ok(Step::Go(Now::Leave(Leaving::Next)));
            }
            Ok(last_step(&run.taken))
        }
        Err(error) => Err(error),
    }
}
