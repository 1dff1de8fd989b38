//! What follows when control leaves statements (C11 6.8.5, 6.8.6).

ghost use Rattle.sc_run.specs.Prelude.{Advances, State, Steps, back_value, block_acts, closes, emitted_return};
ghost use Rattle.sc_run.specs.Prelude.{ended_as, exit_of, exit_word, follow, in_loop, in_order, kept_by, leave};
ghost use Rattle.sc_run.specs.Prelude.{left_by, loop_acts, main_name, next_acts, variable_count, word_crossing};
ghost use Rattle.sc_run.specs.Prelude.{AnotherSuffices, block_weight, loop_weight};
ghost use Rattle.std.specs.Prelude.{◌≡◌, ◌++◌, ◌+◌, [], ◌∷◌, suc, IfOk, OnOk, bytes_eq, ◌==◌, ◌&&◌};

use crate::calls::{hand_back, word_in};
use crate::machine::emit_event;
use crate::plain::is_next_done;
use crate::simple::simple;
use crate::state::Machine;
use crate::steps::round;
use crate::work::{Frame, Leaving, Loop, Now, Run, Step, To, Work};
use sc_base::OutOfMemory;
use sc_core::{Cause, Program, RunEnd, TypedStmt, Value};
use sc_event::Event;

// The statements that follow, where control reached the end of those before.
fn leave_before_rest<'a>(
    program: &'a Program,
    run: &Run<'a, '_>,
    rest: &'a [TypedStmt],
    exit: Leaving,
) -> Step<'a>
    ensures { Advances program.now (suc (block_weight rest.now)) run.now
        (λ n s. follow in_order (leave (exit_of exit) tt s)
        (block_acts program.now n run.now.frame rest.now)) result run.now }
{
    match exit {
        Leaving::Next => Step::Go(Now::Run(rest)),
        Leaving::Break => Step::Go(Now::Leave(Leaving::Break)),
        Leaving::Continue => Step::Go(Now::Leave(Leaving::Continue)),
        Leaving::Return(value) => Step::Go(Now::Leave(Leaving::Return(value))),
    }
}

// The loop, where control reached the end of its first part.
fn leave_first<'a>(
    program: &'a Program,
    run: &mut Run<'a, '_>,
    whole: &Loop<'a>,
    exit: Leaving,
) -> Result<Step<'a>, OutOfMemory>
    ensures { IfOk result (λ step. Advances program.now (suc (loop_weight whole.now)) run.old
        (λ n s. follow in_order (leave (exit_of exit) tt s)
        (loop_acts program.now n run.old.frame whole.now)) step run.new) }
{
    match exit {
        Leaving::Next => round(program, run, whole),
        Leaving::Break => Ok(Step::Go(Now::Leave(Leaving::Break))),
        Leaving::Continue => Ok(Step::Go(Now::Leave(Leaving::Continue))),
        Leaving::Return(value) => Ok(Step::Go(Now::Leave(Leaving::Return(value)))),
    }
}

// The next round, where control reached the end of what stands before it.
fn leave_before_round<'a>(
    program: &'a Program,
    run: &mut Run<'a, '_>,
    whole: &Loop<'a>,
    exit: Leaving,
) -> Result<Step<'a>, OutOfMemory>
    ensures { IfOk result (λ step. Advances program.now (suc (loop_weight whole.now)) run.old
        (λ n s. follow in_loop (leave (exit_of exit) tt s)
        (loop_acts program.now n run.old.frame whole.now)) step run.new) }
{
    match exit {
        Leaving::Next => round(program, run, whole),
        Leaving::Continue => round(program, run, whole),
        Leaving::Break => Ok(Step::Go(Now::Leave(Leaving::Next))),
        Leaving::Return(value) => Ok(Step::Go(Now::Leave(Leaving::Return(value)))),
    }
}

// What stands between the body of a loop and its next round, while the loop waits.
fn begin_next<'a>(
    program: &'a Program,
    run: &mut Run<'a, '_>,
    whole: &Loop<'a>,
) -> Result<Step<'a>, OutOfMemory>
    requires { AnotherSuffices (kept_by run.old.machine) }
    ensures { IfOk result (λ step. Advances program.now (2 + loop_weight whole.now) run.old
        (λ n s. follow in_loop (next_acts program.now n run.old.frame whole.now tt s)
        (loop_acts program.now n run.old.frame whole.now)) step run.new) }
{
    match whole.next {
        None => round(program, run, whole),
        Some(next) => {
            run.work.push(Work::Again(*whole))?;
            simple(program, run, next)
        }
    }
}

// What stands between the body of a loop and its next round, at once where it may be.
fn next_part<'a>(
    program: &'a Program,
    run: &mut Run<'a, '_>,
    whole: &Loop<'a>,
) -> Result<Step<'a>, OutOfMemory>
    requires { AnotherSuffices (kept_by run.old.machine) }
    ensures { IfOk result (λ step. Advances program.now (2 + loop_weight whole.now) run.old
        (λ n s. follow in_loop (next_acts program.now n run.old.frame whole.now tt s)
        (loop_acts program.now n run.old.frame whole.now)) step run.new) }
{
    if is_next_done(program, &mut run.machine, &run.frame, whole) {
        return round(program, run, whole);
    }
    begin_next(program, run, whole)
}

// What follows the body of a loop.
fn leave_body<'a>(
    program: &'a Program,
    run: &mut Run<'a, '_>,
    whole: &Loop<'a>,
    exit: Leaving,
) -> Result<Step<'a>, OutOfMemory>
    requires { AnotherSuffices (kept_by run.old.machine) }
    ensures { IfOk result (λ step. Advances program.now (2 + loop_weight whole.now) run.old
        (λ n s. follow in_loop (leave (exit_of exit) tt s)
        (λ a s. follow in_loop (next_acts program.now n run.old.frame whole.now a s)
        (loop_acts program.now n run.old.frame whole.now))) step run.new) }
{
    match exit {
        Leaving::Next => next_part(program, run, whole),
        Leaving::Continue => next_part(program, run, whole),
        Leaving::Break => Ok(Step::Go(Now::Leave(Leaving::Next))),
        Leaving::Return(value) => Ok(Step::Go(Now::Leave(Leaving::Return(value)))),
    }
}

fn is_main(program: &Program, frame: &Frame) -> bool
    ensures { result ≡ (frame.now.scope.comp.now == program.now.interfaces.main &&
        bytes_eq frame.now.function.now.name main_name) }
{
    frame.scope.comp.number() == program.interfaces().main.number()
        && frame.function.name.as_bytes() == b"main".as_slice()
}

/// How a call ends, once control left the body of its function.
#[inline(always)]
pub fn closed(program: &Program, frame: &Frame, exit: Leaving) -> Result<Option<Value>, RunEnd>
    ensures { (s : State) → closes program.now frame.now (record { exit = exit_of exit; carried = tt }) s ≡
        ended_as result s }
{
    if let Leaving::Return(value) = exit {
        return Ok(value);
    }
    if frame.function.result.is_none() {
        return Ok(None);
    }
    if is_main(program, frame) {
        return Ok(Some(Value::Word(0)));
    }
    Err(RunEnd::Blamed {
        comp: *frame.scope.comp,
        cause: Cause::NoReturn,
        line: frame.function.close_line,
    })
}

// How many variables a call has.
fn variable_count(frame: &Frame) -> u64
    ensures { result ≡ variable_count frame.now }
{
    let params = frame.function.params.as_slice();
    let locals = frame.function.locals.as_slice();
    params.len() as u64 + locals.len() as u64
}

/// The variables of a call end.
pub fn end_variables(machine: &mut Machine, frame: &Frame)
    ensures { kept_by machine.new ≡ left_by frame.now (kept_by machine.old) }
{
    let first = frame.scope.first_block();
    machine
        .blocks
        .end(*frame.scope.comp, first, variable_count(frame));
}

fn word_crossing(program: &Program, frame: &Frame, index: u16, value: Option<Value>) -> Option<u32>
    ensures { result ≡ word_crossing program.now frame.now index value }
{
    match program.interfaces().export(*frame.scope.comp, index) {
        None => None,
        Some(proto) => match proto.result {
            None => None,
            Some(_) => match value {
                None => Some(0),
                Some(value) => Some(word_in(value)),
            },
        },
    }
}

/// Emits a return from an export, and gives what the caller gets.
pub fn emit_return(
    program: &Program,
    machine: &mut Machine,
    caller: &Frame,
    frame: &Frame,
    crossed: Option<u16>,
    value: Option<Value>,
) -> Result<Option<Value>, OutOfMemory>
    ensures value { IfOk result (λ back. back ≡ back_value program.now frame.now crossed value) }
    ensures emitted { OnOk result (kept_by machine.new ≡
        emitted_return program.now caller.now frame.now crossed value (kept_by machine.old)) }
{
    match crossed {
        None => Ok(value),
        Some(index) => {
            let word = word_crossing(program, frame, index, value);
            emit_event(
                machine,
                Event::Ret {
                    from: *frame.scope.comp,
                    to: *caller.scope.comp,
                    value: word,
                },
            )?;
            match word {
                None => Ok(None),
                Some(word) => Ok(Some(Value::Word(word))),
            }
        }
    }
}

/// A call ends, and the function that called goes on.
pub fn return_to<'a>(
    program: &'a Program,
    run: &mut Run<'a, '_>,
    caller: &Frame<'a>,
    to: To<'a>,
    crossed: Option<u16>,
    exit: Leaving,
) -> Result<Step<'a>, OutOfMemory>
    ensures { IfOk result (λ step. Steps program.now 1 (kept_by run.old.machine)
        (run.old.work.items ++ Work.Caller caller.now to.entry crossed ∷ []) run.old.frame
        (λ n s. leave (exit_of exit) tt s) step (kept_by run.new.machine) run.new.work.items run.new.frame) }
{
    match closed(program, &run.frame, exit) {
        Err(end) => Ok(Step::Stop(end)),
        Ok(value) => {
            end_variables(&mut run.machine, &run.frame);
            let back = emit_return(
                program,
                &mut run.machine,
                caller,
                &run.frame,
                crossed,
                value,
            )?;
            run.frame = *caller;
            Ok(hand_back(program, &mut run.machine, &run.work, &run.frame, to, back))
        }
    }
}

fn exit_word(value: Option<Value>) -> u32
    ensures { result ≡ exit_word value }
{
    match value {
        None => 0,
        Some(value) => word_in(value),
    }
}

// The first call of `main` ends, and the run with it.
fn finish<'a>(
    program: &'a Program,
    machine: &mut Machine,
    frame: &Frame<'a>,
    exit: Leaving,
) -> Result<Step<'a>, OutOfMemory>
    ensures { IfOk result (λ step. Steps program.now 1 (kept_by machine.old) [] frame.now
        (λ n s. leave (exit_of exit) tt s) step (kept_by machine.new) [] frame.now) }
{
    match closed(program, frame, exit) {
        Err(end) => Ok(Step::Stop(end)),
        Ok(value) => {
            let comp = program.interfaces().main;
            let value = exit_word(value);
            emit_event(machine, Event::End { comp, value })?;
            Ok(Step::Stop(RunEnd::Ended))
        }
    }
}

/// What follows when control leaves statements.
pub fn leave<'a>(
    program: &'a Program,
    run: &mut Run<'a, '_>,
    exit: Leaving,
) -> Result<Step<'a>, OutOfMemory>
    requires { AnotherSuffices (kept_by run.old.machine) }
    ensures { IfOk result (λ step. Advances program.now 1 run.old (λ n s. leave (exit_of exit) tt s) step run.new) }
{
    match run.work.pop() {
        None => finish(program, &mut run.machine, &run.frame, exit),
        Some(Work::Rest(rest)) => Ok(leave_before_rest(program, run, rest, exit)),
        Some(Work::First(whole)) => leave_first(program, run, &whole, exit),
        Some(Work::Again(whole)) => { leave_before_round(program, run, &whole, exit) }
        Some(Work::Body(whole)) => leave_body(program, run, &whole, exit),
        Some(Work::Caller(caller, to, crossed)) => return_to(
            program, run, &caller, to, crossed, exit,
        ),
    }
}
