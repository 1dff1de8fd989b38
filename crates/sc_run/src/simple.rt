//! Calls in statements, and the statements that may stand in the head of a `for`.

ghost use Rattle.sc_core.specs.Prelude.{most_params};
ghost use Rattle.sc_run.specs.Prelude.{Advances, Comes, Steps, and_then, assign, c_arith, call, calls_in, computed};
ghost use Rattle.sc_run.specs.Prelude.{denotations, first_word, here_of, is_word, kept_by, may_call, next_input};
ghost use Rattle.sc_run.specs.Prelude.{AnotherSuffices, leaf_weight, result_goes, simple_does, values, way_in};
ghost use Rattle.sc_event.specs.Prelude.{imports, is_function, takes};
ghost use Rattle.std.specs.Prelude.{◌≡◌, ◌≤◌, ◌&&◌, IfOk, IsTrue, length, map, drop};
ghost use Rattle.std.specs.List.{list_all};
ghost use Rattle.sc_core.specs.declared.cause.Cause.TheVariants.{BadType};

use crate::calls::{enter, hand_back, word_in};
use crate::heap::{free, malloc};
use crate::lookups::{are_words, callee_at, entry_callee};
use crate::machine::{assign, blamed, emit_event};
use crate::state::Machine;
use crate::work::{Frame, Leaving, Now, Run, Step, To, Work};
use sc_base::OutOfMemory;
use sc_core::{
    CallTarget, Cause, Program, RunEnd, TypedCall, TypedExpr, TypedSimple, TypedSimpleKind, Value,
};
use sc_event::{CompId, Entry, Event};
use sc_run_value::Arguments;
use std::alloc::AllocError;

// The values of arguments from left to right.
fn evaluate_arguments(
    machine: &Machine,
    frame: &Frame,
    exprs: &[TypedExpr],
    line: u32,
) -> Result<Result<Arguments, RunEnd>, AllocError>
    ensures { IfOk result (λ found. Comes (kept_by machine.now) (kept_by machine.now) found
        (λ s. computed (here_of frame.now.scope) line
        (values (map (way_in frame.now) exprs.now) (s.memory frame.now.scope.comp.now)) s)) }
{
    match sc_run_value::evaluate_all(machine.alloc, &machine.blocks, &frame.scope, exprs)? {
        Ok(found) => Ok(Ok(found)),
        Err(cause) => Ok(Err(blamed(frame, cause, line))),
    }
}

/// The blame of a call that may not be made.
pub fn refusal(frame: &Frame) -> RunEnd
    ensures { result ≡ RunEnd.Blamed frame.now.scope.comp.now BadType 0 }
{
    blamed(frame, Cause::BadType, 0)
}

// A call inside the compartment.
fn call_own<'a>(
    program: &'a Program,
    run: &mut Run<'a, '_>,
    number: usize,
    args: &[Value],
    to: To<'a>,
) -> Result<Step<'a>, OutOfMemory>
    ensures { IfOk result (λ step. Advances program.now leaf_weight run.old
        (λ n s. and_then (calls_in program.now n run.old.frame.scope.comp.now (CallTarget.Own number) args.now s)
        (result_goes program.now run.old.frame to.entry)) step run.new) }
{
    let comp = run.frame.scope.comp;
    match callee_at(program, comp, number) {
        None => Ok(Step::Stop(refusal(&run.frame))),
        Some(callee) => enter(program, run, &callee, args, to, None),
    }
}

/// Whether a call across may be made, but for its function.
pub fn may_cross(program: &Program, from: CompId, to: CompId, index: u16, args: &[Value]) -> bool
    ensures allowed { result ≡ (imports program.now.interfaces from (is_function to index) &&
        (takes program.now.interfaces to index (length args.now) && list_all is_word args.now)) }
    ensures few { IsTrue result → length args.now ≤ most_params }
{
    program.interfaces().imports_function(from, to, index)
        && (program.interfaces().takes(to, index, args.len()) && are_words(args))
}

// A call of an export of another compartment. It is looked up by its name, and is an event, of which a run has few.
fn call_cross<'a>(
    program: &'a Program,
    run: &mut Run<'a, '_>,
    comp: &'a CompId,
    index: u16,
    args: &[Value],
    to: To<'a>,
) -> Result<Step<'a>, OutOfMemory>
    ensures { IfOk result (λ step. Advances program.now leaf_weight run.old
        (λ n s. and_then (calls_in program.now n run.old.frame.scope.comp.now
        (CallTarget.Cross comp.now index) args.now s) (result_goes program.now run.old.frame to.entry)) step run.new) }
{
    if !may_cross(program, *run.frame.scope.comp, *comp, index, args) {
        return Ok(Step::Stop(refusal(&run.frame)));
    }
    match entry_callee(program, comp, Entry::Export(index)) {
        None => Ok(Step::Stop(refusal(&run.frame))),
        Some(callee) => enter(program, run, &callee, args, to, Some(index)),
    }
}

// The next input, 0 after the last.
fn next_input(machine: &mut Machine) -> u32
    ensures word { result ≡ next_input (kept_by machine.old).inputs }
    ensures rest { kept_by machine.new ≡ record (kept_by machine.old) { inputs = drop 1 (kept_by machine.old).inputs } }
{
    match machine.inputs {
        [] => 0,
        [first, rest @ ..] => {
            machine.inputs = rest;
            first.cast_unsigned()
        }
    }
}

fn first_word(args: &[Value]) -> u32
    ensures { result ≡ first_word args.now }
{
    match args {
        [] => 0,
        [first, ..] => word_in(*first),
    }
}

// A call of `input`.
fn call_input<'a>(
    program: &'a Program,
    machine: &mut Machine,
    work: &Vec<Work<'a>>,
    frame: &Frame<'a>,
    args: &[Value],
    to: To<'a>,
) -> Result<Step<'a>, OutOfMemory>
    ensures { IfOk result (λ step. Steps program.now leaf_weight (kept_by machine.old) work.now.items frame.now
        (λ n s. and_then (calls_in program.now n frame.now.scope.comp.now CallTarget.Input args.now s)
        (result_goes program.now frame.now to.entry)) step (kept_by machine.new) work.now.items frame.now) }
{
    let comp = *frame.scope.comp;
    if !program.interfaces().imports_input(comp) {
        return Ok(Step::Stop(refusal(frame)));
    }
    let value = next_input(machine);
    emit_event(machine, Event::In { comp, value })?;
    Ok(hand_back(program, machine, work, frame, to, Some(Value::Word(value))))
}

fn may_output(program: &Program, comp: CompId, args: &[Value]) -> bool
    ensures { result ≡ may_call (denotations program.now) comp CallTarget.Output args.now }
{
    program.interfaces().imports_output(comp) && (args.len() == 1 && are_words(args))
}

// A call of `output`.
fn call_output<'a>(
    program: &'a Program,
    machine: &mut Machine,
    work: &Vec<Work<'a>>,
    frame: &Frame<'a>,
    args: &[Value],
    to: To<'a>,
) -> Result<Step<'a>, OutOfMemory>
    ensures { IfOk result (λ step. Steps program.now leaf_weight (kept_by machine.old) work.now.items frame.now
        (λ n s. and_then (calls_in program.now n frame.now.scope.comp.now CallTarget.Output args.now s)
        (result_goes program.now frame.now to.entry)) step (kept_by machine.new) work.now.items frame.now) }
{
    let comp = *frame.scope.comp;
    if !may_output(program, comp, args) {
        return Ok(Step::Stop(refusal(frame)));
    }
    let value = first_word(args);
    emit_event(machine, Event::Out { comp, value })?;
    Ok(hand_back(program, machine, work, frame, to, None))
}

/// A call, once its arguments have their values.
pub fn called<'a>(
    program: &'a Program,
    run: &mut Run<'a, '_>,
    target: &'a CallTarget,
    args: &[Value],
    to: To<'a>,
) -> Result<Step<'a>, OutOfMemory>
    ensures { IfOk result (λ step. Advances program.now leaf_weight run.old
        (λ n s. and_then (calls_in program.now n run.old.frame.scope.comp.now target.now args.now s)
        (result_goes program.now run.old.frame to.entry)) step run.new) }
{
    match target {
        CallTarget::Own(number) => { call_own(program, run, *number as usize, args, to) }
        CallTarget::Cross(comp, index) => { call_cross(program, run, comp, *index, args, to) }
        CallTarget::Input => call_input(program, &mut run.machine, &run.work, &run.frame, args, to),
        CallTarget::Output => call_output(
            program,
            &mut run.machine,
            &run.work,
            &run.frame,
            args,
            to,
        ),
    }
}

/// A call: its arguments, and then what is called.
pub fn call<'a>(
    program: &'a Program,
    run: &mut Run<'a, '_>,
    made: &'a TypedCall,
    to: To<'a>,
    line: u32,
) -> Result<Step<'a>, OutOfMemory>
    ensures { IfOk result (λ step. Advances program.now leaf_weight run.old
        (λ n s. and_then (call (here_of run.old.frame.scope) (calls_in program.now n) made.now.target
        (map (way_in run.old.frame) made.now.args) line s)
        (result_goes program.now run.old.frame to.entry)) step run.new) }
{
    match evaluate_arguments(&run.machine, &run.frame, made.args.as_slice(), line)? {
        Ok(args) => called(program, run, &made.target, args.as_slice(), to),
        Err(end) => Ok(Step::Stop(end)),
    }
}

// An assignment.
pub fn assigned<'a>(
    program: &'a Program,
    run: &mut Run<'a, '_>,
    place: &TypedExpr,
    value: &TypedExpr,
    line: u32,
) -> Step<'a>
    ensures { Advances program.now leaf_weight run.old (λ n. assign (here_of run.old.frame.scope)
        (way_in run.old.frame place.now) (way_in run.old.frame value.now) line tt) result run.new }
{
    match assign(&mut run.machine, &run.frame, place, value, line) {
        Ok(()) => Step::Go(Now::Leave(Leaving::Next)),
        Err(end) => Step::Stop(end),
    }
}

/// A statement in the head of a `for`.
pub fn simple<'a>(
    program: &'a Program,
    run: &mut Run<'a, '_>,
    part: &'a TypedSimple,
) -> Result<Step<'a>, OutOfMemory>
    requires { AnotherSuffices (kept_by run.old.machine) }
    ensures { IfOk result (λ step. Advances program.now leaf_weight run.old
        (λ n. simple_does c_arith run.old.frame.scope.structs.now
        (here_of run.old.frame.scope) run.old.frame.scope.params
        (calls_in program.now n) part.now.kind part.now.line tt) step run.new) }
{
    match &part.kind {
        TypedSimpleKind::Assign { place, value } => Ok(assigned(
            program,
            run,
            place.get(),
            value.get(),
            part.line,
        )),
        TypedSimpleKind::AssignCall { place, call: made } => {
            let to = To::Place(place.get(), part.line);
            call(program, run, made.get(), to, part.line)
        }
        TypedSimpleKind::Call(made) => { call(program, run, made.get(), To::Nowhere, part.line) }
        TypedSimpleKind::Malloc {
            place,
            count,
            cells,
        } => malloc(program, run, place.get(), count, *cells, part.line),
        TypedSimpleKind::Free(pointer) => Ok(free(program, run, pointer.get(), part.line)),
    }
}
