//! Calls: from their arguments to the first statement of what is called, and back (C11 6.5.2.2).

ghost use Rattle.sc_core.specs.Prelude.{most_params};
ghost use Rattle.sc_run.specs.Prelude.{Advances, Begun, Steps, and_then, back_from, block_acts, bodies, body_acts};
ghost use Rattle.sc_run.specs.Prelude.{body_weight, leaf_weight};
ghost use Rattle.sc_run.specs.Prelude.{c_arith, denotations, emitted_call, entry_from, function, function_of, kept_by};
ghost use Rattle.sc_run.specs.Prelude.{memory_of, result_goes, run_in, turn, word_in};
ghost use Rattle.sc_run.specs.Numbers.{HasFewVariables, NumbersSuffice};
ghost use Rattle.std.specs.Prelude.{◌≡◌, ◌<◌, ◌≤◌, ◌^◌, ◌++◌, [], ◌∷◌, suc, IfOk, IfSome, OnOk, Some, map, length};

use crate::leaves::return_to;
use crate::machine::{emit_event, init_all, make_blocks, store_at, take_turn};
use crate::plain::{done_first, exit_at_once};
use crate::state::Machine;
use crate::steps::go_on;
use crate::work::{Callee, Frame, Leaving, Now, Run, Step, To, Work};
use sc_base::OutOfMemory;
use sc_core::{Program, Value};
use sc_event::{Args, Event};
use sc_run_value::Scope;
use std::alloc::Global;

// What is done with the result of a call.
pub fn hand_back<'a>(
    program: &'a Program,
    machine: &mut Machine,
    work: &Vec<Work<'a>>,
    frame: &Frame<'a>,
    to: To<'a>,
    result_value: Option<Value>,
) -> Step<'a>
    ensures { Steps program.now leaf_weight (kept_by machine.old) work.now.items frame.now
        (λ n s. result_goes program.now frame.now to.entry result_value s) result
        (kept_by machine.new) work.now.items frame.now }
{
    match to {
        To::Nowhere => Step::Go(Now::Leave(Leaving::Next)),
        To::Back => Step::Go(Now::Leave(Leaving::Return(result_value))),
        To::Place(place, line) => match result_value {
            Some(value) => match store_at(machine, frame, place, value, line) {
                Ok(()) => Step::Go(Now::Leave(Leaving::Next)),
                Err(end) => Step::Stop(end),
            },
            None => Step::Go(Now::Leave(Leaving::Next)),
        },
    }
}

// The initialisers and then the statements of a call that has begun.
pub fn start<'a>(
    program: &'a Program,
    machine: &mut Machine,
    work: &Vec<Work<'a>>,
    frame: &Frame<'a>,
) -> Step<'a>
    requires { length frame.now.function.now.locals < 2 ^ 32 }
    ensures { Steps program.now (body_weight frame.now.function.now) (kept_by machine.old) work.now.items frame.now
        (λ n s. body_acts program.now n frame.now tt s) result (kept_by machine.new) work.now.items frame.now }
{
    match init_all(machine, frame) {
        Ok(()) => Step::Go(Now::Run(frame.function.body.as_slice())),
        Err(end) => Step::Stop(end),
    }
}

// The variables of a call begin.
#[inline(always)]
#[tactic(auto, using(crate::proofs::Counts::beginning))]
pub fn begin<'a>(
    machine: &mut Machine,
    callee: &Callee<'a>,
    args: &[Value],
) -> Result<Frame<'a>, OutOfMemory>
    requires variables { HasFewVariables callee.now.structs.now callee.now.function.now }
    requires numbers { NumbersSuffice (memory_of machine.old.blocks) (suc machine.old.turns) }
    ensures { IfOk result (λ frame. Begun callee.now args.now (kept_by machine.old) (kept_by machine.new) frame) }
{
    let first = machine.blocks.made(*callee.comp) as i64;
    let params = callee.function.params.len() as u32;
    make_blocks(&mut machine.blocks, callee, args)?;
    Ok(Frame {
        scope: Scope {
            structs: callee.structs,
            comp: callee.comp,
            first,
            params,
        },
        function: callee.function,
    })
}

/// Emits a call of an export, where it is one.
#[inline(always)]
pub fn emit_call<'a>(
    machine: &mut Machine,
    frame: &Frame<'a>,
    callee: &Callee<'a>,
    args: &[Value],
    crossing: Option<u16>,
) -> Result<(), OutOfMemory>
    requires { IfSome crossing (λ _. length args.now ≤ most_params) }
    ensures { OnOk result (kept_by machine.new ≡ emitted_call frame.now callee.now args.now crossing
        (kept_by machine.old)) }
{
    match crossing {
        Some(index) => emit_call_of(machine, frame, callee, args, index),
        None => Ok(()),
    }
}

// Emits a call of an export by its index.
#[inline(never)]
fn emit_call_of<'a>(
    machine: &mut Machine,
    frame: &Frame<'a>,
    callee: &Callee<'a>,
    args: &[Value],
    index: u16,
) -> Result<(), OutOfMemory>
    requires { length args.now ≤ most_params }
    ensures { OnOk result (kept_by machine.new ≡ emitted_call frame.now callee.now args.now (Some index)
        (kept_by machine.old)) }
{
    let words = words_of(machine.alloc, args);
    emit_event(
        machine,
        Event::Call {
            from: *frame.scope.comp,
            to: *callee.comp,
            index,
            args: words,
        },
    )?;
    Ok(())
}

pub fn word_in(value: Value) -> u32
    ensures { result ≡ word_in value }
{
    match value {
        Value::Word(word) => word,
        Value::Null => 0,
        Value::Ptr(_) => 0,
    }
}

// The words that cross.
fn words_of(alloc: Global, values: &[Value]) -> Args
    requires { length values.now ≤ most_params }
    ensures { result ≡ map word_in values.now }
{
    let mut words = Args::new(alloc);
    for value in values {
        words.push(word_in(*value)).unwrap();
    }
    words
}

// The statements of a call that has begun. Where what is left of them leaves the function at once, the function that
// called doesn't wait for it.
fn run_body<'a>(
    program: &'a Program,
    run: &mut Run<'a, '_>,
    next: &Frame<'a>,
    to: To<'a>,
    crossing: Option<u16>,
) -> Result<Step<'a>, OutOfMemory>
    ensures { IfOk result (λ step. Steps program.now (body_weight next.now.function.now) (kept_by run.old.machine)
        (run.old.work.items ++ Work.Caller run.old.frame to.entry crossing ∷ []) next.now
        (λ n s. block_acts program.now n next.now next.now.function.now.body tt s) step
        (kept_by run.new.machine) run.new.work.items run.new.frame) }
{
    let stmts = next.function.body.as_slice();
    let caller = run.frame;
    run.frame = *next;
    match done_first(program, &mut run.machine, &run.frame, stmts) {
        None => return_to(program, run, &caller, to, crossing, Leaving::Next),
        Some(at) => {
            if at.part.is_empty() {
                let rest = &stmts[at.count..];
                if let Some(exit) = exit_at_once(program, &run.machine, &run.frame, rest) {
                    return return_to(program, run, &caller, to, crossing, exit);
                }
            }
            run.work.push(Work::Caller(caller, to, crossing))?;
            go_on(program, run, stmts, at)
        }
    }
}

// The initialisers and the statements of a call that has begun.
fn run_called<'a>(
    program: &'a Program,
    run: &mut Run<'a, '_>,
    next: &Frame<'a>,
    to: To<'a>,
    crossing: Option<u16>,
) -> Result<Step<'a>, OutOfMemory>
    requires { length next.now.function.now.locals < 2 ^ 32 }
    ensures { IfOk result (λ step. Steps program.now (body_weight next.now.function.now) (kept_by run.old.machine)
        (run.old.work.items ++ Work.Caller run.old.frame to.entry crossing ∷ []) next.now
        (λ n s. body_acts program.now n next.now tt s) step
        (kept_by run.new.machine) run.new.work.items run.new.frame) }
{
    match init_all(&mut run.machine, next) {
        Ok(()) => run_body(program, run, next, to, crossing),
        Err(end) => Ok(Step::Stop(end)),
    }
}

// A function begins, once it is found: a turn, its event, its variables, and its first statement.
pub fn enter<'a>(
    program: &'a Program,
    run: &mut Run<'a, '_>,
    callee: &Callee<'a>,
    args: &[Value],
    to: To<'a>,
    crossing: Option<u16>,
) -> Result<Step<'a>, OutOfMemory>
    requires variables { HasFewVariables callee.now.structs.now callee.now.function.now }
    requires words { IfSome crossing (λ _. length args.now ≤ most_params) }
    requires function { function (denotations program.now) callee.now.comp.now callee.now.number ≡
        Some (function_of c_arith program.now.interfaces.main callee.now.structs.now callee.now.function.now) }
    ensures { IfOk result (λ step. Advances program.now leaf_weight run.old
        (λ n s. and_then (and_then (turn s) (λ _ s. run_in (denotations program.now)
        (bodies program.now n) callee.now.comp.now callee.now.number args.now
        (back_from program.now run.old.frame callee.now crossing)
        (entry_from run.old.frame callee.now args.now crossing s)))
        (result_goes program.now run.old.frame to.entry)) step run.new) }
{
    match take_turn(&mut run.machine) {
        Err(end) => Ok(Step::Stop(end)),
        Ok(()) => {
            emit_call(&mut run.machine, &run.frame, callee, args, crossing)?;
            let next = begin(&mut run.machine, callee, args)?;
            run_called(program, run, &next, to, crossing)
        }
    }
}
