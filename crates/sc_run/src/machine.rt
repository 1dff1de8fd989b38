//! What changes the state of a run.

ghost use Rattle.sc_run.specs.Prelude.{Comes, Next, all_do, assign, block_for, c_arith, evaluated, here_of, init_does};
ghost use Rattle.sc_run.specs.Prelude.{inits_do, kept_by, memory_of, store_at, stored, turn, way_in, with_blocks};
ghost use Rattle.sc_run.specs.Prelude.{with_exit, with_variables};
ghost use Rattle.sc_run.specs.Numbers.{HasFewVariables, NumbersSuffice};
ghost use Rattle.std.specs.Prelude.{◌≡◌, ◌<◌, ◌^◌, ◌++◌, ℕ, [], ◌∷◌, suc, length, OnErr, OnOk, slice_get};
ghost use Rattle.sc_core.specs.declared.value.Want.TheVariants as want;

use crate::state::Machine;
use crate::work::{Callee, Frame};
use sc_base::OutOfMemory;
use sc_blocks::Blocks;
use sc_core::{Cause, RunEnd, TypedExpr, TypedKind, TypedLocal, Value, VarRef, Want, cells_of};
use sc_event::{CompId, Event};
use std::alloc::AllocError;

/// Blame of the compartment that runs.
pub fn blamed(frame: &Frame, cause: Cause, line: u32) -> RunEnd
    ensures { result ≡ RunEnd.Blamed frame.now.scope.comp.now cause line }
{
    RunEnd::Blamed {
        comp: *frame.scope.comp,
        cause,
        line,
    }
}

/// The place or value of an expression.
pub fn evaluated(
    machine: &Machine,
    frame: &Frame,
    want: Want,
    expr: &TypedExpr,
    line: u32,
) -> Result<Value, RunEnd>
    ensures { Comes (kept_by machine.now) (kept_by machine.now) result
        (evaluated (here_of frame.now.scope) want (way_in frame.now expr.now) line) }
{
    match sc_run_value::evaluate(&machine.blocks, &frame.scope, want, expr) {
        Ok(value) => Ok(value),
        Err(cause) => Err(blamed(frame, cause, line)),
    }
}

// The place of an expression.
#[inline(always)]
fn place_of(machine: &Machine, frame: &Frame, place: &TypedExpr, line: u32) -> Result<Value, RunEnd>
    ensures { Comes (kept_by machine.now) (kept_by machine.now) result
        (evaluated (here_of frame.now.scope) want.Place (way_in frame.now place.now) line) }
{
    if let TypedKind::Variable(name) = &place.kind {
        return Ok(sc_run_value::variable_at(&frame.scope, *name));
    }
    evaluated(machine, frame, Want::Place, place, line)
}

/// Puts a value at a place.
#[inline(always)]
pub fn stored(
    machine: &mut Machine,
    frame: &Frame,
    place: Value,
    value: Value,
    line: u32,
) -> Result<(), RunEnd>
    ensures { Comes (kept_by machine.old) (kept_by machine.new) (with_exit Next result)
        (stored (here_of frame.now.scope) place value line tt) }
{
    match sc_run_value::store(&mut machine.blocks, *frame.scope.comp, place, value) {
        Ok(()) => Ok(()),
        Err(cause) => Err(blamed(frame, cause, line)),
    }
}

/// Evaluates a place, and puts a value there.
#[inline(always)]
pub fn store_at(
    machine: &mut Machine,
    frame: &Frame,
    place: &TypedExpr,
    value: Value,
    line: u32,
) -> Result<(), RunEnd>
    ensures { Comes (kept_by machine.old) (kept_by machine.new) (with_exit Next result)
        (store_at (here_of frame.now.scope) (way_in frame.now place.now) value line tt) }
{
    match place_of(machine, frame, place, line) {
        Ok(place) => stored(machine, frame, place, value, line),
        Err(end) => Err(end),
    }
}

/// The value first, then the place, then the store.
pub fn assign(
    machine: &mut Machine,
    frame: &Frame,
    place: &TypedExpr,
    value: &TypedExpr,
    line: u32,
) -> Result<(), RunEnd>
    ensures { Comes (kept_by machine.old) (kept_by machine.new) (with_exit Next result)
        (assign (here_of frame.now.scope) (way_in frame.now place.now) (way_in frame.now value.now) line tt) }
{
    match evaluated(machine, frame, Want::Value, value, line) {
        Ok(value) => store_at(machine, frame, place, value, line),
        Err(end) => Err(end),
    }
}

/// Takes a turn, if there is one.
pub fn take_turn(machine: &mut Machine) -> Result<(), RunEnd>
    ensures comes { Comes (kept_by machine.old) (kept_by machine.new) result turn }
    ensures taken { OnOk result (machine.old.turns ≡ suc machine.new.turns) }
    ensures numbers { OnOk result (NumbersSuffice (memory_of machine.new.blocks) (suc machine.new.turns)) }
{
    if machine.turns == 0 {
        return Err(RunEnd::TurnsOut);
    }
    machine.turns -= 1;
    Ok(())
}

// The block of one more variable: it holds its argument, or nothing yet.
fn make_block(
    blocks: &mut Blocks,
    comp: CompId,
    count: u64,
    arg: Option<Value>,
) -> Result<(), OutOfMemory>
    requires few { length (memory_of blocks.old comp) < 2 ^ 63 }
    requires small { count < 2 ^ 32 }
    ensures made { OnOk result (memory_of blocks.new ≡ with_blocks comp
        (memory_of blocks.old comp ++ block_for count arg ∷ []) (memory_of blocks.old)) }
    ensures err { OnErr result (memory_of blocks.new ≡ memory_of blocks.old) }
{
    match arg {
        Some(value) => {
            let cells = [sc_run_value::cell_of(value)];
            blocks.new_block(comp, &cells)?;
            Ok(())
        }
        None => {
            blocks.new_blank(comp, count as u32)?;
            Ok(())
        }
    }
}

fn value_at(values: &[Value], at: usize) -> Option<Value>
    ensures { result ≡ slice_get values.now at }
{
    match values.get(at) {
        Some(value) => Some(*value),
        None => None,
    }
}

/// The blocks of the variables of a function: parameters hold the arguments.
#[inline(always)]
pub fn make_blocks(blocks: &mut Blocks, callee: &Callee, args: &[Value]) -> Result<(), OutOfMemory>
    requires variables { HasFewVariables callee.now.structs.now callee.now.function.now }
    requires numbers { NumbersSuffice (memory_of blocks.old) 1 }
    ensures made { OnOk result (memory_of blocks.new ≡ with_variables callee.now args.now (memory_of blocks.old)) }
    ensures numbers { (turns : ℕ) → NumbersSuffice (memory_of blocks.old) (suc turns) →
        NumbersSuffice (memory_of blocks.new) turns }
{
    let params = callee.function.params.as_slice();
    let locals = callee.function.locals.as_slice();
    for at in 0..params.len() {
        let count = cells_of(callee.structs, params[at].ty);
        make_block(blocks, *callee.comp, count, value_at(args, at))?;
    }
    for at in 0..locals.len() {
        let count = cells_of(callee.structs, locals[at].ty);
        let arg = value_at(args, params.len() + at);
        make_block(blocks, *callee.comp, count, arg)?;
    }
    Ok(())
}

// The initialiser of a local, if it has one.
fn init(machine: &mut Machine, frame: &Frame, number: u32, local: &TypedLocal) -> Result<(), RunEnd>
    ensures { Comes (kept_by machine.old) (kept_by machine.new) (with_exit Next result)
        (init_does c_arith frame.now.scope.structs.now
        (here_of frame.now.scope) frame.now.scope.params number local.now local.now.init tt) }
{
    match &local.init {
        None => Ok(()),
        Some(expr) => match evaluated(machine, frame, Want::Value, expr, local.line) {
            Ok(value) => {
                let place = sc_run_value::variable_at(&frame.scope, VarRef::Local(number));
                stored(machine, frame, place, value, local.line)
            }
            Err(end) => Err(end),
        },
    }
}

// The initialisers of locals, in order.
#[inline(never)]
fn init_each(machine: &mut Machine, frame: &Frame) -> Result<(), RunEnd>
    requires { length frame.now.function.now.locals < 2 ^ 32 }
    ensures { Comes (kept_by machine.old) (kept_by machine.new) (with_exit Next result)
        (all_do (inits_do c_arith frame.now.scope.structs.now
        (here_of frame.now.scope) frame.now.scope.params 0 frame.now.function.now.locals) tt) }
{
    let locals = frame.function.locals.as_slice();
    for at in 0..locals.len() {
        match init(machine, frame, at as u32, &locals[at]) {
            Ok(()) => {}
            Err(end) => return Err(end),
        }
    }
    Ok(())
}

/// The initialisers of the locals, in order.
#[inline(always)]
pub fn init_all(machine: &mut Machine, frame: &Frame) -> Result<(), RunEnd>
    requires { length frame.now.function.now.locals < 2 ^ 32 }
    ensures { Comes (kept_by machine.old) (kept_by machine.new) (with_exit Next result)
        (all_do (inits_do c_arith frame.now.scope.structs.now
        (here_of frame.now.scope) frame.now.scope.params 0 frame.now.function.now.locals) tt) }
{
    if frame.function.locals.as_slice().is_empty() {
        return Ok(());
    }
    init_each(machine, frame)
}

/// One more event.
pub fn emit_event(machine: &mut Machine, event: Event) -> Result<(), AllocError>
    ensures { OnOk result (kept_by machine.new ≡ record
        (kept_by machine.old) { trace = machine.old.trace ++ event ∷ [] }) }
{
    machine.trace.push(event)
}
