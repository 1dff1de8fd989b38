//! Statements that allocate and free (C11 7.22.3).

ghost use Rattle.sc_core.specs.Prelude.{allocate_at, allocated, elements_allocated, free_value, released};
ghost use Rattle.sc_run.specs.Prelude.{Advances, AnotherSuffices, Comes, ComesMaking, Next, count_way_in, evaluated};
ghost use Rattle.sc_run.specs.Prelude.{here_of, kept_by, leaf_weight, way_in, with_exit};
ghost use Rattle.std.specs.Prelude.{IfOk, Ok};
ghost use Rattle.sc_core.specs.declared.value.Want.TheVariants as want;

use crate::machine::{blamed, evaluated, store_at};
use crate::state::Machine;
use crate::work::{Frame, Leaving, Now, Run, Step};
use sc_base::OutOfMemory;
use sc_core::{Cause, Pointer, Program, RunEnd, TypedExpr, Value, Want};
use sqlite_items::Boxed;

// How many elements are allocated: one where no count stands.
fn count_of(
    machine: &Machine,
    frame: &Frame,
    count: &Option<Boxed<TypedExpr>>,
    line: u32,
) -> Result<Value, RunEnd>
    ensures { Comes (kept_by machine.now) (kept_by machine.now) result
        (evaluated (here_of frame.now.scope) want.Value (count_way_in frame.now count.now) line) }
{
    match count {
        None => Ok(Value::Word(1)),
        Some(count) => evaluated(machine, frame, Want::Value, count.get(), line),
    }
}

// A block of `words` words, or null where the zone has no place for them.
fn allocated(machine: &mut Machine, frame: &Frame, words: u64) -> Result<Value, OutOfMemory>
    requires { AnotherSuffices (kept_by machine.old) }
    ensures { IfOk result (λ pointer. ComesMaking 1 (kept_by machine.old) (kept_by machine.new) (Ok pointer)
        (allocated (here_of frame.now.scope) words)) }
{
    let comp = *frame.scope.comp;
    match machine.blocks.allocate(comp, words)? {
        Some(block) => Ok(Value::Ptr(Pointer { block, index: 0 })),
        None => Ok(Value::Null),
    }
}

// A block of as many elements as a value says, of `cells` cells each.
fn elements_allocated(
    machine: &mut Machine,
    frame: &Frame,
    count: Value,
    cells: u32,
    line: u32,
) -> Result<Result<Value, RunEnd>, OutOfMemory>
    requires { AnotherSuffices (kept_by machine.old) }
    ensures { IfOk result (λ found. ComesMaking 1 (kept_by machine.old) (kept_by machine.new) found
        (elements_allocated (here_of frame.now.scope) count cells line)) }
{
    match count {
        Value::Word(count) => {
            let pointer = allocated(machine, frame, count as u64 * cells as u64)?;
            Ok(Ok(pointer))
        }
        _ => Ok(Err(blamed(frame, Cause::BadType, line))),
    }
}

// The count, then the block, then the place, then the store.
fn allocate_at(
    machine: &mut Machine,
    frame: &Frame,
    place: &TypedExpr,
    count: &Option<Boxed<TypedExpr>>,
    cells: u32,
    line: u32,
) -> Result<Result<(), RunEnd>, OutOfMemory>
    requires { AnotherSuffices (kept_by machine.old) }
    ensures { IfOk result (λ done. ComesMaking 1 (kept_by machine.old) (kept_by machine.new) (with_exit Next done)
        (allocate_at (here_of frame.now.scope) (way_in frame.now place.now) (count_way_in frame.now count.now) cells
        line tt)) }
{
    match count_of(machine, frame, count, line) {
        Ok(count) => match elements_allocated(machine, frame, count, cells, line)? {
            Ok(pointer) => Ok(store_at(machine, frame, place, pointer, line)),
            Err(end) => Ok(Err(end)),
        },
        Err(end) => Ok(Err(end)),
    }
}

// Frees what a value points to.
fn released(machine: &mut Machine, frame: &Frame, pointer: Value, line: u32) -> Result<(), RunEnd>
    ensures { Comes (kept_by machine.old) (kept_by machine.new) (with_exit Next result)
        (released (here_of frame.now.scope) pointer line tt) }
{
    match sc_run_value::free(&mut machine.blocks, *frame.scope.comp, pointer) {
        Ok(()) => Ok(()),
        Err(cause) => Err(blamed(frame, cause, line)),
    }
}

// The pointer, and then what it points to is freed.
fn free_value(
    machine: &mut Machine,
    frame: &Frame,
    pointer: &TypedExpr,
    line: u32,
) -> Result<(), RunEnd>
    ensures { Comes (kept_by machine.old) (kept_by machine.new) (with_exit Next result)
        (free_value (here_of frame.now.scope) (way_in frame.now pointer.now) line tt) }
{
    match evaluated(machine, frame, Want::Value, pointer, line) {
        Ok(pointer) => released(machine, frame, pointer, line),
        Err(end) => Err(end),
    }
}

/// An allocation.
pub fn malloc<'a>(
    program: &'a Program,
    run: &mut Run<'a, '_>,
    place: &TypedExpr,
    count: &Option<Boxed<TypedExpr>>,
    cells: u32,
    line: u32,
) -> Result<Step<'a>, OutOfMemory>
    requires { AnotherSuffices (kept_by run.old.machine) }
    ensures { IfOk result (λ step. Advances program.now leaf_weight run.old (λ n. allocate_at
        (here_of run.old.frame.scope) (way_in run.old.frame place.now) (count_way_in run.old.frame count.now) cells
        line tt) step run.new) }
{
    let done = allocate_at(&mut run.machine, &run.frame, place, count, cells, line)?;
    match done {
        Ok(()) => Ok(Step::Go(Now::Leave(Leaving::Next))),
        Err(end) => Ok(Step::Stop(end)),
    }
}

/// A block that is freed.
pub fn free<'a>(
    program: &'a Program,
    run: &mut Run<'a, '_>,
    pointer: &TypedExpr,
    line: u32,
) -> Step<'a>
    ensures { Advances program.now leaf_weight run.old (λ n. free_value (here_of run.old.frame.scope)
        (way_in run.old.frame pointer.now) line tt) result run.new }
{
    match free_value(&mut run.machine, &run.frame, pointer, line) {
        Ok(()) => Step::Go(Now::Leave(Leaving::Next)),
        Err(end) => Step::Stop(end),
    }
}
