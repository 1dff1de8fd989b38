//! Assignments and conditions at once: where they aren't found so, nothing is done, and evaluation says why.

ghost use Rattle.sc_run_value.specs.Prelude.{Word, c_arith, here_of, memory_of, ways};
ghost use Rattle.sc_run_value.specs.Assigning.{AssignedIf, HoldsIf, PutIf, StoredIf};
ghost use Rattle.std.specs.Prelude.{◌≡◌, IfSome, Ok};
ghost use Rattle.sc_core.specs.declared.value.Want.TheVariants as want;

use crate::Scope;
use crate::access::store;
use crate::elements::{array_block, element_place};
use crate::expressions::{evaluate_whole, value_at_once, variable_at};
use crate::quick::quick;
use crate::words::is_true;
use sc_blocks::Blocks;
use sc_core::{TypedExpr, TypedKind, Value, Want};
use sc_event::CompId;

/// Whether a condition is known to hold.
pub fn holds(blocks: &Blocks, scope: &Scope, cond: &TypedExpr) -> bool
    ensures { HoldsIf result (ways c_arith scope.now.structs.now (here_of scope.now) scope.now.params cond.now)
        (memory_of blocks.now scope.now.comp.now) }
{
    if let Some(value) = value_at_once(blocks, scope, cond) {
        return is_true(value);
    }
    match evaluate_whole(blocks, scope, Want::Value, cond) {
        Ok(value) => is_true(value),
        Err(_) => false,
    }
}

// Puts a value at a place, or does nothing.
#[inline(always)]
pub(crate) fn is_stored(blocks: &mut Blocks, comp: CompId, place: Value, value: Value) -> bool
    ensures { StoredIf result comp place value (memory_of blocks.old) (memory_of blocks.new) }
{
    match store(blocks, comp, place, value) {
        Ok(()) => true,
        Err(_) => false,
    }
}

// The place that a variable is, or an element of an array that is named. None of another expression.
#[inline(always)]
fn place_at_once(blocks: &Blocks, scope: &Scope, expr: &TypedExpr) -> Option<Value>
    ensures { IfSome result (λ place. ways c_arith scope.now.structs.now (here_of scope.now) scope.now.params expr.now
        want.Place (memory_of blocks.now scope.now.comp.now) ≡ Ok place) }
{
    match &expr.kind {
        TypedKind::Variable(name) => Some(variable_at(scope, *name)),
        TypedKind::Index { base, index } => {
            let block = array_block(scope, base.get())?;
            let row = blocks.row(*scope.comp)?;
            let word = quick(row, scope, index.get())?;
            let types = (base.get().ty, index.get().ty);
            let place = element_place(row, scope, types, block, word)?;
            Some(Value::Ptr(place))
        }
        _ => None,
    }
}

// Puts a value at the place of an expression, or does nothing.
#[inline(always)]
fn is_put(blocks: &mut Blocks, scope: &Scope, place: &TypedExpr, value: Value) -> bool
    ensures { PutIf result scope.now.comp.now
        (ways c_arith scope.now.structs.now (here_of scope.now) scope.now.params place.now) value
        (memory_of blocks.old) (memory_of blocks.new) }
{
    if let Some(found) = place_at_once(blocks, scope, place) {
        return is_stored(blocks, *scope.comp, found, value);
    }
    match evaluate_whole(blocks, scope, Want::Place, place) {
        Ok(found) => is_stored(blocks, *scope.comp, found, value),
        Err(_) => false,
    }
}

// Puts the value of an expression at the place of another, whatever it is, or does nothing.
fn is_any_assigned(blocks: &mut Blocks, scope: &Scope, place: &TypedExpr, value: &TypedExpr) -> bool
    ensures { AssignedIf result scope.now.comp.now
        (ways c_arith scope.now.structs.now (here_of scope.now) scope.now.params place.now)
        (ways c_arith scope.now.structs.now (here_of scope.now) scope.now.params value.now)
        (memory_of blocks.old) (memory_of blocks.new) }
{
    if let Some(found) = value_at_once(blocks, scope, value) {
        return is_put(blocks, scope, place, found);
    }
    match evaluate_whole(blocks, scope, Want::Value, value) {
        Ok(found) => is_put(blocks, scope, place, found),
        Err(_) => false,
    }
}

// The word of an expression of integers only.
#[inline(always)]
fn word_at_once(blocks: &Blocks, scope: &Scope, expr: &TypedExpr) -> Option<u32>
    ensures { IfSome result (λ word. ways c_arith scope.now.structs.now (here_of scope.now) scope.now.params expr.now
        want.Value (memory_of blocks.now scope.now.comp.now) ≡ Ok (Word word)) }
{
    let row = blocks.row(*scope.comp)?;
    quick(row, scope, expr)
}

/// Puts the value of an expression at the place of another, or does nothing.
pub fn is_assigned(blocks: &mut Blocks, scope: &Scope, place: &TypedExpr, value: &TypedExpr) -> bool
    ensures { AssignedIf result scope.now.comp.now
        (ways c_arith scope.now.structs.now (here_of scope.now) scope.now.params place.now)
        (ways c_arith scope.now.structs.now (here_of scope.now) scope.now.params value.now)
        (memory_of blocks.old) (memory_of blocks.new) }
{
    let Some(word) = word_at_once(blocks, scope, value) else {
        return is_any_assigned(blocks, scope, place, value);
    };
    let Some(found) = place_at_once(blocks, scope, place) else {
        return is_any_assigned(blocks, scope, place, value);
    };
    is_stored(blocks, *scope.comp, found, Value::Word(word))
}
