//! Expressions (C11 6.5), by recursion on the tree, whose height is at most 256.

ghost use Rattle.sc_run_value.specs.Prelude.{Add, applied, at_pointer, c_arith, decided, here_of, is_unsigned_op};
ghost use Rattle.sc_run_value.specs.Prelude.{joined, literal, memory_of, values, variable_at, wanted, ways};
ghost use Rattle.std.specs.Prelude.{◌≡◌, map, IfOk, IfSome, Ok};
ghost use Rattle.sc_core.specs.declared.value.Want.TheVariants as want;

use crate::Scope;
use crate::access::load;
use crate::arguments::Arguments;
use crate::elements::{array_block, block_of};
use crate::moves::{moved_back, moved_on, offset_by};
use crate::pointers::between;
use crate::quick::quick;
use crate::words::{applied_one, is_true, of_bool, on_words};
use sc_base::BinaryOp;
use sc_blocks::Blocks;
use sc_core::{
    Cause, Pointer, Ty, TypedExpr, TypedKind, Value, VarRef, Want, is_unsigned_op, target_cells,
};
use std::alloc::{AllocError, Global};

fn literal(ty: Ty, word: u32) -> Value
    ensures { result ≡ literal ty word }
{
    if ty.is_pointer() {
        Value::Null
    } else {
        Value::Word(word)
    }
}

/// The place of a variable.
pub fn variable_at(scope: &Scope, variable: VarRef) -> Value
    ensures { result ≡ variable_at (here_of scope.now) scope.now.params variable }
{
    let block = block_of(scope, variable);
    Value::Ptr(Pointer { block, index: 0 })
}

// From a place of this type to what is wanted.
fn wanted(blocks: &Blocks, scope: &Scope, ty: Ty, place: Value, want: Want) -> Result<Value, Cause>
    ensures { result ≡ wanted ty place want (memory_of blocks.now scope.now.comp.now) }
{
    match want {
        Want::Place => Ok(place),
        Want::Value => {
            if ty.is_array() {
                Ok(place)
            } else {
                load(blocks, *scope.comp, ty.is_pointer(), place)
            }
        }
    }
}

// The operator between a pointer and an integer, of these types.
fn at_pointer(
    blocks: &Blocks,
    scope: &Scope,
    op: BinaryOp,
    types: (Ty, Ty),
    place: Value,
    by: Value,
) -> Result<Value, Cause>
    ensures { result ≡ at_pointer scope.now.structs.now
        (memory_of blocks.now scope.now.comp.now) op types.0 types.1 place by }
{
    let (pointer, index) = types;
    let cells = target_cells(scope.structs, pointer);
    match op {
        BinaryOp::Sub => moved_back(blocks, *scope.comp, cells, index.is_unsigned(), place, by),
        _ => moved_on(blocks, *scope.comp, cells, index.is_unsigned(), place, by),
    }
}

// An operator between two values of these types.
fn applied(
    blocks: &Blocks,
    scope: &Scope,
    op: BinaryOp,
    types: (Ty, Ty),
    left: Value,
    right: Value,
) -> Result<Value, Cause>
    ensures { result ≡ applied c_arith scope.now.structs.now
        (memory_of blocks.now scope.now.comp.now) op types.0 types.1 left right }
{
    if types.0.is_pointer() {
        if types.1.is_pointer() {
            between(
                blocks,
                *scope.comp,
                op,
                target_cells(scope.structs, types.0),
                left,
                right,
            )
        } else {
            at_pointer(blocks, scope, op, types, left, right)
        }
    } else if types.1.is_pointer() {
        at_pointer(blocks, scope, op, (types.1, types.0), right, left)
    } else {
        on_words(is_unsigned_op(op, types.0, types.1), op, left, right)
    }
}

// What the first operand of `&&` or `||` decides by itself.
fn decided(op: BinaryOp, value: Value) -> Option<Value>
    ensures { result ≡ decided op value }
{
    match op {
        BinaryOp::AndAlso => {
            if is_true(value) {
                None
            } else {
                Some(Value::Word(0))
            }
        }
        BinaryOp::OrElse => {
            if is_true(value) {
                Some(Value::Word(1))
            } else {
                None
            }
        }
        _ => None,
    }
}

fn joined(
    blocks: &Blocks,
    scope: &Scope,
    op: BinaryOp,
    types: (Ty, Ty),
    left: Value,
    right: Value,
) -> Result<Value, Cause>
    ensures { result ≡ joined scope.now.structs.now (memory_of blocks.now scope.now.comp.now) op types.0 types.1 left
        right }
{
    match op {
        BinaryOp::AndAlso => Ok(of_bool(is_true(right))),
        BinaryOp::OrElse => Ok(of_bool(is_true(right))),
        _ => applied(blocks, scope, op, types, left, right),
    }
}

/// The value of an expression of integers only, or of an array by its name. None where it isn't found at once.
#[inline(always)]
pub fn value_at_once(blocks: &Blocks, scope: &Scope, expr: &TypedExpr) -> Option<Value>
    ensures { IfSome result (λ value. ways c_arith scope.now.structs.now (here_of scope.now) scope.now.params expr.now
        want.Value (memory_of blocks.now scope.now.comp.now) ≡ Ok value) }
{
    if let Some(block) = array_block(scope, expr) {
        return Some(Value::Ptr(Pointer { block, index: 0 }));
    }
    let row = blocks.row(*scope.comp)?;
    let word = quick(row, scope, expr)?;
    Some(Value::Word(word))
}

// The place or the value of an expression by its whole tree.
pub(crate) fn evaluate_whole(
    blocks: &Blocks,
    scope: &Scope,
    want: Want,
    expr: &TypedExpr,
) -> Result<Value, Cause>
    ensures { result ≡ ways c_arith scope.now.structs.now (here_of scope.now) scope.now.params expr.now want
        (memory_of blocks.now scope.now.comp.now) }
{
    match &expr.kind {
        TypedKind::Literal { value } => Ok(literal(expr.ty, *value)),
        TypedKind::Variable(variable) => {
            wanted(blocks, scope, expr.ty, variable_at(scope, *variable), want)
        }
        TypedKind::Unary { op, of } => {
            let operand = evaluate_whole(blocks, scope, Want::Value, of.get())?;
            applied_one(of.get().ty.is_unsigned(), *op, operand)
        }
        TypedKind::Binary { op, left, right } => {
            let first = evaluate_whole(blocks, scope, Want::Value, left.get())?;
            if let Some(value) = decided(*op, first) {
                return Ok(value);
            }
            let second = evaluate_whole(blocks, scope, Want::Value, right.get())?;
            let types = (left.get().ty, right.get().ty);
            joined(blocks, scope, *op, types, first, second)
        }
        TypedKind::Index { base, index } => {
            let first = match value_at_once(blocks, scope, base.get()) {
                Some(value) => value,
                None => evaluate_whole(blocks, scope, Want::Value, base.get())?,
            };
            let second = match value_at_once(blocks, scope, index.get()) {
                Some(value) => value,
                None => evaluate_whole(blocks, scope, Want::Value, index.get())?,
            };
            let types = (base.get().ty, index.get().ty);
            let place = at_pointer(blocks, scope, BinaryOp::Add, types, first, second)?;
            wanted(blocks, scope, expr.ty, place, want)
        }
        TypedKind::Member { base, offset } => {
            let first = evaluate_whole(blocks, scope, Want::Place, base.get())?;
            let place = offset_by(blocks, *scope.comp, *offset, first)?;
            wanted(blocks, scope, expr.ty, place, want)
        }
        TypedKind::Arrow { base, offset } => {
            let first = evaluate_whole(blocks, scope, Want::Value, base.get())?;
            let place = offset_by(blocks, *scope.comp, *offset, first)?;
            wanted(blocks, scope, expr.ty, place, want)
        }
        TypedKind::Deref(of) => {
            let place = evaluate_whole(blocks, scope, Want::Value, of.get())?;
            wanted(blocks, scope, expr.ty, place, want)
        }
        TypedKind::Address(of) => evaluate_whole(blocks, scope, Want::Place, of.get()),
        TypedKind::SizeOf { cells } => Ok(Value::Word(4_u32.wrapping_mul(*cells))),
    }
}

/// The place or the value of an expression, or the first cause that evaluation from left to right meets.
pub fn evaluate(
    blocks: &Blocks,
    scope: &Scope,
    want: Want,
    expr: &TypedExpr,
) -> Result<Value, Cause>
    ensures { result ≡ ways c_arith scope.now.structs.now (here_of scope.now) scope.now.params expr.now want
        (memory_of blocks.now scope.now.comp.now) }
{
    match want {
        Want::Place => {
            if let TypedKind::Variable(name) = &expr.kind {
                return Ok(variable_at(scope, *name));
            }
        }
        Want::Value => {
            if let Some(value) = value_at_once(blocks, scope, expr) {
                return Ok(value);
            }
        }
    }
    evaluate_whole(blocks, scope, want, expr)
}

/// The values of expressions from left to right, or the first cause.
pub fn evaluate_all(
    alloc: Global,
    blocks: &Blocks,
    scope: &Scope,
    exprs: &[TypedExpr],
) -> Result<Result<Arguments, Cause>, AllocError>
    ensures { IfOk result (λ found. found ≡ values (map
        (ways c_arith scope.now.structs.now (here_of scope.now) scope.now.params) exprs.now)
        (memory_of blocks.now scope.now.comp.now)) }
{
    let mut found = Arguments::new(alloc);
    for expr in exprs {
        match evaluate(blocks, scope, Want::Value, expr) {
            Ok(value) => found.push(value)?,
            Err(cause) => return Ok(Err(cause)),
        }
    }
    Ok(Ok(found))
}
