//! Elements of arrays that are variables (C11 6.5.2.1), by a way that gives no cause.

ghost use Rattle.sc_run_value.specs.Prelude.{Add, Blocks, Ptr, Word, at_pointer, bind, c_arith, here_of};
ghost use Rattle.sc_run_value.specs.Prelude.{load, moved_on, number_of, variable_at, ways};
ghost use Rattle.std.specs.Prelude.{◌≡◌, ◌*ℤ◌, IfSome, Ok, false, pos};
ghost use Rattle.sc_core.specs.declared.value.Want.TheVariants as want;

use crate::Scope;
use sc_blocks::Row;
use sc_core::{Pointer, Ty, TypedExpr, TypedKind, VarRef, target_cells};

/// The number of the block of a variable.
#[inline(always)]
pub(crate) fn block_of(scope: &Scope, variable: VarRef) -> u64
    ensures { Ptr (record { block = result; index = 0 }) ≡ variable_at (here_of scope.now) scope.now.params variable }
{
    match variable {
        VarRef::Global(number) => number as u64,
        VarRef::Param(number) => scope.first_block() + number as u64,
        VarRef::Local(number) => scope.first_block() + scope.params as u64 + number as u64,
    }
}

/// The block of an array that is named. None of another expression.
#[inline(always)]
pub(crate) fn array_block(scope: &Scope, expr: &TypedExpr) -> Option<u64>
    ensures { IfSome result (λ block. (blocks : Blocks) →
        ways c_arith scope.now.structs.now (here_of scope.now) scope.now.params expr.now want.Value blocks
        ≡ Ok (Ptr (record { block = block; index = 0 }))) }
{
    if !expr.ty.is_array() {
        return None;
    }
    match &expr.kind {
        TypedKind::Variable(name) => Some(block_of(scope, *name)),
        _ => None,
    }
}

// The cell with which an element begins, counted from the first of its array, by the cells of an element. None before
// that one.
#[inline(always)]
fn first_cell(cells: u32, unsigned: bool, word: u32) -> Option<u32>
    ensures { IfSome result (λ cell. pos cell ≡ pos cells *ℤ number_of unsigned word) }
{
    if word > i32::MAX as u32 {
        return None;
    }
    cells.checked_mul(word)
}

/// The cell with which an element of the array that a block is begins, by the cells of an element and the index.
#[inline(always)]
pub(crate) fn element_index(
    row: &Row,
    block: u64,
    cells: u32,
    unsigned: bool,
    word: u32,
) -> Option<u32>
    ensures { IfSome result (λ found. moved_on row.now cells unsigned
        (Ptr (record { block = block; index = 0 })) (Word word)
        ≡ Ok (Ptr (record { block = block; index = found }))) }
{
    let index = first_cell(cells, unsigned, word)?;
    let count = row.count(block as usize)?;
    if index > count {
        return None;
    }
    Some(index)
}

/// The place of an element of the array that a block is, by the types of array and index.
#[inline(always)]
pub(crate) fn element_place(
    row: &Row,
    scope: &Scope,
    types: (Ty, Ty),
    block: u64,
    word: u32,
) -> Option<Pointer>
    ensures { IfSome result (λ place. at_pointer scope.now.structs.now row.now Add types.0 types.1
        (Ptr (record { block = block; index = 0 })) (Word word) ≡ Ok (Ptr place)) }
{
    let cells = target_cells(scope.structs, types.0);
    let index = element_index(row, block, cells, types.1.is_unsigned(), word)?;
    Some(Pointer { block, index })
}

/// The word of an element of the array that a block is, by the types of array and index.
#[inline(always)]
pub(crate) fn element_word(
    row: &Row,
    scope: &Scope,
    types: (Ty, Ty),
    block: u64,
    word: u32,
) -> Option<u32>
    ensures { IfSome result (λ found. bind (at_pointer scope.now.structs.now row.now Add types.0 types.1
        (Ptr (record { block = block; index = 0 })) (Word word)) (load row.now false) ≡ Ok (Word found)) }
{
    let cells = target_cells(scope.structs, types.0);
    let index = first_cell(cells, types.1.is_unsigned(), word)?;
    row.word(block as usize, index as usize)
}
