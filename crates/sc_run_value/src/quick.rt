//! Expressions that compute only with integers, by a way that gives no cause: where it gives nothing, the whole
//! evaluation says why.

ghost use Rattle.sc_run_value.specs.Prelude.{Blocks, Word, applied_one, c_arith, decided, here_of, is_pointer, joined};
ghost use Rattle.sc_run_value.specs.Prelude.{on_words, variable_at, wanted, ways};
ghost use Rattle.sc_core.specs.declared.value.Want.TheVariants as want;
ghost use Rattle.sc_core.specs.declared.section.TypedStruct.{TypedStruct};
ghost use Rattle.std.specs.Prelude.{◌≡◌, IfSome, List, MatchOption, None, Ok, Some, false};

use crate::Scope;
use crate::elements::{array_block, block_of, element_word};
use crate::words::{applied_one, on_words, truth};
use sc_base::{BinaryOp, UnaryOp};
use sc_blocks::Row;
use sc_core::{Ty, TypedExpr, TypedKind, Value, VarRef, is_unsigned_op};

// The word of a variable of an integer type.
#[inline(always)]
fn variable(row: &Row, scope: &Scope, ty: Ty, variable: VarRef) -> Option<u32>
    ensures word { IfSome result (λ word.
        wanted ty (variable_at (here_of scope.now) scope.now.params variable) want.Value row.now ≡ Ok (Word word)) }
    ensures integer { IfSome result (λ word. is_pointer ty ≡ false) }
{
    match ty {
        Ty::Int => row.word(block_of(scope, variable) as usize, 0),
        Ty::Unsigned => row.word(block_of(scope, variable) as usize, 0),
        _ => None,
    }
}

// An operator before a word.
#[inline(always)]
fn of_one(unsigned: bool, op: UnaryOp, word: u32) -> Option<u32>
    ensures { IfSome result (λ found. applied_one c_arith unsigned op (Word word) ≡ Ok (Word found)) }
{
    match applied_one(unsigned, op, Value::Word(word)) {
        Ok(Value::Word(found)) => Some(found),
        _ => None,
    }
}

// An operator between two words.
#[inline(always)]
pub(crate) fn of_two(unsigned: bool, op: BinaryOp, left: u32, right: u32) -> Option<u32>
    ensures { IfSome result (λ found. on_words c_arith unsigned op (Word left) (Word right) ≡ Ok (Word found)) }
{
    match on_words(unsigned, op, Value::Word(left), Value::Word(right)) {
        Ok(Value::Word(found)) => Some(found),
        _ => None,
    }
}

// What the first operand of `&&` or `||` decides by itself.
#[inline(always)]
fn decided(op: BinaryOp, word: u32) -> Option<u32>
    ensures { MatchOption result (decided op (Word word) ≡ None) (λ found. decided op (Word word) ≡ Some (Word found)) }
{
    match op {
        BinaryOp::AndAlso => {
            if word == 0 {
                return Some(0);
            }
            None
        }
        BinaryOp::OrElse => {
            if word != 0 {
                return Some(1);
            }
            None
        }
        _ => None,
    }
}

// An operator between two words of these types, where the first decides nothing.
#[inline(always)]
fn joined(op: BinaryOp, types: (Ty, Ty), left: u32, right: u32) -> Option<u32>
    requires left { is_pointer types.0 ≡ false }
    requires right { is_pointer types.1 ≡ false }
    ensures { IfSome result (λ found. (structs : List TypedStruct) (blocks : Blocks) →
        joined structs blocks op types.0 types.1 (Word left) (Word right) ≡ Ok (Word found)) }
{
    match op {
        BinaryOp::AndAlso => Some(truth(right != 0)),
        BinaryOp::OrElse => Some(truth(right != 0)),
        op => of_two(is_unsigned_op(op, types.0, types.1), op, left, right),
    }
}

// The word of a literal, or of a variable of an integer type. None of another expression.
#[inline(always)]
fn leaf(row: &Row, scope: &Scope, expr: &TypedExpr) -> Option<u32>
    ensures word { IfSome result (λ word.
        ways c_arith scope.now.structs.now (here_of scope.now) scope.now.params expr.now want.Value row.now
        ≡ Ok (Word word)) }
    ensures integer { IfSome result (λ word. is_pointer expr.now.ty ≡ false) }
{
    match &expr.kind {
        TypedKind::Literal { value } => {
            if expr.ty.is_pointer() {
                return None;
            }
            Some(*value)
        }
        TypedKind::Variable(name) => variable(row, scope, expr.ty, *name),
        _ => None,
    }
}

// The word of an expression whose operands are leaves. None of another expression.
#[inline(always)]
fn of_leaves(row: &Row, scope: &Scope, expr: &TypedExpr) -> Option<u32>
    ensures { IfSome result (λ word.
        ways c_arith scope.now.structs.now (here_of scope.now) scope.now.params expr.now want.Value row.now
        ≡ Ok (Word word)) }
{
    match &expr.kind {
        TypedKind::Binary { op, left, right } => {
            let first = leaf(row, scope, left.get())?;
            let second = leaf(row, scope, right.get())?;
            if let Some(word) = decided(*op, first) {
                return Some(word);
            }
            joined(*op, (left.get().ty, right.get().ty), first, second)
        }
        _ => leaf(row, scope, expr),
    }
}

/// The word of an expression that computes only with integers, or none where that isn't known at once. One whose
/// operands are leaves is found without a call.
#[inline(always)]
pub(crate) fn quick(row: &Row, scope: &Scope, expr: &TypedExpr) -> Option<u32>
    ensures { IfSome result (λ word.
        ways c_arith scope.now.structs.now (here_of scope.now) scope.now.params expr.now want.Value row.now
        ≡ Ok (Word word)) }
{
    if let Some(word) = of_leaves(row, scope, expr) {
        return Some(word);
    }
    of_parts(row, scope, expr)
}

// The word of an expression by those of its parts.
fn of_parts(row: &Row, scope: &Scope, expr: &TypedExpr) -> Option<u32>
    ensures { IfSome result (λ word.
        ways c_arith scope.now.structs.now (here_of scope.now) scope.now.params expr.now want.Value row.now
        ≡ Ok (Word word)) }
{
    match &expr.kind {
        TypedKind::Unary { op, of } => {
            let word = match leaf(row, scope, of.get()) {
                Some(word) => word,
                None => of_parts(row, scope, of.get())?,
            };
            of_one(of.get().ty.is_unsigned(), *op, word)
        }
        TypedKind::Binary { op, left, right } => {
            if left.get().ty.is_pointer() {
                return None;
            }
            if right.get().ty.is_pointer() {
                return None;
            }
            let first = match leaf(row, scope, left.get()) {
                Some(word) => word,
                None => of_parts(row, scope, left.get())?,
            };
            if let Some(word) = decided(*op, first) {
                return Some(word);
            }
            let second = match leaf(row, scope, right.get()) {
                Some(word) => word,
                None => of_parts(row, scope, right.get())?,
            };
            joined(*op, (left.get().ty, right.get().ty), first, second)
        }
        TypedKind::Index { base, index } => {
            if expr.ty.is_array() {
                return None;
            }
            if expr.ty.is_pointer() {
                return None;
            }
            let block = array_block(scope, base.get())?;
            let word = match leaf(row, scope, index.get()) {
                Some(word) => word,
                None => of_parts(row, scope, index.get())?,
            };
            element_word(row, scope, (base.get().ty, index.get().ty), block, word)
        }
        _ => leaf(row, scope, expr),
    }
}
