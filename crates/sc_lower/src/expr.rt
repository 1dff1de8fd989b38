//! Expressions (C11 6.5), by recursion on the tree, whose height is at most 256.

ghost use Rattle.sc_lower.specs.Prelude.{and_code, binary_code, code_after, constant_of, expr_beyond, expr_nodes};
ghost use Rattle.sc_lower.specs.Prelude.{forms, fragment_after, is_logical, logical_code, most_nodes, move_op, or_code};
ghost use Rattle.sc_lower.specs.Prelude.{place_code, size_of, store_at, truth_code};
ghost use Rattle.std.specs.Prelude.{IfOk, None, Some, [], suc, true, ◌++◌, ◌+◌, ◌<◌, ◌∷◌, ◌≡◌, ◌≤◌};
ghost use Rattle.sc_base.specs.declared.op.BinaryOp.TheVariants as op;
ghost use Rattle.sc_tac.specs.declared.stmt.TacStmt;

use crate::code::{Code, Fragment, Scope, assigned, ended, loaded, with_result};
use crate::selection::{binary_code, constant_of, move_op, place_code, unary_op, with_truth};
use sc_base::{BinaryOp, OutOfMemory};
use sc_core::{Ty, TypedExpr, TypedKind, Want};
use sc_tac::{Constant, TacOp, TacStmt, TacStmts};
use std::alloc::Global;

// A literal of this type, after other statements.
fn literal(first: TacStmts, ty: Ty, word: u32, free: u32) -> Result<Code, OutOfMemory>
    requires { free < most_nodes }
    ensures { IfOk result (λ code. code ≡ record {
      stmts = first ++ TacStmt.Const free (constant_of ty word) ∷ [];
      at = free;
      next = suc free;
    }) }
{
    let stmt = TacStmt::Const {
        dest: free,
        value: constant_of(ty, word),
    };
    assigned(first, stmt, free)
}

// The size of a type of `cells` cells (C11 6.5.3.4), after other statements.
fn size(first: TacStmts, cells: u32, free: u32) -> Result<Code, OutOfMemory>
    requires { free < most_nodes }
    ensures { IfOk result (λ code. code ≡ record {
      stmts = first ++ TacStmt.Const free (size_of cells) ∷ [];
      at = free;
      next = suc free;
    }) }
{
    let stmt = TacStmt::Const {
        dest: free,
        value: Constant::Word(4_u32.wrapping_mul(cells)),
    };
    assigned(first, stmt, free)
}

// An operator that takes one value.
fn with_op(code: Code, op: TacOp) -> Result<Code, OutOfMemory>
    requires { code.next < most_nodes }
    ensures { IfOk result (λ longer. longer ≡ record {
      stmts = code.stmts ++ TacStmt.Op code.next op code.at None ∷ [];
      at = code.next;
      next = suc code.next;
    }) }
{
    let last = TacStmt::Op {
        dest: code.next,
        op,
        left: code.at,
        right: None,
    };
    with_result(code, last)
}

// The place of an element, whose base is in the temporary `base`.
fn element(scope: &Scope, types: (Ty, Ty), base: u32, index: Code) -> Result<Code, OutOfMemory>
    requires { index.next < most_nodes }
    ensures { IfOk result (λ code. code ≡ record {
      stmts = index.stmts
          ++ TacStmt.Op index.next (move_op scope.now.structs.now op.Add types.0 types.1) base (Some index.at) ∷ [];
      at = index.next;
      next = suc index.next;
    }) }
{
    let last = TacStmt::Op {
        dest: index.next,
        op: move_op(scope.structs, BinaryOp::Add, types.0, types.1),
        left: base,
        right: Some(index.at),
    };
    with_result(index, last)
}

// The second value counts where the first is true, else the result is 0.
fn and_also(alloc: Global, ty: Ty, left: Code, right: Code) -> Result<Code, OutOfMemory>
    requires { right.next < most_nodes }
    ensures { IfOk result (λ code. code ≡ record {
      stmts = left.stmts ++ and_code right.next left.at (right.stmts ++ truth_code ty right.next right.at) ∷ [];
      at = right.next;
      next = suc right.next;
    }) }
{
    let dest = right.next;
    let then_part = with_truth(right.stmts, ty, dest, right.at)?;
    let mut else_part = TacStmts::new(alloc);
    else_part.push(TacStmt::Const {
        dest,
        value: Constant::Word(0),
    })?;
    let mut stmts = left.stmts;
    stmts.push(TacStmt::If {
        cond: left.at,
        then_part,
        else_part,
    })?;
    Ok(Code {
        stmts,
        at: dest,
        next: dest + 1,
    })
}

// The second value counts where the first is false, else the result is 1.
fn or_else(alloc: Global, ty: Ty, left: Code, right: Code) -> Result<Code, OutOfMemory>
    requires { right.next < most_nodes }
    ensures { IfOk result (λ code. code ≡ record {
      stmts = left.stmts ++ or_code right.next left.at (right.stmts ++ truth_code ty right.next right.at) ∷ [];
      at = right.next;
      next = suc right.next;
    }) }
{
    let dest = right.next;
    let mut then_part = TacStmts::new(alloc);
    then_part.push(TacStmt::Const {
        dest,
        value: Constant::Word(1),
    })?;
    let else_part = with_truth(right.stmts, ty, dest, right.at)?;
    let mut stmts = left.stmts;
    stmts.push(TacStmt::If {
        cond: left.at,
        then_part,
        else_part,
    })?;
    Ok(Code {
        stmts,
        at: dest,
        next: dest + 1,
    })
}

// One of these two operators.
fn logical(
    alloc: Global,
    op: BinaryOp,
    ty: Ty,
    left: Code,
    right: Code,
) -> Result<Code, OutOfMemory>
    requires logical { is_logical op ≡ true }
    requires fits { right.next < most_nodes }
    ensures { IfOk result (λ code. code ≡ record {
      stmts = left.stmts ++ logical_code op right.next left.at (right.stmts ++ truth_code ty right.next right.at) ∷ [];
      at = right.next;
      next = suc right.next;
    }) }
{
    match op {
        BinaryOp::AndAlso => and_also(alloc, ty, left, right),
        _ => or_else(alloc, ty, left, right),
    }
}

fn is_logical(op: BinaryOp) -> bool
    ensures { result ≡ is_logical op }
{
    match op {
        BinaryOp::AndAlso | BinaryOp::OrElse => true,
        _ => false,
    }
}

// An operator for which both values count, the first of which is in the temporary `left`.
fn plain(
    scope: &Scope,
    op: BinaryOp,
    types: (Ty, Ty),
    left: u32,
    right: Code,
) -> Result<Code, OutOfMemory>
    requires { right.next < most_nodes }
    ensures { IfOk result (λ code. code ≡ record {
      stmts = right.stmts ++ binary_code scope.now.structs.now op types.0 types.1 right.next left right.at ∷ [];
      at = right.next;
      next = suc right.next;
    }) }
{
    let last = binary_code(scope.structs, op, types, right.next, left, right.at);
    with_result(right, last)
}

/// The place or the value of an expression, after other statements.
#[tactic(auto, using(std::proofs::Common::append_assoc))]
pub fn lower_expr(
    alloc: Global,
    scope: &Scope,
    want: Want,
    expr: &TypedExpr,
    free: u32,
    stmts: TacStmts,
) -> Result<Code, OutOfMemory>
    requires fits { free + expr_nodes expr.now ≤ most_nodes }
    requires near { expr_beyond expr.now ≡ 0 }
    ensures made { IfOk result (λ code.
        code ≡ code_after stmts (forms scope.now.structs.now scope.now.params expr.now want free)) }
    ensures few { IfOk result (λ code. code.next ≤ free + expr_nodes expr.now) }
{
    match &expr.kind {
        TypedKind::Literal { value } => literal(stmts, expr.ty, *value, free),
        TypedKind::Variable(variable) => {
            let place = assigned(stmts, place_code(scope.params, *variable, free), free)?;
            loaded(place, expr.ty, want)
        }
        TypedKind::Unary { op, of } => {
            let code = lower_expr(alloc, scope, Want::Value, of.get(), free, stmts)?;
            with_op(code, unary_op(*op, of.get().ty))
        }
        TypedKind::Binary { op, left, right } => {
            let (left, right) = (left.get(), right.get());
            let first = lower_expr(alloc, scope, Want::Value, left, free, stmts)?;
            if is_logical(*op) {
                let apart = TacStmts::new(alloc);
                let second = lower_expr(alloc, scope, Want::Value, right, first.next, apart)?;
                return logical(alloc, *op, right.ty, first, second);
            }
            let second = lower_expr(alloc, scope, Want::Value, right, first.next, first.stmts)?;
            plain(scope, *op, (left.ty, right.ty), first.at, second)
        }
        TypedKind::Index { base, index } => {
            let (base, index) = (base.get(), index.get());
            let first = lower_expr(alloc, scope, Want::Value, base, free, stmts)?;
            let second = lower_expr(alloc, scope, Want::Value, index, first.next, first.stmts)?;
            loaded(
                element(scope, (base.ty, index.ty), first.at, second)?,
                expr.ty,
                want,
            )
        }
        TypedKind::Member { base, offset } => {
            let code = lower_expr(alloc, scope, Want::Place, base.get(), free, stmts)?;
            let place = with_op(code, TacOp::PointerMember { offset: *offset })?;
            loaded(place, expr.ty, want)
        }
        TypedKind::Arrow { base, offset } => {
            let code = lower_expr(alloc, scope, Want::Value, base.get(), free, stmts)?;
            let place = with_op(code, TacOp::PointerMember { offset: *offset })?;
            loaded(place, expr.ty, want)
        }
        TypedKind::Deref(of) => {
            let place = lower_expr(alloc, scope, Want::Value, of.get(), free, stmts)?;
            loaded(place, expr.ty, want)
        }
        TypedKind::Address(of) => lower_expr(alloc, scope, Want::Place, of.get(), free, stmts),
        TypedKind::SizeOf { cells } => size(stmts, *cells, free),
    }
}

/// A value that is stored at a place, after other statements.
pub fn lower_store(
    alloc: Global,
    scope: &Scope,
    place: &TypedExpr,
    value: u32,
    free: u32,
    stmts: TacStmts,
) -> Result<Fragment, OutOfMemory>
    requires fits { free + expr_nodes place.now ≤ most_nodes }
    requires near { expr_beyond place.now ≡ 0 }
    ensures made { IfOk result (λ fragment. fragment ≡ fragment_after stmts
        (store_at (forms scope.now.structs.now scope.now.params place.now) value free)) }
    ensures few { IfOk result (λ fragment. fragment.next ≤ free + expr_nodes place.now) }
{
    let code = lower_expr(alloc, scope, Want::Place, place, free, stmts)?;
    let last = TacStmt::Store {
        place: code.at,
        value,
    };
    ended(code, last)
}
