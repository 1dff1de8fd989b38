//! Statements (C11 6.8), by recursion on the tree.

ghost use Rattle.sc_lower.specs.Prelude.{after, assign, block_code, expr_beyond, expr_nodes, forms, fragment_after};
ghost use Rattle.sc_lower.specs.Prelude.{fragment_of};
ghost use Rattle.sc_lower.specs.Prelude.{most_nodes, part_beyond, part_code, part_nodes, return_value, simple_beyond};
ghost use Rattle.sc_lower.specs.Prelude.{simple_code, simple_nodes, stmt_beyond, stmt_code, stmt_nodes, test, total};
ghost use Rattle.std.specs.Prelude.{◌≡◌, ◌≤◌, ◌+◌, ◌++◌, ◌∷◌, [], suc, map, Some, IfOk};
ghost use Rattle.sc_core.specs.declared.value.Want.TheVariants as want;
ghost use Rattle.sc_tac.specs.declared.stmt.TacStmt;

use crate::calls::{lower_call, lower_return_call, store_call};
use crate::code::{Code, Fragment, Scope, after, ended, extended, nothing};
use crate::expr::{lower_expr, lower_store};
use crate::heap::{lower_free, lower_malloc};
use sc_base::OutOfMemory;
use sc_core::{
    TypedExpr, TypedPlace, TypedSimple, TypedSimpleKind, TypedStmt, TypedStmtKind, TypedStmts, Want,
};
use sc_tac::{TacStmt, TacStmts};
use sqlite_items::Boxed;
use std::alloc::Global;

// A value that is assigned, after other statements.
#[tactic(auto, using(std::proofs::Common::append_assoc))]
fn lower_assign(
    alloc: Global,
    scope: &Scope,
    place: &TypedPlace,
    value: &TypedExpr,
    free: u32,
    stmts: TacStmts,
) -> Result<Fragment, OutOfMemory>
    requires fits { free + (expr_nodes place.now + expr_nodes value.now) ≤ most_nodes }
    requires near { expr_beyond place.now + expr_beyond value.now ≡ 0 }
    ensures made { IfOk result (λ fragment. fragment ≡ fragment_after stmts
        (assign (forms scope.now.structs.now scope.now.params place.now)
        (forms scope.now.structs.now scope.now.params value.now) free)) }
    ensures few { IfOk result (λ fragment. fragment.next ≤ free + (expr_nodes place.now + expr_nodes value.now)) }
{
    let code = lower_expr(alloc, scope, Want::Value, value, free, stmts)?;
    lower_store(alloc, scope, place.get(), code.at, code.next, code.stmts)
}

// A value that is returned, after other statements.
#[tactic(auto, using(std::proofs::Common::append_assoc))]
fn lower_return(
    alloc: Global,
    scope: &Scope,
    value: &TypedExpr,
    free: u32,
    stmts: TacStmts,
) -> Result<Fragment, OutOfMemory>
    requires fits { free + expr_nodes value.now ≤ most_nodes }
    requires near { expr_beyond value.now ≡ 0 }
    ensures made { IfOk result (λ fragment. fragment ≡ fragment_after stmts
        (after (forms scope.now.structs.now scope.now.params value.now want.Value) return_value free)) }
    ensures few { IfOk result (λ fragment. fragment.next ≤ free + expr_nodes value.now) }
{
    let code = lower_expr(alloc, scope, Want::Value, value, free, stmts)?;
    let last = TacStmt::Return {
        value: Some(code.at),
    };
    ended(code, last)
}

// Control leaves the loop where the condition is 0.
fn lower_test(
    alloc: Global,
    scope: &Scope,
    cond: &TypedExpr,
    free: u32,
) -> Result<Fragment, OutOfMemory>
    requires fits { free + expr_nodes cond.now ≤ most_nodes }
    requires near { expr_beyond cond.now ≡ 0 }
    ensures made { IfOk result (λ fragment. fragment ≡
        fragment_of (test (forms scope.now.structs.now scope.now.params cond.now) free)) }
    ensures few { IfOk result (λ fragment. fragment.next ≤ free + expr_nodes cond.now) }
{
    let code = lower_expr(alloc, scope, Want::Value, cond, free, TacStmts::new(alloc))?;
    let mut else_part = TacStmts::new(alloc);
    else_part.push(TacStmt::Break)?;
    let last = TacStmt::If {
        cond: code.at,
        then_part: TacStmts::new(alloc),
        else_part,
    };
    ended(code, last)
}

// One of these statements, after others.
fn lower_simple(
    alloc: Global,
    scope: &Scope,
    kind: &TypedSimpleKind,
    free: u32,
    stmts: TacStmts,
) -> Result<Fragment, OutOfMemory>
    requires fits { free + simple_nodes kind.now ≤ most_nodes }
    requires near { simple_beyond kind.now ≡ 0 }
    ensures made { IfOk result (λ fragment. fragment ≡ fragment_after stmts
        (simple_code scope.now.structs.now scope.now.params kind.now free)) }
    ensures few { IfOk result (λ fragment. fragment.next ≤ free + simple_nodes kind.now) }
{
    match kind {
        TypedSimpleKind::Assign { place, value } => lower_assign(
            alloc,
            scope,
            place,
            value.get(),
            free,
            stmts,
        ),
        TypedSimpleKind::AssignCall { place, call } => {
            after(stmts, store_call(alloc, scope, place, call.get(), free)?)
        }
        TypedSimpleKind::Call(call) => after(stmts, lower_call(alloc, scope, call.get(), free)?),
        TypedSimpleKind::Malloc {
            place,
            count,
            cells,
        } => after(
            stmts,
            lower_malloc(alloc, scope, place, count, *cells, free)?,
        ),
        TypedSimpleKind::Free(pointer) => {
            after(stmts, lower_free(alloc, scope, pointer.get(), free)?)
        }
    }
}

// A part in the head of a `for`, if it is there, after other statements.
fn lower_part(
    alloc: Global,
    scope: &Scope,
    part: &Option<Boxed<TypedSimple>>,
    free: u32,
    stmts: TacStmts,
) -> Result<Fragment, OutOfMemory>
    requires fits { free + part_nodes part.now ≤ most_nodes }
    requires near { part_beyond part.now ≡ 0 }
    ensures made { IfOk result (λ fragment. fragment ≡ fragment_after stmts
        (part_code scope.now.structs.now scope.now.params part.now free)) }
    ensures few { IfOk result (λ fragment. fragment.next ≤ free + part_nodes part.now) }
{
    match part {
        None => Ok(Fragment { stmts, next: free }),
        Some(simple) => lower_simple(alloc, scope, &simple.get().kind, free, stmts),
    }
}

// The first part where the value is true, else the second.
fn forked(cond: Code, first: Fragment, second: Fragment) -> Result<Fragment, OutOfMemory>
    ensures { IfOk result (λ fragment. fragment ≡ record {
      stmts = cond.stmts ++ TacStmt.If cond.at first.stmts second.stmts ∷ [];
      next = second.next;
    }) }
{
    let mut stmts = cond.stmts;
    stmts.push(TacStmt::If {
        cond: cond.at,
        then_part: first.stmts,
        else_part: second.stmts,
    })?;
    Ok(Fragment {
        stmts,
        next: second.next,
    })
}

// A loop of three parts after other statements.
fn looped(
    first: TacStmts,
    head: TacStmts,
    body: TacStmts,
    next: Fragment,
) -> Result<Fragment, OutOfMemory>
    ensures { IfOk result (λ fragment. fragment ≡ record {
      stmts = first ++ TacStmt.Loop head body next.stmts ∷ [];
      next = next.next;
    }) }
{
    let mut stmts = first;
    stmts.push(TacStmt::Loop {
        head,
        body,
        next: next.stmts,
    })?;
    Ok(Fragment {
        stmts,
        next: next.next,
    })
}

/// Statements in order.
#[cycle(lower)]
pub fn lower_stmts(
    alloc: Global,
    scope: &Scope,
    block: &TypedStmts,
    free: u32,
) -> Result<Fragment, OutOfMemory>
    requires fits { free + total (map stmt_nodes block.now) ≤ most_nodes }
    requires near { total (map stmt_beyond block.now) ≡ 0 }
    ensures made { IfOk result (λ fragment. fragment ≡
        fragment_of (block_code scope.now.structs.now scope.now.params block.now free)) }
    ensures few { IfOk result (λ fragment. fragment.next ≤ free + total (map stmt_nodes block.now)) }
{
    let mut stmts = TacStmts::new(alloc);
    let mut next = free;
    for stmt in block.as_slice() {
        let fragment = lower_stmt(alloc, scope, stmt, next, stmts)?;
        stmts = fragment.stmts;
        next = fragment.next;
    }
    Ok(Fragment { stmts, next })
}

// A statement after others.
#[cycle(lower)]
fn lower_stmt(
    alloc: Global,
    scope: &Scope,
    stmt: &TypedStmt,
    free: u32,
    stmts: TacStmts,
) -> Result<Fragment, OutOfMemory>
    requires fits { free + stmt_nodes stmt.now ≤ most_nodes }
    requires near { stmt_beyond stmt.now ≡ 0 }
    ensures made { IfOk result (λ fragment. fragment ≡ fragment_after stmts
        (stmt_code scope.now.structs.now scope.now.params stmt.now free)) }
    ensures few { IfOk result (λ fragment. fragment.next ≤ free + stmt_nodes stmt.now) }
{
    match &stmt.kind {
        TypedStmtKind::Empty => Ok(Fragment { stmts, next: free }),
        TypedStmtKind::Assign { place, value } => lower_assign(
            alloc,
            scope,
            place,
            value.get(),
            free,
            stmts,
        ),
        TypedStmtKind::AssignCall { place, call } => {
            after(stmts, store_call(alloc, scope, place, call.get(), free)?)
        }
        TypedStmtKind::Call(call) => after(stmts, lower_call(alloc, scope, call.get(), free)?),
        TypedStmtKind::Malloc {
            place,
            count,
            cells,
        } => after(
            stmts,
            lower_malloc(alloc, scope, place, count, *cells, free)?,
        ),
        TypedStmtKind::Free(pointer) => {
            after(stmts, lower_free(alloc, scope, pointer.get(), free)?)
        }
        TypedStmtKind::If {
            cond,
            then_part,
            else_part,
        } => {
            let none = TacStmts::new(alloc);
            let cond = lower_expr(alloc, scope, Want::Value, cond.get(), free, none)?;
            let first = lower_stmts(alloc, scope, then_part, cond.next)?;
            let second = lower_stmts(alloc, scope, else_part, first.next)?;
            after(stmts, forked(cond, first, second)?)
        }
        TypedStmtKind::While { cond, body } => {
            let head = lower_test(alloc, scope, cond.get(), free)?;
            let body = lower_stmts(alloc, scope, body, head.next)?;
            let next = nothing(alloc, body.next);
            looped(stmts, head.stmts, body.stmts, next)
        }
        TypedStmtKind::For {
            first,
            cond,
            next,
            body,
        } => {
            let first = lower_part(alloc, scope, first, free, TacStmts::new(alloc))?;
            let head = lower_test(alloc, scope, cond.get(), first.next)?;
            let body = lower_stmts(alloc, scope, body, head.next)?;
            let next = lower_part(alloc, scope, next, body.next, TacStmts::new(alloc))?;
            after(stmts, looped(first.stmts, head.stmts, body.stmts, next)?)
        }
        TypedStmtKind::Break => extended(stmts, TacStmt::Break, free),
        TypedStmtKind::Continue => extended(stmts, TacStmt::Continue, free),
        TypedStmtKind::Return => extended(stmts, TacStmt::Return { value: None }, free),
        TypedStmtKind::ReturnValue(value) => lower_return(alloc, scope, value.get(), free, stmts),
        TypedStmtKind::ReturnCall(call) => {
            after(stmts, lower_return_call(alloc, scope, call.get(), free)?)
        }
    }
}
