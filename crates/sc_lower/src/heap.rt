//! Blocks that are allocated and freed (C11 7.22.3).

ghost use Rattle.sc_lower.specs.Prelude.{allocate_at, code_of, count_beyond, count_code, count_nodes, expr_beyond};
ghost use Rattle.sc_lower.specs.Prelude.{expr_nodes, forms, fragment_of, free_value, most_nodes};
ghost use Rattle.std.specs.Prelude.{◌≡◌, ◌≤◌, ◌+◌, ◌++◌, ◌∷◌, [], suc, IfOk};
ghost use Rattle.sc_tac.specs.declared.stmt.TacStmt;

use crate::code::{Code, Fragment, Scope, assigned, ended, with_last};
use crate::expr::{lower_expr, lower_store};
use sc_base::OutOfMemory;
use sc_core::{TypedExpr, TypedPlace, Want};
use sc_tac::{Constant, TacStmt, TacStmts};
use sqlite_items::Boxed;
use std::alloc::Global;

// The number of elements: one where none stands.
fn lower_count(
    alloc: Global,
    scope: &Scope,
    count: &Option<Boxed<TypedExpr>>,
    free: u32,
) -> Result<Code, OutOfMemory>
    requires fits { free + suc (count_nodes count.now) ≤ most_nodes }
    requires near { count_beyond count.now ≡ 0 }
    ensures made { IfOk result (λ code.
        code ≡ code_of (count_code scope.now.structs.now scope.now.params count.now free)) }
    ensures few { IfOk result (λ code. code.next ≤ free + suc (count_nodes count.now)) }
{
    match count {
        None => {
            let stmt = TacStmt::Const {
                dest: free,
                value: Constant::Word(1),
            };
            assigned(TacStmts::new(alloc), stmt, free)
        }
        Some(count) => {
            let none = TacStmts::new(alloc);
            lower_expr(alloc, scope, Want::Value, count.get(), free, none)
        }
    }
}

// A block of as many elements of `cells` cells each. The number's temporary takes the pointer to it.
fn allocation(count: Code, cells: u32) -> Result<Code, OutOfMemory>
    ensures { IfOk result (λ longer. longer ≡ record {
      stmts = count.stmts ++ TacStmt.Alloc count.at count.at cells ∷ [];
      at = count.at;
      next = count.next;
    }) }
{
    let last = TacStmt::Alloc {
        dest: count.at,
        count: count.at,
        words: cells,
    };
    with_last(count, last)
}

/// Elements of `cells` cells each are allocated, and the pointer to them is assigned (C11 7.22.3.4).
pub fn lower_malloc(
    alloc: Global,
    scope: &Scope,
    place: &TypedPlace,
    count: &Option<Boxed<TypedExpr>>,
    cells: u32,
    free: u32,
) -> Result<Fragment, OutOfMemory>
    requires fits { free + suc (expr_nodes place.now + count_nodes count.now) ≤ most_nodes }
    requires near { expr_beyond place.now + count_beyond count.now ≡ 0 }
    ensures made { IfOk result (λ fragment. fragment ≡
        fragment_of (allocate_at (forms scope.now.structs.now scope.now.params place.now)
        (count_code scope.now.structs.now scope.now.params count.now) cells free)) }
    ensures few { IfOk result (λ fragment. fragment.next
        ≤ free + suc (expr_nodes place.now + count_nodes count.now)) }
{
    let count = lower_count(alloc, scope, count, free)?;
    let block = allocation(count, cells)?;
    lower_store(alloc, scope, place.get(), block.at, block.next, block.stmts)
}

/// A value is freed (C11 7.22.3.3).
pub fn lower_free(
    alloc: Global,
    scope: &Scope,
    pointer: &TypedExpr,
    free: u32,
) -> Result<Fragment, OutOfMemory>
    requires fits { free + expr_nodes pointer.now ≤ most_nodes }
    requires near { expr_beyond pointer.now ≡ 0 }
    ensures made { IfOk result (λ fragment. fragment ≡
        fragment_of (free_value (forms scope.now.structs.now scope.now.params pointer.now) free)) }
    ensures few { IfOk result (λ fragment. fragment.next ≤ free + expr_nodes pointer.now) }
{
    let code = lower_expr(
        alloc,
        scope,
        Want::Value,
        pointer,
        free,
        TacStmts::new(alloc),
    )?;
    let last = TacStmt::Free { pointer: code.at };
    ended(code, last)
}
