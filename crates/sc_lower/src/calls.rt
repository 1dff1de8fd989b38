//! Calls (C11 6.5.2.2): arguments from left to right, then the call.

ghost use Rattle.sc_lower.specs.Prelude.{args, call_beyond, call_code, call_for, call_nodes, call_statement};
ghost use Rattle.sc_lower.specs.Prelude.{expr_beyond, expr_nodes, first_of, forms, fragment_of, many, most_nodes};
ghost use Rattle.sc_lower.specs.Prelude.{return_value, store_at, total, values_of};
ghost use Rattle.std.specs.Prelude.{◌≡◌, ◌≤◌, ◌+◌, ◌++◌, ◌∷◌, [], suc, map, None, Some, IfOk};

use crate::code::{Fragment, Scope, extended};
use crate::expr::{lower_expr, lower_store};
use sc_base::OutOfMemory;
use sc_core::{CallTarget, TypedCall, TypedExpr, TypedPlace, Want};
use sc_tac::{TacStmt, TacStmts, Temps};
use std::alloc::Global;

/// Code, the temporaries in which it leaves values, and the next free one.
#[derive(Drop)]
pub struct Values {
    pub stmts: TacStmts,
    pub at: Temps,
    pub next: u32,
}

fn lower_args(
    alloc: Global,
    scope: &Scope,
    args: &[TypedExpr],
    free: u32,
) -> Result<Values, OutOfMemory>
    requires fits { free + total (map expr_nodes args.now) ≤ most_nodes }
    requires near { total (map expr_beyond args.now) ≡ 0 }
    ensures made { IfOk result (λ values. values ≡
        values_of (many (map (forms scope.now.structs.now scope.now.params) args.now) free)) }
    ensures few { IfOk result (λ values. values.next ≤ free + total (map expr_nodes args.now)) }
{
    let mut stmts = TacStmts::new(alloc);
    let mut at = Temps::new(alloc);
    let mut next = free;
    for arg in args {
        let code = lower_expr(alloc, scope, Want::Value, arg, next, stmts)?;
        stmts = code.stmts;
        at.push(code.at)?;
        next = code.next;
    }
    Ok(Values { stmts, at, next })
}

fn first_of(temps: &Temps) -> u32
    ensures { result ≡ first_of temps.now }
{
    match temps.as_slice().first() {
        Some(first) => *first,
        None => 0,
    }
}

fn call_code(target: CallTarget, dest: Option<u32>, args: Temps) -> TacStmt
    ensures { result ≡ call_code target dest args }
{
    match target {
        CallTarget::Own(function) => TacStmt::CallOwn {
            dest,
            function,
            args,
        },
        CallTarget::Cross(comp, index) => TacStmt::CallCross {
            dest,
            comp,
            index,
            args,
        },
        CallTarget::Input => TacStmt::Input { dest },
        CallTarget::Output => TacStmt::Output {
            value: first_of(&args),
        },
    }
}

// A call whose result has the next free temporary, and what is made of it.
#[tactic(auto, using(std::proofs::Common::append_assoc))]
fn with_call(values: Values, target: CallTarget, rest: Fragment) -> Result<Fragment, OutOfMemory>
    ensures { IfOk result (λ fragment. fragment ≡ record {
      stmts = values.stmts ++ call_code target (Some values.next) values.at ∷ rest.stmts;
      next = rest.next;
    }) }
{
    let mut stmts = values.stmts;
    stmts.push(call_code(target, Some(values.next), values.at))?;
    stmts.append(rest.stmts)?;
    Ok(Fragment {
        stmts,
        next: rest.next,
    })
}

/// A call whose result is dropped.
pub fn lower_call(
    alloc: Global,
    scope: &Scope,
    call: &TypedCall,
    free: u32,
) -> Result<Fragment, OutOfMemory>
    requires fits { free + call_nodes call.now ≤ most_nodes }
    requires near { call_beyond call.now ≡ 0 }
    ensures made { IfOk result (λ fragment. fragment ≡
        fragment_of (call_statement call.now.target (args scope.now.structs.now scope.now.params call.now) free)) }
    ensures few { IfOk result (λ fragment. fragment.next ≤ free + call_nodes call.now) }
{
    let values = lower_args(alloc, scope, call.args.as_slice(), free)?;
    let mut stmts = values.stmts;
    stmts.push(call_code(call.target, None, values.at))?;
    Ok(Fragment {
        stmts,
        next: values.next,
    })
}

/// A call whose result is assigned.
pub fn store_call(
    alloc: Global,
    scope: &Scope,
    place: &TypedPlace,
    call: &TypedCall,
    free: u32,
) -> Result<Fragment, OutOfMemory>
    requires fits { free + suc (expr_nodes place.now + call_nodes call.now) ≤ most_nodes }
    requires near { expr_beyond place.now + call_beyond call.now ≡ 0 }
    ensures made { IfOk result (λ fragment. fragment ≡
        fragment_of (call_for call.now.target (args scope.now.structs.now scope.now.params call.now)
        (store_at (forms scope.now.structs.now scope.now.params place.now)) free)) }
    ensures few { IfOk result (λ fragment. fragment.next ≤ free + suc (expr_nodes place.now + call_nodes call.now)) }
{
    let values = lower_args(alloc, scope, call.args.as_slice(), free)?;
    let (free, none) = (values.next + 1, TacStmts::new(alloc));
    let store = lower_store(alloc, scope, place.get(), values.next, free, none)?;
    with_call(values, call.target, store)
}

/// A call whose result is returned.
pub fn lower_return_call(
    alloc: Global,
    scope: &Scope,
    call: &TypedCall,
    free: u32,
) -> Result<Fragment, OutOfMemory>
    requires fits { free + suc (call_nodes call.now) ≤ most_nodes }
    requires near { call_beyond call.now ≡ 0 }
    ensures made { IfOk result (λ fragment. fragment ≡
        fragment_of
        (call_for call.now.target (args scope.now.structs.now scope.now.params call.now) return_value free)) }
    ensures few { IfOk result (λ fragment. fragment.next ≤ free + suc (call_nodes call.now)) }
{
    let values = lower_args(alloc, scope, call.args.as_slice(), free)?;
    let last = TacStmt::Return {
        value: Some(values.next),
    };
    let rest = extended(TacStmts::new(alloc), last, values.next + 1)?;
    with_call(values, call.target, rest)
}
