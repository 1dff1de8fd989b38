//! How many nodes typed trees have.

ghost use Rattle.sc_lower.specs.Prelude.{call_nodes, count_nodes, expr_nodes, init_nodes, local_nodes, most_nodes};
ghost use Rattle.sc_lower.specs.Prelude.{nodes, part_nodes, simple_nodes, stmt_nodes, total};
ghost use Rattle.std.specs.Prelude.{◌≡◌, ◌≤◌, ◌+◌, suc, map, length};

use sc_core::{
    TypedCall, TypedExpr, TypedFunction, TypedKind, TypedLocal, TypedLocals, TypedSimple,
    TypedSimpleKind, TypedStmt, TypedStmtKind, TypedStmts,
};
use sqlite_items::Boxed;

fn expr_nodes(expr: &TypedExpr) -> u32
    requires { expr_nodes expr.now ≤ most_nodes }
    ensures { result ≡ expr_nodes expr.now }
{
    match &expr.kind {
        TypedKind::Literal { .. } => 1,
        TypedKind::Variable(_) => 1,
        TypedKind::Unary { of, .. } => 1 + expr_nodes(of.get()),
        TypedKind::Binary { left, right, .. } => {
            1 + expr_nodes(left.get()) + expr_nodes(right.get())
        }
        TypedKind::Index { base, index } => { 1 + expr_nodes(base.get()) + expr_nodes(index.get()) }
        TypedKind::Member { base, .. } => 1 + expr_nodes(base.get()),
        TypedKind::Arrow { base, .. } => 1 + expr_nodes(base.get()),
        TypedKind::Deref(of) => 1 + expr_nodes(of.get()),
        TypedKind::Address(of) => 1 + expr_nodes(of.get()),
        TypedKind::SizeOf { .. } => 1,
    }
}

fn call_nodes(call: &TypedCall) -> u32
    requires { call_nodes call.now ≤ most_nodes }
    ensures { result ≡ call_nodes call.now }
{
    let mut count = 0;
    for arg in call.args.as_slice() {
        count += expr_nodes(arg);
    }
    count
}

fn count_nodes(count: &Option<Boxed<TypedExpr>>) -> u32
    requires { count_nodes count.now ≤ most_nodes }
    ensures { result ≡ count_nodes count.now }
{
    match count {
        None => 0,
        Some(count) => expr_nodes(count.get()),
    }
}

fn simple_nodes(kind: &TypedSimpleKind) -> u32
    requires { simple_nodes kind.now ≤ most_nodes }
    ensures { result ≡ simple_nodes kind.now }
{
    match kind {
        TypedSimpleKind::Assign { place, value } => {
            1 + expr_nodes(place.get()) + expr_nodes(value.get())
        }
        TypedSimpleKind::AssignCall { place, call } => {
            1 + expr_nodes(place.get()) + call_nodes(call.get())
        }
        TypedSimpleKind::Call(call) => 1 + call_nodes(call.get()),
        TypedSimpleKind::Malloc { place, count, .. } => {
            1 + expr_nodes(place.get()) + count_nodes(count)
        }
        TypedSimpleKind::Free(pointer) => 1 + expr_nodes(pointer.get()),
    }
}

fn part_nodes(part: &Option<Boxed<TypedSimple>>) -> u32
    requires { part_nodes part.now ≤ most_nodes }
    ensures { result ≡ part_nodes part.now }
{
    match part {
        None => 0,
        Some(simple) => simple_nodes(&simple.get().kind),
    }
}

#[cycle(nodes)]
fn stmts_nodes(stmts: &TypedStmts) -> u32
    requires { total (map stmt_nodes stmts.now) ≤ most_nodes }
    ensures { result ≡ total (map stmt_nodes stmts.now) }
{
    let mut count = 0;
    for stmt in stmts.as_slice() {
        count += stmt_nodes(stmt);
    }
    count
}

#[cycle(nodes)]
fn stmt_nodes(stmt: &TypedStmt) -> u32
    requires { stmt_nodes stmt.now ≤ most_nodes }
    ensures { result ≡ stmt_nodes stmt.now }
{
    match &stmt.kind {
        TypedStmtKind::Assign { place, value } => {
            1 + expr_nodes(place.get()) + expr_nodes(value.get())
        }
        TypedStmtKind::AssignCall { place, call } => {
            1 + expr_nodes(place.get()) + call_nodes(call.get())
        }
        TypedStmtKind::Call(call) => 1 + call_nodes(call.get()),
        TypedStmtKind::Malloc { place, count, .. } => {
            1 + expr_nodes(place.get()) + count_nodes(count)
        }
        TypedStmtKind::Free(pointer) => 1 + expr_nodes(pointer.get()),
        TypedStmtKind::If {
            cond,
            then_part,
            else_part,
        } => { 1 + expr_nodes(cond.get()) + stmts_nodes(then_part) + stmts_nodes(else_part) }
        TypedStmtKind::While { cond, body } => 1 + expr_nodes(cond.get()) + stmts_nodes(body),
        TypedStmtKind::For {
            first,
            cond,
            next,
            body,
        } => {
            let head = part_nodes(first) + expr_nodes(cond.get()) + part_nodes(next);
            1 + head + stmts_nodes(body)
        }
        TypedStmtKind::ReturnValue(value) => 1 + expr_nodes(value.get()),
        TypedStmtKind::ReturnCall(call) => 1 + call_nodes(call.get()),
        _ => 1,
    }
}

fn init_nodes(init: &Option<TypedExpr>) -> u32
    requires { init_nodes init.now ≤ most_nodes }
    ensures { result ≡ init_nodes init.now }
{
    match init {
        None => 0,
        Some(init) => expr_nodes(init),
    }
}

fn local_nodes(local: &TypedLocal) -> u32
    requires { local_nodes local.now ≤ most_nodes }
    ensures { result ≡ local_nodes local.now }
{
    1 + init_nodes(&local.init)
}

fn locals_nodes(locals: &TypedLocals) -> u32
    requires { total (map local_nodes locals.now) ≤ most_nodes }
    ensures { result ≡ total (map local_nodes locals.now) }
{
    let mut count = 0;
    for local in locals.as_slice() {
        count += local_nodes(local);
    }
    count
}

/// The nodes of a function with `params` parameters.
pub fn function_nodes(function: &TypedFunction, params: u32) -> u32
    requires counted { params ≡ length function.now.params }
    requires few { nodes function.now ≤ most_nodes }
    ensures { result ≡ nodes function.now }
{
    1 + params + locals_nodes(&function.locals) + stmts_nodes(&function.body)
}
