//! How many nodes trees have. Numbers stop at 4294967295.

ghost use Rattle.sc_types.specs.Prelude.{call_nodes, decls_nodes, expr_nodes, function_nodes, kind_nodes, local_nodes};
ghost use Rattle.sc_types.specs.Prelude.{option_nodes, part_nodes, simple_nodes, stmt_nodes, stmts_nodes, total};
ghost use Rattle.sc_ast.specs.Prelude.{limited};
ghost use Rattle.std.specs.Prelude.{◌≡◌, ◌+◌, suc, [], ◌∷◌, map};

use sc_ast::{
    CallTree, Decl, Decls, ExprTree, FunctionTree, LocalTree, LocalTrees, SimpleKind, SimpleTree,
    StmtKind, StmtTree, Stmts,
};
use sqlite_items::Boxed;

// One node and those of its parts.
fn over(parts: u32) -> u32
    ensures { result ≡ limited (suc parts) }
{
    parts.saturating_add(1)
}

fn both(a: u32, b: u32) -> u32
    ensures { result ≡ limited (a + b) }
{
    a.saturating_add(b)
}

fn expr_nodes(expr: &ExprTree) -> u32
    ensures { result ≡ limited (expr_nodes expr.now) }
{
    match expr {
        ExprTree::Literal(_) => 1,
        ExprTree::Variable(_) => 1,
        ExprTree::Unary { of, .. } => over(expr_nodes(of.get())),
        ExprTree::Binary { left, right, .. } => {
            over(both(expr_nodes(left.get()), expr_nodes(right.get())))
        }
        ExprTree::Index { base, index } => {
            over(both(expr_nodes(base.get()), expr_nodes(index.get())))
        }
        ExprTree::Member { base, .. } => over(expr_nodes(base.get())),
        ExprTree::Arrow { base, .. } => over(expr_nodes(base.get())),
        ExprTree::Deref(of) => over(expr_nodes(of.get())),
        ExprTree::Address(of) => over(expr_nodes(of.get())),
        ExprTree::SizeOf(_) => 1,
    }
}

fn option_nodes(expr: &Option<Boxed<ExprTree>>) -> u32
    ensures { result ≡ limited (option_nodes expr.now) }
{
    match expr {
        None => 0,
        Some(expr) => expr_nodes(expr.get()),
    }
}

fn call_nodes(call: &CallTree) -> u32
    ensures { result ≡ limited (call_nodes call.now) }
{
    let mut nodes = 0;
    for arg in call.args.as_slice() {
        nodes = both(nodes, expr_nodes(arg));
    }
    nodes
}

fn simple_nodes(kind: &SimpleKind) -> u32
    ensures { result ≡ limited (simple_nodes kind.now) }
{
    match kind {
        SimpleKind::Assign { place, value } => {
            over(both(expr_nodes(place.get()), expr_nodes(value.get())))
        }
        SimpleKind::AssignCall { place, call } => {
            over(both(expr_nodes(place.get()), call_nodes(call.get())))
        }
        SimpleKind::Call(call) => over(call_nodes(call.get())),
        SimpleKind::Malloc { place, count, .. } => {
            over(both(expr_nodes(place.get()), option_nodes(count)))
        }
        SimpleKind::Free(pointer) => over(expr_nodes(pointer.get())),
    }
}

fn part_nodes(part: &Option<Boxed<SimpleTree>>) -> u32
    ensures { result ≡ limited (part_nodes part.now) }
{
    match part {
        None => 0,
        Some(simple) => simple_nodes(&simple.get().kind),
    }
}

#[cycle(nodes)]
fn stmts_nodes(stmts: &Stmts) -> u32
    ensures { result ≡ limited (stmts_nodes stmts.now) }
{
    let mut nodes = 0;
    for stmt in stmts.as_slice() {
        nodes = both(nodes, stmt_nodes(stmt));
    }
    nodes
}

#[cycle(nodes)]
fn stmt_nodes(stmt: &StmtTree) -> u32
    ensures { result ≡ limited (stmt_nodes stmt.now) }
{
    kind_nodes(&stmt.kind)
}

#[cycle(nodes)]
fn kind_nodes(kind: &StmtKind) -> u32
    ensures { result ≡ limited (kind_nodes kind.now) }
{
    match kind {
        StmtKind::Assign { place, value } => over(both(
            expr_nodes(place.get()),
            expr_nodes(value.get()),
        )),
        StmtKind::AssignCall { place, call } => {
            over(both(expr_nodes(place.get()), call_nodes(call.get())))
        }
        StmtKind::Call(call) => over(call_nodes(call.get())),
        StmtKind::Malloc { place, count, .. } => {
            over(both(expr_nodes(place.get()), option_nodes(count)))
        }
        StmtKind::Free(pointer) => over(expr_nodes(pointer.get())),
        StmtKind::If {
            cond,
            then_part,
            else_part,
        } => {
            let condition = expr_nodes(cond.get());
            over(both(
                both(condition, stmts_nodes(then_part)),
                stmts_nodes(else_part),
            ))
        }
        StmtKind::While { cond, body } => over(both(expr_nodes(cond.get()), stmts_nodes(body))),
        StmtKind::For {
            first,
            cond,
            next,
            body,
        } => {
            let head = both(
                both(part_nodes(first), expr_nodes(cond.get())),
                part_nodes(next),
            );
            over(both(head, stmts_nodes(body)))
        }
        StmtKind::ReturnValue(value) => over(expr_nodes(value.get())),
        StmtKind::ReturnCall(call) => over(call_nodes(call.get())),
        _ => 1,
    }
}

fn local_nodes(local: &LocalTree) -> u32
    ensures { result ≡ limited (local_nodes local.now) }
{
    over(option_nodes(&local.init))
}

fn locals_nodes(locals: &LocalTrees) -> u32
    ensures { result ≡ limited (total (map local_nodes locals.now)) }
{
    let mut nodes = 0;
    for local in locals.as_slice() {
        nodes = both(nodes, local_nodes(local));
    }
    nodes
}

fn function_nodes(tree: &FunctionTree) -> u32
    ensures { result ≡ limited (function_nodes tree.now) }
{
    let params = u32::try_from(tree.head.params.len()).unwrap_or(u32::MAX);
    both(
        both(over(params), locals_nodes(&tree.locals)),
        stmts_nodes(&tree.body),
    )
}

fn decl_nodes(decl: &Decl) -> u32
    ensures { result ≡ limited (decls_nodes (decl.now ∷ [])) }
{
    match decl {
        Decl::Function(tree) => function_nodes(tree),
        _ => 0,
    }
}

/// The nodes of all functions.
pub fn decls_nodes(decls: &Decls) -> u32
    ensures { result ≡ limited (decls_nodes decls.now) }
{
    let mut nodes = 0;
    for decl in decls.as_slice() {
        nodes = both(nodes, decl_nodes(decl));
    }
    nodes
}
