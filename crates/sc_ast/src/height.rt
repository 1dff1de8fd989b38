//! How high trees are. Heights stop at 4294967295.

ghost use Rattle.sc_ast.specs.Prelude.{call_height, decl_height, expr_height, exprs_height, function_height};
ghost use Rattle.sc_ast.specs.Prelude.{kind_height, limited, local_height, locals_height, option_height};
ghost use Rattle.sc_ast.specs.Prelude.{optional_height, section_height, simple_kind_height, stmt_height, stmts_height};
ghost use Rattle.std.specs.Prelude.{◌≡◌, ◌+◌};

use crate::expr::{CallTree, ExprTree, Exprs};
use crate::section::{Decl, FunctionTree, LocalTree, LocalTrees, SectionTree};
use crate::stmt::{SimpleKind, SimpleTree, StmtKind, StmtTree, Stmts};
use sqlite_items::Boxed;

/// The height of an expression, at least 1.
pub fn expr_height(expr: &ExprTree) -> u32
    ensures { result ≡ limited (expr_height expr.now) }
{
    match expr {
        ExprTree::Literal(_) => 1,
        ExprTree::Variable(_) => 1,
        ExprTree::Unary { of, .. } => one_more(expr_height(of.get())),
        ExprTree::Binary { left, right, .. } => {
            one_more(expr_height(left.get()).max(expr_height(right.get())))
        }
        ExprTree::Index { base, index } => {
            one_more(expr_height(base.get()).max(expr_height(index.get())))
        }
        ExprTree::Member { base, .. } => one_more(expr_height(base.get())),
        ExprTree::Arrow { base, .. } => one_more(expr_height(base.get())),
        ExprTree::Deref(of) => one_more(expr_height(of.get())),
        ExprTree::Address(of) => one_more(expr_height(of.get())),
        ExprTree::SizeOf(_) => 1,
    }
}

/// The height of a statement, at least 1.
#[cycle(height)]
pub fn stmt_height(stmt: &StmtTree) -> u32
    ensures { result ≡ limited (stmt_height stmt.now) }
{
    one_more(kind_height(&stmt.kind))
}

/// The greatest height of a statement in the list, 0 where there is none.
#[cycle(height)]
pub fn stmts_height(stmts: &Stmts) -> u32
    ensures { result ≡ limited (stmts_height stmts.now) }
{
    let mut highest = 0;
    for stmt in stmts.as_slice() {
        highest = highest.max(stmt_height(stmt));
    }
    highest
}

#[cycle(height)]
fn kind_height(kind: &StmtKind) -> u32
    ensures { result ≡ limited (kind_height kind.now) }
{
    match kind {
        StmtKind::Assign { place, value } => expr_height(place.get()).max(expr_height(value.get())),
        StmtKind::AssignCall { place, call } => expr_height(place.get()).max(call_height(
            call.get(),
        )),
        StmtKind::Call(call) => call_height(call.get()),
        StmtKind::Malloc { place, count, .. } => expr_height(place.get()).max(optional_height(
            count,
        )),
        StmtKind::Free(pointer) => expr_height(pointer.get()),
        StmtKind::If {
            cond,
            then_part,
            else_part,
        } => expr_height(cond.get()).max(stmts_height(then_part).max(stmts_height(else_part))),
        StmtKind::While { cond, body } => expr_height(cond.get()).max(stmts_height(body)),
        StmtKind::For {
            first,
            cond,
            next,
            body,
        } => option_height(first)
            .max(option_height(next))
            .max(expr_height(cond.get()).max(stmts_height(body))),
        StmtKind::ReturnValue(value) => expr_height(value.get()),
        StmtKind::ReturnCall(call) => call_height(call.get()),
        _ => 0,
    }
}

/// The greatest height of a local's initialiser or a statement in the section, 0 where there is none.
pub fn section_height(section: &SectionTree) -> u32
    ensures { result ≡ limited (section_height section.now) }
{
    let mut highest = 0;
    for decl in section.decls.as_slice() {
        highest = highest.max(decl_height(decl));
    }
    highest
}

fn decl_height(decl: &Decl) -> u32
    ensures { result ≡ limited (decl_height decl.now) }
{
    match decl {
        Decl::Function(function) => function_height(function),
        _ => 0,
    }
}

fn function_height(function: &FunctionTree) -> u32
    ensures { result ≡ limited (function_height function.now) }
{
    locals_height(&function.locals).max(stmts_height(&function.body))
}

fn locals_height(locals: &LocalTrees) -> u32
    ensures { result ≡ limited (locals_height locals.now) }
{
    let mut highest = 0;
    for local in locals.as_slice() {
        highest = highest.max(local_height(local));
    }
    highest
}

fn local_height(local: &LocalTree) -> u32
    ensures { result ≡ limited (local_height local.now) }
{
    optional_height(&local.init)
}

fn option_height(simple: &Option<Boxed<SimpleTree>>) -> u32
    ensures { result ≡ limited (option_height simple.now) }
{
    match simple {
        None => 0,
        Some(simple) => one_more(simple_kind_height(&simple.get().kind)),
    }
}

fn simple_kind_height(kind: &SimpleKind) -> u32
    ensures { result ≡ limited (simple_kind_height kind.now) }
{
    match kind {
        SimpleKind::Assign { place, value } => expr_height(place.get()).max(expr_height(
            value.get(),
        )),
        SimpleKind::AssignCall { place, call } => expr_height(place.get()).max(call_height(
            call.get(),
        )),
        SimpleKind::Call(call) => call_height(call.get()),
        SimpleKind::Malloc { place, count, .. } => {
            expr_height(place.get()).max(optional_height(count))
        }
        SimpleKind::Free(pointer) => expr_height(pointer.get()),
    }
}

fn optional_height(expr: &Option<Boxed<ExprTree>>) -> u32
    ensures { result ≡ limited (optional_height expr.now) }
{
    match expr {
        None => 0,
        Some(expr) => expr_height(expr.get()),
    }
}

fn call_height(call: &CallTree) -> u32
    ensures { result ≡ limited (call_height call.now) }
{
    exprs_height(&call.args)
}

fn exprs_height(exprs: &Exprs) -> u32
    ensures { result ≡ limited (exprs_height exprs.now) }
{
    let mut highest = 0;
    for expr in exprs.as_slice() {
        highest = highest.max(expr_height(expr));
    }
    highest
}

fn one_more(height: u32) -> u32
    ensures { result ≡ limited (height + 1) }
{
    height.saturating_add(1)
}
