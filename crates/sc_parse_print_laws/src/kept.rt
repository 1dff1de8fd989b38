ghost use Rattle.sc_parse_print_laws.specs.Prelude.{are_kept, is_kept, is_kept_stmt, kept_base, kept_call, kept_kind};
ghost use Rattle.sc_parse_print_laws.specs.Prelude.{kept_malloc, kept_option, kept_place, kept_simple, kept_value};
ghost use Rattle.std.specs.Prelude.{◌≡◌, true, IsTrue};
ghost use Rattle.std.specs.List.{list_all};

use sc_ast::{
    BaseTree, CallTree, ExprTree, Exprs, PlaceTree, SimpleKind, SimpleTree, StmtKind, StmtTree,
    Stmts, TypeName,
};
use sqlite_items::Boxed;

/// What the base of a type keeps holds of all of them, since a name was made by a test.
pub fn keeps_base(base: &BaseTree)
    ensures { IsTrue (kept_base base.now) }
{
    if let BaseTree::Struct(tag) = base {
        let _tag = tag.as_bytes();
    }
}

/// What the leaves of an expression keep holds of all of them, since each was made by a test.
pub fn keeps_leaves(expr: &ExprTree)
    ensures { IsTrue (is_kept expr.now) }
{
    match expr {
        ExprTree::Literal(literal) => {
            let _value = literal.value();
        }
        ExprTree::Variable(name) => {
            let _name = name.get().as_bytes();
        }
        ExprTree::Unary { of, .. } => keeps_leaves(of.get()),
        ExprTree::Binary { left, right, .. } => {
            keeps_leaves(left.get());
            keeps_leaves(right.get());
        }
        ExprTree::Index { base, index } => {
            keeps_leaves(base.get());
            keeps_leaves(index.get());
        }
        ExprTree::Member { base, name } => {
            let _name = name.get().as_bytes();
            keeps_leaves(base.get());
        }
        ExprTree::Arrow { base, name } => {
            let _name = name.get().as_bytes();
            keeps_leaves(base.get());
        }
        ExprTree::Deref(of) => keeps_leaves(of.get()),
        ExprTree::Address(of) => keeps_leaves(of.get()),
        ExprTree::SizeOf(of) => keeps_base(&of.get().base),
    }
}

/// The same of an expression that may be absent.
pub fn keeps_value(value: &Option<Boxed<ExprTree>>)
    ensures { IsTrue (kept_value value.now) }
{
    if let Some(value) = value {
        keeps_leaves(value.get());
    }
}

fn keeps_place(place: &PlaceTree)
    ensures { IsTrue (kept_place place.now) }
{
    keeps_leaves(place.get());
}

fn keeps_args(args: &Exprs)
    ensures { list_all is_kept args.now ≡ true }
{
    for arg in args.as_slice() {
        keeps_leaves(arg);
    }
}

fn keeps_call(call: &CallTree)
    ensures { IsTrue (kept_call call.now) }
{
    let _name = call.name.as_bytes();
    keeps_args(&call.args);
}

fn keeps_malloc(place: &PlaceTree, count: &Option<Boxed<ExprTree>>, of: &TypeName)
    ensures { IsTrue (kept_malloc place.now count.now of.now) }
{
    keeps_place(place);
    if let Some(count) = count {
        keeps_leaves(count.get());
    }
    keeps_base(&of.base);
}

fn keeps_simple(kind: &SimpleKind)
    ensures { IsTrue (kept_simple kind.now) }
{
    match kind {
        SimpleKind::Assign { place, value } => {
            keeps_place(place);
            keeps_leaves(value.get());
        }
        SimpleKind::AssignCall { place, call } => {
            keeps_place(place);
            keeps_call(call.get());
        }
        SimpleKind::Call(call) => keeps_call(call.get()),
        SimpleKind::Malloc { place, count, of } => keeps_malloc(place, count, of.get()),
        SimpleKind::Free(pointer) => keeps_leaves(pointer.get()),
    }
}

fn keeps_option(simple: &Option<Boxed<SimpleTree>>)
    ensures { IsTrue (kept_option simple.now) }
{
    if let Some(simple) = simple {
        keeps_simple(&simple.get().kind);
    }
}

/// The same of statements.
#[cycle(kept)]
pub fn keep_leaves(stmts: &Stmts)
    ensures { IsTrue (are_kept stmts.now) }
{
    for stmt in stmts.as_slice() {
        keeps_stmt(stmt);
    }
}

#[cycle(kept)]
fn keeps_stmt(stmt: &StmtTree)
    ensures { IsTrue (is_kept_stmt stmt.now) }
{
    keeps_kind(&stmt.kind);
}

#[cycle(kept)]
fn keeps_kind(kind: &StmtKind)
    ensures { IsTrue (kept_kind kind.now) }
{
    match kind {
        StmtKind::Assign { place, value } => {
            keeps_place(place);
            keeps_leaves(value.get());
        }
        StmtKind::AssignCall { place, call } => {
            keeps_place(place);
            keeps_call(call.get());
        }
        StmtKind::Call(call) => keeps_call(call.get()),
        StmtKind::Malloc { place, count, of } => keeps_malloc(place, count, of.get()),
        StmtKind::Free(pointer) => keeps_leaves(pointer.get()),
        StmtKind::If {
            cond,
            then_part,
            else_part,
        } => {
            keeps_leaves(cond.get());
            keep_leaves(then_part);
            keep_leaves(else_part);
        }
        StmtKind::While { cond, body } => {
            keeps_leaves(cond.get());
            keep_leaves(body);
        }
        StmtKind::For {
            first,
            cond,
            next,
            body,
        } => {
            keeps_option(first);
            keeps_leaves(cond.get());
            keeps_option(next);
            keep_leaves(body);
        }
        StmtKind::ReturnValue(value) => keeps_leaves(value.get()),
        StmtKind::ReturnCall(call) => keeps_call(call.get()),
        _ => (),
    }
}
