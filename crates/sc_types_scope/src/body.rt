//! The bodies of functions.

ghost use Rattle.sc_types_scope.specs.Prelude.{all_in, among, call_known, expr_known, is_callable, known, knows};
ghost use Rattle.sc_types_scope.specs.Prelude.{malloc_known, option_knows, part_name_lines, simple_known};
ghost use Rattle.sc_types_scope.specs.Prelude.{stmt_name_lines, with_lines};
ghost use Rattle.std.specs.Prelude.{◌≡◌, ◌++◌, [], map};
ghost use Rattle.std.specs.List.{list_all};

use crate::BrokenLines;
use crate::section_names::SectionNames;
use crate::types::base_known;
use sc_ast::{
    CallTree, ExprTree, Exprs, PlaceTree, SimpleKind, SimpleTree, StmtKind, StmtTree, Stmts,
    TypeName,
};
use sc_base::{Name, NameList};
use sqlite_items::Boxed;

/// Notes the lines of statements, which stand in a loop or not, at which rules of names are broken. The parameters
/// and the locals of the function are `own`.
#[cycle(body)]
pub fn all_lines(
    names: &SectionNames,
    own: &NameList,
    stmts: &Stmts,
    looping: bool,
    lines: &mut BrokenLines,
)
    ensures { lines.new ≡ with_lines lines.old (all_in (known names.now own.now) looping
        (map (stmt_name_lines (known names.now own.now)) stmts.now)) }
{
    for stmt in stmts.as_slice() {
        stmt_lines(names, own, stmt, looping, lines);
    }
}

#[cycle(body)]
fn stmt_lines(
    names: &SectionNames,
    own: &NameList,
    stmt: &StmtTree,
    looping: bool,
    lines: &mut BrokenLines,
)
    ensures { lines.new ≡ with_lines lines.old (stmt_name_lines (known names.now own.now) stmt.now looping) }
{
    let line = stmt.line;
    match &stmt.kind {
        StmtKind::Empty => {}
        StmtKind::Assign { place, value } => {
            let holds = knows(names, own, place.get()) && knows(names, own, value.get());
            lines.unless(holds, line);
        }
        StmtKind::AssignCall { place, call } => {
            let holds = knows(names, own, place.get()) && call_known(names, own, call.get());
            lines.unless(holds, line);
        }
        StmtKind::Call(call) => lines.unless(call_known(names, own, call.get()), line),
        StmtKind::Malloc { place, count, of } => {
            lines.unless(malloc_known(names, own, place, count, of.get()), line);
        }
        StmtKind::Free(pointer) => lines.unless(knows(names, own, pointer.get()), line),
        StmtKind::If {
            cond,
            then_part,
            else_part,
        } => {
            lines.unless(knows(names, own, cond.get()), line);
            all_lines(names, own, then_part, looping, lines);
            all_lines(names, own, else_part, looping, lines);
        }
        StmtKind::While { cond, body } => {
            lines.unless(knows(names, own, cond.get()), line);
            all_lines(names, own, body, true, lines);
        }
        StmtKind::For {
            first,
            cond,
            next,
            body,
        } => {
            part_lines(names, own, first, lines);
            lines.unless(knows(names, own, cond.get()), line);
            part_lines(names, own, next, lines);
            all_lines(names, own, body, true, lines);
        }
        StmtKind::Break => lines.unless(looping, line),
        StmtKind::Continue => lines.unless(looping, line),
        StmtKind::Return => {}
        StmtKind::ReturnValue(value) => lines.unless(knows(names, own, value.get()), line),
        StmtKind::ReturnCall(call) => lines.unless(call_known(names, own, call.get()), line),
    }
}

#[tactic(auto, using(crate::proofs::Lines::parts))]
fn part_lines(
    names: &SectionNames,
    own: &NameList,
    part: &Option<Boxed<SimpleTree>>,
    lines: &mut BrokenLines,
)
    ensures { lines.new ≡ with_lines lines.old (part_name_lines (known names.now own.now) part.now) }
{
    match part {
        None => {}
        Some(simple) => {
            let simple = simple.get();
            lines.unless(simple_known(names, own, &simple.kind), simple.line);
        },
    }
}

fn simple_known(names: &SectionNames, own: &NameList, kind: &SimpleKind) -> bool
    ensures { result ≡ simple_known (known names.now own.now) kind.now }
{
    match kind {
        SimpleKind::Assign { place, value } => {
            knows(names, own, place.get()) && knows(names, own, value.get())
        }
        SimpleKind::AssignCall { place, call } => {
            knows(names, own, place.get()) && call_known(names, own, call.get())
        }
        SimpleKind::Call(call) => call_known(names, own, call.get()),
        SimpleKind::Malloc { place, count, of } => malloc_known(names, own, place, count, of.get()),
        SimpleKind::Free(pointer) => knows(names, own, pointer.get()),
    }
}

fn malloc_known(
    names: &SectionNames,
    own: &NameList,
    place: &PlaceTree,
    count: &Option<Boxed<ExprTree>>,
    of: &TypeName,
) -> bool
    ensures { result ≡ malloc_known (known names.now own.now) place.now count.now of.now }
{
    knows(names, own, place.get())
        && option_knows(names, own, count)
        && base_known(&names.structs, &of.base)
}

fn call_known(names: &SectionNames, own: &NameList, call: &CallTree) -> bool
    ensures { result ≡ call_known (known names.now own.now) call.now }
{
    is_callable(names, own, call.name.name()) && all_known(names, own, &call.args)
}

// A local or a parameter hides a function of its name.
fn is_callable(names: &SectionNames, own: &NameList, name: Name) -> bool
    ensures { result ≡ is_callable (known names.now own.now) name }
{
    names.callables.contains(&name) && !own.contains(&name)
}

fn all_known(names: &SectionNames, own: &NameList, exprs: &Exprs) -> bool
    ensures { result ≡ list_all (expr_known (known names.now own.now)) exprs.now }
{
    exprs.as_slice().iter().all(|expr| knows(names, own, expr))
}

/// Whether this of an expression, if it is there: each variable is a global or one of `own`, each tag a struct's.
pub fn option_knows(names: &SectionNames, own: &NameList, expr: &Option<Boxed<ExprTree>>) -> bool
    ensures { result ≡ option_knows names.now.structs (names.now.globals ++ own.now) expr.now }
{
    match expr {
        None => true,
        Some(expr) => knows(names, own, expr.get()),
    }
}

fn knows(names: &SectionNames, own: &NameList, expr: &ExprTree) -> bool
    ensures { result ≡ knows names.now.structs (names.now.globals ++ own.now) expr.now }
{
    match expr {
        ExprTree::Literal(_) => true,
        ExprTree::Variable(name) => is_variable(names, own, name.get().name()),
        ExprTree::Unary { of, .. } => knows(names, own, of.get()),
        ExprTree::Binary { left, right, .. } => {
            knows(names, own, left.get()) && knows(names, own, right.get())
        }
        ExprTree::Index { base, index } => {
            knows(names, own, base.get()) && knows(names, own, index.get())
        }
        ExprTree::Member { base, .. } => knows(names, own, base.get()),
        ExprTree::Arrow { base, .. } => knows(names, own, base.get()),
        ExprTree::Deref(of) => knows(names, own, of.get()),
        ExprTree::Address(of) => knows(names, own, of.get()),
        ExprTree::SizeOf(of) => base_known(&names.structs, &of.get().base),
    }
}

#[tactic(auto, using(crate::proofs::Lines::joined))]
fn is_variable(names: &SectionNames, own: &NameList, name: Name) -> bool
    ensures { result ≡ among (names.now.globals ++ own.now) name }
{
    names.globals.contains(&name) || own.contains(&name)
}
