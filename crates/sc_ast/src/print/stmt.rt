//! Statements.

ghost use Rattle.sc_ast.specs.Prelude.{after_else, allocation_words, assign_call_words, assign_words, blank};
ghost use Rattle.sc_ast.specs.Prelude.{block_words, call_words, chain_words, condition_words, deeper, else_words};
ghost use Rattle.sc_ast.specs.Prelude.{expr_words, first_words, free_words, is_chain, kind_layout, layouts, line_of};
ghost use Rattle.sc_ast.specs.Prelude.{lines_at, malloc_words, next_words, return_words, simple_words, stmt_layout};
ghost use Rattle.sc_ast.specs.Prelude.{text_of, word};
ghost use Rattle.std.specs.Prelude.{◌≡◌, ◌++◌, [], ◌∷◌, OnOk, codes};
ghost use Rattle.std.specs.List.{list_all};

use crate::expr::{CallTree, ExprTree};
use crate::place::PlaceTree;
use crate::print::expr::{append_call, append_expr, append_malloc_argument, append_place};
use crate::print::words::{append_indent, deeper};
use crate::stmt::{SimpleKind, SimpleTree, StmtKind, StmtTree, Stmts};
use crate::types::TypeName;
use sc_base::{OutOfMemory, Text};
use sqlite_items::Boxed;

fn append_assign(out: &mut Text, place: &PlaceTree, value: &ExprTree) -> Result<(), OutOfMemory>
    ensures { OnOk result (out.new ≡ out.old ++ text_of (assign_words place.now value.now)) }
{
    append_place(out, place.get())?;
    out.append(b" = ")?;
    append_expr(out, value)
}

fn append_assign_call(out: &mut Text, place: &PlaceTree, call: &CallTree) -> Result<(), OutOfMemory>
    ensures { OnOk result (out.new ≡ out.old ++ text_of (assign_call_words place.now call.now)) }
{
    append_place(out, place.get())?;
    out.append(b" = ")?;
    append_call(out, call)
}

fn append_allocation(
    out: &mut Text,
    count: &Option<Boxed<ExprTree>>,
    of: &TypeName,
) -> Result<(), OutOfMemory>
    ensures { OnOk result (out.new ≡ out.old ++ text_of (allocation_words count.now of.now)) }
{
    out.append(b"malloc(")?;
    append_malloc_argument(out, count, of)?;
    out.append(b")")
}

fn append_malloc(
    out: &mut Text,
    place: &PlaceTree,
    count: &Option<Boxed<ExprTree>>,
    of: &TypeName,
) -> Result<(), OutOfMemory>
    ensures { OnOk result (out.new ≡ out.old ++ text_of (malloc_words place.now count.now of.now)) }
{
    append_place(out, place.get())?;
    out.append(b" = ")?;
    append_allocation(out, count, of)
}

fn append_free(out: &mut Text, pointer: &ExprTree) -> Result<(), OutOfMemory>
    ensures { OnOk result (out.new ≡ out.old ++ text_of (free_words pointer.now)) }
{
    out.append(b"free(")?;
    append_expr(out, pointer)?;
    out.append(b")")
}

fn append_simple(out: &mut Text, kind: &SimpleKind) -> Result<(), OutOfMemory>
    ensures { OnOk result (out.new ≡ out.old ++ text_of (simple_words kind.now)) }
{
    match kind {
        SimpleKind::Assign { place, value } => append_assign(out, place, value.get()),
        SimpleKind::AssignCall { place, call } => append_assign_call(out, place, call.get()),
        SimpleKind::Call(call) => append_call(out, call.get()),
        SimpleKind::Malloc { place, count, of } => append_malloc(out, place, count, of.get()),
        SimpleKind::Free(pointer) => append_free(out, pointer.get()),
    }
}

fn append_condition(out: &mut Text, keyword: &[u8], cond: &ExprTree) -> Result<(), OutOfMemory>
    ensures { OnOk result (out.new ≡ out.old ++ text_of (condition_words keyword.now cond.now)) }
{
    out.append(keyword)?;
    out.append(b" (")?;
    append_expr(out, cond)?;
    out.append(b") ")
}

fn append_first(out: &mut Text, first: &Option<Boxed<SimpleTree>>) -> Result<(), OutOfMemory>
    ensures { OnOk result (out.new ≡ out.old ++ text_of (first_words first.now)) }
{
    match first {
        None => Ok(()),
        Some(simple) => append_simple(out, &simple.get().kind),
    }
}

fn append_next(out: &mut Text, next: &Option<Boxed<SimpleTree>>) -> Result<(), OutOfMemory>
    ensures { OnOk result (out.new ≡ out.old ++ text_of (next_words next.now)) }
{
    match next {
        None => Ok(()),
        Some(simple) => {
            out.push(b' ')?;
            append_simple(out, &simple.get().kind)
        }
    }
}

// `for (x = e; `
fn append_for(out: &mut Text, first: &Option<Boxed<SimpleTree>>) -> Result<(), OutOfMemory>
    ensures { OnOk result (out.new ≡ out.old ++ text_of
        (word (codes "for") ∷ blank ∷ word (codes "(") ∷ (first_words first.now ++ word (codes ";") ∷ blank ∷ []))) }
{
    out.append(b"for (")?;
    append_first(out, first)?;
    out.append(b"; ")
}

// `e; x = e) `
fn append_turn(
    out: &mut Text,
    cond: &ExprTree,
    next: &Option<Boxed<SimpleTree>>,
) -> Result<(), OutOfMemory>
    ensures { OnOk result (out.new ≡ out.old ++ text_of
        (expr_words cond.now ++ word (codes ";") ∷ (next_words next.now ++ word (codes ")") ∷ blank ∷ []))) }
{
    append_expr(out, cond)?;
    out.append(b";")?;
    append_next(out, next)?;
    out.append(b") ")
}

/// Adds statements, each on a line of its own at this level.
#[cycle(stmt)]
pub fn append_lines(out: &mut Text, stmts: &Stmts, depth: u32) -> Result<(), OutOfMemory>
    ensures { OnOk result (out.new ≡ out.old ++ text_of (lines_at depth (layouts stmts.now))) }
{
    for stmt in stmts.as_slice() {
        append_line(out, stmt, depth)?;
    }
    Ok(())
}

#[cycle(stmt)]
fn append_line(out: &mut Text, stmt: &StmtTree, depth: u32) -> Result<(), OutOfMemory>
    ensures { OnOk result (out.new ≡ out.old ++ text_of (line_of depth ((stmt_layout stmt.now).words depth))) }
{
    append_indent(out, depth)?;
    append_kind(out, &stmt.kind, depth)?;
    out.push(b'\n')
}

#[cycle(stmt)]
fn append_kind(out: &mut Text, kind: &StmtKind, depth: u32) -> Result<(), OutOfMemory>
    ensures { OnOk result (out.new ≡ out.old ++ text_of ((kind_layout kind.now).words depth)) }
{
    match kind {
        StmtKind::Empty => out.append(b";"),
        StmtKind::Assign { place, value } => {
            append_assign(out, place, value.get())?;
            out.append(b";")
        }
        StmtKind::AssignCall { place, call } => {
            append_assign_call(out, place, call.get())?;
            out.append(b";")
        }
        StmtKind::Call(call) => {
            append_call(out, call.get())?;
            out.append(b";")
        }
        StmtKind::Malloc { place, count, of } => {
            append_malloc(out, place, count, of.get())?;
            out.append(b";")
        }
        StmtKind::Free(pointer) => {
            append_free(out, pointer.get())?;
            out.append(b";")
        }
        StmtKind::If {
            cond,
            then_part,
            else_part,
        } => {
            append_condition(out, b"if", cond.get())?;
            append_block(out, then_part, depth)?;
            append_else(out, else_part, depth)
        }
        StmtKind::While { cond, body } => {
            append_condition(out, b"while", cond.get())?;
            append_block(out, body, depth)
        }
        StmtKind::For {
            first,
            cond,
            next,
            body,
        } => {
            append_for(out, first)?;
            append_turn(out, cond.get(), next)?;
            append_block(out, body, depth)
        }
        StmtKind::Break => out.append(b"break;"),
        StmtKind::Continue => out.append(b"continue;"),
        StmtKind::Return => out.append(b"return;"),
        StmtKind::ReturnValue(value) => append_return_value(out, value.get()),
        StmtKind::ReturnCall(call) => append_return_call(out, call.get()),
    }
}

fn append_return_value(out: &mut Text, value: &ExprTree) -> Result<(), OutOfMemory>
    ensures { OnOk result (out.new ≡ out.old ++ text_of (return_words (expr_words value.now))) }
{
    out.append(b"return ")?;
    append_expr(out, value)?;
    out.append(b";")
}

fn append_return_call(out: &mut Text, call: &CallTree) -> Result<(), OutOfMemory>
    ensures { OnOk result (out.new ≡ out.old ++ text_of (return_words (call_words call.now))) }
{
    out.append(b"return ")?;
    append_call(out, call)?;
    out.append(b";")
}

#[cycle(stmt)]
fn append_block(out: &mut Text, stmts: &Stmts, depth: u32) -> Result<(), OutOfMemory>
    ensures { OnOk result (out.new ≡ out.old ++ text_of (block_words depth (layouts stmts.now))) }
{
    out.append(b"{\n")?;
    append_lines(out, stmts, deeper(depth))?;
    append_indent(out, depth)?;
    out.append(b"}")
}

#[cycle(stmt)]
fn append_else(out: &mut Text, stmts: &Stmts, depth: u32) -> Result<(), OutOfMemory>
    ensures { OnOk result (out.new ≡ out.old ++ text_of (else_words depth (layouts stmts.now))) }
{
    if stmts.len() == 0 {
        return Ok(());
    }
    out.append(b" else ")?;
    append_after_else(out, stmts, depth)
}

#[cycle(stmt)]
fn append_after_else(out: &mut Text, stmts: &Stmts, depth: u32) -> Result<(), OutOfMemory>
    ensures { OnOk result (out.new ≡ out.old ++ text_of (after_else depth (layouts stmts.now))) }
{
    if is_chain(stmts) {
        append_chain(out, stmts, depth)
    } else {
        append_block(out, stmts, depth)
    }
}

#[cycle(stmt)]
fn append_chain(out: &mut Text, stmts: &Stmts, depth: u32) -> Result<(), OutOfMemory>
    ensures { OnOk result (out.new ≡ out.old ++ text_of (chain_words depth (layouts stmts.now))) }
{
    for stmt in stmts.as_slice() {
        append_kind(out, &stmt.kind, depth)?;
    }
    Ok(())
}

// Whether all of the statements are one `if`.
fn is_chain(stmts: &Stmts) -> bool
    ensures { result ≡ is_chain (layouts stmts.now) }
{
    stmts.len() == 1 && are_ifs(stmts)
}

fn are_ifs(stmts: &Stmts) -> bool
    ensures { result ≡ list_all (λ stmt. stmt.is_if) (layouts stmts.now) }
{
    for stmt in stmts.as_slice() {
        if !is_if(&stmt.kind) {
            return false;
        }
    }
    true
}

fn is_if(kind: &StmtKind) -> bool
    ensures { result ≡ (kind_layout kind.now).is_if }
{
    match kind {
        StmtKind::If { .. } => true,
        _ => false,
    }
}
