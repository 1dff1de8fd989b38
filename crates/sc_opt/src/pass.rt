//! One pass over the code of a function.

ghost use Rattle.sc_opt.specs.Prelude.{Tell, changed_function, copy_by, facts_at, holds_word_at, is_total};
ghost use Rattle.sc_opt.specs.Prelude.{is_total_signed, is_total_unsigned, keep_when, one_pass};
ghost use Rattle.sc_opt.specs.Prelude.{operator_by, pass_by, passed_by, present};
ghost use Rattle.sc_opt.specs.Prelude.{right_holds_word, source_at, used_at};
ghost use Rattle.std.specs.Prelude.{◌≡◌, ◌&&◌, ◌++◌, ◌∷◌, [], map, IfOk};
ghost use Rattle.std.specs.Option.{option_map};

use crate::facts::{FactTable, facts_of};
use crate::known::{folded, known_constants};
use crate::sources::{facts_at, source_at, sources_of};
use crate::uses::{Marks, Origins, uses_of};
use sc_base::{BinaryOp, OutOfMemory, UnaryOp};
use sc_event::Scalar;
use sc_tac::{ObjectCells, TacFn, TacFnTree, TacOp, TacStmt, TacStmts, Temps};
use std::alloc::Global;

/// What a pass knows of a function.
#[derive(Drop)]
pub struct Tables {
    pub origins: Origins,
    pub marks: Marks,
}

impl Tables {
    fn source(&self, temp: u32) -> u32
        ensures { result ≡ source_at self.now.origins.sources temp }
    {
        source_at(&self.origins.sources, temp)
    }

    fn is_used(&self, temp: u32) -> bool
        ensures { result ≡ used_at self.now.marks temp }
    {
        match self.marks.get(temp as usize) {
            Some(used) => *used,
            None => false,
        }
    }

    fn source_maybe(&self, temp: Option<u32>) -> Option<u32>
        ensures { result ≡ option_map (source_at self.now.origins.sources) temp }
    {
        match temp {
            None => None,
            Some(temp) => Some(self.source(temp)),
        }
    }

    fn source_all(&self, alloc: Global, temps: &Temps) -> Result<Temps, OutOfMemory>
        ensures { IfOk result (λ sources. sources ≡ map (source_at self.now.origins.sources) temps.now) }
    {
        let mut sources = Temps::from_vec(Vec::with_capacity(alloc, temps.len())?);
        for temp in temps.as_slice() {
            sources.push(self.source(*temp))?;
        }
        Ok(sources)
    }
}

fn is_total_signed(op: BinaryOp) -> bool
    ensures { result ≡ is_total_signed op }
{
    match op {
        BinaryOp::Equal | BinaryOp::NotEqual => true,
        BinaryOp::Less | BinaryOp::Greater => true,
        BinaryOp::LessEqual | BinaryOp::GreaterEqual => true,
        BinaryOp::BitAnd | BinaryOp::BitOr | BinaryOp::BitXor => true,
        _ => false,
    }
}

fn is_total_unsigned(op: BinaryOp) -> bool
    ensures { result ≡ is_total_unsigned op }
{
    match op {
        BinaryOp::Add | BinaryOp::Sub | BinaryOp::Mul => true,
        _ => is_total_signed(op),
    }
}

fn both_words(facts: &FactTable, left: u32, right: Option<u32>) -> bool
    ensures { result ≡ (holds_word_at facts.now left && right_holds_word (holds_word_at facts.now) right) }
{
    match right {
        None => false,
        Some(right) => facts_at(facts, left).holds_word && facts_at(facts, right).holds_word,
    }
}

// An operator that can't be blamed.
fn is_total(facts: &FactTable, op: TacOp, left: u32, right: Option<u32>) -> bool
    ensures { result ≡ is_total (holds_word_at facts.now) op left right }
{
    match op {
        TacOp::Unary { op, .. } => match op {
            UnaryOp::Not => true,
            UnaryOp::BitNot => facts_at(facts, left).holds_word,
            _ => false,
        },
        TacOp::Binary { op, scalar } => {
            let total = match scalar {
                Scalar::Unsigned => is_total_unsigned(op),
                Scalar::Int => is_total_signed(op),
            };
            total && both_words(facts, left, right)
        }
        TacOp::PointerNot => true,
        _ => false,
    }
}

fn keep(kept: bool, stmt: TacStmt) -> Option<TacStmt>
    ensures { result ≡ keep_when kept stmt }
{
    if kept { Some(stmt) } else { None }
}

fn pass_copy(tables: &Tables, dest: u32, from: u32) -> Option<TacStmt>
    ensures { result ≡ copy_by tables.now dest from }
{
    let source = tables.source(from);
    let kept = tables.source(dest) != source && tables.is_used(dest);
    keep(kept, TacStmt::Copy { dest, from: source })
}

fn pass_operator(
    tables: &Tables,
    dest: u32,
    op: TacOp,
    left: u32,
    right: Option<u32>,
) -> Option<TacStmt>
    ensures { result ≡ operator_by tables.now dest op left right }
{
    let facts = &tables.origins.facts;
    let used = tables.is_used(dest);
    match folded(&tables.origins.constants, op, left, right) {
        Some(value) => keep(used, TacStmt::Const { dest, value }),
        None => {
            let kept = used || !is_total(facts, op, left, right);
            let (left, right) = (tables.source(left), tables.source_maybe(right));
            keep(
                kept,
                TacStmt::Op {
                    dest,
                    op,
                    left,
                    right,
                },
            )
        }
    }
}

// A statement is added, unless it goes.
fn add(stmts: &mut TacStmts, kept: Option<TacStmt>) -> Result<(), OutOfMemory>
    ensures { IfOk result (λ _. stmts.new ≡ stmts.old ++ present (kept ∷ [])) }
{
    match kept {
        None => Ok(()),
        Some(stmt) => Ok(stmts.push(stmt)?),
    }
}

#[cycle(pass)]
fn pass_all(alloc: Global, tables: &Tables, stmts: &TacStmts) -> Result<TacStmts, OutOfMemory>
    ensures { IfOk result (λ passed. passed ≡ passed_by tables.now stmts.now) }
{
    let mut passed = TacStmts::from_vec(Vec::with_capacity(alloc, stmts.len())?);
    for stmt in stmts.as_slice() {
        let kept = pass_stmt(alloc, tables, stmt)?;
        add(&mut passed, kept)?;
    }
    Ok(passed)
}

#[cycle(pass)]
fn pass_stmt(alloc: Global, tables: &Tables, stmt: &TacStmt) -> Result<Option<TacStmt>, OutOfMemory>
    ensures { IfOk result (λ passed. passed ≡ pass_by tables.now stmt.now) }
{
    match stmt {
        TacStmt::Const { dest, value } => {
            let (dest, value) = (*dest, *value);
            Ok(keep(tables.is_used(dest), TacStmt::Const { dest, value }))
        }
        TacStmt::Copy { dest, from } => Ok(pass_copy(tables, *dest, *from)),
        TacStmt::Op {
            dest,
            op,
            left,
            right,
        } => Ok(pass_operator(tables, *dest, *op, *left, *right)),
        TacStmt::ObjectPlace { dest, object } => {
            let (dest, object) = (*dest, *object);
            Ok(keep(tables.is_used(dest), TacStmt::ObjectPlace { dest, object }))
        }
        TacStmt::GlobalPlace { dest, global } => {
            let (dest, global) = (*dest, *global);
            Ok(keep(tables.is_used(dest), TacStmt::GlobalPlace { dest, global }))
        }
        TacStmt::Load {
            dest,
            place,
            pointer,
        } => Ok(Some(TacStmt::Load {
            dest: *dest,
            place: tables.source(*place),
            pointer: *pointer,
        })),
        TacStmt::Store { place, value } => Ok(Some(TacStmt::Store {
            place: tables.source(*place),
            value: tables.source(*value),
        })),
        TacStmt::If {
            cond,
            then_part,
            else_part,
        } => Ok(Some(TacStmt::If {
            cond: tables.source(*cond),
            then_part: pass_all(alloc, tables, then_part)?,
            else_part: pass_all(alloc, tables, else_part)?,
        })),
        TacStmt::Loop { head, body, next } => Ok(Some(TacStmt::Loop {
            head: pass_all(alloc, tables, head)?,
            body: pass_all(alloc, tables, body)?,
            next: pass_all(alloc, tables, next)?,
        })),
        TacStmt::Break => Ok(Some(TacStmt::Break)),
        TacStmt::Continue => Ok(Some(TacStmt::Continue)),
        TacStmt::CallOwn {
            dest,
            function,
            args,
        } => Ok(Some(TacStmt::CallOwn {
            dest: *dest,
            function: *function,
            args: tables.source_all(alloc, args)?,
        })),
        TacStmt::CallCross {
            dest,
            comp,
            index,
            args,
        } => Ok(Some(TacStmt::CallCross {
            dest: *dest,
            comp: *comp,
            index: *index,
            args: tables.source_all(alloc, args)?,
        })),
        TacStmt::Input { dest } => Ok(Some(TacStmt::Input { dest: *dest })),
        TacStmt::Output { value } => Ok(Some(TacStmt::Output {
            value: tables.source(*value),
        })),
        TacStmt::Alloc { dest, count, words } => Ok(Some(TacStmt::Alloc {
            dest: *dest,
            count: tables.source(*count),
            words: *words,
        })),
        TacStmt::Free { pointer } => Ok(Some(TacStmt::Free {
            pointer: tables.source(*pointer),
        })),
        TacStmt::Return { value } => Ok(Some(TacStmt::Return {
            value: tables.source_maybe(*value),
        })),
    }
}

// What a pass has to know of code.
fn tables_of(alloc: Global, temps: u32, body: &TacStmts) -> Result<Tables, OutOfMemory>
    ensures { IfOk result (Tell temps body.now) }
{
    let facts = facts_of(alloc, temps, body)?;
    let constants = known_constants(alloc, temps, &facts)?;
    let sources = sources_of(alloc, temps, &facts)?;
    let origins = Origins {
        facts,
        constants,
        sources,
    };
    let marks = uses_of(alloc, temps, &origins, body)?;
    Ok(Tables { origins, marks })
}

/// The function after one pass.
pub fn pass_function(alloc: Global, f: &TacFn) -> Result<TacFn, OutOfMemory>
    ensures { IfOk result (λ passed. passed ≡ changed_function one_pass f.now) }
{
    let tree = f.tree();
    let tables = tables_of(alloc, tree.temps, &tree.body)?;
    let objects = ObjectCells::from_slice(alloc, tree.objects.as_slice())?;
    let body = pass_all(alloc, &tables, &tree.body)?;
    Ok(TacFn::new(TacFnTree {
        comp: tree.comp,
        name: tree.name,
        entry: tree.entry,
        params: tree.params,
        result: tree.result,
        temps: tree.temps,
        objects,
        nodes: tree.nodes,
        body,
    }))
}
