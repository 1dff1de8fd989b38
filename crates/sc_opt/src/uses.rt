//! Which temporaries are read once operators on constants are folded and copies read where they come from.

ghost use Rattle.sc_opt.specs.Prelude.{MarksAll, MarksStmt, constant_at, folded, marked};
ghost use Rattle.sc_opt.specs.Prelude.{reads_some, reads_unless, source_at};
ghost use Rattle.sc_tac.specs.Prelude.{one_or_none};
ghost use Rattle.std.specs.Prelude.{◌≡◌, ◌==◌, ◌&&◌, ◌∷◌, ℕ, false, not, slice_get, replicate, IfOk};

use crate::facts::FactTable;
use crate::known::{Constants, folded};
use crate::sources::{Sources, source_at};
use sc_base::OutOfMemory;
use sc_tac::{TacOp, TacStmt, TacStmts};
use sqlite_items::Items;
use std::alloc::Global;

/// How temporaries are assigned, what is known of their values, and where they are read.
#[derive(Drop)]
pub struct Origins {
    pub facts: FactTable,
    pub constants: Constants,
    pub sources: Sources,
}

/// Of each temporary below some number whether it is read.
pub type Marks = Items<bool>;

// A temporary is read where it comes from.
fn mark(origins: &Origins, marks: &mut Marks, temp: u32)
    ensures { (x : ℕ) → slice_get marks.new x ≡
        marked (source_at origins.now.sources temp == x) (slice_get marks.old x) }
{
    let at = source_at(&origins.sources, temp) as usize;
    if at < marks.len() {
        marks.set(at, true);
    }
}

fn mark_temps(origins: &Origins, marks: &mut Marks, temps: &[u32])
    ensures { (x : ℕ) → slice_get marks.new x ≡
        marked (reads_some (source_at origins.now.sources) x temps.now) (slice_get marks.old x) }
{
    for temp in temps {
        mark(origins, marks, *temp);
    }
}

fn mark_maybe(origins: &Origins, marks: &mut Marks, temp: Option<u32>)
    ensures { (x : ℕ) → slice_get marks.new x ≡
        marked (reads_some (source_at origins.now.sources) x (one_or_none temp)) (slice_get marks.old x) }
{
    if let Some(temp) = temp {
        mark(origins, marks, temp);
    }
}

// A copy that goes reads nothing.
fn mark_copy(origins: &Origins, marks: &mut Marks, dest: u32, from: u32)
    ensures { (x : ℕ) → slice_get marks.new x ≡
        marked (not (source_at origins.now.sources dest == source_at origins.now.sources from) &&
        source_at origins.now.sources from == x) (slice_get marks.old x) }
{
    if source_at(&origins.sources, dest) != source_at(&origins.sources, from) {
        mark(origins, marks, from);
    }
}

// Nor does an operator that is folded.
fn mark_operator(origins: &Origins, marks: &mut Marks, op: TacOp, left: u32, right: Option<u32>)
    ensures { (x : ℕ) → slice_get marks.new x ≡
        marked (reads_unless (source_at origins.now.sources) (folded (constant_at origins.now.constants) op left right)
        x (left ∷ one_or_none right)) (slice_get marks.old x) }
{
    if folded(&origins.constants, op, left, right).is_none() {
        mark(origins, marks, left);
        mark_maybe(origins, marks, right);
    }
}

#[cycle(mark)]
fn mark_all(origins: &Origins, marks: &mut Marks, stmts: &TacStmts)
    ensures { MarksAll (constant_at origins.now.constants) (source_at origins.now.sources) stmts.now marks.old
        marks.new }
{
    for stmt in stmts.as_slice() {
        mark_stmt(origins, marks, stmt);
    }
}

#[cycle(mark)]
fn mark_stmt(origins: &Origins, marks: &mut Marks, stmt: &TacStmt)
    ensures { MarksStmt (constant_at origins.now.constants) (source_at origins.now.sources) stmt.now marks.old
        marks.new }
{
    match stmt {
        TacStmt::Copy { dest, from } => mark_copy(origins, marks, *dest, *from),
        TacStmt::Op {
            op,
            left,
            right,
            ..
        } => mark_operator(origins, marks, *op, *left, *right),
        TacStmt::Load { place, .. } => mark(origins, marks, *place),
        TacStmt::Store { place, value } => mark_temps(origins, marks, &[*place, *value]),
        TacStmt::If {
            cond,
            then_part,
            else_part,
        } => {
            mark(origins, marks, *cond);
            mark_all(origins, marks, then_part);
            mark_all(origins, marks, else_part);
        }
        TacStmt::Loop { head, body, next } => {
            mark_all(origins, marks, head);
            mark_all(origins, marks, body);
            mark_all(origins, marks, next);
        }
        TacStmt::CallOwn { args, .. } => mark_temps(origins, marks, args.as_slice()),
        TacStmt::CallCross { args, .. } => mark_temps(origins, marks, args.as_slice()),
        TacStmt::Output { value } => mark(origins, marks, *value),
        TacStmt::Alloc { count, .. } => mark(origins, marks, *count),
        TacStmt::Free { pointer } => mark(origins, marks, *pointer),
        TacStmt::Return { value } => mark_maybe(origins, marks, *value),
        _ => {}
    }
}

fn no_marks(alloc: Global, temps: u32) -> Result<Marks, OutOfMemory>
    ensures { IfOk result (λ marks. marks ≡ replicate temps false) }
{
    Ok(Items::from_vec(vec![in alloc; false; temps as usize]?))
}

/// Which of the temporaries below a number code reads.
pub fn uses_of(
    alloc: Global,
    temps: u32,
    origins: &Origins,
    body: &TacStmts,
) -> Result<Marks, OutOfMemory>
    ensures { IfOk result (λ marks. MarksAll (constant_at origins.now.constants) (source_at origins.now.sources)
        body.now (replicate temps false) marks) }
{
    let mut marks = no_marks(alloc, temps)?;
    mark_all(origins, &mut marks, body);
    Ok(marks)
}
