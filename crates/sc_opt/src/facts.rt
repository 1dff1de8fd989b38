//! What the code of a function says of its temporaries.

ghost use Rattle.sc_opt.specs.Prelude.{Notes, NotesAll, NotesStmt, gives_word, is_word_constant, joined, noted};
ghost use Rattle.sc_opt.specs.Prelude.{nothing_known, with_fact};
ghost use Rattle.sc_tac.specs.Prelude.{is_one, one_or_none};
ghost use Rattle.sc_opt.specs.declared.facts.Assigned.TheVariants.{ByOperator, Otherwise};
ghost use Rattle.std.specs.Prelude.{◌≡◌, ◌==◌, ℕ, false, slice_get, replicate, IfOk};

use sc_base::{OutOfMemory, UnaryOp};
use sc_tac::{Constant, TacOp, TacStmt, TacStmts};
use sqlite_items::Items;
use std::alloc::Global;

/// How the code of a function assigns a temporary: nowhere; in one place, by a constant, by a copy of another, by an
/// operator, or otherwise; or in several places.
#[derive(Clone, Copy, Debug, PartialEq, Eq)]
pub enum Assigned {
    Nowhere,
    ByConstant(Constant),
    ByCopy(u32),
    ByOperator {
        op: TacOp,
        left: u32,
        right: Option<u32>,
    },
    Otherwise,
    Several,
}

/// How a temporary is assigned, and whether that gives it words alone.
#[derive(Clone, Copy)]
pub struct Facts {
    pub assigned: Assigned,
    pub holds_word: bool,
}

/// The facts of the temporaries below some number.
pub type FactTable = Items<Facts>;

fn joined(first: Assigned, second: Assigned) -> Assigned
    ensures { result ≡ joined first second }
{
    match (first, second) {
        (Assigned::Nowhere, other) => other,
        (other, Assigned::Nowhere) => other,
        _ => Assigned::Several,
    }
}

fn with_fact(known: Facts, assigned: Assigned, word: bool) -> Facts
    ensures { result ≡ with_fact assigned word known }
{
    Facts {
        assigned: joined(known.assigned, assigned),
        holds_word: known.holds_word && word,
    }
}

// One statement assigns a temporary.
fn note(table: &mut FactTable, temp: u32, assigned: Assigned, word: bool)
    ensures { (t : ℕ) → slice_get table.new t ≡ noted (temp == t) assigned word (slice_get table.old t) }
{
    let at = temp as usize;
    if let Some(known) = table.get(at) {
        let facts = with_fact(*known, assigned, word);
        table.set(at, facts);
    }
}

// A call assigns a temporary, if its result is taken.
fn note_result(table: &mut FactTable, dest: Option<u32>)
    ensures { (t : ℕ) → slice_get table.new t ≡ noted (is_one t (one_or_none dest)) Otherwise false
        (slice_get table.old t) }
{
    if let Some(temp) = dest {
        note(table, temp, Assigned::Otherwise, false);
    }
}

fn gives_word(op: TacOp) -> bool
    ensures { result ≡ gives_word op }
{
    match op {
        TacOp::Unary { op, .. } => op != UnaryOp::Plus,
        TacOp::PointerMove { .. } | TacOp::PointerMember { .. } => false,
        _ => true,
    }
}

// An operator assigns a temporary.
fn note_operator(table: &mut FactTable, dest: u32, op: TacOp, left: u32, right: Option<u32>)
    ensures { (t : ℕ) → slice_get table.new t ≡ noted (dest == t) (ByOperator op left right) (gives_word op)
        (slice_get table.old t) }
{
    note(
        table,
        dest,
        Assigned::ByOperator { op, left, right },
        gives_word(op),
    );
}

fn is_word(value: Constant) -> bool
    ensures { result ≡ is_word_constant value }
{
    match value {
        Constant::Word(_) => true,
        Constant::Null => false,
    }
}

#[cycle(note)]
fn note_all(table: &mut FactTable, stmts: &TacStmts)
    ensures { NotesAll stmts.now table.old table.new }
{
    for stmt in stmts.as_slice() {
        note_stmt(table, stmt);
    }
}

#[cycle(note)]
fn note_stmt(table: &mut FactTable, stmt: &TacStmt)
    ensures { NotesStmt stmt.now table.old table.new }
{
    match stmt {
        TacStmt::Const { dest, value } => {
            note(table, *dest, Assigned::ByConstant(*value), is_word(*value));
        }
        TacStmt::Copy { dest, from } => note(table, *dest, Assigned::ByCopy(*from), false),
        TacStmt::Op {
            dest,
            op,
            left,
            right,
        } => note_operator(table, *dest, *op, *left, *right),
        TacStmt::ObjectPlace { dest, .. } => note(table, *dest, Assigned::Otherwise, false),
        TacStmt::GlobalPlace { dest, .. } => note(table, *dest, Assigned::Otherwise, false),
        TacStmt::Load { dest, pointer, .. } => {
            note(table, *dest, Assigned::Otherwise, !*pointer);
        }
        TacStmt::If {
            then_part,
            else_part,
            ..
        } => {
            note_all(table, then_part);
            note_all(table, else_part);
        }
        TacStmt::Loop { head, body, next } => {
            note_all(table, head);
            note_all(table, body);
            note_all(table, next);
        }
        TacStmt::CallOwn { dest, .. } => note_result(table, *dest),
        TacStmt::CallCross { dest, .. } => note_result(table, *dest),
        TacStmt::Input { dest } => note_result(table, *dest),
        TacStmt::Alloc { dest, .. } => note(table, *dest, Assigned::Otherwise, false),
        _ => {}
    }
}

// Of temporaries of which nothing is known yet.
fn nothing_known(alloc: Global, temps: u32) -> Result<FactTable, OutOfMemory>
    ensures { IfOk result (λ table. table ≡ replicate temps nothing_known) }
{
    let nothing = Facts {
        assigned: Assigned::Nowhere,
        holds_word: true,
    };
    Ok(Items::from_vec(vec![in alloc; nothing; temps as usize]?))
}

/// What code says of the temporaries below a number.
pub fn facts_of(alloc: Global, temps: u32, body: &TacStmts) -> Result<FactTable, OutOfMemory>
    ensures { IfOk result (λ table. Notes temps body.now table) }
{
    let mut table = nothing_known(alloc, temps)?;
    note_all(&mut table, body);
    Ok(table)
}
