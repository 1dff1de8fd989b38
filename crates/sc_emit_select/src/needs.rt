//! Which temporaries are read in their places.

ghost use Rattle.sc_emit_select.specs.Marks.{Marked};
ghost use Rattle.sc_emit_select.specs.Needs.{has_mark, need, needed_in, needs_of, taken_needed};
ghost use Rattle.sc_tac.specs.Parts.{one_or_none};
ghost use Rattle.std.specs.Prelude.{◌≡◌, ◌∷◌, [], ℕ, false, replicate, IfOk};

use crate::roles::{Role, held_in, joins, operates};
use crate::statements::word_of_constant;
use sc_base::OutOfMemory;
use sc_tac::{TacFn, TacStmt, TacStmts};
use sqlite_items::Items;
use std::alloc::Global;
use std::marker::Model;

/// Which temporaries of a function are read in their places.
#[derive(Drop)]
pub struct Needs {
    // Of each temporary whether it is.
    marks: Items<bool>,
}

impl Model for Needs {
    ghost use Rattle.std.specs.Prelude.{Bool, List};

    ghost Value = { List Bool };

    ghost view = { λ needs. needs.marks };
}

// What a statement gives to the next one.
fn gives(stmt: &TacStmt) -> Role
    ensures { result ≡ (need stmt.now).gives }
{
    match stmt {
        TacStmt::ObjectPlace { dest, object } => Role::Places {
            temp: *dest,
            object: *object,
        },
        TacStmt::Const { dest, value } => Role::Sets {
            temp: *dest,
            word: word_of_constant(*value),
        },
        _ => Role::Other,
    }
}

// What a statement takes of the one before it.
fn takes(stmt: &TacStmt) -> Role
    ensures { result ≡ (need stmt.now).takes }
{
    match stmt {
        TacStmt::Store { place, value } => Role::Stores {
            temp: *place,
            value: *value,
        },
        TacStmt::Op {
            dest,
            op,
            left,
            right,
        } => operates(*dest, *op, *left, *right),
        _ => Role::Other,
    }
}

impl Needs {
    // None of `temps` temporaries.
    fn none(alloc: Global, temps: u32) -> Result<Needs, OutOfMemory>
        ensures { IfOk result (λ needs. needs ≡ replicate temps false) }
    {
        let mut marks = Items::new(alloc);
        for _ in 0..temps {
            marks.push(false)?;
        }
        Ok(Needs { marks })
    }

    /// Whether a temporary is read in its place.
    pub fn has(&self, temp: u32) -> bool
        ensures { result ≡ has_mark self.now temp }
    {
        match self.marks.get(temp as usize) {
            Some(mark) => *mark,
            None => false,
        }
    }

    // A temporary is read.
    fn one(&mut self, temp: u32)
        ensures { Marked (temp ∷ []) self.old self.new }
    {
        let at = temp as usize;
        if at < self.marks.len() {
            self.marks.set(at, true);
        }
    }

    // A temporary is read, if it is one.
    fn one_or_none(&mut self, temp: Option<u32>)
        ensures { Marked (one_or_none temp) self.old self.new }
    {
        if let Some(temp) = temp {
            self.one(temp);
        }
    }

    // These temporaries are read.
    fn all(&mut self, temps: &[u32])
        ensures { Marked temps.now self.old self.new }
    {
        for temp in temps {
            self.one(*temp);
        }
    }

    // What a statement takes of the one before it, where that doesn't give it.
    fn taken(&mut self, before: Role, takes: Role)
        ensures { Marked (taken_needed before takes) self.old self.new }
    {
        if joins(before, takes) {
            return;
        }
        self.one_or_none(held_in(takes));
    }

    // What statements in order read.
    #[cycle(needs)]
    fn row(&mut self, stmts: &TacStmts)
        ensures { Marked (needs_of stmts.now) self.old self.new }
    {
        let mut before = Role::Other;
        for stmt in stmts.as_slice() {
            self.taken(before, takes(stmt));
            self.stmt(stmt);
            before = gives(stmt);
        }
    }

    // What a statement reads wherever it stands.
    #[cycle(needs)]
    fn stmt(&mut self, stmt: &TacStmt)
        ensures { Marked (need stmt.now).reads self.old self.new }
    {
        match stmt {
            TacStmt::Copy { from, .. } => self.one(*from),
            TacStmt::Op { left, .. } => self.one(*left),
            TacStmt::Load { place, .. } => self.one(*place),
            TacStmt::Store { value, .. } => self.one(*value),
            TacStmt::If {
                cond,
                then_part,
                else_part,
            } => {
                self.one(*cond);
                self.row(then_part);
                self.row(else_part);
            }
            TacStmt::Loop { head, body, next } => {
                self.row(head);
                self.row(body);
                self.row(next);
            }
            TacStmt::CallOwn { args, .. } => self.all(args.as_slice()),
            TacStmt::CallCross { args, .. } => self.all(args.as_slice()),
            TacStmt::Output { value } => self.one(*value),
            TacStmt::Alloc { count, .. } => self.one(*count),
            TacStmt::Free { pointer } => self.one(*pointer),
            TacStmt::Return { value } => self.one_or_none(*value),
            _ => {}
        }
    }
}

/// The temporaries that a function's code reads in their places.
pub fn needs_of(alloc: Global, f: &TacFn) -> Result<Needs, OutOfMemory>
    ensures { IfOk result (λ needs. (t : ℕ) → has_mark needs t ≡ needed_in f.now.body t) }
{
    let tree = f.tree();
    let mut needs = Needs::none(alloc, tree.temps)?;
    needs.row(&tree.body);
    Ok(needs)
}
