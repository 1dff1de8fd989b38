//! Statements that are one piece of code: the first gives the place of a variable and the second loads what stands
//! there or stores there, or the first sets a constant and the second is an operator that reads it, whose result a
//! third may return.

ghost use Rattle.sc_emit_select.specs.Prelude.{FrameTree, Place, has_mark, held_in, joins, operates, plan_by};
ghost use Rattle.sc_emit_select.specs.Prelude.{role_before, role_first, role_of_operation, role_of_return};
ghost use Rattle.sc_emit_select.specs.Prelude.{role_of_store, role_to_next, select};
ghost use Rattle.std.specs.Prelude.{◌≡◌, ◌≤◌, Bool, List, drop, length, map};

use crate::needs::Needs;
use crate::operators::short_form;
use crate::statements::word_of_constant;
use sc_tac::{TacOp, TacStmt};

/// What a statement is to its neighbours.
#[derive(Clone, Copy)]
pub enum Role {
    /// A temporary gets the place of a variable.
    Places {
        temp: u32,
        object: u32,
    },
    /// A temporary gets what stands at the place that it holds.
    Loads {
        temp: u32,
    },
    /// A temporary gets a constant.
    Sets {
        temp: u32,
        word: u32,
    },
    /// A temporary gets the result of an operator, whose second operand is in one that only such statements read.
    Operates {
        dest: u32,
        left: u32,
        op: TacOp,
        right: u32,
    },
    /// A value is stored at the place that a temporary holds, which only such statements read.
    Stores {
        temp: u32,
        value: u32,
    },
    /// A temporary gets the result of an operator and a constant.
    Applies {
        temp: u32,
        left: u32,
        op: TacOp,
        word: u32,
    },
    /// A temporary is returned.
    Returns {
        temp: u32,
    },
    /// All else.
    Other,
}

/// The temporary that holds what a statement takes of the one before it.
pub(crate) fn held_in(role: Role) -> Option<u32>
    ensures { result ≡ held_in role }
{
    match role {
        Role::Stores { temp, .. } => Some(temp),
        Role::Operates { right, .. } => Some(right),
        _ => None,
    }
}

/// An operator, which may have one operand.
pub(crate) fn operates(dest: u32, op: TacOp, left: u32, right: Option<u32>) -> Role
    ensures { result ≡ operates dest op left right }
{
    match right {
        Some(right) => Role::Operates {
            dest,
            left,
            op,
            right,
        },
        None => Role::Other,
    }
}

fn role_of_operation(needs: &Needs, dest: u32, op: TacOp, left: u32, right: Option<u32>) -> Role
    ensures { result ≡ role_of_operation (has_mark needs.now) dest op left right }
{
    match right {
        Some(right) if !needs.has(right) => Role::Operates {
            dest,
            left,
            op,
            right,
        },
        _ => Role::Other,
    }
}

fn role_of_store(needs: &Needs, place: u32, value: u32) -> Role
    ensures { result ≡ role_of_store (has_mark needs.now) place value }
{
    if needs.has(place) {
        return Role::Other;
    }
    Role::Stores { temp: place, value }
}

fn role_of_return(value: Option<u32>) -> Role
    ensures { result ≡ role_of_return value }
{
    match value {
        Some(temp) => Role::Returns { temp },
        None => Role::Other,
    }
}

/// The role of a statement.
pub(crate) fn role_of(needs: &Needs, stmt: &TacStmt) -> Role
    ensures { (frame : FrameTree) (places : List Place) (near : Bool) → result ≡
        (select frame places (plan_by needs.now near) stmt.now).role }
{
    match stmt {
        TacStmt::Const { dest, value } => Role::Sets {
            temp: *dest,
            word: word_of_constant(*value),
        },
        TacStmt::Op {
            dest,
            op,
            left,
            right,
        } => role_of_operation(needs, *dest, *op, *left, *right),
        TacStmt::ObjectPlace { dest, object } => Role::Places {
            temp: *dest,
            object: *object,
        },
        TacStmt::Load { dest, place, .. } => {
            if *dest == *place {
                Role::Loads { temp: *dest }
            } else {
                Role::Other
            }
        }
        TacStmt::Store { place, value } => role_of_store(needs, *place, *value),
        TacStmt::Return { value } => role_of_return(*value),
        _ => Role::Other,
    }
}

/// The role of the statement at a number, if there is one.
#[tactic(auto, using(crate::proofs::Joining::role_found, crate::proofs::Joining::role_missing))]
pub(crate) fn role_at(needs: &Needs, stmts: &[TacStmt], at: usize) -> Role
    ensures { (frame : FrameTree) (places : List Place) (near : Bool) → result ≡
        role_first (map (select frame places (plan_by needs.now near)) (drop at stmts.now)) }
{
    if at < stmts.len() {
        return role_of(needs, &stmts[at]);
    }
    Role::Other
}

/// What a statement is to the next one, with the one before it.
pub(crate) fn role_to_next(before: Role, own: Role) -> Role
    ensures { result ≡ role_to_next before own }
{
    match (before, own) {
        (
            Role::Sets { temp, word },
            Role::Operates {
                dest,
                left,
                op,
                right,
            },
        ) if temp == right && short_form(op, word).is_some() => Role::Applies {
            temp: dest,
            left,
            op,
            word,
        },
        _ => own,
    }
}

/// What the statements before the one at a number are to it, the last two of them.
pub(crate) fn role_before(needs: &Needs, stmts: &[TacStmt], at: usize) -> Role
    ensures { (frame : FrameTree) (places : List Place) (near : Bool) → result ≡
        role_before (map (select frame places (plan_by needs.now near)) stmts.now) at }
{
    if at == 0 {
        return Role::Other;
    }
    let own = role_at(needs, stmts, at - 1);
    if at == 1 {
        return own;
    }
    role_to_next(role_at(needs, stmts, at - 2), own)
}

/// Whether one piece is for two statements.
pub(crate) fn joins(first: Role, second: Role) -> bool
    ensures { result ≡ joins first second }
{
    match (first, second) {
        (Role::Places { temp, .. }, Role::Loads { temp: other }) => temp == other,
        (Role::Places { temp, .. }, Role::Stores { temp: other, .. }) => temp == other,
        (Role::Sets { temp, word }, Role::Operates { right, op, .. }) => temp == right
            && short_form(op, word).is_some(),
        (Role::Applies { temp, .. }, Role::Returns { temp: other }) => temp == other,
        _ => false,
    }
}
