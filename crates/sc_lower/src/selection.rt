//! What operators become, by the types of their operands.

ghost use Rattle.sc_lower.specs.Prelude.{between_op, binary_code, constant_of, is_sub, is_unsigned_op, move_op, not_op};
ghost use Rattle.sc_lower.specs.Prelude.{place_code, scalar_in, scalar_of, truth_code, unary_op, variable_beyond};
ghost use Rattle.std.specs.Prelude.{◌≡◌, ◌++◌, IfOk};

use crate::code::Scope;
use sc_base::{BinaryOp, OutOfMemory, UnaryOp};
use sc_core::{Ty, TypedStruct, VarRef, is_unsigned_op, target_cells};
use sc_event::Scalar;
use sc_tac::{Constant, TacOp, TacStmt, TacStmts};

fn scalar_in(unsigned: bool) -> Scalar
    ensures { result ≡ scalar_in unsigned }
{
    if unsigned {
        Scalar::Unsigned
    } else {
        Scalar::Int
    }
}

fn scalar_of(ty: Ty) -> Scalar
    ensures { result ≡ scalar_of ty }
{
    scalar_in(ty.is_unsigned())
}

/// A literal of this type.
pub fn constant_of(ty: Ty, word: u32) -> Constant
    ensures { result ≡ constant_of ty word }
{
    if ty.is_pointer() {
        Constant::Null
    } else {
        Constant::Word(word)
    }
}

/// The place of a variable into a temporary.
pub fn place_code(params: u8, variable: VarRef, dest: u32) -> TacStmt
    requires { variable_beyond variable ≡ 0 }
    ensures { result ≡ place_code params variable dest }
{
    match variable {
        VarRef::Global(global) => TacStmt::GlobalPlace { dest, global },
        VarRef::Param(object) => TacStmt::ObjectPlace { dest, object },
        VarRef::Local(local) => TacStmt::ObjectPlace {
            dest,
            object: params as u32 + local,
        },
    }
}

fn not_op(ty: Ty) -> TacOp
    ensures { result ≡ not_op ty }
{
    if ty.is_pointer() {
        TacOp::PointerNot
    } else {
        TacOp::Unary {
            op: UnaryOp::Not,
            scalar: scalar_of(ty),
        }
    }
}

/// An operator before an operand of this type.
pub fn unary_op(op: UnaryOp, ty: Ty) -> TacOp
    ensures { result ≡ unary_op op ty }
{
    match op {
        UnaryOp::Not => not_op(ty),
        _ => TacOp::Unary {
            op,
            scalar: scalar_of(ty),
        },
    }
}

fn is_sub(op: BinaryOp) -> bool
    ensures { result ≡ is_sub op }
{
    match op {
        BinaryOp::Sub => true,
        _ => false,
    }
}

// An operator between two pointers to elements of `cells` cells.
fn between_op(op: BinaryOp, cells: u32) -> TacOp
    ensures { result ≡ between_op op cells }
{
    match op {
        BinaryOp::Sub => TacOp::PointerDifference { cells },
        _ => TacOp::PointerCompare { op },
    }
}

/// A pointer moved on or back by a number of elements.
pub fn move_op(structs: &[TypedStruct], op: BinaryOp, pointer: Ty, index: Ty) -> TacOp
    ensures { result ≡ move_op structs.now op pointer index }
{
    TacOp::PointerMove {
        minus: is_sub(op),
        cells: target_cells(structs, pointer),
        index: scalar_of(index),
    }
}

fn op_code(dest: u32, op: TacOp, left: u32, right: u32) -> TacStmt
    ensures { result ≡ TacStmt.Op dest op left (Some right) }
{
    TacStmt::Op {
        dest,
        op,
        left,
        right: Some(right),
    }
}

/// An operator between two temporaries of these types.
pub fn binary_code(
    structs: &[TypedStruct],
    op: BinaryOp,
    types: (Ty, Ty),
    dest: u32,
    left: u32,
    right: u32,
) -> TacStmt
    ensures { result ≡ binary_code structs.now op types.0 types.1 dest left right }
{
    if types.0.is_pointer() {
        if types.1.is_pointer() {
            let op = between_op(op, target_cells(structs, types.0));
            op_code(dest, op, left, right)
        } else {
            op_code(dest, move_op(structs, op, types.0, types.1), left, right)
        }
    } else if types.1.is_pointer() {
        op_code(dest, move_op(structs, op, types.1, types.0), right, left)
    } else {
        let scalar = scalar_in(is_unsigned_op(op, types.0, types.1));
        op_code(dest, TacOp::Binary { op, scalar }, left, right)
    }
}

/// Statements, and 1 where the value is not 0 or null, else 0 (C11 6.5.13p3).
pub fn with_truth(first: TacStmts, ty: Ty, dest: u32, value: u32) -> Result<TacStmts, OutOfMemory>
    ensures { IfOk result (λ stmts. stmts ≡ first ++ truth_code ty dest value) }
{
    let mut stmts = first;
    stmts.push(TacStmt::Op {
        dest,
        op: not_op(ty),
        left: value,
        right: None,
    })?;
    stmts.push(TacStmt::Op {
        dest,
        op: TacOp::Unary {
            op: UnaryOp::Not,
            scalar: Scalar::Int,
        },
        left: dest,
        right: None,
    })?;
    Ok(stmts)
}
