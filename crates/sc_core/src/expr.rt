use crate::ty::Ty;
use sc_base::{BinaryOp, UnaryOp};
use sc_event::CompId;
use sqlite_items::{Boxed, Items};

/// An expression and its type. A place of array type keeps the array's type, also where C makes it a pointer.
#[cycle(expr)]
#[derive(Drop)]
pub struct TypedExpr {
    pub ty: Ty,
    pub kind: TypedKind,
}

/// What an expression is made of (C11 6.5). Offsets are in cells.
#[cycle(expr)]
#[derive(Drop)]
pub enum TypedKind {
    /// `7`; where a pointer goes, a literal of value 0 has the pointer's type.
    Literal {
        value: u32,
    },
    /// `x`
    Variable(VarRef),
    /// `-x`
    Unary {
        op: UnaryOp,
        of: Boxed<TypedExpr>,
    },
    /// `x + y`
    Binary {
        op: BinaryOp,
        left: Boxed<TypedExpr>,
        right: Boxed<TypedExpr>,
    },
    /// `x[y]`
    Index {
        base: Boxed<TypedExpr>,
        index: Boxed<TypedExpr>,
    },
    /// `x.m`
    Member {
        base: Boxed<TypedExpr>,
        offset: u32,
    },
    /// `x->m`
    Arrow {
        base: Boxed<TypedExpr>,
        offset: u32,
    },
    /// `*x`
    Deref(Boxed<TypedExpr>),
    /// `&x`
    Address(Boxed<TypedExpr>),
    /// `sizeof(int *)`: 4 times the cells of its type (C11 6.5.3.4)
    SizeOf {
        cells: u32,
    },
}

/// Expressions in order, as the arguments of a call.
pub type TypedExprs = Items<TypedExpr>;

/// A variable, by its place among its section's globals or its function's parameters or locals.
#[derive(Clone, Copy, Debug, PartialEq, Eq)]
pub enum VarRef {
    Global(u32),
    Param(u32),
    Local(u32),
}

/// Who is called.
#[derive(Clone, Copy, Debug, PartialEq, Eq)]
pub enum CallTarget {
    /// A function of the same section, by its place.
    Own(u32),
    /// An export of another compartment, by its place among the exports.
    Cross(CompId, u16),
    /// The environment's `input`.
    Input,
    /// The environment's `output`.
    Output,
}

/// A call (C11 6.5.2.2).
#[derive(Drop)]
pub struct TypedCall {
    pub target: CallTarget,
    pub args: TypedExprs,
}
