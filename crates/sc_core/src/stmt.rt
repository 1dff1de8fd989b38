use crate::expr::{TypedCall, TypedExpr};
use crate::place::TypedPlace;
use sqlite_items::{Boxed, Items};

/// A statement (C11 6.8) and the line, counted in its section, at which it begins.
#[cycle(stmt)]
#[derive(Drop)]
pub struct TypedStmt {
    pub line: u32,
    pub kind: TypedStmtKind,
}

/// What a statement does. `x += e`, `x++` and the like stand here unfolded, as `x = x + e`.
#[cycle(stmt)]
#[derive(Drop)]
pub enum TypedStmtKind {
    /// `;`
    Empty,
    /// `x = e;`
    Assign {
        place: TypedPlace,
        value: Boxed<TypedExpr>,
    },
    /// `x = f(e);`
    AssignCall {
        place: TypedPlace,
        call: Boxed<TypedCall>,
    },
    /// `f(e);`
    Call(Boxed<TypedCall>),
    /// `x = malloc(e * sizeof(int));`, or without a count; one element has `cells` cells (C11 7.22.3.4).
    Malloc {
        place: TypedPlace,
        count: Option<Boxed<TypedExpr>>,
        cells: u32,
    },
    /// `free(e);` (C11 7.22.3.3); a literal of value 0 has the type `int *`.
    Free(Boxed<TypedExpr>),
    /// `if (e) { .. } else { .. }`; without `else` the last part is empty.
    If {
        cond: Boxed<TypedExpr>,
        then_part: TypedStmts,
        else_part: TypedStmts,
    },
    /// `while (e) { .. }`
    While {
        cond: Boxed<TypedExpr>,
        body: TypedStmts,
    },
    /// `for (x = e; e; x = e) { .. }`; an absent condition is the literal 1.
    For {
        first: Option<Boxed<TypedSimple>>,
        cond: Boxed<TypedExpr>,
        next: Option<Boxed<TypedSimple>>,
        body: TypedStmts,
    },
    /// `break;`
    Break,
    /// `continue;`
    Continue,
    /// `return;`
    Return,
    /// `return e;`
    ReturnValue(Boxed<TypedExpr>),
    /// `return f(e);`
    ReturnCall(Boxed<TypedCall>),
}

/// Statements in order, as the body of a loop.
pub type TypedStmts = Items<TypedStmt>;

/// A statement in the head of a `for`, and its line.
#[derive(Drop)]
pub struct TypedSimple {
    pub line: u32,
    pub kind: TypedSimpleKind,
}

/// The statements that may stand in the head of a `for`.
#[derive(Drop)]
pub enum TypedSimpleKind {
    /// `x = e`
    Assign {
        place: TypedPlace,
        value: Boxed<TypedExpr>,
    },
    /// `x = f(e)`
    AssignCall {
        place: TypedPlace,
        call: Boxed<TypedCall>,
    },
    /// `f(e)`
    Call(Boxed<TypedCall>),
    /// `x = malloc(e * sizeof(int))`
    Malloc {
        place: TypedPlace,
        count: Option<Boxed<TypedExpr>>,
        cells: u32,
    },
    /// `free(e)`
    Free(Boxed<TypedExpr>),
}
