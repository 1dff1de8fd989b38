//! What a run does at the moment, and what waits.

use crate::state::Machine;
use sc_core::{
    RunEnd, TypedCall, TypedExpr, TypedFunction, TypedSimple, TypedStmt, TypedStruct, Value,
};
use sc_event::CompId;
use sc_run_value::Scope;

/// A call that has begun: where it stands, and its function.
#[derive(Clone, Copy)]
pub struct Frame<'a> {
    pub scope: Scope<'a>,
    pub function: &'a TypedFunction,
}

/// A function that is called: its compartment, its place there, and the structs of its section.
#[derive(Clone, Copy)]
pub struct Callee<'a> {
    pub comp: &'a CompId,
    pub number: usize,
    pub structs: &'a [TypedStruct],
    pub function: &'a TypedFunction,
}

/// A `while`, or a `for` without its first part.
#[derive(Clone, Copy)]
pub struct Loop<'a> {
    pub cond: &'a TypedExpr,
    pub body: &'a [TypedStmt],
    pub next: Option<&'a TypedSimple>,
    pub line: u32,
}

/// A place in statements: in the part of one that was chosen, or in no part, and before the others from a number on.
#[derive(Clone, Copy)]
pub struct Position<'a> {
    pub part: &'a [TypedStmt],
    pub count: usize,
}

/// What is done with the result of a call.
#[derive(Clone, Copy)]
pub enum To<'a> {
    Nowhere,
    /// It is stored at a place, by a statement on this line.
    Place(&'a TypedExpr, u32),
    /// It is returned.
    Back,
}

/// A call in a statement, what is done with its result, and the line of the statement.
#[derive(Clone, Copy)]
pub struct Made<'a> {
    pub call: &'a TypedCall,
    pub to: To<'a>,
    pub line: u32,
}

/// What waits while something else runs.
#[derive(Clone, Copy)]
pub enum Work<'a> {
    /// Statements that follow.
    Rest(&'a [TypedStmt]),
    /// A loop, whose first part runs.
    First(Loop<'a>),
    /// A loop, whose body runs.
    Body(Loop<'a>),
    /// A loop, where what comes before its next round runs.
    Again(Loop<'a>),
    /// The function that called, what it does with the result, and the place of the export that it called, if it is
    /// one.
    Caller(Frame<'a>, To<'a>, Option<u16>),
}

/// A run that has got somewhere: what it has come to, what waits, the newest last, the call that runs, and the last
/// step that was taken where something wasn't done at once.
#[derive(Drop)]
pub struct Run<'a, 'i> {
    pub machine: Machine<'i>,
    pub work: Vec<Work<'a>>,
    pub frame: Frame<'a>,
    pub taken: Taken<'a>,
}

/// What of a step that was taken counts.
#[derive(Clone, Copy)]
pub enum StepKind {
    Statements,
    Exit,
    End,
}

/// The last step that was taken where something wasn't done at once. It stands in parts, so that it is kept in place.
#[derive(Clone, Copy)]
pub struct Taken<'a> {
    pub kind: StepKind,
    pub stmts: &'a [TypedStmt],
    pub exit: Leaving,
    pub end: RunEnd,
}

/// How control leaves statements.
#[derive(Clone, Copy)]
pub enum Leaving {
    Next,
    Break,
    Continue,
    Return(Option<Value>),
}

/// What is done at the moment.
#[derive(Clone, Copy)]
pub enum Now<'a> {
    Run(&'a [TypedStmt]),
    Leave(Leaving),
}

/// What is done after a step, or how the run ended.
#[derive(Clone, Copy)]
pub enum Step<'a> {
    Go(Now<'a>),
    Stop(RunEnd),
}
