//! Programs and their source meaning, apart from any code that runs them.
#![tactic(auto)]

mod cause;
mod explanation;
mod expr;
mod place;
mod program;
mod run;
mod section;
mod sizes;
mod stmt;
mod ty;
mod value;

pub use cause::Cause;
pub use explanation::{Explanation, Link, Links, TrapOrigin, Trapped};
pub use expr::{CallTarget, TypedCall, TypedExpr, TypedExprs, TypedKind, VarRef};
pub use place::TypedPlace;
pub use program::{Program, ProgramTree};
pub use run::{RunEnd, SourceRun};
pub use sc_base::{Stop, TrapReason};
pub use section::{
    TypedFunction, TypedFunctions, TypedGlobal, TypedGlobals, TypedLocal, TypedLocals, TypedMember,
    TypedMembers, TypedParam, TypedParams, TypedSection, TypedSections, TypedStruct, TypedStructs,
};
pub use sizes::{cells_of, target_cells};
pub use stmt::{TypedSimple, TypedSimpleKind, TypedStmt, TypedStmtKind, TypedStmts};
pub use ty::{BaseTy, Ty, is_unsigned_op};
pub use value::{Cell, Pointer, Value, Want};
