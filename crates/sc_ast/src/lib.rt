//! The surface trees of the language: what a section of a program says, before names and types are looked at.
//!
//! Trees are plain data, and contracts see a list type as a list. What a tree may not hold is kept by
//! small types at its leaves:
//! - `Ident`, `Literal`, `ArrayLength` and `PlaceTree` have private fields and are made by a test;
//!   contracts see a text, a number with its type, a number and an expression, and each getter gives the fact.
//! - `NonEmpty` is a list with at least one item; contracts see the list.
//! - `TypeName` is a type without an array length, `FunctionHead` a head whose parameters all have names,
//!   `SimpleTree` one of the five statements that may stand in the head of a `for`: these can hold nothing else.
#![tactic(auto)]

mod expr;
mod head;
mod height;
mod ident;
mod non_empty;
mod number;
mod place;
mod print;
mod section;
mod stmt;
mod types;

pub use expr::{CallTree, ExprTree, Exprs};
pub use height::{expr_height, section_height, stmt_height, stmts_height};
pub use ident::Ident;
pub use non_empty::NonEmpty;
pub use number::{ArrayLength, Literal};
pub use place::PlaceTree;
pub use print::print_section;
pub use section::{
    ConstTree, Consts, Decl, Decls, ExportLine, ExportLines, FunctionHead, FunctionParam,
    FunctionParams, FunctionTree, GlobalTree, HeadTree, ImportLine, ImportLines, InitTree,
    LocalTree, LocalTrees, MemberTree, MemberTrees, ParamTree, ParamTrees, SectionTree, StructTree,
};
pub use stmt::{SimpleKind, SimpleTree, StmtKind, StmtTree, Stmts};
pub use types::{BaseTree, TypeName, TypeTree};
