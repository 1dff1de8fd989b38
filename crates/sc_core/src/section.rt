use crate::expr::TypedExpr;
use crate::stmt::TypedStmts;
use crate::ty::Ty;
use sc_base::{Name, Words};
use sqlite_items::Items;

/// A struct, with the cells of all its members.
#[derive(Drop)]
pub struct TypedStruct {
    pub name: Name,
    pub members: TypedMembers,
    pub cells: u32,
}

/// Structs in order.
pub type TypedStructs = Items<TypedStruct>;

/// A member, and how many cells of its struct stand before it.
#[derive(Clone, Copy)]
pub struct TypedMember {
    pub name: Name,
    pub ty: Ty,
    pub offset: u32,
}

/// The members of a struct in order.
pub type TypedMembers = Items<TypedMember>;

/// A global. Its cells past those of `init` hold the word 0, or null in a pointer's place.
#[derive(Drop)]
pub struct TypedGlobal {
    pub name: Name,
    pub ty: Ty,
    pub init: Words,
}

/// Globals in order.
pub type TypedGlobals = Items<TypedGlobal>;

/// A parameter.
#[derive(Clone, Copy)]
pub struct TypedParam {
    pub name: Name,
    pub ty: Ty,
}

/// Parameters in order.
pub type TypedParams = Items<TypedParam>;

/// A local, its initialiser, and the line at which its declaration begins.
#[derive(Drop)]
pub struct TypedLocal {
    pub name: Name,
    pub ty: Ty,
    pub init: Option<TypedExpr>,
    pub line: u32,
}

/// Locals in order.
pub type TypedLocals = Items<TypedLocal>;

/// A function, which has no result where it is `void`. `close_line` is the line of its closing brace.
#[derive(Drop)]
pub struct TypedFunction {
    pub name: Name,
    pub params: TypedParams,
    pub locals: TypedLocals,
    pub result: Option<Ty>,
    pub body: TypedStmts,
    pub close_line: u32,
}

/// Functions in order.
pub type TypedFunctions = Items<TypedFunction>;

/// A compartment's section.
#[derive(Drop)]
pub struct TypedSection {
    pub structs: TypedStructs,
    pub globals: TypedGlobals,
    pub functions: TypedFunctions,
}

/// Sections in order, one for each compartment.
pub type TypedSections = Items<TypedSection>;
