use crate::expr::ExprTree;
use crate::ident::Ident;
use crate::non_empty::NonEmpty;
use crate::number::Literal;
use crate::stmt::Stmts;
use crate::types::{TypeName, TypeTree};
use sc_base::Name;
use sqlite_items::{Boxed, Items};

/// A section: a compartment, what it exports and imports, and its declarations in order.
#[derive(Drop)]
pub struct SectionTree {
    pub name: Name,
    /// The line of the compartment line in the whole text. All other lines are counted in the section.
    pub line: u32,
    pub exports: ExportLines,
    pub imports: ImportLines,
    pub decls: Decls,
}

/// `#pragma export F`
#[derive(Clone, Copy)]
pub struct ExportLine {
    pub name: Name,
    pub line: u32,
}

/// Export lines in order.
pub type ExportLines = Items<ExportLine>;

/// `#pragma import C F`
#[derive(Clone, Copy)]
pub struct ImportLine {
    pub comp: Name,
    pub name: Name,
    pub line: u32,
}

/// Import lines in order.
pub type ImportLines = Items<ImportLine>;

/// A declaration (C11 6.7, 6.9). One that declares several variables is one for each.
#[derive(Drop)]
pub enum Decl {
    Struct(StructTree),
    Global(GlobalTree),
    Proto(HeadTree),
    Function(FunctionTree),
}

/// Declarations in order.
pub type Decls = Items<Decl>;

/// `struct S { int x; };`
#[derive(Drop)]
pub struct StructTree {
    pub name: Ident,
    pub members: MemberTrees,
    pub line: u32,
}

/// A member of a struct.
#[derive(Clone, Copy, PartialEq, Eq)]
pub struct MemberTree {
    pub ty: TypeTree,
    pub name: Ident,
}

/// The members of a struct, which has one at least.
pub type MemberTrees = NonEmpty<MemberTree>;

/// `int x = 7;` outside functions.
#[derive(Drop)]
pub struct GlobalTree {
    pub ty: TypeTree,
    pub name: Ident,
    pub init: InitTree,
    pub line: u32,
}

/// What a global begins with.
#[derive(Drop)]
pub enum InitTree {
    /// Nothing is written.
    Absent,
    /// `= 7`
    One(ConstTree),
    /// `= { 7, 8 }`
    Many(Consts),
}

/// An integer constant, with or without a `-` before it.
#[derive(Clone, Copy, PartialEq, Eq)]
pub struct ConstTree {
    pub negative: bool,
    pub literal: Literal,
}

/// The constants of an initialiser in braces, which has one at least.
pub type Consts = NonEmpty<ConstTree>;

/// `int f(int x, unsigned)` before a `;`. The result is absent for `void`.
#[derive(Drop)]
pub struct HeadTree {
    pub result: Option<TypeName>,
    pub name: Ident,
    pub params: ParamTrees,
    pub line: u32,
}

/// A parameter of a prototype, whose name may be left out.
#[derive(Clone, Copy, PartialEq, Eq)]
pub struct ParamTree {
    pub ty: TypeName,
    pub name: Option<Ident>,
}

/// Parameters of a prototype in order.
pub type ParamTrees = Items<ParamTree>;

/// The head of a function, as that of a prototype, but each parameter has its name.
#[derive(Drop)]
pub struct FunctionHead {
    pub result: Option<TypeName>,
    pub name: Ident,
    pub params: FunctionParams,
    pub line: u32,
}

/// A parameter of a function.
#[derive(Clone, Copy, PartialEq, Eq)]
pub struct FunctionParam {
    pub ty: TypeName,
    pub name: Ident,
}

/// Parameters of a function in order.
pub type FunctionParams = Items<FunctionParam>;

/// A function. `close_line` is the line of its closing brace.
#[derive(Drop)]
pub struct FunctionTree {
    pub head: FunctionHead,
    pub locals: LocalTrees,
    pub body: Stmts,
    pub close_line: u32,
}

/// `int x = e;` at the beginning of a function's body.
#[derive(Drop)]
pub struct LocalTree {
    pub ty: TypeTree,
    pub name: Ident,
    pub init: Option<Boxed<ExprTree>>,
    pub line: u32,
}

/// Locals in order.
pub type LocalTrees = Items<LocalTree>;
