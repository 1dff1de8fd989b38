ghost use Rattle.sc_ast.specs.Prelude.{stmt_kind_of};
ghost use Rattle.std.specs.Prelude.{◌≡◌};

use crate::expr::{CallTree, ExprTree};
use crate::place::PlaceTree;
use crate::types::TypeName;
use sqlite_items::{Boxed, Items};

/// A statement (C11 6.8) and the line, counted in its section, at which it begins.
#[cycle(stmt)]
#[derive(Drop)]
pub struct StmtTree {
    pub line: u32,
    pub kind: StmtKind,
}

/// What a statement does. `x += e`, `x++` and the like stand here unfolded, as `x = x + e`.
#[cycle(stmt)]
#[derive(Drop)]
pub enum StmtKind {
    /// `;`
    Empty,
    /// `x = e;`
    Assign {
        place: PlaceTree,
        value: Boxed<ExprTree>,
    },
    /// `x = f(e);`
    AssignCall {
        place: PlaceTree,
        call: Boxed<CallTree>,
    },
    /// `f(e);`
    Call(Boxed<CallTree>),
    /// `x = malloc(e * sizeof(int));`, or `x = malloc(sizeof(int));` without a count (C11 7.22.3.4)
    Malloc {
        place: PlaceTree,
        count: Option<Boxed<ExprTree>>,
        of: Boxed<TypeName>,
    },
    /// `free(e);` (C11 7.22.3.3)
    Free(Boxed<ExprTree>),
    /// `if (e) { .. } else { .. }`; without `else` the last part is empty, and `else if` is a list of one `If`.
    If {
        cond: Boxed<ExprTree>,
        then_part: Stmts,
        else_part: Stmts,
    },
    /// `while (e) { .. }`
    While {
        cond: Boxed<ExprTree>,
        body: Stmts,
    },
    /// `for (x = e; e; x = e) { .. }`; an absent condition is the literal 1.
    For {
        first: Option<Boxed<SimpleTree>>,
        cond: Boxed<ExprTree>,
        next: Option<Boxed<SimpleTree>>,
        body: Stmts,
    },
    /// `break;`
    Break,
    /// `continue;`
    Continue,
    /// `return;`
    Return,
    /// `return e;`
    ReturnValue(Boxed<ExprTree>),
    /// `return f(e);`
    ReturnCall(Boxed<CallTree>),
}

/// Statements in order, as the body of a loop.
pub type Stmts = Items<StmtTree>;

/// A statement that may stand in the head of a `for`, and its line.
#[derive(Drop)]
pub struct SimpleTree {
    pub line: u32,
    pub kind: SimpleKind,
}

/// The statements that may stand in the head of a `for`; each is a kind of statement of the same name.
#[derive(Drop)]
pub enum SimpleKind {
    /// `x = e`
    Assign {
        place: PlaceTree,
        value: Boxed<ExprTree>,
    },
    /// `x = f(e)`
    AssignCall {
        place: PlaceTree,
        call: Boxed<CallTree>,
    },
    /// `f(e)`
    Call(Boxed<CallTree>),
    /// `x = malloc(e * sizeof(int))`
    Malloc {
        place: PlaceTree,
        count: Option<Boxed<ExprTree>>,
        of: Boxed<TypeName>,
    },
    /// `free(e)`
    Free(Boxed<ExprTree>),
}

impl SimpleKind {
    /// What the same statement does where it stands by itself (C11 6.8.3).
    pub fn into_stmt_kind(self) -> StmtKind
        ensures { result ≡ stmt_kind_of self }
    {
        match self {
            SimpleKind::Assign { place, value } => StmtKind::Assign { place, value },
            SimpleKind::AssignCall { place, call } => StmtKind::AssignCall { place, call },
            SimpleKind::Call(call) => StmtKind::Call(call),
            SimpleKind::Malloc { place, count, of } => StmtKind::Malloc { place, count, of },
            SimpleKind::Free(pointer) => StmtKind::Free(pointer),
        }
    }
}
