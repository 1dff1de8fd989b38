use sc_base::{BinaryOp, UnaryOp};
use sc_event::{CompId, Scalar};
use sqlite_items::Items;

/// A value that stands in the code.
#[derive(Clone, Copy, Debug, PartialEq, Eq)]
pub enum Constant {
    Word(u32),
    /// The pointer to nothing.
    Null,
}

/// What is computed from one value or two. Sizes and offsets are in cells.
#[derive(Clone, Copy, Debug, PartialEq, Eq)]
pub enum TacOp {
    /// An operator before an integer.
    Unary {
        op: UnaryOp,
        scalar: Scalar,
    },
    /// An operator between two integers, computed in this type.
    Binary {
        op: BinaryOp,
        scalar: Scalar,
    },
    /// `!` before a pointer.
    PointerNot,
    /// A pointer moved on by a number of elements, or back where it is a minus. An element has `cells` cells, and the
    /// number of elements has the type `index`.
    PointerMove {
        minus: bool,
        cells: u32,
        index: Scalar,
    },
    /// The place of a member.
    PointerMember {
        offset: u32,
    },
    /// How many elements of `cells` cells lie between two pointers.
    PointerDifference {
        cells: u32,
    },
    /// An operator that compares two pointers.
    PointerCompare {
        op: BinaryOp,
    },
}

/// Temporaries by their numbers, as the arguments of a call.
pub type Temps = Items<u32>;

/// A statement of three-address code. Temporaries, objects, globals and functions are numbers: temporaries and objects
/// of the function, globals and functions of the section.
#[cycle(stmt)]
#[derive(Drop)]
pub enum TacStmt {
    /// The temporary `dest` gets a constant.
    Const {
        dest: u32,
        value: Constant,
    },
    /// It gets what another holds.
    Copy {
        dest: u32,
        from: u32,
    },
    /// It gets the result of an operator, which takes one value where `right` is absent.
    Op {
        dest: u32,
        op: TacOp,
        left: u32,
        right: Option<u32>,
    },
    /// It gets the place of a parameter or a local.
    ObjectPlace {
        dest: u32,
        object: u32,
    },
    /// It gets the place of a global.
    GlobalPlace {
        dest: u32,
        global: u32,
    },
    /// It gets what stands at a place: a pointer or a word.
    Load {
        dest: u32,
        place: u32,
        pointer: bool,
    },
    /// A value is stored at a place.
    Store {
        place: u32,
        value: u32,
    },
    /// The first part where the value is true, else the second.
    If {
        cond: u32,
        then_part: TacStmts,
        else_part: TacStmts,
    },
    /// `head`, a turn, `body`, `next`, and again from the beginning.
    Loop {
        head: TacStmts,
        body: TacStmts,
        next: TacStmts,
    },
    /// Ends the innermost loop.
    Break,
    /// Goes from the `body` of the innermost loop to its `next`.
    Continue,
    /// Calls a function of the section.
    CallOwn {
        dest: Option<u32>,
        function: u32,
        args: Temps,
    },
    /// Calls an export of another compartment.
    CallCross {
        dest: Option<u32>,
        comp: CompId,
        index: u16,
        args: Temps,
    },
    /// Calls the environment's `input`.
    Input {
        dest: Option<u32>,
    },
    /// Calls the environment's `output`.
    Output {
        value: u32,
    },
    /// The temporary `dest` gets the place of a new block of the heap: as many elements as `count` says, of `words`
    /// cells each. It gets null where there is no room for them.
    Alloc {
        dest: u32,
        count: u32,
        words: u32,
    },
    /// What a pointer points to is given back to the heap.
    Free {
        pointer: u32,
    },
    /// Ends the call.
    Return {
        value: Option<u32>,
    },
}

/// Statements in order.
pub type TacStmts = Items<TacStmt>;
