ghost use Rattle.sc_base.specs.Prelude.{level_of};
ghost use Rattle.std.specs.Prelude.{◌≡◌, ◌<◌};

/// An operator before its operand, other than `*` and `&` (C11 6.5.3.3).
#[derive(Clone, Copy, Debug, PartialEq, Eq)]
pub enum UnaryOp {
    /// `-`
    Minus,
    /// `+`
    Plus,
    /// `!`
    Not,
    /// `~`
    BitNot,
}

/// An operator between its operands (C11 6.5.5 to 6.5.14).
#[derive(Clone, Copy, Debug, PartialEq, Eq)]
pub enum BinaryOp {
    /// `||`
    OrElse,
    /// `&&`
    AndAlso,
    /// `|`
    BitOr,
    /// `^`
    BitXor,
    /// `&`
    BitAnd,
    /// `==`
    Equal,
    /// `!=`
    NotEqual,
    /// `<`
    Less,
    /// `>`
    Greater,
    /// `<=`
    LessEqual,
    /// `>=`
    GreaterEqual,
    /// `<<`
    ShiftLeft,
    /// `>>`
    ShiftRight,
    /// `+`
    Add,
    /// `-`
    Sub,
    /// `*`
    Mul,
    /// `/`
    Div,
    /// `%`
    Rem,
}

/// The level of postfix expressions (C11 6.5.2), the tightest.
pub const POSTFIX: u8 = 0;

/// The level of unary expressions (C11 6.5.3).
pub const UNARY: u8 = 1;

/// The level that holds every expression.
pub const LOOSEST: u8 = 11;

/// The level of the expressions that an operator joins (C11 6.5.5 to 6.5.14), from 2 for the tightest.
pub fn level_of(op: BinaryOp) -> u8
    ensures level { result ≡ level_of op }
    ensures positive { 0 < result }
{
    match op {
        BinaryOp::Mul => 2,
        BinaryOp::Div => 2,
        BinaryOp::Rem => 2,
        BinaryOp::Add => 3,
        BinaryOp::Sub => 3,
        BinaryOp::ShiftLeft => 4,
        BinaryOp::ShiftRight => 4,
        BinaryOp::Less => 5,
        BinaryOp::Greater => 5,
        BinaryOp::LessEqual => 5,
        BinaryOp::GreaterEqual => 5,
        BinaryOp::Equal => 6,
        BinaryOp::NotEqual => 6,
        BinaryOp::BitAnd => 7,
        BinaryOp::BitXor => 8,
        BinaryOp::BitOr => 9,
        BinaryOp::AndAlso => 10,
        BinaryOp::OrElse => 11,
    }
}
