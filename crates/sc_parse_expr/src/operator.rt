ghost use Rattle.sc_parse_expr.specs.Prelude.{binary_of, extension_level, extension_of, level_of, prefix_of, prefixed};
ghost use Rattle.std.specs.Prelude.{◌≡◌, ◌<◌, ◌-◌};

use crate::mark::Mark;
use sc_ast::ExprTree;
use sc_base::{BinaryOp, UnaryOp, level_of};
use sqlite_items::Boxed;

/// A unary operator, before its operand (C11 6.5.3).
#[derive(Clone, Copy, Debug, PartialEq, Eq)]
pub enum Prefix {
    Operator(UnaryOp),
    /// `*`
    Dereference,
    /// `&`
    Address,
}

/// What makes a greater expression of one that stands left of it (C11 6.5.2, 6.5.5 to 6.5.14).
#[derive(Clone, Copy, Debug, PartialEq, Eq)]
pub enum Extension {
    Operator(BinaryOp),
    /// `[`
    Index,
    /// `.`
    Member,
    /// `->`
    Arrow,
}

/// The level of an operator's right operand, the next tighter than its own.
pub fn right_level_of(op: BinaryOp) -> u8
    ensures { result ≡ level_of op - 1 }
{
    level_of(op) - 1
}

/// The level of the expressions that are made so.
pub fn extension_level(extension: Extension) -> u8
    ensures { result ≡ extension_level extension }
{
    match extension {
        Extension::Operator(op) => level_of(op),
        Extension::Index => 0,
        Extension::Member => 0,
        Extension::Arrow => 0,
    }
}

fn binary_of(mark: Mark) -> Option<BinaryOp>
    ensures { result ≡ binary_of mark }
{
    match mark {
        Mark::Plus => Some(BinaryOp::Add),
        Mark::Minus => Some(BinaryOp::Sub),
        Mark::Star => Some(BinaryOp::Mul),
        Mark::Slash => Some(BinaryOp::Div),
        Mark::Percent => Some(BinaryOp::Rem),
        Mark::LessLess => Some(BinaryOp::ShiftLeft),
        Mark::GreaterGreater => Some(BinaryOp::ShiftRight),
        Mark::Less => Some(BinaryOp::Less),
        Mark::Greater => Some(BinaryOp::Greater),
        Mark::LessEqual => Some(BinaryOp::LessEqual),
        Mark::GreaterEqual => Some(BinaryOp::GreaterEqual),
        Mark::EqualEqual => Some(BinaryOp::Equal),
        Mark::NotEqual => Some(BinaryOp::NotEqual),
        Mark::And => Some(BinaryOp::BitAnd),
        Mark::Caret => Some(BinaryOp::BitXor),
        Mark::Or => Some(BinaryOp::BitOr),
        Mark::AndAnd => Some(BinaryOp::AndAlso),
        Mark::OrOr => Some(BinaryOp::OrElse),
        _ => None,
    }
}

/// The extension that a mark after an expression begins.
pub fn extension_of(mark: Mark) -> Option<Extension>
    ensures { result ≡ extension_of mark }
{
    match mark {
        Mark::OpenSquare => Some(Extension::Index),
        Mark::Dot => Some(Extension::Member),
        Mark::Arrow => Some(Extension::Arrow),
        _ => match binary_of(mark) {
            Some(op) => Some(Extension::Operator(op)),
            None => None,
        },
    }
}

/// The unary operator that a mark is before an operand.
pub fn prefix_of(mark: Mark) -> Option<Prefix>
    ensures { result ≡ prefix_of mark }
{
    match mark {
        Mark::Minus => Some(Prefix::Operator(UnaryOp::Minus)),
        Mark::Plus => Some(Prefix::Operator(UnaryOp::Plus)),
        Mark::Not => Some(Prefix::Operator(UnaryOp::Not)),
        Mark::Tilde => Some(Prefix::Operator(UnaryOp::BitNot)),
        Mark::Star => Some(Prefix::Dereference),
        Mark::And => Some(Prefix::Address),
        _ => None,
    }
}

/// An operator before its operand.
pub fn prefixed(prefix: Prefix, of: Boxed<ExprTree>) -> ExprTree
    ensures { result ≡ prefixed prefix of }
{
    match prefix {
        Prefix::Operator(op) => ExprTree::Unary { op, of },
        Prefix::Dereference => ExprTree::Deref(of),
        Prefix::Address => ExprTree::Address(of),
    }
}
