//! Operators on constants.

ghost use Rattle.sc_opt.specs.Prelude.{constant_from, on_constants};
ghost use Rattle.sc_tac.specs.Prelude.{constant_value};
ghost use Rattle.sc_tac.specs.declared.stmt.TacOp.TheVariants.{PointerCompare};
ghost use Rattle.std.specs.Prelude.{◌≡◌};

use sc_base::{BinaryOp, UnaryOp};
use sc_core::{Cause, Value};
use sc_event::Scalar;
use sc_run_value::{applied_one, on_words};
use sc_tac::{Constant, TacOp};

fn value_of(constant: Constant) -> Value
    ensures { result ≡ constant_value constant }
{
    match constant {
        Constant::Word(word) => Value::Word(word),
        Constant::Null => Value::Null,
    }
}

fn constant_from(answer: Result<Value, Cause>) -> Option<Constant>
    ensures { result ≡ constant_from answer }
{
    match answer {
        Ok(Value::Word(word)) => Some(Constant::Word(word)),
        Ok(Value::Null) => Some(Constant::Null),
        Ok(Value::Ptr(_)) => None,
        Err(_) => None,
    }
}

// Of constants only nulls are compared as pointers, and only for equality.
fn compared(op: BinaryOp, left: Constant, right: Constant) -> Option<Constant>
    ensures { result ≡ on_constants (PointerCompare op) left right }
{
    if left != Constant::Null || right != Constant::Null {
        return None;
    }
    match op {
        BinaryOp::Equal => Some(Constant::Word(1)),
        BinaryOp::NotEqual => Some(Constant::Word(0)),
        _ => None,
    }
}

/// What an operator gives of constants, unless it is blamed. It takes the second where it has use for one.
pub fn on_constants(op: TacOp, left: Constant, right: Constant) -> Option<Constant>
    ensures { result ≡ on_constants op left right }
{
    let first = value_of(left);
    match op {
        TacOp::Unary { op, scalar } => {
            constant_from(applied_one(scalar == Scalar::Unsigned, op, first))
        }
        TacOp::Binary { op, scalar } => {
            let second = value_of(right);
            constant_from(on_words(scalar == Scalar::Unsigned, op, first, second))
        }
        TacOp::PointerNot => constant_from(applied_one(false, UnaryOp::Not, first)),
        TacOp::PointerCompare { op } => compared(op, left, right),
        TacOp::PointerMove { .. } => None,
        TacOp::PointerMember { .. } => None,
        TacOp::PointerDifference { .. } => None,
    }
}
