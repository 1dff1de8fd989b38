//! Operators on words (C11 6.5.3, 6.5.5 to 6.5.14).
use sc_base::{BinaryOp, UnaryOp};
use sc_core::{Cause, Value};

/// Whether a condition holds.
pub(crate) fn is_true(value: Value) -> bool {
    match value {
        Value::Word(word) => word != 0,
        Value::Null => false,
        Value::Ptr(_) => true,
    }
}

/// `int` 1 or 0.
pub(crate) fn truth(holds: bool) -> Value {
    Value::Word(u32::from(holds))
}

/// A unary operator on a value, which is unsigned or not.
pub(crate) fn before(op: UnaryOp, unsigned: bool, value: Value) -> Result<Value, Cause> {
    match (op, value) {
        (UnaryOp::Not, value) => Ok(truth(!is_true(value))),
        (UnaryOp::Plus, value) => Ok(value),
        (UnaryOp::BitNot, Value::Word(word)) => Ok(Value::Word(!word)),
        (UnaryOp::Minus, Value::Word(word)) => Ok(Value::Word(negated(unsigned, word)?)),
        _ => Err(Cause::BadType),
    }
}

fn negated(unsigned: bool, word: u32) -> Result<u32, Cause> {
    if unsigned {
        return Ok(word.wrapping_neg());
    }
    let negation = word.cast_signed().checked_neg();
    Ok(negation.ok_or(Cause::Overflow)?.cast_unsigned())
}

/// An operator between two words, which computes unsigned or not.
pub(crate) fn between(op: BinaryOp, unsigned: bool, a: u32, b: u32) -> Result<Value, Cause> {
    if let Some(word) = on_bits(op, a, b) {
        return Ok(Value::Word(word));
    }
    if unsigned {
        on_unsigned(op, a, b)
    } else {
        on_signed(op, a.cast_signed(), b.cast_signed(), b)
    }
}

// An operator that gives the same whether words are signed or not.
fn on_bits(op: BinaryOp, a: u32, b: u32) -> Option<u32> {
    match op {
        BinaryOp::BitOr => Some(a | b),
        BinaryOp::BitXor => Some(a ^ b),
        BinaryOp::BitAnd => Some(a & b),
        BinaryOp::Equal => Some(u32::from(a == b)),
        BinaryOp::NotEqual => Some(u32::from(a != b)),
        BinaryOp::OrElse => Some(u32::from(a != 0 || b != 0)),
        BinaryOp::AndAlso => Some(u32::from(a != 0 && b != 0)),
        _ => None,
    }
}

fn on_unsigned(op: BinaryOp, a: u32, b: u32) -> Result<Value, Cause> {
    match op {
        BinaryOp::Less => Ok(truth(a < b)),
        BinaryOp::Greater => Ok(truth(a > b)),
        BinaryOp::LessEqual => Ok(truth(a <= b)),
        BinaryOp::GreaterEqual => Ok(truth(a >= b)),
        BinaryOp::Add => Ok(Value::Word(a.wrapping_add(b))),
        BinaryOp::Sub => Ok(Value::Word(a.wrapping_sub(b))),
        BinaryOp::Mul => Ok(Value::Word(a.wrapping_mul(b))),
        BinaryOp::Div => Ok(Value::Word(a.checked_div(b).ok_or(Cause::ZeroDivisor)?)),
        BinaryOp::Rem => Ok(Value::Word(a.checked_rem(b).ok_or(Cause::ZeroDivisor)?)),
        BinaryOp::ShiftLeft => Ok(Value::Word(a.checked_shl(b).ok_or(Cause::BadShift)?)),
        BinaryOp::ShiftRight => Ok(Value::Word(a.checked_shr(b).ok_or(Cause::BadShift)?)),
        _ => Err(Cause::BadType),
    }
}

// `count` is the second word, unsigned.
fn on_signed(op: BinaryOp, a: i32, b: i32, count: u32) -> Result<Value, Cause> {
    match op {
        BinaryOp::Less => Ok(truth(a < b)),
        BinaryOp::Greater => Ok(truth(a > b)),
        BinaryOp::LessEqual => Ok(truth(a <= b)),
        BinaryOp::GreaterEqual => Ok(truth(a >= b)),
        BinaryOp::Add => fitting(a.checked_add(b)),
        BinaryOp::Sub => fitting(a.checked_sub(b)),
        BinaryOp::Mul => fitting(a.checked_mul(b)),
        BinaryOp::Div if b == 0 => Err(Cause::ZeroDivisor),
        BinaryOp::Div => fitting(a.checked_div(b)),
        BinaryOp::Rem if b == 0 => Err(Cause::ZeroDivisor),
        BinaryOp::Rem => fitting(a.checked_rem(b)),
        BinaryOp::ShiftLeft => shifted(a, count),
        BinaryOp::ShiftRight => {
            let half = a.checked_shr(count).ok_or(Cause::BadShift)?;
            Ok(Value::Word(half.cast_unsigned()))
        }
        _ => Err(Cause::BadType),
    }
}

fn fitting(word: Option<i32>) -> Result<Value, Cause> {
    Ok(Value::Word(word.ok_or(Cause::Overflow)?.cast_unsigned()))
}

// Doubled so often, where each double fits.
fn shifted(a: i32, count: u32) -> Result<Value, Cause> {
    if count >= 32 {
        return Err(Cause::BadShift);
    }
    if a < 0 {
        return Err(Cause::Overflow);
    }
    let mut double = a;
    for _ in 0..count {
        double = double.checked_mul(2).ok_or(Cause::Overflow)?;
    }
    Ok(Value::Word(double.cast_unsigned()))
}
