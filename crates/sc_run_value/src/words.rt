//! Operators on words (C11 6.5.3.3, 6.5.5 to 6.5.14).

ghost use Rattle.sc_run_value.specs.Prelude.{applied_one, c_arith, c_binary, c_negated, is_less, is_true, number_of};
ghost use Rattle.sc_run_value.specs.Prelude.{of_bool, on_words, or_cause, truth};
ghost use Rattle.std.specs.Prelude.{◌≡◌, true, false};
ghost use Rattle.sc_base.specs.declared.op.UnaryOp.TheVariants.{Minus, BitNot};

use sc_base::{BinaryOp, UnaryOp};
use sc_core::{Cause, Value};
use sc_word::WordFault;

#[inline(always)]
fn or_cause(answer: Result<u32, WordFault>) -> Result<u32, Cause>
    ensures { result ≡ or_cause answer }
{
    match answer {
        Ok(word) => Ok(word),
        Err(WordFault::Overflow) => Err(Cause::Overflow),
        Err(WordFault::ZeroDivisor) => Err(Cause::ZeroDivisor),
        Err(WordFault::BadShift) => Err(Cause::BadShift),
    }
}

#[inline(always)]
pub(crate) fn truth(holds: bool) -> u32
    ensures { result ≡ truth holds }
{
    if holds { 1 } else { 0 }
}

#[inline(always)]
fn is_less(unsigned: bool, a: u32, b: u32) -> bool
    ensures { result ≡ is_less unsigned a b }
{
    if unsigned {
        a < b
    } else {
        a.cast_signed() < b.cast_signed()
    }
}

#[inline(always)]
fn on_signed(op: BinaryOp, a: u32, b: u32) -> Result<u32, Cause>
    ensures { result ≡ c_binary false op a b }
{
    match op {
        BinaryOp::OrElse => Ok(truth(a != 0 || b != 0)),
        BinaryOp::AndAlso => Ok(truth(a != 0 && b != 0)),
        BinaryOp::BitOr => Ok(a | b),
        BinaryOp::BitXor => Ok(a ^ b),
        BinaryOp::BitAnd => Ok(a & b),
        BinaryOp::Equal => Ok(truth(a == b)),
        BinaryOp::NotEqual => Ok(truth(a != b)),
        BinaryOp::Less => Ok(truth(is_less(false, a, b))),
        BinaryOp::Greater => Ok(truth(is_less(false, b, a))),
        BinaryOp::LessEqual => Ok(truth(!is_less(false, b, a))),
        BinaryOp::GreaterEqual => Ok(truth(!is_less(false, a, b))),
        BinaryOp::ShiftLeft => or_cause(sc_word::shl_signed(a, b)),
        BinaryOp::ShiftRight => or_cause(sc_word::shr_signed(a, b)),
        BinaryOp::Add => or_cause(sc_word::add_signed(a, b)),
        BinaryOp::Sub => or_cause(sc_word::sub_signed(a, b)),
        BinaryOp::Mul => or_cause(sc_word::mul_signed(a, b)),
        BinaryOp::Div => or_cause(sc_word::div_signed(a, b)),
        BinaryOp::Rem => or_cause(sc_word::rem_signed(a, b)),
    }
}

#[inline(always)]
fn on_unsigned(op: BinaryOp, a: u32, b: u32) -> Result<u32, Cause>
    ensures { result ≡ c_binary true op a b }
{
    match op {
        BinaryOp::OrElse => Ok(truth(a != 0 || b != 0)),
        BinaryOp::AndAlso => Ok(truth(a != 0 && b != 0)),
        BinaryOp::BitOr => Ok(a | b),
        BinaryOp::BitXor => Ok(a ^ b),
        BinaryOp::BitAnd => Ok(a & b),
        BinaryOp::Equal => Ok(truth(a == b)),
        BinaryOp::NotEqual => Ok(truth(a != b)),
        BinaryOp::Less => Ok(truth(is_less(true, a, b))),
        BinaryOp::Greater => Ok(truth(is_less(true, b, a))),
        BinaryOp::LessEqual => Ok(truth(!is_less(true, b, a))),
        BinaryOp::GreaterEqual => Ok(truth(!is_less(true, a, b))),
        BinaryOp::ShiftLeft => or_cause(sc_word::shl_unsigned(a, b)),
        BinaryOp::ShiftRight => or_cause(sc_word::shr_unsigned(a, b)),
        BinaryOp::Add => Ok(sc_word::add(a, b)),
        BinaryOp::Sub => Ok(sc_word::sub(a, b)),
        BinaryOp::Mul => Ok(sc_word::mul(a, b)),
        BinaryOp::Div => or_cause(sc_word::div_unsigned(a, b)),
        BinaryOp::Rem => or_cause(sc_word::rem_unsigned(a, b)),
    }
}

/// An operator between two words, of which pointers are none.
#[inline(always)]
pub fn on_words(unsigned: bool, op: BinaryOp, left: Value, right: Value) -> Result<Value, Cause>
    ensures { result ≡ on_words c_arith unsigned op left right }
{
    let Value::Word(a) = left else {
        return Err(Cause::BadType);
    };
    let Value::Word(b) = right else {
        return Err(Cause::BadType);
    };
    let word = if unsigned {
        on_unsigned(op, a, b)?
    } else {
        on_signed(op, a, b)?
    };
    Ok(Value::Word(word))
}

#[inline(always)]
fn negated(unsigned: bool, a: u32) -> Result<u32, Cause>
    ensures { result ≡ c_negated unsigned a }
{
    if unsigned {
        Ok(sc_word::sub(0, a))
    } else {
        or_cause(sc_word::neg_signed(a))
    }
}

/// An operator before its operand.
#[inline(always)]
pub fn applied_one(unsigned: bool, op: UnaryOp, value: Value) -> Result<Value, Cause>
    ensures { result ≡ applied_one c_arith unsigned op value }
{
    match op {
        UnaryOp::Plus => Ok(value),
        UnaryOp::Not => Ok(of_bool(!is_true(value))),
        UnaryOp::Minus => minus(unsigned, value),
        UnaryOp::BitNot => bit_not(value),
    }
}

#[inline(always)]
fn minus(unsigned: bool, value: Value) -> Result<Value, Cause>
    ensures { result ≡ applied_one c_arith unsigned Minus value }
{
    let Value::Word(a) = value else {
        return Err(Cause::BadType);
    };
    Ok(Value::Word(negated(unsigned, a)?))
}

#[inline(always)]
fn bit_not(value: Value) -> Result<Value, Cause>
    ensures { result ≡ applied_one c_arith false BitNot value }
{
    let Value::Word(a) = value else {
        return Err(Cause::BadType);
    };
    Ok(Value::Word(u32::MAX - a))
}

/// Whether a condition holds: a word that is not 0, or a pointer that is not null.
#[inline(always)]
pub fn is_true(value: Value) -> bool
    ensures { result ≡ is_true value }
{
    match value {
        Value::Word(word) => word != 0,
        Value::Null => false,
        Value::Ptr(_) => true,
    }
}

/// `int` 1 or 0.
#[inline(always)]
pub fn of_bool(holds: bool) -> Value
    ensures { result ≡ of_bool holds }
{
    Value::Word(truth(holds))
}

/// The whole number that an index of this signedness stands for.
#[inline(always)]
pub fn number_of(unsigned: bool, word: u32) -> i64
    ensures { result ≡ number_of unsigned word }
{
    if unsigned {
        word as i64
    } else {
        word.cast_signed() as i64
    }
}
