//! Operators on pointers (C11 6.5.6, 6.5.8, 6.5.9).
use crate::memory::Memory;
use crate::words::truth;
use sc_base::BinaryOp;
use sc_core::{Cause, Pointer, Value};

/// The place `by` cells after another, of the same variable or one past its end.
pub(crate) fn moved(memory: &Memory, place: Value, by: i64) -> Result<Value, Cause> {
    let pointer = match place {
        Value::Word(_) => return Err(Cause::BadType),
        Value::Null => return Err(Cause::NullUse),
        Value::Ptr(pointer) => pointer,
    };
    let cells = memory.cells_after(pointer)?;
    let index = (pointer.index as i64)
        .checked_add(by)
        .ok_or(Cause::OutOfBounds)?;
    let index = u32::try_from(index).map_err(|_| Cause::OutOfBounds)?;
    if index as usize > cells {
        return Err(Cause::OutOfBounds);
    }
    Ok(Value::Ptr(Pointer {
        block: pointer.block,
        index,
    }))
}

/// The whole number that an index stands for.
pub(crate) fn number_of(unsigned: bool, word: u32) -> i64 {
    if unsigned {
        word as i64
    } else {
        word.cast_signed() as i64
    }
}

/// The place `elements` elements of `cells` cells after another.
pub(crate) fn moved_on(
    memory: &Memory,
    place: Value,
    cells: u32,
    elements: i64,
) -> Result<Value, Cause> {
    let by = (cells as i64)
        .checked_mul(elements)
        .ok_or(Cause::OutOfBounds)?;
    moved(memory, place, by)
}

// How far the first place lies after the second, in cells.
fn apart(left: Value, right: Value) -> Result<i64, Cause> {
    match (left, right) {
        (Value::Ptr(p), Value::Ptr(q)) => {
            if p.block == q.block {
                Ok((p.index as i64).wrapping_sub(q.index as i64))
            } else {
                Err(Cause::BadPointer)
            }
        }
        _ => Err(Cause::NullUse),
    }
}

fn is_inside(memory: &Memory, pointer: Pointer) -> Result<bool, Cause> {
    Ok((pointer.index as usize) < memory.cells_after(pointer)?)
}

fn is_same(memory: &Memory, left: Value, right: Value) -> Result<bool, Cause> {
    match (left, right) {
        (Value::Null, Value::Null) => Ok(true),
        (Value::Ptr(p), Value::Ptr(q)) if p.block == q.block => Ok(p.index == q.index),
        (Value::Ptr(p), Value::Ptr(q)) => {
            let first = is_inside(memory, p)?;
            let second = is_inside(memory, q)?;
            if first && second {
                Ok(false)
            } else {
                Err(Cause::BadPointer)
            }
        }
        _ => Ok(false),
    }
}

// A distance in cells as a number of elements of `cells` cells.
fn in_elements(cells: u32, by: i64) -> Result<Value, Cause> {
    let rest = by.checked_rem(cells as i64).ok_or(Cause::BadPointer)?;
    if rest != 0 {
        return Err(Cause::BadPointer);
    }
    let elements = by.checked_div(cells as i64).ok_or(Cause::BadPointer)?;
    let number = i32::try_from(elements).map_err(|_| Cause::BadPointer)?;
    Ok(Value::Word(number.cast_unsigned()))
}

/// An operator between two pointers to elements of `cells` cells.
pub(crate) fn between(
    memory: &Memory,
    op: BinaryOp,
    cells: u32,
    left: Value,
    right: Value,
) -> Result<Value, Cause> {
    match op {
        BinaryOp::Sub => in_elements(cells, apart(left, right)?),
        BinaryOp::Equal => Ok(truth(is_same(memory, left, right)?)),
        BinaryOp::NotEqual => Ok(truth(!is_same(memory, left, right)?)),
        BinaryOp::Less => Ok(truth(apart(left, right)? < 0)),
        BinaryOp::Greater => Ok(truth(apart(left, right)? > 0)),
        BinaryOp::LessEqual => Ok(truth(apart(left, right)? <= 0)),
        _ => Ok(truth(apart(left, right)? >= 0)),
    }
}
