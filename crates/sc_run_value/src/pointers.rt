//! Operators between two pointers (C11 6.5.6p9, 6.5.8p5, 6.5.9p6).

ghost use Rattle.sc_run_value.specs.Prelude.{Ptr, apart, between, bind, in_elements, is_inside, memory_of, of_bool};
ghost use Rattle.sc_run_value.specs.Prelude.{ordered, same_place};
ghost use Rattle.sc_word.specs.Prelude.{word_of};
ghost use Rattle.std.specs.Prelude.{◌≡◌, ◌<◌, ◌^◌, pos, negsuc, ◌≤ℤ◌, ◌<ℤ◌, IfOk, Ok};

use crate::moves::count_at;
use crate::words::of_bool;
use sc_base::BinaryOp;
use sc_blocks::Blocks;
use sc_core::{Cause, Pointer, Value};
use sc_event::CompId;

// How far the first of two places lies after the second, in cells.
fn apart(left: Value, right: Value) -> Result<i64, Cause>
    ensures apart { result ≡ apart left right }
    ensures short { IfOk result (λ by. (negsuc 4294967295 ≤ℤ by) × (by ≤ℤ pos 4294967295)) }
{
    let Value::Ptr(p) = left else {
        return Err(Cause::NullUse);
    };
    let Value::Ptr(q) = right else {
        return Err(Cause::NullUse);
    };
    if p.block != q.block {
        return Err(Cause::BadPointer);
    }
    Ok(p.index as i64 - q.index as i64)
}

fn word_of(z: i64) -> u32
    requires low { negsuc 4294967295 ≤ℤ z }
    requires high { z ≤ℤ pos 4294967295 }
    ensures { result ≡ word_of z }
{
    if z >= 0 {
        z as u32
    } else {
        (z + 4_294_967_296) as u32
    }
}

// `by` cells as a whole number of elements of `cells` cells.
fn in_elements(cells: u32, by: i64) -> Result<Value, Cause>
    requires low { negsuc 4294967295 ≤ℤ by }
    requires high { by ≤ℤ pos 4294967295 }
    ensures { result ≡ in_elements cells by }
{
    if cells == 0 {
        return if by == 0 {
            Ok(Value::Word(0))
        } else {
            Err(Cause::BadPointer)
        };
    }
    let size = cells as i64;
    if by % size != 0 {
        return Err(Cause::BadPointer);
    }
    Ok(Value::Word(word_of(by / size)))
}

fn ordered(op: BinaryOp, by: i64) -> bool
    ensures { result ≡ ordered op by }
{
    match op {
        BinaryOp::Less => by < 0,
        BinaryOp::Greater => 0 < by,
        BinaryOp::LessEqual => by <= 0,
        _ => by >= 0,
    }
}

fn is_inside(blocks: &Blocks, comp: CompId, place: Pointer) -> Result<bool, Cause>
    ensures { result ≡ is_inside (memory_of blocks.now comp) place }
{
    match count_at(blocks, comp, place.block) {
        Ok(count) => Ok(place.index < count),
        Err(cause) => Err(cause),
    }
}

// Whether two places are one; in two blocks both must be strictly inside.
fn same_pointer(blocks: &Blocks, comp: CompId, p: Pointer, q: Pointer) -> Result<bool, Cause>
    ensures { result ≡ same_place (memory_of blocks.now comp) (Ptr p) (Ptr q) }
{
    if p.block == q.block {
        return Ok(p.index == q.index);
    }
    let first = is_inside(blocks, comp, p)?;
    let second = is_inside(blocks, comp, q)?;
    if first && second {
        Ok(false)
    } else {
        Err(Cause::BadPointer)
    }
}

fn same_place(blocks: &Blocks, comp: CompId, left: Value, right: Value) -> Result<bool, Cause>
    ensures { result ≡ same_place (memory_of blocks.now comp) left right }
{
    match left {
        Value::Word(_) => Ok(false),
        Value::Null => match right {
            Value::Null => Ok(true),
            Value::Word(_) => Ok(false),
            Value::Ptr(_) => Ok(false),
        },
        Value::Ptr(p) => match right {
            Value::Ptr(q) => same_pointer(blocks, comp, p, q),
            Value::Word(_) => Ok(false),
            Value::Null => Ok(false),
        },
    }
}

fn in_order(op: BinaryOp, left: Value, right: Value) -> Result<Value, Cause>
    ensures { result ≡ bind (apart left right) (λ by. Ok (of_bool (ordered op by))) }
{
    let by = apart(left, right)?;
    Ok(of_bool(ordered(op, by)))
}

fn subtracted(cells: u32, left: Value, right: Value) -> Result<Value, Cause>
    ensures { result ≡ bind (apart left right) (in_elements cells) }
{
    let by = apart(left, right)?;
    in_elements(cells, by)
}

/// An operator between two pointers to elements of `cells` cells.
pub fn between(
    blocks: &Blocks,
    comp: CompId,
    op: BinaryOp,
    cells: u32,
    left: Value,
    right: Value,
) -> Result<Value, Cause>
    ensures { result ≡ between (memory_of blocks.now comp) op cells left right }
{
    match op {
        BinaryOp::Sub => subtracted(cells, left, right),
        BinaryOp::Equal => Ok(of_bool(same_place(blocks, comp, left, right)?)),
        BinaryOp::NotEqual => Ok(of_bool(!same_place(blocks, comp, left, right)?)),
        _ => in_order(op, left, right),
    }
}
