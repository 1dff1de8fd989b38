//! Places some cells after others (C11 6.5.2.1, 6.5.6p8).

ghost use Rattle.sc_run_value.specs.Prelude.{count_at, memory_of, moved, moved_back, moved_on, number_of, place_at};
ghost use Rattle.std.specs.Prelude.{◌≡◌, ◌+◌, ◌<◌, ◌^◌, pos, negsuc, ◌+ℤ◌, ◌*ℤ◌, ◌≤ℤ◌, ◌<ℤ◌, neg_ℤ};

use crate::words::number_of;
use sc_blocks::Blocks;
use sc_core::{Cause, Pointer, Value};
use sc_event::CompId;

/// How many cells a variable that lives has.
pub fn count_at(blocks: &Blocks, comp: CompId, block: u64) -> Result<u32, Cause>
    ensures { result ≡ count_at (memory_of blocks.now comp) block }
{
    blocks.live(comp, block).ok_or(Cause::Dangling)
}

fn place_at(block: u64, at: i64, cells: u32) -> Result<Value, Cause>
    ensures { result ≡ place_at block at cells }
{
    if at < 0 || at > cells as i64 {
        return Err(Cause::OutOfBounds);
    }
    Ok(Value::Ptr(Pointer {
        block,
        index: at as u32,
    }))
}

// The place `times` times `cells` cells after this one, in a block of `count` cells.
fn placed(place: Pointer, cells: u32, times: i64, count: u32) -> Result<Value, Cause>
    ensures { result ≡ place_at place.block (pos place.index +ℤ (pos cells *ℤ times)) count }
{
    let Some(by) = (cells as i64).checked_mul(times) else {
        return Err(Cause::OutOfBounds);
    };
    let Some(at) = (place.index as i64).checked_add(by) else {
        return Err(Cause::OutOfBounds);
    };
    place_at(place.block, at, count)
}

/// The place `times` times `cells` cells after another.
pub fn moved(
    blocks: &Blocks,
    comp: CompId,
    cells: u32,
    times: i64,
    place: Value,
) -> Result<Value, Cause>
    ensures { result ≡ moved (memory_of blocks.now comp) (pos cells *ℤ times) place }
{
    match place {
        Value::Word(_) => Err(Cause::BadType),
        Value::Null => Err(Cause::NullUse),
        Value::Ptr(place) => match count_at(blocks, comp, place.block) {
            Ok(count) => placed(place, cells, times, count),
            Err(cause) => Err(cause),
        },
    }
}

/// The place `index` elements after another; an element has `cells` cells.
pub fn moved_on(
    blocks: &Blocks,
    comp: CompId,
    cells: u32,
    unsigned: bool,
    place: Value,
    index: Value,
) -> Result<Value, Cause>
    ensures { result ≡ moved_on (memory_of blocks.now comp) cells unsigned place index }
{
    let Value::Word(word) = index else {
        return Err(Cause::BadType);
    };
    moved(blocks, comp, cells, number_of(unsigned, word), place)
}

// The whole number of an index, turned round.
fn back_by(unsigned: bool, word: u32) -> i64
    ensures number { result ≡ neg_ℤ (number_of unsigned word) }
    ensures low { negsuc 4294967295 ≤ℤ result }
    ensures high { result ≤ℤ pos 4294967295 }
{
    if unsigned {
        -(word as i64)
    } else {
        -(word.cast_signed() as i64)
    }
}

/// The place `index` elements before another; an element has `cells` cells.
pub fn moved_back(
    blocks: &Blocks,
    comp: CompId,
    cells: u32,
    unsigned: bool,
    place: Value,
    index: Value,
) -> Result<Value, Cause>
    ensures { result ≡ moved_back (memory_of blocks.now comp) cells unsigned place index }
{
    let Value::Word(word) = index else {
        return Err(Cause::BadType);
    };
    moved(blocks, comp, cells, back_by(unsigned, word), place)
}

/// The place `offset` cells after another.
#[tactic(auto, using(crate::proofs::Shifts::by_one))]
pub fn offset_by(blocks: &Blocks, comp: CompId, offset: u32, place: Value) -> Result<Value, Cause>
    ensures { result ≡ moved (memory_of blocks.now comp) (pos offset) place }
{
    moved(blocks, comp, offset, 1, place)
}
