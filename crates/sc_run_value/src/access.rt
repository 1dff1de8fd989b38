//! Loads and stores of values (C11 6.3.2.1, 6.5.16).

ghost use Rattle.sc_run_value.specs.Prelude.{cause_of, cell_of, free_cell, load, memory_of, store, typed, with_blocks};
ghost use Rattle.std.specs.Prelude.{◌≡◌, Ok, Err, OnErr, MatchResult};

use sc_blocks::{BlockFault, Blocks};
use sc_core::{Cause, Cell, Value};
use sc_event::CompId;

pub fn cause_of(fault: BlockFault) -> Cause
    ensures { result ≡ cause_of fault }
{
    match fault {
        BlockFault::OutOfBounds => Cause::OutOfBounds,
        BlockFault::Dangling => Cause::Dangling,
        BlockFault::NullUse => Cause::NullUse,
        BlockFault::Indeterminate => Cause::Indeterminate,
    }
}

/// The cell that holds a value.
#[inline(always)]
pub fn cell_of(value: Value) -> Cell
    ensures { result ≡ cell_of value }
{
    match value {
        Value::Word(word) => Cell::Word(word),
        Value::Null => Cell::Null,
        Value::Ptr(place) => Cell::Ptr(place),
    }
}

// The value of a cell where a pointer, or else an integer, is wanted.
fn typed(pointer: bool, cell: Cell) -> Result<Value, Cause>
    ensures { result ≡ typed pointer cell }
{
    match cell {
        Cell::Undef => Err(Cause::Indeterminate),
        Cell::Word(word) => {
            if pointer {
                Err(Cause::BadType)
            } else {
                Ok(Value::Word(word))
            }
        }
        Cell::Null => {
            if pointer {
                Ok(Value::Null)
            } else {
                Err(Cause::BadType)
            }
        }
        Cell::Ptr(place) => {
            if pointer {
                Ok(Value::Ptr(place))
            } else {
                Err(Cause::BadType)
            }
        }
    }
}

/// What is at a place of the compartment, where a pointer, or else an integer, is wanted.
#[tactic(auto, using(crate::proofs::Loads::load_typed))]
pub fn load(blocks: &Blocks, comp: CompId, pointer: bool, place: Value) -> Result<Value, Cause>
    ensures { result ≡ load (memory_of blocks.now comp) pointer place }
{
    match place {
        Value::Word(_) => Err(Cause::BadType),
        Value::Null => Err(Cause::NullUse),
        Value::Ptr(place) => match blocks.load(comp, Cell::Ptr(place)) {
            Ok(cell) => typed(pointer, cell),
            Err(fault) => Err(cause_of(fault)),
        },
    }
}

/// Puts a value at a place of the compartment, and changes nothing else.
#[inline(always)]
pub fn store(blocks: &mut Blocks, comp: CompId, place: Value, value: Value) -> Result<(), Cause>
    ensures value { MatchResult result
        (λ _. store (memory_of blocks.old comp) place value ≡ Ok (memory_of blocks.new comp))
        (λ cause. store (memory_of blocks.old comp) place value ≡ Err cause) }
    ensures others { memory_of blocks.new ≡ with_blocks comp (memory_of blocks.new comp) (memory_of blocks.old) }
    ensures err { OnErr result (memory_of blocks.new ≡ memory_of blocks.old) }
{
    match place {
        Value::Word(_) => Err(Cause::BadType),
        Value::Null => Err(Cause::NullUse),
        Value::Ptr(place) => match blocks.store(comp, Cell::Ptr(place), cell_of(value)) {
            Ok(()) => Ok(()),
            Err(fault) => Err(cause_of(fault)),
        },
    }
}

/// Frees what a pointer is to (C11 7.22.3.3), and changes nothing else.
pub fn free(blocks: &mut Blocks, comp: CompId, pointer: Value) -> Result<(), Cause>
    ensures value { MatchResult result
        (λ _. free_cell (memory_of blocks.old comp) (cell_of pointer) ≡ Ok (memory_of blocks.new comp))
        (λ cause. free_cell (memory_of blocks.old comp) (cell_of pointer) ≡ Err cause) }
    ensures others { memory_of blocks.new ≡ with_blocks comp (memory_of blocks.new comp) (memory_of blocks.old) }
    ensures err { OnErr result (memory_of blocks.new ≡ memory_of blocks.old) }
{
    if let Value::Word(_) = pointer {
        return Err(Cause::BadType);
    }
    match blocks.free(comp, cell_of(pointer)) {
        Ok(()) => Ok(()),
        Err(_) => Err(Cause::BadFree),
    }
}
