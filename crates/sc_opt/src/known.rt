//! The constants that temporaries hold wherever they are assigned.

ghost use Rattle.sc_opt.specs.Prelude.{assigned_at, constant_at, constant_by, folded, known_constant};
ghost use Rattle.std.specs.Prelude.{◌≡◌, map, IfOk};
ghost use Rattle.std.specs.List.{range_with_len};

use crate::constants::on_constants;
use crate::facts::{Assigned, FactTable};
use crate::sources::facts_at;
use sc_base::OutOfMemory;
use sc_tac::{Constant, TacOp};
use sqlite_items::Items;
use std::alloc::Global;

/// Of each temporary below some number the constant that it holds, where one is known.
pub type Constants = Items<Option<Constant>>;

fn constant_at(constants: &Constants, temp: u32) -> Option<Constant>
    ensures { result ≡ constant_at constants.now temp }
{
    match constants.get(temp as usize) {
        Some(constant) => *constant,
        None => None,
    }
}

/// What an operator gives where the constants of its operands are known.
pub fn folded(constants: &Constants, op: TacOp, left: u32, right: Option<u32>) -> Option<Constant>
    ensures { result ≡ folded (constant_at constants.now) op left right }
{
    let first = constant_at(constants, left)?;
    match right {
        None => on_constants(op, first, first),
        Some(right) => {
            let second = constant_at(constants, right)?;
            on_constants(op, first, second)
        }
    }
}

// What a temporary holds that is assigned so.
fn constant_by(constants: &Constants, assigned: Assigned) -> Option<Constant>
    ensures { result ≡ constant_by (constant_at constants.now) assigned }
{
    match assigned {
        Assigned::ByConstant(value) => Some(value),
        Assigned::ByOperator { op, left, right } => folded(constants, op, left, right),
        _ => None,
    }
}

/// Of each temporary below a number, by those of lower numbers.
pub fn known_constants(
    alloc: Global,
    temps: u32,
    facts: &FactTable,
) -> Result<Constants, OutOfMemory>
    ensures { IfOk result (λ constants.
        constants ≡ map (known_constant (assigned_at facts.now)) (range_with_len 0 temps)) }
{
    let mut constants = Constants::from_vec(Vec::with_capacity(alloc, temps as usize)?);
    for temp in 0..temps {
        let constant = constant_by(&constants, facts_at(facts, temp).assigned);
        constants.push(constant)?;
    }
    Ok(constants)
}
