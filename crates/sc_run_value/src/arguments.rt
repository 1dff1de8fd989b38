ghost use Rattle.sc_run_value.specs.Prelude.{c_arith, here_of, memory_of, values, ways};
ghost use Rattle.std.specs.Prelude.{◌≡◌, ◌≤◌, [], ◌∷◌, ◌++◌, IsTrue, Ok, OnOk, length, map, take};

use crate::Scope;
use crate::expressions::value_at_once;
use sc_blocks::Blocks;
use sc_core::{TypedExpr, Value};
use smallvec::SmallVec;
use std::alloc::{AllocError, Global};
use std::marker::Model;

/// The values of a call's arguments. Up to 8 take no memory of their own. Contracts see the list.
#[derive(Drop)]
pub struct Arguments {
    kept: SmallVec<Value, 8>,
}

impl Model for Arguments {
    ghost use Rattle.std.specs.Prelude.{List};
    ghost use Rattle.sc_core.specs.declared.value.Value.{Value as OneValue};

    ghost Value = { List OneValue };

    ghost view = { λ arguments. arguments.kept.items };
}

impl Arguments {
    pub fn new(alloc: Global) -> Arguments
        ensures { result ≡ [] }
    {
        Arguments {
            kept: SmallVec::new(alloc),
        }
    }

    /// One more value.
    pub fn push(&mut self, value: Value) -> Result<(), AllocError>
        ensures { OnOk result (self.new ≡ self.old ++ value ∷ []) }
    {
        self.kept.push(value)?;
        Ok(())
    }

    /// The values in order.
    pub fn as_slice(&self) -> &[Value]
        ensures { result.now ≡ self.now }
    {
        self.kept.as_slice()
    }
}

/// Evaluates arguments into the first places of `found`, where it has room and each value is found at once.
pub fn are_found(blocks: &Blocks, scope: &Scope, exprs: &[TypedExpr], found: &mut [Value]) -> bool
    ensures room { IsTrue result → length exprs.now ≤ length found.old }
    ensures many { length found.new ≡ length found.old }
    ensures values { IsTrue result → values (map
        (ways c_arith scope.now.structs.now (here_of scope.now) scope.now.params) exprs.now)
        (memory_of blocks.now scope.now.comp.now) ≡ Ok (take (length exprs.now) found.new) }
{
    if exprs.len() > found.len() {
        return false;
    }
    for at in 0..exprs.len() {
        match value_at_once(blocks, scope, &exprs[at]) {
            Some(value) => found[at] = value,
            None => return false,
        }
    }
    true
}
