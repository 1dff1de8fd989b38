ghost use Rattle.std.specs.Prelude.{◌≡◌, [], OnOk};
ghost use Rattle.std.specs.Option.{option_copied};
ghost use Rattle.sc_base.specs.FirstByName.{first_by_name, with_first};

use crate::{Name, OutOfMemory};
use indexmap::IndexMap;
use std::alloc::Global;
use std::marker::Model;

/// Names with a value each, the one with which the name came first. A look-up takes as long as one in a hash map.
/// Contracts see the list of pairs.
#[derive(Drop)]
pub struct FirstByName<V> {
    values: IndexMap<Name, V>,
}

impl<V> Model for FirstByName<V> {
    ghost use Rattle.std.specs.Prelude.{List, ℕ};

    ghost Value = { List (List ℕ × V) };

    ghost view = { λ firsts. firsts.values.entries };
}

impl<V: Drop> FirstByName<V> {
    /// No names yet.
    pub fn new(alloc: Global) -> FirstByName<V>
        ensures { result ≡ [] }
    {
        FirstByName {
            values: IndexMap::new(alloc),
        }
    }

    /// The name comes with this value, which it keeps if it hasn't come before.
    #[tactic(auto, using(crate::proofs::Firsts::firsts))]
    pub fn insert(&mut self, name: Name, value: V) -> Result<(), OutOfMemory>
        ensures { OnOk result (self.new ≡ with_first self.old name value) }
    {
        if self.get(&name).is_none() {
            self.values.insert(name, value)?;
        }
        Ok(())
    }

    /// The value with which a name came first.
    pub fn get(&self, name: &Name) -> Option<&V>
        ensures { option_copied result ≡ first_by_name self.now name.now }
    {
        self.values.get(name)
    }
}
