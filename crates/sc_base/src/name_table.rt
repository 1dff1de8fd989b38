ghost use Rattle.std.specs.Prelude.{◌≡◌, [], ◌<◌, length, IfOk, OnOk, OnErr};
ghost use Rattle.sc_base.specs.Numbering.{is_numbered, number_by_name, next_number, numbered, HasOneNumberEach};

use crate::{Name, OutOfMemory};
use indexmap::IndexSet;
use std::alloc::Global;
use std::marker::Model;

/// Names with numbers from 0 on, in the order in which they came. A look-up takes as long as one in a hash map.
/// Contracts see the list of the names.
#[derive(Drop)]
pub struct NameTable {
    names: IndexSet<Name>,
}

impl Model for NameTable {
    ghost use Rattle.std.specs.Prelude.{List, ℕ, ◌≤◌, length};
    ghost use Rattle.sc_base.specs.Numbering.{HasOneNumberEach};

    ghost Value = { List (List ℕ) };

    ghost view = { λ table. table.names.keys };

    ghost invariant = { λ table. HasOneNumberEach table.names.keys × (length table.names.keys ≤ 4294967295) };
}

impl NameTable {
    /// No names yet.
    pub fn new(alloc: Global) -> NameTable
        ensures { result ≡ [] }
    {
        NameTable {
            names: IndexSet::new(alloc),
        }
    }

    /// Adds a name and answers its number, `None` where it was there.
    pub fn insert(&mut self, name: Name) -> Result<Option<u32>, OutOfMemory>
        requires { length self.old < 4294967295 }
        ensures number { IfOk result (λ number. number ≡ next_number self.old name) }
        ensures added { OnOk result (self.new ≡ numbered self.old name) }
        ensures err { OnErr result (self.new ≡ self.old) }
    {
        let number = self.names.len() as u32;
        let is_new = self.names.insert(name)?;
        Ok(if is_new { Some(number) } else { None })
    }

    /// Adds a name, unless it is there. There is no memory for more than 4294967295 names.
    pub fn add(&mut self, name: Name) -> Result<(), OutOfMemory>
        ensures { OnOk result (self.new ≡ numbered self.old name) }
    {
        if self.len() >= 4_294_967_295 {
            return Err(OutOfMemory);
        }
        self.insert(name)?;
        Ok(())
    }

    /// The number of a name, `None` where it isn't there.
    pub fn number_of(&self, name: &Name) -> Option<u32>
        ensures number { result ≡ number_by_name self.now name.now }
        ensures once { HasOneNumberEach self.now }
    {
        let number = self.names.get_index_of(name)?;
        Some(number as u32)
    }

    /// How many names there are.
    pub fn len(&self) -> usize
        ensures { result ≡ length self.now }
    {
        self.names.len()
    }

    /// Whether a name is there.
    pub fn contains(&self, name: &Name) -> bool
        ensures { result ≡ is_numbered self.now name.now }
    {
        self.names.contains(name)
    }
}
