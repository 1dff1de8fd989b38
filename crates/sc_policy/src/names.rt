ghost use Rattle.sc_policy.specs.Limits.{most_states};
ghost use Rattle.std.specs.Prelude.{◌≡◌, ◌≤◌, ◌<◌, ◌↔◌, [], ◌∷◌, ◌++◌, length, IfOk, OnOk, OnErr, IsTrue};

use sc_base::{Name, OutOfMemory};
use sqlite_items::Items;
use std::alloc::Global;
use std::marker::Model;

/// The names of a policy's states in order, 1 to 256 of them. Contracts see the list.
#[derive(Drop)]
pub struct Names {
    names: Items<Name>,
}

impl Model for Names {
    ghost use Rattle.sc_policy.specs.Limits.{most_states};
    ghost use Rattle.std.specs.Prelude.{List, ℕ, ◌≤◌, length};

    ghost Value = { List (List ℕ) };

    ghost view = { λ list. list.names };

    ghost invariant = { λ list. (1 ≤ length list.names) × (length list.names ≤ most_states) };
}

impl Names {
    /// How many states a policy has at most.
    pub const LIMIT: usize = 256;

    /// Only this name.
    pub fn of(alloc: Global, name: Name) -> Result<Names, OutOfMemory>
        ensures { IfOk result (λ names. names ≡ name ∷ []) }
    {
        let mut names = Items::new(alloc);
        names.push(name)?;
        Ok(Names { names })
    }

    /// Whether no name can be added.
    pub fn is_full(&self) -> bool
        ensures { IsTrue result ↔ (most_states ≤ length self.now) }
    {
        self.names.len() >= Names::LIMIT
    }

    /// Adds a name after the others.
    pub fn push(&mut self, name: Name) -> Result<(), OutOfMemory>
        requires { length self.old < most_states }
        ensures ok { OnOk result (self.new ≡ self.old ++ name ∷ []) }
        ensures err { OnErr result (self.new ≡ self.old) }
    {
        self.names.push(name)?;
        Ok(())
    }

    /// The names in order.
    pub fn as_slice(&self) -> &[Name]
        ensures names { result.now ≡ self.now }
        ensures within { (1 ≤ length result.now) × (length result.now ≤ most_states) }
    {
        self.names.as_slice()
    }
}
