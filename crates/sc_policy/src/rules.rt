ghost use Rattle.sc_policy.specs.Index.{places_of};
ghost use Rattle.sc_policy.specs.Limits.{most_rules};
ghost use Rattle.std.specs.Prelude.{◌≡◌, ◌≤◌, ◌↔◌, [], length, IsTrue};

use crate::Rule;
use crate::index::Index;
use sqlite_items::Items;
use std::alloc::Global;
use std::marker::Model;

/// The rules of a policy in order, at most 4096 of them. Contracts see the list.
#[derive(Drop)]
pub struct Rules {
    pub(crate) rules: Items<Rule>,
    pub(crate) index: Index,
}

impl Model for Rules {
    ghost use Rattle.sc_policy.specs.Index.{IsIndex};
    ghost use Rattle.sc_policy.specs.Limits.{most_rules};
    ghost use Rattle.std.specs.Prelude.{List, ◌≤◌, length};
    ghost use Rattle.sc_policy.specs.declared.policy.Rule.{Rule};

    ghost Value = { List Rule };

    ghost view = { λ list. list.rules };

    ghost invariant = { λ list. (length list.rules ≤ most_rules) × IsIndex list.rules list.index };
}

impl Rules {
    /// How many rules a policy has at most.
    pub const LIMIT: usize = 4096;

    /// No rules yet.
    pub fn new(alloc: Global) -> Rules
        ensures { result ≡ [] }
    {
        Rules {
            rules: Items::new(alloc),
            index: Index::new(alloc),
        }
    }

    /// Whether no rule can be added.
    pub fn is_full(&self) -> bool
        ensures { IsTrue result ↔ (most_rules ≤ length self.now) }
    {
        self.rules.len() >= Rules::LIMIT
    }

    /// The places of a state's rules, in order.
    pub fn of_state(&self, state: u16) -> &[u16]
        ensures { result.now ≡ places_of self.now state }
    {
        self.index.of_state(state)
    }

    /// The rules in order.
    pub fn as_slice(&self) -> &[Rule]
        ensures rules { result.now ≡ self.now }
        ensures within { length result.now ≤ most_rules }
    {
        self.rules.as_slice()
    }
}
