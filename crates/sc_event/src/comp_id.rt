ghost use Rattle.sc_base.specs.Prelude.{most_compartments};
ghost use Rattle.std.specs.Prelude.{◌≡◌, ◌<◌, IsSome, IfSome, ◌↔◌};

use sqlite_items::Items;
use std::marker::Model;

/// Compartments in the order of their numbers. Contracts see the list of the numbers.
pub type CompIds = Items<CompId>;

/// The number of a compartment, 0 to 31, in the order of the sections. Contracts see the number.
#[derive(Clone, Copy, Debug, PartialEq, Eq)]
pub struct CompId(u8);

impl Model for CompId {
    ghost use Rattle.sc_base.specs.Prelude.{most_compartments};
    ghost use Rattle.std.specs.Prelude.{ℕ, ◌<◌};

    ghost Value = { ℕ };

    ghost view = { λ c. c.0 };

    ghost invariant = { λ c. c.0 < most_compartments };

    ghost inverse = { λ n. record { 0 = n } };
}

impl CompId {
    /// How many compartments a program has at most.
    pub const LIMIT: u8 = 32;

    /// The first compartment, which every program has.
    pub fn first() -> CompId
        ensures { result ≡ 0 }
    {
        CompId(0)
    }

    /// The compartment of this number, `None` from 32 on.
    pub fn new(number: u8) -> Option<CompId>
        ensures within { IsSome result ↔ (number < most_compartments) }
        ensures number { IfSome result (λ comp. comp ≡ number) }
    {
        if number < CompId::LIMIT {
            Some(CompId(number))
        } else {
            None
        }
    }

    /// The number, which is below 32.
    pub fn number(self) -> u8
        ensures number { result ≡ self }
        ensures within { result < most_compartments }
    {
        self.0
    }
}
