ghost use Rattle.std.specs.Prelude.{◌≡◌};
ghost use Rattle.sc_tac.specs.Places.{ArePlaces};

use sqlite_items::Items;
use std::marker::Model;

/// Where a temporary lies.
#[derive(Clone, Copy, Debug, PartialEq, Eq)]
pub enum Place {
    /// A register, by its number among those for temporaries.
    Register(u8),
    /// A spill slot of the frame, by its number.
    Slot(u32),
}

/// The place of each temporary of a function, in the order of their numbers.
#[derive(Drop)]
pub struct Places {
    list: Items<Place>,
}

impl Model for Places {
    ghost use Rattle.std.specs.Prelude.{List};
    ghost use Rattle.sc_tac.specs.declared.place.Place.{Place};
    ghost use Rattle.sc_tac.specs.Places.{ArePlaces};

    ghost Value = { List Place };

    ghost view = { λ places. places.list };

    ghost invariant = { λ places. ArePlaces places.list };
}

impl Places {
    /// The places in this list.
    pub fn new(list: Items<Place>) -> Places
        requires { ArePlaces list }
        ensures { result ≡ list }
    {
        Places { list }
    }

    /// Each place, at the number of its temporary.
    pub fn as_slice(&self) -> &[Place]
        ensures list { result.now ≡ self.now }
        ensures rules { ArePlaces self.now }
    {
        self.list.as_slice()
    }
}
