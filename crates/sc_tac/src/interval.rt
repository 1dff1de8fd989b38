ghost use Rattle.std.specs.Prelude.{◌≡◌};
ghost use Rattle.sc_tac.specs.Intervals.{AreIntervals};

use sqlite_items::Items;
use std::marker::Model;

/// The live interval of a temporary: from one point of its function's code to another, both counted from the beginning.
#[derive(Clone, Copy, Debug, PartialEq, Eq)]
pub struct Interval {
    pub temp: u32,
    pub first: u32,
    pub last: u32,
    /// Whether a function is called at a point of it.
    pub spans_call: bool,
}

/// The intervals of a function's temporaries, in the order of their numbers.
#[derive(Drop)]
pub struct Intervals {
    list: Items<Interval>,
}

impl Model for Intervals {
    ghost use Rattle.std.specs.Prelude.{List};
    ghost use Rattle.sc_tac.specs.declared.interval.Interval.{Interval};
    ghost use Rattle.sc_tac.specs.Intervals.{AreIntervals};

    ghost Value = { List Interval };

    ghost view = { λ intervals. intervals.list };

    ghost invariant = { λ intervals. AreIntervals intervals.list };
}

impl Intervals {
    /// The intervals in this list.
    pub fn new(list: Items<Interval>) -> Intervals
        requires { AreIntervals list }
        ensures { result ≡ list }
    {
        Intervals { list }
    }

    /// Each interval, at the number of its temporary.
    pub fn as_slice(&self) -> &[Interval]
        ensures list { result.now ≡ self.now }
        ensures rules { AreIntervals self.now }
    {
        self.list.as_slice()
    }
}
