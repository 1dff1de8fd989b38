ghost use Rattle.sc_policy.specs.Index.{with_place};
ghost use Rattle.std.specs.Prelude.{◌≡◌, ◌<◌, ◌^◌, ℕ, [], length, slice_index_or, OnOk};

use sc_base::OutOfMemory;
use sqlite_items::Items;
use std::alloc::Global;
use std::marker::Model;

/// For each state the places of its rules, so that they are found without a walk over all rules. Contracts see the
/// lists; a state without one has no rules.
#[derive(Drop)]
pub(crate) struct Index {
    places: Vec<Items<u16>>,
}

impl Model for Index {
    ghost use Rattle.std.specs.Prelude.{List, ℕ};

    ghost Value = { List (List ℕ) };

    ghost view = { λ index. index.places.items };
}

impl Index {
    /// No rules.
    pub(crate) fn new(alloc: Global) -> Index
        ensures { result ≡ [] }
    {
        Index {
            places: Vec::new(alloc),
        }
    }

    /// The places of the rules of a state.
    pub(crate) fn of_state(&self, state: u16) -> &[u16]
        ensures { result.now ≡ slice_index_or self.now state [] }
    {
        match self.places.get(usize::from(state)) {
            Some(places) => places.as_slice(),
            None => &[],
        }
    }

    /// Adds the place of one more rule of a state after the others.
    #[tactic(auto, using(crate::proofs::Indexes::placed))]
    pub(crate) fn push(&mut self, alloc: Global, state: u16, place: u16) -> Result<(), OutOfMemory>
        ensures { OnOk result ((other : ℕ) → slice_index_or self.new other [] ≡ with_place self.old state place other) }
    {
        let state = usize::from(state);
        self.extend(alloc, state)?;
        self.places[state].push(place)?;
        Ok(())
    }

    // Makes sure that there is a list for the state.
    #[tactic(auto, using(crate::proofs::Indexes::none_more))]
    fn extend(&mut self, alloc: Global, state: usize) -> Result<(), OutOfMemory>
        requires { state < 2 ^ 16 }
        ensures same { OnOk result ((other : ℕ) → slice_index_or self.new other [] ≡ slice_index_or self.old other []) }
        ensures there { OnOk result (state < length self.new) }
    {
        while self.places.len() <= state {
            self.places.push(Items::new(alloc))?;
        }
        Ok(())
    }
}
