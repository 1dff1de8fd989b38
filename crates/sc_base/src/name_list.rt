ghost use Rattle.std.specs.Prelude.{◌≡◌, ℕ, List, [], ◌∷◌, ◌++◌, length, OnOk, OnErr};
ghost use Rattle.sc_base.specs.Numbering.{is_numbered, number_by_name};
ghost use Rattle.sc_base.specs.Places.{HasPlaces};

use crate::{Name, OutOfMemory};
use indexmap::IndexMap;
use std::alloc::Global;
use std::marker::Model;

/// Names in order, of which some may stand there more than once. A look-up takes as long as one in a hash map.
/// Contracts see the list of the names.
#[derive(Drop)]
pub struct NameList {
    names: Vec<Name>,
    // The first place of each name.
    places: IndexMap<Name, u32>,
}

impl Model for NameList {
    ghost use Rattle.std.specs.Prelude.{List, ℕ};
    ghost use Rattle.sc_base.specs.Places.{HasPlaces};

    ghost Value = { List (List ℕ) };

    ghost view = { λ list. list.names.items };

    ghost invariant = { λ list. HasPlaces list.names.items list.places };
}

impl NameList {
    /// No names yet.
    pub fn new(alloc: Global) -> NameList
        ensures { result ≡ [] }
    {
        NameList {
            names: Vec::new(alloc),
            places: IndexMap::new(alloc),
        }
    }

    /// Adds a name after the others. A list of 4294967296 names takes no more.
    pub fn push(&mut self, name: Name) -> Result<(), OutOfMemory>
        ensures ok { OnOk result (self.new ≡ self.old ++ name ∷ []) }
        ensures err { OnErr result (self.new ≡ self.old) }
    {
        let count = self.names.len();
        let Ok(place) = u32::try_from(count) else {
            return Err(OutOfMemory);
        };
        self.names.push(name)?;
        if let Err(error) = note_place(&mut self.places, name, place) {
            self.names.truncate(count);
            return Err(error);
        }
        Ok(())
    }

    /// Whether the name is one of them.
    #[tactic(auto, using(crate::proofs::Numbers::numbers))]
    pub fn contains(&self, name: &Name) -> bool
        ensures { result ≡ is_numbered self.now name.now }
    {
        self.number_of(name).is_some()
    }

    /// The first place of the name, counted from 0, `None` where it isn't there.
    pub fn number_of(&self, name: &Name) -> Option<u32>
        ensures { result ≡ number_by_name self.now name.now }
    {
        self.places.get(name).copied()
    }
}

// One name more, whose first place this is if it is new.
fn note_place(places: &mut IndexMap<Name, u32>, name: Name, place: u32) -> Result<(), OutOfMemory>
    ensures ok { (names : List (List ℕ)) → HasPlaces names places.old → place ≡ length names →
        OnOk result (HasPlaces (names ++ name ∷ []) places.new) }
    ensures err { (names : List (List ℕ)) → HasPlaces names places.old → OnErr result (HasPlaces names places.new) }
{
    if places.contains_key(&name) {
        return Ok(());
    }
    places.insert(name, place)?;
    Ok(())
}
