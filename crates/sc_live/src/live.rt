ghost use Rattle.std.specs.Prelude.{◌≡◌, ℕ, [], ◌&&◌, ◌||◌, ◌==◌, not, IfOk};
ghost use Rattle.sc_tac.specs.Flow.{is_one};
ghost use Rattle.sc_tac.specs.Parts.{one_or_none};

use sc_base::OutOfMemory;
use std::alloc::Global;
use std::marker::Model;

/// A set of temporaries, of which few are live at once.
#[derive(Drop)]
pub struct LiveSet {
    temps: Vec<u32>,
}

impl Model for LiveSet {
    ghost use Rattle.std.specs.Prelude.{ℕ, List};

    ghost Value = { List ℕ };

    ghost view = { λ set. set.temps.items };
}

impl LiveSet {
    /// No temporary.
    pub fn new(alloc: Global) -> LiveSet
        ensures { result ≡ [] }
    {
        LiveSet {
            temps: Vec::new(alloc),
        }
    }

    /// Only this one, or none.
    pub fn one(alloc: Global, temp: Option<u32>) -> Result<LiveSet, OutOfMemory>
        ensures { IfOk result (λ set. set ≡ one_or_none temp) }
    {
        let mut temps = Vec::new(alloc);
        if let Some(temp) = temp {
            temps.push(temp)?;
        }
        Ok(LiveSet { temps })
    }

    /// The set once more.
    pub fn copy(&self, alloc: Global) -> Result<LiveSet, OutOfMemory>
        ensures { IfOk result (λ set. set ≡ self.now) }
    {
        Ok(LiveSet {
            temps: Vec::from_slice(alloc, self.temps.as_slice())?,
        })
    }

    /// Its temporaries, in no order.
    pub fn as_slice(&self) -> &[u32]
        ensures { result.now ≡ self.now }
    {
        self.temps.as_slice()
    }

    /// This one too.
    pub fn insert(&mut self, temp: u32) -> Result<(), OutOfMemory>
        ensures { IfOk result (λ _. (t : ℕ) → is_one t self.new ≡ (temp == t || is_one t self.old)) }
    {
        if !self.temps.contains(&temp) {
            self.temps.push(temp)?;
        }
        Ok(())
    }

    /// These too.
    pub fn insert_all(&mut self, temps: &[u32]) -> Result<(), OutOfMemory>
        ensures { IfOk result (λ _. (t : ℕ) → is_one t self.new ≡ (is_one t temps.now || is_one t self.old)) }
    {
        for temp in temps {
            self.insert(*temp)?;
        }
        Ok(())
    }

    /// This one no more.
    pub fn remove(&mut self, temp: u32)
        ensures { (t : ℕ) → is_one t self.new ≡ (not (temp == t) && is_one t self.old) }
    {
        self.temps.retain(|other| *other != temp);
    }
}
