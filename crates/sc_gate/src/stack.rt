ghost use Rattle.std.specs.Prelude.{◌≡◌, ◌+◌, ◌<◌, [], ◌∷◌, IfOk, IfSome, IfNone, OnSome};
ghost use Rattle.sc_gate.specs.Waiting.{call_at, crossing_of};
ghost use Rattle.std.specs.Option.{option_map};
ghost use Rattle.std.specs.Prelude.{length};

use crate::CrossEntry;
use sc_base::OutOfMemory;
use sqlite_items::at;
use std::alloc::Global;
use std::marker::Model;

/// The calls of other compartments that haven't returned. Contracts see them, the latest first, and
/// how many more fit. Room for all of them is taken at the start.
#[derive(Drop)]
pub struct CrossStack {
    entries: Vec<CrossEntry>,
    limit: u32,
}

impl Model for CrossStack {
    ghost use Rattle.std.specs.Prelude.{◌-◌, ◌≤◌, length, map, reverse, vec_capacity};
    ghost use Rattle.sc_gate.specs.Waiting.{Waiting, crossing_of};

    ghost Value = { Waiting };

    ghost view = { λ s. record {
      calls = map crossing_of (reverse s.entries.items);
      room = s.limit - length s.entries.items;
    } };

    ghost invariant = { λ s. (length s.entries.items ≤ s.limit) × (s.limit ≤ vec_capacity s.entries) };
}

impl CrossStack {
    /// An empty stack that has room for `n` calls.
    pub fn with_room(alloc: Global, n: u32) -> Result<CrossStack, OutOfMemory>
        ensures calls { IfOk result (λ stack. stack.calls ≡ []) }
        ensures room { IfOk result (λ stack. stack.room ≡ n) }
    {
        Ok(CrossStack {
            entries: Vec::with_capacity(alloc, n as usize)?,
            limit: n,
        })
    }

    /// How many more calls fit.
    pub fn room(&self) -> u32
        ensures { result ≡ self.now.room }
    {
        self.limit - self.entries.len() as u32
    }

    /// How many calls are kept.
    pub fn count(&self) -> u32
        ensures { result ≡ length self.now.calls }
    {
        self.limit - self.room()
    }

    /// The call of a level: each has as its level how many calls were kept before it.
    pub fn at(&self, level: u32) -> Option<CrossEntry>
        ensures { option_map crossing_of result ≡ call_at self.now.calls level }
    {
        at(&self.entries, level as usize).copied()
    }

    /// Keeps a call, for which there is room.
    pub fn call(&mut self, entry: CrossEntry)
        requires { 0 < self.old.room }
        ensures calls { self.new.calls ≡ crossing_of entry ∷ self.old.calls }
        ensures room { self.new.room + 1 ≡ self.old.room }
    {
        self.entries.push(entry).unwrap();
    }

    /// Takes the latest call back, `None` where none is left.
    pub fn ret(&mut self) -> Option<CrossEntry>
        ensures empty { IfNone result (self.old.calls ≡ []) }
        ensures none { IfNone result (self.new ≡ self.old) }
        ensures latest { IfSome result (λ entry. self.old.calls ≡ crossing_of entry ∷ self.new.calls) }
        ensures room { OnSome result (self.new.room ≡ self.old.room + 1) }
    {
        self.entries.pop()
    }
}
