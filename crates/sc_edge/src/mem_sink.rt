// A sink of bytes in memory.
#![tactic(auto)]

ghost use Rattle.std.specs.Prelude.{◌≡◌, ◌<◌, ◌≤◌, ◌-◌, ◌↔◌, ◌⊎◌, ℕ, List, [], Some, length, take, min, vec_capacity};
ghost use Rattle.std.specs.Prelude.{IfOk, OnErr, IsErr, Contains};
ghost use Rattle.sc_edge.specs.Edge.{Rose, Adds};
ghost use Rattle.sc_edge.specs.Memory.{SinkState, after_write, after_failed_write};

use crate::calls::{is_listed, one_more};
use crate::{Failed, OutOfMemory, Sink};
use std::alloc::Global;
use std::marker::Model;

/// A sink that keeps its bytes in memory, up to its room, and fails at the calls that `fails` lists.
#[derive(Drop)]
pub struct MemSink {
    bytes: Vec<u8>,
    room: usize,
    fails: Vec<u32>,
    calls: u64,
    faults: u64,
}

impl Model for MemSink {
    ghost Value = { SinkState };

    ghost view = { λ s. record {
      written = s.bytes.items;
      room = s.room;
      fails = s.fails.items;
      calls = s.calls;
      faults = s.faults;
    } };

    ghost invariant = { λ s. (length s.bytes.items ≤ s.room) × (s.room ≤ vec_capacity s.bytes) };
}

impl MemSink {
    /// An empty sink that takes `room` bytes in all, and memory for them now. `fails` has the numbers, from 0, of the
    /// writes that are to fail; a write past number 4,294,967,295 never is, but for want of room.
    pub fn new(alloc: Global, room: u32, fails: &[u32]) -> Result<MemSink, OutOfMemory>
        ensures { IfOk result (λ s. s ≡ record {
          written = [];
          room = room;
          fails = fails.now;
          calls = 0;
          faults = 0;
        }) }
    {
        let room = room as usize;
        Ok(MemSink {
            bytes: Vec::with_capacity(alloc, room)?,
            room,
            fails: fails.to_vec(alloc)?,
            calls: 0,
            faults: 0,
        })
    }

    /// The bytes taken so far.
    pub fn written(&self) -> &[u8]
        ensures { result.now ≡ self.now.written }
    {
        &self.bytes
    }

    /// How many writes have failed.
    pub fn faults(&self) -> u64
        ensures { result ≡ self.now.faults }
    {
        self.faults
    }
}

impl Sink for MemSink {
    ghost written = { λ s. Some s.written };

    ghost faults = { λ s. s.faults };

    fn write(&mut self, piece: &[u8]) -> Result<usize, Failed>
        requires { 0 < length piece.now }
        ensures within { IfOk result (λ n. (0 < n) × (n ≤ length piece.now)) }
        ensures added { IfOk result (λ n. Adds (Some self.old.written) (Some self.new.written) (take n piece.now)) }
        ensures nothing { OnErr result (Some self.new.written ≡ Some self.old.written) }
        ensures cause { OnErr result (Rose self.old.faults self.new.faults) }
        ensures faults { self.old.faults ≤ self.new.faults }
        ensures failed { IsErr result ↔ (Contains self.old.fails self.old.calls ⊎
            (self.old.room ≤ length self.old.written)) }
        ensures count { IfOk result (λ n. n ≡ min (length piece.now) (self.old.room - length self.old.written)) }
        ensures ok { IfOk result (λ n. self.new ≡ after_write self.old (take n piece.now)) }
        ensures err { OnErr result (self.new ≡ after_failed_write self.old) }
    {
        let call = self.calls;
        self.calls = one_more(call);
        let left = self.room - self.bytes.len();
        if is_listed(&self.fails, call) || left == 0 {
            self.faults = one_more(self.faults);
            return Err(Failed);
        }
        let n = piece.len().min(left);
        self.bytes.extend_from_slice(&piece[..n]).unwrap();
        Ok(n)
    }
}
