// A source of bytes in memory.
#![tactic(auto)]

ghost use Rattle.std.specs.Prelude.{◌≡◌, ◌<◌, ◌≤◌, ◌↔◌, ℕ, List, [], Some, length, take, drop, min, Ok, IfOk, OnOk};
ghost use Rattle.std.specs.Prelude.{OnErr, IsErr, Contains};
ghost use Rattle.sc_edge.specs.Edge.{Rose, Takes, IsAtEnd};
ghost use Rattle.sc_edge.specs.Memory.{SourceState, after_read, after_failed_read};

use crate::calls::{copy_prefix, is_listed, one_more};
use crate::{Failed, OutOfMemory, Source};
use std::alloc::Global;
use std::marker::Model;

/// A source that hands out bytes from memory, and fails at the calls that `fails` lists.
#[derive(Drop)]
pub struct MemSource {
    bytes: Vec<u8>,
    at: usize,
    fails: Vec<u32>,
    calls: u64,
    faults: u64,
}

impl Model for MemSource {
    ghost Value = { SourceState };

    ghost view = { λ s. record {
      left = drop s.at s.bytes.items;
      fails = s.fails.items;
      calls = s.calls;
      faults = s.faults;
    } };

    ghost invariant = { λ s. s.at ≤ length s.bytes.items };
}

impl MemSource {
    /// A source with these bytes. `fails` has the numbers, from 0, of the reads that are to fail; a read past number
    /// 4,294,967,295 never is.
    pub fn new(alloc: Global, bytes: &[u8], fails: &[u32]) -> Result<MemSource, OutOfMemory>
        ensures { IfOk result (λ s. s ≡ record { left = bytes.now; fails = fails.now; calls = 0; faults = 0 }) }
    {
        Ok(MemSource {
            bytes: bytes.to_vec(alloc)?,
            at: 0,
            fails: fails.to_vec(alloc)?,
            calls: 0,
            faults: 0,
        })
    }

    /// The bytes not yet read.
    pub fn left(&self) -> &[u8]
        ensures { result.now ≡ self.now.left }
    {
        &self.bytes[self.at..]
    }

    /// How many reads have failed.
    pub fn faults(&self) -> u64
        ensures { result ≡ self.now.faults }
    {
        self.faults
    }
}

impl Source for MemSource {
    ghost left = { λ s. Some s.left };

    ghost faults = { λ s. s.faults };

    #[tactic(auto, using(crate::proofs::Prefixes::prefix_taken))]
    fn read(&mut self, buf: &mut [u8]) -> Result<usize, Failed>
        requires { 0 < length buf.old }
        ensures within { IfOk result (λ n. n ≤ length buf.old) }
        ensures taken { IfOk result (λ n. Takes (Some self.old.left) (Some self.new.left) (take n buf.new)) }
        ensures end { result ≡ Ok 0 → IsAtEnd (Some self.new.left) }
        ensures nothing { OnErr result (Some self.new.left ≡ Some self.old.left) }
        ensures cause { OnErr result (Rose self.old.faults self.new.faults) }
        ensures faults { self.old.faults ≤ self.new.faults }
        ensures failed { IsErr result ↔ Contains self.old.fails self.old.calls }
        ensures count { IfOk result (λ n. n ≡ min (length buf.old) (length self.old.left)) }
        ensures ok { OnOk result (self.new ≡ after_read self.old (length buf.old)) }
        ensures err { OnErr result (self.new ≡ after_failed_read self.old) }
    {
        let call = self.calls;
        self.calls = one_more(call);
        if is_listed(&self.fails, call) {
            self.faults = one_more(self.faults);
            return Err(Failed);
        }
        let n = copy_prefix(&self.bytes[self.at..], buf);
        self.at += n;
        Ok(n)
    }
}
