//! Ends that move one byte at a call, and state nothing about their bytes.
#![tactic(auto)]

ghost use Rattle.sc_edge.specs.Edge.{Adds, IsAtEnd, Rose, Takes};
ghost use Rattle.std.specs.Prelude.{◌≡◌, ◌<◌, ◌≤◌, ℕ, List, None, Ok, Option, length, take, IfOk, OnErr};

use sc_edge::{Failed, MemSink, Sink, Source};

/// A source that hands out one byte at a call, and never fails.
#[derive(Drop)]
pub struct ByteSource<'a> {
    left: &'a [u8],
}

impl<'a> ByteSource<'a> {
    /// A source of these bytes.
    pub fn new(bytes: &'a [u8]) -> ByteSource<'a> {
        ByteSource { left: bytes }
    }

    /// The bytes that weren't read.
    pub fn left(&self) -> &[u8] {
        self.left
    }
}

impl<'a> Source for ByteSource<'a> {
    ghost left = { λ s. None };

    ghost faults = { λ s. 0 };

    fn read(&mut self, buf: &mut [u8]) -> Result<usize, Failed>
        requires { 0 < length buf.old }
        ensures within { IfOk result (λ n. n ≤ length buf.old) }
        ensures taken { IfOk result (λ n. Takes None None (take n buf.new)) }
        ensures end { result ≡ Ok 0 → IsAtEnd None }
        ensures nothing { OnErr result (◌≡◌ {A = Option (List ℕ)} None None) }
        ensures cause { OnErr result (Rose 0 0) }
        ensures faults { 0 ≤ 0 }
    {
        match self.left.split_first() {
            None => Ok(0),
            Some((first, rest)) => {
                buf[0] = *first;
                self.left = rest;
                Ok(1)
            }
        }
    }
}

/// A sink in memory that takes one byte at a call.
#[derive(Drop)]
pub struct ByteSink {
    sink: MemSink,
}

impl ByteSink {
    /// A sink that hands each byte on to this one.
    pub fn new(sink: MemSink) -> ByteSink {
        ByteSink { sink }
    }

    /// The bytes taken so far.
    pub fn written(&self) -> &[u8] {
        self.sink.written()
    }
}

impl Sink for ByteSink {
    ghost written = { λ s. None };

    ghost faults = { λ s. s.sink.faults };

    fn write(&mut self, piece: &[u8]) -> Result<usize, Failed>
        requires { 0 < length piece.now }
        ensures within { IfOk result (λ n. (0 < n) × (n ≤ length piece.now)) }
        ensures added { IfOk result (λ n. Adds None None (take n piece.now)) }
        ensures nothing { OnErr result (◌≡◌ {A = Option (List ℕ)} None None) }
        ensures cause { OnErr result (Rose self.old.sink.faults self.new.sink.faults) }
        ensures faults { self.old.sink.faults ≤ self.new.sink.faults }
    {
        self.sink.write(&piece[..1])
    }
}
