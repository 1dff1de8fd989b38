// Std's readers and writers as sources and sinks. What they pass on lies outside of any proof.
#![tactic(auto)]

ghost use Rattle.std.specs.Prelude.{◌≡◌, ◌<◌, ◌≤◌, None, length, take, Ok, IfOk, IfSome, OnOk, OnErr};
ghost use Rattle.sc_edge.specs.Edge.{Takes, Adds, IsAtEnd};
ghost use Rattle.sc_edge.specs.Memory.{counted};
ghost use Rattle.sc_edge.specs.Standard.{reader_of, read_faults, writer_of, write_faults};

use crate::calls::one_more;
use crate::{Failed, Sink, Source};
use std::io::{Read, Write};

/// A reader of std, as standard input. Nothing is stated about its bytes, and each error of it is one fault.
#[derive(Drop)]
pub struct StdSource<R> {
    inner: R,
    faults: u64,
}

impl<R: Read> StdSource<R> {
    /// The source that reads from `inner`.
    pub fn new(inner: R) -> Self
        ensures reader { reader_of result ≡ inner }
        ensures faults { read_faults result ≡ 0 }
    {
        StdSource { inner, faults: 0 }
    }
}

impl<R: Read> Source for StdSource<R> {
    ghost left = { λ _. None };

    ghost faults = { λ s. read_faults s };

    fn read(&mut self, buf: &mut [u8]) -> Result<usize, Failed>
        requires { 0 < length buf.old }
        ensures within { IfOk result (λ n. n ≤ length buf.old) }

        // Where the reader states its bytes, those that it gave are passed on.
        ensures passed { IfOk result (λ n. Takes (R.remaining (reader_of self.old)) (R.remaining (reader_of self.new))
            (take n buf.new)) }
        ensures end { result ≡ Ok 0 → IsAtEnd (R.remaining (reader_of self.old)) }
        ensures ok { OnOk result (read_faults self.new ≡ read_faults self.old) }
        ensures err { OnErr result (read_faults self.new ≡ counted (read_faults self.old)) }
        ensures faults { read_faults self.old ≤ read_faults self.new }
    {
        match self.inner.read(buf) {
            Ok(n) => Ok(n),
            Err(_) => {
                self.faults = one_more(self.faults);
                Err(Failed)
            }
        }
    }
}

/// A writer of std, as standard output. Nothing is stated about its bytes. Each write is flushed at once, and an error
/// of either, or a write that takes nothing, is one fault.
#[derive(Drop)]
pub struct StdSink<W> {
    inner: W,
    faults: u64,
}

impl<W: Write> StdSink<W> {
    /// The sink that writes to `inner`.
    pub fn new(inner: W) -> Self
        ensures writer { writer_of result ≡ inner }
        ensures faults { write_faults result ≡ 0 }
    {
        StdSink { inner, faults: 0 }
    }
}

impl<W: Write> Sink for StdSink<W> {
    ghost written = { λ _. None };

    ghost faults = { λ s. write_faults s };

    fn write(&mut self, piece: &[u8]) -> Result<usize, Failed>
        requires { 0 < length piece.now }
        ensures within { IfOk result (λ n. (0 < n) × (n ≤ length piece.now)) }

        // Where the writer states its bytes, these were added and no others.
        ensures passed { IfOk result (λ n. Adds (W.contents (writer_of self.old)) (W.contents (writer_of self.new))
            (take n piece.now)) }
        ensures ok { OnOk result (write_faults self.new ≡ write_faults self.old) }
        ensures err { OnErr result (write_faults self.new ≡ counted (write_faults self.old)) }
        ensures faults { write_faults self.old ≤ write_faults self.new }
    {
        match write_through(&mut self.inner, piece) {
            Some(n) => Ok(n),
            None => {
                self.faults = one_more(self.faults);
                Err(Failed)
            }
        }
    }
}

// How many bytes were written and flushed, or None where that failed.
fn write_through<W: Write>(inner: &mut W, piece: &[u8]) -> Option<usize>
    ensures within { IfSome result (λ n. (0 < n) × (n ≤ length piece.now)) }
    ensures passed { IfSome result (λ n. Adds (W.contents inner.old) (W.contents inner.new) (take n piece.now)) }
{
    let n = inner.write(piece).ok()?;
    if n == 0 {
        return None;
    }
    inner.flush().ok()?;
    Some(n)
}
