//! The program over sources and sinks in memory.
use crate::byte_by_byte::{ByteSink, ByteSource};
use sc_base::OutOfMemory;
use sc_edge::{MemSink, MemSource};
use sc_top::secomp;
use std::alloc::Global;

// More room than any output of these tests takes.
const ROOM: u32 = 1 << 20;

/// A run, and where it fails.
#[derive(Clone, Copy)]
pub struct Run<'a> {
    /// The words of the command line, with blanks between them.
    pub words: &'a str,
    /// What is read.
    pub input: &'a [u8],
    /// The numbers of the reads that fail.
    pub failing_reads: &'a [u32],
    /// The numbers of the writes that fail.
    pub failing_writes: &'a [u32],
    /// How many bytes the output takes in all.
    pub room: u32,
    /// How many bytes the error takes in all.
    pub error_room: u32,
}

impl<'a> Run<'a> {
    /// A run in which nothing fails.
    pub fn new(words: &'a str, input: &'a [u8]) -> Run<'a> {
        Run {
            words,
            input,
            failing_reads: &[],
            failing_writes: &[],
            room: ROOM,
            error_room: ROOM,
        }
    }

    /// Runs the program.
    pub fn run(self, alloc: Global) -> Result<Ran, OutOfMemory> {
        let words = words_of(alloc, self.words)?;
        let mut source = MemSource::new(alloc, self.input, self.failing_reads)?;
        let mut out = MemSink::new(alloc, self.room, self.failing_writes)?;
        let mut err = MemSink::new(alloc, self.error_room, &[])?;
        let status = secomp(alloc, &words, &mut source, &mut out, &mut err);
        Ok(Ran {
            status: status.number(),
            out: out.written().to_vec(alloc)?,
            err: err.written().to_vec(alloc)?,
            unread: source.left().len(),
        })
    }

    /// Runs the program on ends that move one byte at a call. No read fails.
    pub fn run_by_bytes(self, alloc: Global) -> Result<Ran, OutOfMemory> {
        let words = words_of(alloc, self.words)?;
        let mut source = ByteSource::new(self.input);
        let mut out = ByteSink::new(MemSink::new(alloc, self.room, self.failing_writes)?);
        let mut err = ByteSink::new(MemSink::new(alloc, self.error_room, &[])?);
        let status = secomp(alloc, &words, &mut source, &mut out, &mut err);
        Ok(Ran {
            status: status.number(),
            out: out.written().to_vec(alloc)?,
            err: err.written().to_vec(alloc)?,
            unread: source.left().len(),
        })
    }
}

// The words between blanks.
fn words_of(alloc: Global, line: &str) -> Result<Vec<String>, OutOfMemory> {
    let mut words = Vec::new(alloc);
    for word in line.split_ascii_whitespace() {
        words.push(word.to_string(alloc)?)?;
    }
    Ok(words)
}

/// What a run answered, what it wrote, and how many bytes of the input it left.
#[derive(Drop)]
pub struct Ran {
    /// The exit status.
    pub status: u8,
    /// What was written to the output.
    pub out: Vec<u8>,
    /// What was written as an error.
    pub err: Vec<u8>,
    /// How many bytes of the input were left.
    pub unread: usize,
}

impl Ran {
    /// Whether all was read, and this status answered and this written.
    pub fn wrote(&self, status: u8, out: &[u8], err: &[u8]) -> bool {
        let same = self.status == status && self.out.as_slice() == out;
        same && self.err.as_slice() == err && self.unread == 0
    }
}
