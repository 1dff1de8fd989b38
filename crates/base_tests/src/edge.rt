use sc_edge::{MemSink, MemSource, Sink, Source, StdSink, StdSource};
use std::io;
use std::io::{ErrorKind, Read, Write};
use std::test::Fail;

// Reads fail, and so does the flush of what was written.
#[derive(Drop)]
struct Broken;

impl Read for Broken {
    fn read(&mut self, _: &mut [u8]) -> io::Result<usize> {
        Err(io::Error::from(ErrorKind::BrokenPipe))
    }
}

impl Write for Broken {
    fn write(&mut self, piece: &[u8]) -> io::Result<usize> {
        Ok(piece.len())
    }

    fn flush(&mut self) -> io::Result<()> {
        Err(io::Error::from(ErrorKind::BrokenPipe))
    }
}

// What one read of at most two bytes gives.
fn two<'a, S: Source>(source: &mut S, buf: &'a mut [u8; 2]) -> Option<&'a [u8]> {
    let n = source.read(buf).ok()?;
    Some(&buf[..n])
}

fn put<S: Sink>(sink: &mut S, piece: &[u8; 3]) -> Option<usize> {
    sink.write(piece).ok()
}

#[test]
fn memory(rt: HostRuntime) -> Result<(), Fail> {
    let mut source = MemSource::new(rt.alloc(), b"hello", &[1])?;
    let mut sink = MemSink::new(rt.alloc(), 4, &[0])?;
    let reads = [
        Some(b"he".as_slice()),
        None,
        Some(b"ll"),
        Some(b"o"),
        Some(b""),
    ];
    for want in reads {
        assert!(rt; two(&mut source, &mut [0; 2]) == want);
    }
    for want in [None, Some(3), Some(1), None] {
        assert!(rt; put(&mut sink, b"abc") == want);
    }
    assert_eq!(rt; source.left().len(), 0);
    assert_eq!(rt; source.faults(), 1);
    assert!(rt; sink.written() == b"abca".as_slice());
    assert_eq!(rt; sink.faults(), 2);
    Ok(())
}

#[test]
fn standard_source(rt: HostRuntime) {
    let mut source = StdSource::new(b"abc".as_slice());
    for want in [b"ab".as_slice(), b"c", b""] {
        assert!(rt; two(&mut source, &mut [0; 2]) == Some(want));
    }
    assert!(rt; two(&mut StdSource::new(Broken), &mut [0; 2]) == None);
}

// A slice as a writer takes nothing once it is full.
#[test]
fn standard_sink(rt: HostRuntime) {
    let mut room = [0; 4];
    let mut sink = StdSink::new(room.as_mut_slice());
    for want in [Some(3), Some(1), None] {
        assert!(rt; put(&mut sink, b"xyz") == want);
    }
    assert!(rt; room == *b"xyzx");
    assert_eq!(rt; put(&mut StdSink::new(Broken), b"xyz"), None);
}
