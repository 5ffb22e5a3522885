// Readers and writers of the library, and some that fail: how often they are asked, and what is told.
use cl_outside::{
    MemSink, MemSource, ReadEnd, ReaderSource, WriteEnd, WriterSink, read_all, write_all,
};
use std::io;
use std::io::{Error, ErrorKind, Read, Write};
use std::test::Fail;

const TEXT: &[u8; 16] = b"tuples and more.";

// Bytes in memory, read and written in pieces, where one call fails: what is left can be read and written
// later.
#[test]
fn a_failing_call_loses_nothing(rt: HostRuntime) -> Result<(), Fail> {
    let alloc = rt.alloc();
    let mut src = MemSource::new(TEXT.to_vec(alloc)?, 5, [2].to_vec(alloc)?);
    assert_eq!(rt; read_all(alloc, &mut src, 100).err(), Some(ReadEnd::Fault));
    let rest = read_all(alloc, &mut src, 100)?;
    assert_eq!(rt; rest.as_slice(), b"s and more.".as_slice());
    assert_eq!(rt; src.faults(), 1);
    let mut sink = MemSink::new(alloc, 40, 5, [3].to_vec(alloc)?)?;
    let end = write_all(&mut sink, TEXT);
    assert_eq!(rt; end, Err(WriteEnd::Fault { written: 10 }));
    assert_eq!(rt; write_all(&mut sink, b" more."), Ok(()));
    assert_eq!(rt; sink.written(), TEXT.as_slice());
    assert_eq!(rt; sink.faults(), 1);
    Ok(())
}

// A limit of as many bytes as there are, and of fewer; and more bytes than one read takes.
#[test]
fn the_limit_is_met(rt: HostRuntime) -> Result<(), Fail> {
    let alloc = rt.alloc();
    let mut src = MemSource::new(TEXT.to_vec(alloc)?, 3, Vec::new(alloc));
    assert_eq!(rt; read_all(alloc, &mut src, 16)?.len(), 16);
    let mut src = MemSource::new(TEXT.to_vec(alloc)?, 3, Vec::new(alloc));
    assert_eq!(rt;
        read_all(alloc, &mut src, 14).err(),
        Some(ReadEnd::TooLarge)
    );
    let mut src = MemSource::new(vec![in alloc; b'x'; 5000]?, 5000, Vec::new(alloc));
    assert_eq!(rt; read_all(alloc, &mut src, 5000)?.len(), 5000);
    Ok(())
}

#[test]
fn readers_and_writers_of_the_library(rt: HostRuntime) -> Result<(), Fail> {
    let alloc = rt.alloc();
    let mut src = ReaderSource::new(TEXT.as_slice());
    assert_eq!(rt; read_all(alloc, &mut src, 100)?.as_slice(), TEXT.as_slice());
    let mut sink = WriterSink::new(Vec::new(alloc));
    assert_eq!(rt; write_all(&mut sink, TEXT), Ok(()));
    assert_eq!(rt; sink.into_inner().as_slice(), TEXT.as_slice());
    let mut buffer = [0; 3];
    let mut sink = WriterSink::new(buffer.as_mut_slice());
    let end = write_all(&mut sink, TEXT);
    assert_eq!(rt; end, Err(WriteEnd::Fault { written: 3 }));
    Ok(())
}

// Gives or takes a few bytes a call, fails at one call, and counts its calls. A flush always fails.
#[derive(Drop)]
struct Once {
    // how many bytes it has to give
    left: usize,
    piece: usize,
    failing: u64,
    calls: u64,
}

impl Once {
    fn new(piece: usize, failing: u64) -> Once {
        Once {
            left: TEXT.len(),
            piece,
            failing,
            calls: 0,
        }
    }

    // Counts a call, and fails where its number is the one.
    fn count(&mut self) -> io::Result<()> {
        self.calls = self.calls.saturating_add(1);
        if self.calls == self.failing {
            return Err(Error::from(ErrorKind::Other));
        }
        Ok(())
    }
}

impl Read for Once {
    fn read(&mut self, buf: &mut [u8]) -> io::Result<usize> {
        self.count()?;
        let count = self.piece.min(buf.len()).min(self.left);
        for byte in &mut buf[..count] {
            *byte = b'x';
        }
        self.left -= count;
        Ok(count)
    }
}

impl Write for Once {
    fn write(&mut self, buf: &[u8]) -> io::Result<usize> {
        self.count()?;
        Ok(self.piece.min(buf.len()))
    }

    fn flush(&mut self) -> io::Result<()> {
        Err(Error::from(ErrorKind::Other))
    }
}

// What fails isn't asked again, and what a reader gave later is still there.
#[test]
fn a_call_that_fails_is_the_last(rt: HostRuntime) -> Result<(), Fail> {
    let alloc = rt.alloc();
    let mut src = ReaderSource::new(Once::new(5, 2));
    assert_eq!(rt; read_all(alloc, &mut src, 100).err(), Some(ReadEnd::Fault));
    assert_eq!(rt; read_all(alloc, &mut src, 100)?.len(), 11);
    // Two calls before, then three that give bytes and one that finds the end.
    assert_eq!(rt; src.into_inner().calls, 6);
    let mut sink = WriterSink::new(Once::new(5, 2));
    let end = write_all(&mut sink, TEXT);
    assert_eq!(rt; end, Err(WriteEnd::Fault { written: 5 }));
    assert_eq!(rt; sink.into_inner().calls, 2);
    Ok(())
}

// How many calls it takes to write the text in pieces.
fn calls_for(piece: usize) -> u64 {
    let mut sink = WriterSink::new(Once::new(piece, 0));
    match write_all(&mut sink, TEXT) {
        Ok(()) => sink.into_inner().calls,
        Err(_) => 0,
    }
}

// What is given or taken whole takes one call, and a read more that finds the end; nothing is flushed.
#[test]
fn calls_are_few(rt: HostRuntime) -> Result<(), Fail> {
    let mut src = ReaderSource::new(Once::new(100, 0));
    assert_eq!(rt; read_all(rt.alloc(), &mut src, 100)?.len(), 16);
    assert_eq!(rt; src.into_inner().calls, 2);
    for (piece, calls) in [(100, 1), (16, 1), (15, 2), (5, 4), (1, 16)] {
        assert_eq!(rt; calls_for(piece), calls);
    }
    Ok(())
}
