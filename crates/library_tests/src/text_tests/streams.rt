//! Each stream once, with the faults that are counted.

use rc_stream::{Failed, MemSink, MemSource, Sink, Source, StdSink, StdSource};
use std::io;
use std::io::{Read, Write};
use std::test::Fail;

// Fails at each call.
#[derive(Drop)]
struct Broken;

impl Read for Broken {
    fn read(&mut self, _: &mut [u8]) -> io::Result<usize> {
        Err(io::Error::from(io::ErrorKind::BrokenPipe))
    }
}

impl Write for Broken {
    fn write(&mut self, _: &[u8]) -> io::Result<usize> {
        Err(io::Error::from(io::ErrorKind::BrokenPipe))
    }

    fn flush(&mut self) -> io::Result<()> {
        Err(io::Error::from(io::ErrorKind::BrokenPipe))
    }
}

// Fails at its first call, and does from then on what the other one does.
#[derive(Drop)]
struct FailsOnce<T> {
    other: T,
    failed: bool,
}

impl<T> FailsOnce<T> {
    fn new(other: T) -> FailsOnce<T> {
        FailsOnce {
            other,
            failed: false,
        }
    }

    // Interrupted, as a call that many a program would make again.
    fn fail_once(&mut self) -> io::Result<()> {
        if self.failed {
            return Ok(());
        }
        self.failed = true;
        Err(io::Error::from(io::ErrorKind::Interrupted))
    }
}

impl<R: Read> Read for FailsOnce<R> {
    fn read(&mut self, into: &mut [u8]) -> io::Result<usize> {
        match self.fail_once() {
            Ok(()) => self.other.read(into),
            Err(error) => Err(error),
        }
    }
}

impl<W: Write> Write for FailsOnce<W> {
    fn write(&mut self, piece: &[u8]) -> io::Result<usize> {
        match self.fail_once() {
            Ok(()) => self.other.write(piece),
            Err(error) => Err(error),
        }
    }

    fn flush(&mut self) -> io::Result<()> {
        match self.fail_once() {
            Ok(()) => self.other.flush(),
            Err(error) => Err(error),
        }
    }
}

#[test]
fn memory_gives_and_takes_in_pieces(rt: HostRuntime) -> Result<(), Fail> {
    let mut source = MemSource::create(rt.alloc(), b"resctrl", 4, &[2])?;
    let mut sink = MemSink::create(rt.alloc(), 5, 3, &[4])?;
    let mut into = [0u8; 16];
    assert_eq!(rt; source.read(&mut into), Ok(4));
    assert_eq!(rt; &into[..4], b"resc".as_slice());
    assert_eq!(rt; source.read(&mut into), Err(Failed));
    assert_eq!(rt; source.read(&mut into), Ok(3));
    assert_eq!(rt; source.read(&mut into), Ok(0));
    assert_eq!(rt; sink.is_held(), false);
    assert_eq!(rt; sink.write(b"abcd"), Ok(3));
    assert_eq!(rt; sink.write(b"defg"), Ok(2));
    assert_eq!(rt; sink.write(b"fg"), Err(Failed));
    assert_eq!(rt; sink.flush(), Err(Failed));
    assert_eq!(rt; sink.is_held(), true);
    assert_eq!(rt; sink.flush(), Ok(()));
    assert_eq!(rt; sink.is_held(), false);
    assert_eq!(rt; sink.taken(), b"abcde".as_slice());
    Ok(())
}

#[test]
fn readers_and_writers_count_faults(rt: HostRuntime) -> Result<(), Fail> {
    let mut into = [0u8; 4];
    let mut source = StdSource::new(b"tick\n".as_slice());
    assert_eq!(rt; source.read(&mut into), Ok(4));
    assert_eq!(rt; &into[..], b"tick".as_slice());
    assert_eq!(rt; source.read(&mut into), Ok(1));
    assert_eq!(rt; source.read(&mut into), Ok(0));
    let mut sink = StdSink::new(Vec::new(rt.alloc()));
    assert_eq!(rt; sink.write(b"tock"), Ok(4));
    assert_eq!(rt; sink.flush(), Ok(()));
    assert_eq!(rt; StdSource::new(Broken).read(&mut into), Err(Failed));
    assert_eq!(rt; StdSink::new(Broken).write(b"tock"), Err(Failed));
    assert_eq!(rt; StdSink::new(Broken).flush(), Err(Failed));
    Ok(())
}

#[test]
fn a_failed_call_is_not_made_again(rt: HostRuntime) -> Result<(), Fail> {
    let mut into = [0u8; 4];
    let mut source = StdSource::new(FailsOnce::new(b"tick".as_slice()));
    assert_eq!(rt; source.read(&mut into), Err(Failed));
    assert_eq!(rt; source.read(&mut into), Ok(4));
    assert_eq!(rt; &into[..], b"tick".as_slice());
    let mut written = StdSink::new(FailsOnce::new(Vec::new(rt.alloc())));
    assert_eq!(rt; written.write(b"tock"), Err(Failed));
    assert_eq!(rt; written.write(b"tock"), Ok(4));
    let mut flushed = StdSink::new(FailsOnce::new(Vec::new(rt.alloc())));
    assert_eq!(rt; flushed.flush(), Err(Failed));
    assert_eq!(rt; flushed.flush(), Ok(()));
    Ok(())
}
