//! Streams of the system and in-memory ones.
use byte_streams::{
    ByteSink, ByteSource, Failed, Sink, Source, StdSink, StdSource, SureSink, SureSource, write_all,
};
use std::alloc::Global;
use std::io::{self, ErrorKind, Read, Write};
use std::sync::atomic::{AtomicU32, Ordering};
use std::test::Fail;

/// A writer that takes nothing.
#[derive(Drop)]
struct Full;

impl Write for Full {
    fn write(&mut self, _: &[u8]) -> io::Result<usize> {
        Ok(0)
    }

    fn flush(&mut self) -> io::Result<()> {
        Ok(())
    }
}

/// A reader that gives two bytes at its first call, and fails at its second.
#[derive(Drop)]
struct FailsAtTheSecond {
    calls: u32,
}

impl Read for FailsAtTheSecond {
    fn read(&mut self, into: &mut [u8]) -> io::Result<usize> {
        self.calls = self.calls.saturating_add(1);
        if self.calls == 2 {
            return Err(ErrorKind::BrokenPipe.into());
        }
        let n = into.len().min(2);
        into[..n].fill(b'#');
        Ok(n)
    }
}

/// A reader that gives one byte, and a writer that takes one, at every third call: a signal interrupts the others.
#[derive(Drop)]
struct Interrupted {
    calls: u32,
}

impl Interrupted {
    /// Counts a call, and has two of three interrupted.
    fn begin(&mut self) -> io::Result<()> {
        self.calls = self.calls.saturating_add(1);
        if self.calls.is_multiple_of(3) {
            return Ok(());
        }
        Err(ErrorKind::Interrupted.into())
    }
}

impl Read for Interrupted {
    fn read(&mut self, into: &mut [u8]) -> io::Result<usize> {
        self.begin()?;
        let n = into.len().min(1);
        into[..n].fill(b'#');
        Ok(n)
    }
}

impl Write for Interrupted {
    fn write(&mut self, piece: &[u8]) -> io::Result<usize> {
        self.begin()?;
        Ok(piece.len().min(1))
    }

    fn flush(&mut self) -> io::Result<()> {
        self.begin()
    }
}

/// A writer that takes one byte at a time, and counts its flushes, of which those from the second on fail.
#[derive(Drop)]
struct OneByte<'a> {
    flushes: &'a AtomicU32,
}

impl Write for OneByte<'_> {
    fn write(&mut self, piece: &[u8]) -> io::Result<usize> {
        Ok(piece.len().min(1))
    }

    fn flush(&mut self) -> io::Result<()> {
        if self.flushes.fetch_add(1, Ordering::SeqCst) == 0 {
            Ok(())
        } else {
            Err(ErrorKind::BrokenPipe.into())
        }
    }
}

fn source(alloc: Global, fail: &[u64]) -> Result<ByteSource, Fail> {
    Ok(ByteSource::new(b"r YB-".to_vec(alloc)?, 2, fail.to_vec(alloc)?))
}

#[test]
fn sure_source_is_read_in_pieces_and_to_its_end(rt: HostRuntime) -> Result<(), Fail> {
    let mut source = SureSource::new(b"YB-".to_vec(rt.alloc())?, 2);
    let mut into = [0; 4];
    assert_eq!(rt; source.read(&mut into), Ok(2));
    assert_eq!(rt; into, *b"YB\0\0");
    assert_eq!(rt; source.read(&mut into), Ok(1));
    assert_eq!(rt; into, *b"-B\0\0");
    assert_eq!(rt; source.read(&mut into), Ok(0));
    Ok(())
}

#[test]
fn sure_sink_keeps_what_fits(rt: HostRuntime) -> Result<(), Fail> {
    let mut sink = SureSink::new(rt.alloc(), 4, 1)?;
    write_all(&mut sink, b"abc")?;
    sink.flush()?;
    assert_eq!(rt; sink.bytes(), b"abc".as_slice());
    write_all(&mut sink, b"def")?;
    assert_eq!(rt; sink.bytes(), b"abcd".as_slice());
    Ok(())
}

#[test]
fn numbered_reads_fail(rt: HostRuntime) -> Result<(), Fail> {
    let mut failing = source(rt.alloc(), &[2])?;
    let mut into = [0; 4];
    assert_eq!(rt; failing.read(&mut into), Ok(2));
    assert_eq!(rt; failing.read(&mut into), Err(Failed));
    assert_eq!(rt; into, *b"r \0\0");
    assert_eq!(rt; failing.read(&mut into), Ok(2));
    assert_eq!(rt; into, *b"YB\0\0");
    assert_eq!(rt; failing.read(&mut into), Ok(1));
    assert_eq!(rt; failing.read(&mut into), Ok(0));
    Ok(())
}

#[test]
fn numbered_calls_and_writes_without_room_fail(rt: HostRuntime) -> Result<(), Fail> {
    let mut sink = ByteSink::new(rt.alloc(), 3, 2, [2, 4].to_vec(rt.alloc())?)?;
    assert_eq!(rt; sink.write(b"abcd"), Ok(2));
    assert_eq!(rt; sink.write(b"cd"), Err(Failed));
    assert_eq!(rt; sink.write(b"cd"), Ok(1));
    assert_eq!(rt; sink.flush(), Err(Failed));
    assert_eq!(rt; sink.write(b"d"), Err(Failed));
    assert_eq!(rt; sink.flush(), Ok(()));
    assert_eq!(rt; sink.bytes(), b"abc".as_slice());
    Ok(())
}

#[test]
fn standard_streams(rt: HostRuntime) -> Result<(), Fail> {
    let mut source = StdSource::new(b"abc".as_slice());
    let mut into = [0; 4];
    assert_eq!(rt; source.read(&mut into), Ok(3));
    assert_eq!(rt; into, *b"abc\0");
    assert_eq!(rt; source.read(&mut into), Ok(0));
    let mut kept = Vec::<u8>::new(rt.alloc());
    {
        let mut sink = StdSink::new(&mut kept);
        write_all(&mut sink, b"abc")?;
        write_all(&mut sink, b"de")?;
        sink.flush()?;
    }
    assert_eq!(rt; kept.as_slice(), b"abcde".as_slice());
    assert_eq!(rt; write_all(&mut StdSink::new(Full), b"abc"), Err(Failed));
    Ok(())
}

#[test]
fn a_reader_that_fails_at_its_second_call(rt: HostRuntime) {
    let mut source = StdSource::new(FailsAtTheSecond { calls: 0 });
    let mut into = [0; 3];
    assert_eq!(rt; source.read(&mut into), Ok(2));
    assert_eq!(rt; source.read(&mut into), Err(Failed));
    assert_eq!(rt; source.read(&mut into), Ok(2));
    assert_eq!(rt; into, *b"##\0");
}

#[test]
fn a_writer_that_takes_one_byte_and_fails_to_flush(rt: HostRuntime) {
    let flushes = AtomicU32::new(0);
    let mut sink = StdSink::new(OneByte { flushes: &flushes });
    assert_eq!(rt; sink.write(b"abc"), Ok(1));
    assert_eq!(rt; flushes.load(Ordering::SeqCst), 0);
    assert_eq!(rt; sink.flush(), Ok(()));
    assert_eq!(rt; flushes.load(Ordering::SeqCst), 1);
    assert_eq!(rt; sink.flush(), Err(Failed));
    assert_eq!(rt; flushes.load(Ordering::SeqCst), 2);
}

// A call that a signal interrupted is tried again, and is no fault.
#[test]
fn interrupted_calls_are_tried_again(rt: HostRuntime) {
    let mut source = StdSource::new(Interrupted { calls: 0 });
    let mut into = [0; 3];
    assert_eq!(rt; source.read(&mut into), Ok(1));
    assert_eq!(rt; source.read(&mut into), Ok(1));
    assert_eq!(rt; into, *b"#\0\0");
    let mut sink = StdSink::new(Interrupted { calls: 0 });
    assert_eq!(rt; write_all(&mut sink, b"abc"), Ok(()));
    assert_eq!(rt; sink.flush(), Ok(()));
}
