//! Sources and sinks, in memory and over streams, with faults.
use super::*;
use std::io;
use std::io::{Read, Write};
use std::test::Fail;

#[test]
fn a_source_gives_pieces(rt: HostRuntime) -> Result<(), Fail> {
    let mut source = MemSource::make(rt.alloc(), b"abc", 2, &[2])?;
    let mut buf = [0u8; 8];
    assert_eq!(rt; source.read(&mut buf)?, 2);
    assert!(rt; source.read(&mut buf).is_err());
    assert_eq!(rt; source.read(&mut buf)?, 1);
    assert_eq!(rt; source.read(&mut buf)?, 0);
    let mut steady = SteadySource::make(rt.alloc(), b"abc", 8)?;
    assert_eq!(rt; steady.read(&mut buf)?, 3);
    let mut repeat = RepeatSource::make(rt.alloc(), b"xy", 5)?;
    assert_eq!(rt; repeat.read(&mut buf)?, 5);
    assert!(rt; &buf[..5] == b"xyxyx".as_slice());
    Ok(())
}

#[test]
fn a_sink_keeps_what_its_room_takes(rt: HostRuntime) -> Result<(), Fail> {
    let mut sink = MemSink::make(rt.alloc(), 8, &[(2, 3), (4, 100)])?;
    assert!(rt; sink.write_all(b"abc").is_ok());
    assert!(rt; sink.write_all(b"defgh").is_err());
    assert!(rt; sink.write_all(b"ghi").is_err());
    assert!(rt; sink.write_all(b"xyz").is_err());
    assert!(rt; sink.write_all(b"").is_ok());
    assert!(rt; sink.bytes() == b"abcdefxy".as_slice());
    let mut steady = SteadySink::make();
    assert!(rt; steady.write_all(b"abc").is_ok());
    assert_eq!(rt; steady.count(), 3);
    Ok(())
}

#[test]
fn std_ends_pass_bytes_on(rt: HostRuntime) -> Result<(), Fail> {
    let mut source = StdSource::make(b"abc".as_slice());
    let mut sink = StdSink::make(Vec::new(rt.alloc()));
    let mut buf = [0u8; 2];
    for _ in 0..2 {
        let count = source.read(&mut buf)?;
        assert!(rt; count <= 2);
        sink.write_all(&buf[..count])?;
    }
    assert_eq!(rt; source.read(&mut buf)?, 0);
    Ok(())
}

/// A reader whose second call fails, and a writer whose second call does; the others pass bytes on.
#[derive(Drop)]
struct FailsOnce<T> {
    inner: T,
    calls: u64,
}

impl<T> FailsOnce<T> {
    // Counts the call, and fails if it is the second.
    fn call(&mut self) -> io::Result<()> {
        self.calls = self.calls.saturating_add(1);
        if self.calls == 2 {
            return Err(io::Error::from(io::ErrorKind::TimedOut));
        }
        Ok(())
    }
}

impl<R: Read> Read for FailsOnce<R> {
    fn read(&mut self, buf: &mut [u8]) -> io::Result<usize> {
        self.call()?;
        self.inner.read(buf)
    }
}

impl<W: Write> Write for FailsOnce<W> {
    fn write(&mut self, buf: &[u8]) -> io::Result<usize> {
        self.call()?;
        self.inner.write(buf)
    }

    fn flush(&mut self) -> io::Result<()> {
        self.inner.flush()
    }
}

// No error is hidden by a second call.
#[test]
fn a_fault_of_std_is_told_once(rt: HostRuntime) -> Result<(), Fail> {
    let mut source = StdSource::make(FailsOnce {
        inner: b"abcd".as_slice(),
        calls: 0,
    });
    let mut buf = [0u8; 2];
    assert_eq!(rt; source.read(&mut buf)?, 2);
    assert!(rt; source.read(&mut buf).is_err());
    assert_eq!(rt; source.read(&mut buf)?, 2);
    assert!(rt; buf == *b"cd");
    let mut sink = StdSink::make(FailsOnce {
        inner: Vec::new(rt.alloc()),
        calls: 0,
    });
    assert!(rt; sink.write_all(b"ab").is_ok());
    assert!(rt; sink.write_all(b"cd").is_err());
    assert!(rt; sink.write_all(b"ef").is_ok());
    Ok(())
}
