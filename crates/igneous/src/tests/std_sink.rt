//! An output over writers that are slow, or fail.
use crate::std_sink::StdSink;
use ig_store::{Sink, SinkFault};
use std::io;
use std::io::{ErrorKind, Write};
use std::test::Fail;

/// A writer that takes one byte at a time, and is interrupted first where it says so.
#[derive(Drop)]
struct Slow {
    taken: Vec<u8>,
    interrupted: bool,
    flushes: u8,
}

impl Write for Slow {
    fn write(&mut self, buf: &[u8]) -> io::Result<usize> {
        if self.interrupted {
            self.interrupted = false;
            return Err(io::Error::from(ErrorKind::Interrupted));
        }
        match buf.first() {
            None => Ok(0),
            Some(byte) => {
                self.taken.push(*byte)?;
                Ok(1)
            }
        }
    }

    fn flush(&mut self) -> io::Result<()> {
        self.flushes = self.flushes.saturating_add(1);
        Ok(())
    }
}

/// How a writer fails.
#[derive(Clone, Copy)]
enum Broken {
    Writes,
    TakesNone,
    Flushes,
}

impl Write for Broken {
    fn write(&mut self, buf: &[u8]) -> io::Result<usize> {
        match self {
            Broken::Writes => Err(io::Error::from(ErrorKind::BrokenPipe)),
            Broken::TakesNone => Ok(0),
            Broken::Flushes => Ok(buf.len()),
        }
    }

    fn flush(&mut self) -> io::Result<()> {
        Err(io::Error::from(ErrorKind::BrokenPipe))
    }
}

#[test]
fn writes_all(rt: HostRuntime) -> Result<(), Fail> {
    let mut sink = StdSink::new(Vec::new(rt.alloc()));
    sink.write(b"one\n")?;
    sink.write(b"two\n")?;
    assert_eq!(rt; sink.out.as_slice(), b"one\ntwo\n".as_slice());
    assert_eq!(rt; sink.faults, 0);
    Ok(())
}

#[test]
fn writes_all_to_a_slow_writer(rt: HostRuntime) -> Result<(), Fail> {
    let mut sink = StdSink::new(Slow {
        taken: Vec::new(rt.alloc()),
        interrupted: true,
        flushes: 0,
    });
    sink.write(b"one\n")?;
    assert_eq!(rt; sink.out.taken.as_slice(), b"one\n".as_slice());
    assert_eq!(rt; sink.out.flushes, 1);
    assert_eq!(rt; sink.faults, 0);
    Ok(())
}

#[test]
fn counts_each_fault(rt: HostRuntime) {
    for broken in [Broken::Writes, Broken::TakesNone, Broken::Flushes] {
        let mut sink = StdSink::new(broken);
        assert_eq!(rt; sink.write(b"one\n"), Err(SinkFault));
        assert_eq!(rt; sink.faults, 1);
        assert_eq!(rt; sink.write(b"two\n"), Err(SinkFault));
        assert_eq!(rt; sink.faults, 2);
    }
}
