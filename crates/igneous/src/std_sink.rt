ghost use Rattle.std.specs.Prelude.{◌≡◌, ◌≤◌, ◌-◌, ◌^◌, [], OnOk, OnErr, ◌++◌};
ghost use Rattle.std.specs.Io.KnownBytes.{Appends};
ghost use Rattle.ig_defs.specs.Causes.{Rose};

use ig_store::{Sink, SinkFault};
use std::io;
use std::io::Write;

/// A writer of the system as a sink. It keeps no bytes back.
#[derive(Drop)]
pub struct StdSink<W> {
    pub out: W,
    pub faults: u64,
    ghost counted: { faults ≤ 2 ^ 64 - 1 },
}

impl<W: Write> StdSink<W> {
    /// A sink that has not failed yet.
    pub fn new(out: W) -> Self
        ensures { result.faults ≡ 0 }
    {
        StdSink { out, faults: 0 }
    }
}

/// Writes all bytes, and hands on what the writer kept back.
fn send<W: Write>(out: &mut W, bytes: &[u8]) -> io::Result<()>
    ensures { OnOk result (Appends (W.contents out.old) (W.contents out.new) bytes.now) }
{
    out.write_all(bytes)?;
    out.flush()
}

impl<W: Write> Sink for StdSink<W> {
    ghost tells = { ⊥ };

    ghost taken = { λ _. [] };

    ghost faults = { λ sink. sink.faults };

    fn write(&mut self, bytes: &[u8]) -> Result<(), SinkFault>
        ensures later { self.old.faults ≤ self.new.faults }
        ensures cause { OnErr result (Rose self.old.faults self.new.faults) }
        ensures handed { OnOk result (Appends (W.contents self.old.out) (W.contents self.new.out) bytes.now) }
    {
        match send(&mut self.out, bytes) {
            Ok(()) => Ok(()),
            Err(_) => {
                self.faults = self.faults.saturating_add(1);
                Err(SinkFault)
            }
        }
    }
}
