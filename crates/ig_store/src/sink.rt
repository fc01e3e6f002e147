ghost use Rattle.std.specs.Prelude.{◌≡◌, ◌≤◌, ◌++◌, ℕ, List, OnOk, OnErr};
ghost use Rattle.ig_defs.specs.Causes.{Rose};
ghost use Rattle.ig_store.specs.Sink.{TakesPrefix};

use thiserror::Error;

/// A sink took not all that it was given.
#[derive(Clone, Copy, Debug, PartialEq, Eq, Error)]
#[error("output fault")]
pub struct SinkFault;

/// Something that takes bytes, as standard output.
pub trait Sink {
    /// Whether sinks of this type tell what they took.
    ghost tells: { Type 0 };

    /// The bytes taken so far, where it tells.
    ghost taken: { Self → List ℕ };

    /// How often it failed, counted up to 2^64 - 1.
    ghost faults: { Self → ℕ };

    /// Takes all bytes, or at a fault some first part of them.
    fn write(&mut self, bytes: &[u8]) -> Result<(), SinkFault>
        ensures later { faults self.old ≤ faults self.new }
        ensures cause { OnErr result (Rose (faults self.old) (faults self.new)) }
        ensures ok { tells → OnOk result (taken self.new ≡ taken self.old ++ bytes.now) }
        ensures err { tells → OnErr result (TakesPrefix (taken self.old) bytes.now (taken self.new)) };
}
