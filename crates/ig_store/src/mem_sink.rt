ghost use Rattle.std.specs.Prelude.{◌≡◌, ◌≤◌, ◌+◌, ◌-◌, ◌^◌, ◌++◌, ◌↔◌, if◌then◌else◌, [], is_ok, min, length, take, IsOk, IfOk, OnOk, OnErr};
ghost use Rattle.ig_defs.specs.Causes.{Rose};
ghost use Rattle.ig_store.specs.Sink.{TakesPrefix, Sunk};

use crate::{Sink, SinkFault};
use std::alloc::{AllocError, Global};
use std::marker::Model;

/// A sink in memory, which takes as many bytes as its limit and then fails.
#[derive(Debug, Drop)]
pub struct MemSink {
    bytes: Vec<u8>,
    limit: usize,
    faults: u64,
}

impl Model for MemSink {
    ghost use Rattle.std.specs.Prelude.{◌≤◌, vec_len, vec_capacity};
    ghost use Rattle.ig_store.specs.Sink.{Sunk};

    ghost Value = { Sunk };

    ghost view = { λ s. record { bytes = s.bytes.items; limit = s.limit; faults = s.faults } };

    ghost invariant = { λ s. (vec_len s.bytes ≤ s.limit) × (s.limit ≤ vec_capacity s.bytes) };
}

impl MemSink {
    /// An empty sink, with memory for all that it will take.
    pub fn new(alloc: Global, limit: u64) -> Result<MemSink, AllocError>
        ensures { IfOk result (λ sink. sink ≡ record { bytes = []; limit = limit; faults = 0 }) }
    {
        let limit = limit as usize;
        Ok(MemSink {
            bytes: Vec::with_capacity(alloc, limit)?,
            limit,
            faults: 0,
        })
    }

    /// The bytes taken so far.
    pub fn bytes(&self) -> &[u8]
        ensures { result.now ≡ self.now.bytes }
    {
        self.bytes.as_slice()
    }
}

impl Sink for MemSink {
    ghost tells = { Unit {0} };

    ghost taken = { λ sink. sink.bytes };

    ghost faults = { λ sink. sink.faults };

    fn write(&mut self, bytes: &[u8]) -> Result<(), SinkFault>
        ensures later { self.old.faults ≤ self.new.faults }
        ensures cause { OnErr result (Rose self.old.faults self.new.faults) }
        ensures ok { Unit {0} → OnOk result (self.new.bytes ≡ self.old.bytes ++ bytes.now) }
        ensures err { Unit {0} → OnErr result (TakesPrefix self.old.bytes bytes.now self.new.bytes) }
        ensures fits { IsOk result ↔ (length self.old.bytes + length bytes.now ≤ self.old.limit) }
        ensures first { self.new.bytes ≡ self.old.bytes ++ take (self.old.limit - length self.old.bytes) bytes.now }
        ensures limit { self.new.limit ≡ self.old.limit }
        ensures counted { self.new.faults ≡ (if is_ok result then self.old.faults else min (self.old.faults + 1) (2 ^ 64 - 1)) }
    {
        let room = self.limit - self.bytes.len();
        if bytes.len() <= room {
            self.bytes.extend_from_slice(bytes).unwrap();
            return Ok(());
        }
        self.bytes.extend_from_slice(&bytes[..room]).unwrap();
        self.faults = self.faults.saturating_add(1);
        Err(SinkFault)
    }
}
