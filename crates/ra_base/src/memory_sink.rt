ghost use Rattle.std.specs.Prelude.{◌≡◌, ◌↔◌, ◌≤◌, ◌+◌, ◌-◌, ◌++◌, [], Some, IfOk, IsOk, OnErr, length, take, is_err};
ghost use Rattle.ra_base.specs.Causes.{Counts, one_more};
ghost use Rattle.ra_base.specs.Outside.{Writes};

use crate::{OutOfMemory, Sink, SinkFault};
use std::alloc::Global;
use std::marker::Model;

/// A sink in memory with a fixed capacity in bytes, which tells what it holds.
#[derive(Drop)]
pub struct MemorySink {
    bytes: Vec<u8>,
    capacity: usize,
    faults: u64,
}

impl Model for MemorySink {
    ghost use Rattle.std.specs.Prelude.{◌≤◌, vec_len, vec_capacity};
    ghost use Rattle.ra_base.specs.MemorySink.{HeldBytes};

    ghost Value = { HeldBytes };

    ghost view = { λ s. record { held = s.bytes.items; capacity = s.capacity; faults = s.faults } };

    ghost invariant = { λ s. (vec_len s.bytes ≤ s.capacity) × (s.capacity ≤ vec_capacity s.bytes) };
}

impl MemorySink {
    /// An empty sink, which takes all its room at once: its writes take no memory.
    pub fn new(alloc: Global, capacity: usize) -> Result<MemorySink, OutOfMemory>
        ensures empty { IfOk result (λ s. s.held ≡ []) }
        ensures capacity { IfOk result (λ s. s.capacity ≡ capacity) }
        ensures faults { IfOk result (λ s. s.faults ≡ 0) }
    {
        match Vec::with_capacity(alloc, capacity) {
            Ok(bytes) => Ok(MemorySink {
                bytes,
                capacity,
                faults: 0,
            }),
            Err(_) => Err(OutOfMemory),
        }
    }

    /// What the sink holds.
    pub fn bytes(&self) -> &[u8]
        ensures { result.now ≡ self.now.held }
    {
        &self.bytes
    }
}

impl Sink for MemorySink {
    ghost held = { λ s. Some s.held };

    ghost faults = { λ s. s.faults };

    fn write(&mut self, piece: &[u8]) -> Result<(), SinkFault>
        ensures held { Writes (Some self.old.held) (Some self.new.held) piece.now result }
        ensures faults { Counts (is_err result) self.old.faults self.new.faults }
        ensures fits { IsOk result ↔ (length self.old.held + length piece.now ≤ self.old.capacity) }
        ensures part { OnErr result (self.new.held
            ≡ self.old.held ++ take (self.old.capacity - length self.old.held) piece.now) }
        ensures count { OnErr result (self.new.faults ≡ one_more self.old.faults) }
        ensures capacity { self.new.capacity ≡ self.old.capacity }
    {
        let room = self.capacity - self.bytes.len();
        if piece.len() <= room {
            self.bytes.extend_from_slice(piece).unwrap();
            return Ok(());
        }
        self.bytes.extend_from_slice(&piece[..room]).unwrap();
        self.faults = self.faults.saturating_add(1);
        Err(SinkFault)
    }
}
