// A sink in memory.
ghost use Rattle.std.specs.Prelude.{◌≡◌, [], Some};

use crate::calls::Calls;
use mx_wire::{Sink, SinkFailed};
use std::alloc::Global;
use std::marker::Model;

/// The bytes that were put. The calls of the list that it is made with fail, counted from 1, and so does a put for
/// which there is no memory; a put that fails takes nothing.
#[derive(Drop)]
pub struct MemSink {
    bytes: Vec<u8>,
    calls: Calls,
}

impl Model for MemSink {
    ghost use Rattle.mem_wire.specs.Held.{HeldBytes};

    ghost Value = { HeldBytes };

    ghost view = { λ s. record { bytes = s.bytes.items; faults = s.calls } };
}

impl MemSink {
    /// A sink that has taken nothing. Takes no memory.
    pub fn new(alloc: Global, failing: Vec<u64>) -> Self
        ensures { result ≡ record { bytes = []; faults = 0 } }
    {
        MemSink {
            bytes: Vec::new(alloc),
            calls: Calls::new(failing),
        }
    }

    /// The bytes that were taken.
    pub fn bytes(&self) -> &[u8]
        ensures { result.now ≡ self.now.bytes }
    {
        &self.bytes
    }
}

impl Sink for MemSink {
    ghost taken = { λ s. Some s.bytes };

    ghost faults = { λ s. s.faults };

    fn put(&mut self, bytes: &[u8]) -> Result<(), SinkFailed> {
        if !self.calls.next_fails() && self.bytes.extend_from_slice(bytes).is_ok() {
            return Ok(());
        }
        self.calls.fail();
        Err(SinkFailed)
    }
}
