// The program's standard output.
ghost use Rattle.std.specs.Prelude.{None, length};

use http_server::Log;
use mx_wire::{Sink, SinkFailed};

/// Standard output. It doesn't tell what it took.
#[derive(Drop)]
pub struct StandardOut<'a> {
    rt: &'a HostRuntime,
    failed: Log<(), ()>,
}

impl<'a> StandardOut<'a> {
    /// The standard output of the runtime.
    pub fn new(rt: &'a HostRuntime) -> Self {
        StandardOut {
            rt,
            failed: Log::new(),
        }
    }
}

impl Sink for StandardOut<'_> {
    ghost taken = { λ out. None };

    ghost faults = { λ out. length out.failed.items };

    fn put(&mut self, bytes: &[u8]) -> Result<(), SinkFailed> {
        if Print::write_all(self.rt, bytes).is_ok() {
            return Ok(());
        }
        self.failed = self.failed.and(&(), &());
        Err(SinkFailed)
    }
}
