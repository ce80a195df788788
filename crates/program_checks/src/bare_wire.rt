// A wire that tells no log.
ghost use Rattle.std.specs.Prelude.{None, length};

use http_server::Log;
use mx_base::{Address, LinkId, OutOfMemory, Port, ServerId, Tag};
use mx_wire::{Accepted, Got, Listened, Opened, Took, Wire, Woke};

/// A wire with one wake, at which one client sends so many bytes, or without clients and wakes; its ports may be taken. The sizes of the
/// reads are kept, and whether a write was offered. What can't be done fails.
#[derive(Drop)]
pub struct BareWire {
    failed: Log<(), ()>,
    are_taken: bool,
    came: bool,
    woke: bool,
    left: usize,
    reads: usize,
    pub sizes: [usize; 4],
    pub is_offered: bool,
}

impl BareWire {
    fn new(are_taken: bool, is_silent: bool, bytes: usize) -> Self {
        BareWire {
            failed: Log::new(),
            are_taken,
            came: is_silent,
            woke: is_silent,
            left: bytes,
            reads: 0,
            sizes: [7; 4],
            is_offered: false,
        }
    }

    /// Nobody comes.
    pub fn without_clients(are_taken: bool) -> Self {
        BareWire::new(are_taken, true, 0)
    }

    /// A client comes with so many bytes.
    pub fn with_bytes(bytes: usize) -> Self {
        BareWire::new(false, false, bytes)
    }
}

impl Wire for BareWire {
    ghost told = { λ _. None };

    ghost port_faults = { λ wire. length wire.failed.items };

    ghost faults = { λ wire. length wire.failed.items };

    ghost Rules = { Unit {0} };

    ghost ruled_by = { λ _. tt };

    ghost takes = { λ _ _ _ _ _. Unit {0} };

    fn reserve(&mut self, _: u32) -> Result<(), OutOfMemory> {
        Ok(())
    }

    fn listen(&mut self, _: Port, _: Address) -> Listened {
        if self.are_taken {
            self.failed = self.failed.and(&(), &());
            return Listened::Failed;
        }
        Listened::Done
    }

    fn wait(&mut self, _: u64) -> Woke {
        if self.woke {
            return Woke::Over;
        }
        self.woke = true;
        Woke::Woke { now_ms: 1 }
    }

    fn next_ready(&mut self) -> Option<LinkId> {
        None
    }

    fn accept(&mut self, port: Port) -> Accepted {
        if self.came || port == Port::Admin {
            return Accepted::NotReady;
        }
        self.came = true;
        Accepted::Link {
            id: LinkId(1),
            salt: [1; 20],
        }
    }

    fn open(&mut self, _: ServerId, _: Address) -> Opened {
        self.failed = self.failed.and(&(), &());
        Opened::Failed
    }

    fn read(&mut self, _: LinkId, into: &mut [u8]) -> Got {
        let n = self.left.min(into.len());
        if self.reads < 4 {
            self.sizes[self.reads] = n;
            self.reads += 1;
        }
        self.left -= n;
        if n == 0 {
            Got::NotReady
        } else {
            Got::Got { n }
        }
    }

    fn write(&mut self, _: LinkId, _: Tag, _: &[u8]) -> Took {
        self.is_offered = true;
        Took::NotReady
    }

    fn close(&mut self, _: LinkId) {}
}
