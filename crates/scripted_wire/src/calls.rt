// Calls of which some are to fail.
ghost use Rattle.std.specs.Prelude.{◌≡◌, ◌+◌};

use http_server::Log;
use std::marker::Model;

/// Calls, counted from 1, of which those of a list are to fail. Contracts see how often one of a port or a wait has failed, and how
/// often one of a link.
#[derive(Drop)]
pub(crate) struct Calls {
    failing: Vec<u64>,
    count: u64,
    ports: Log<(), ()>,
    links: Log<(), ()>,
}

impl Model for Calls {
    ghost use Rattle.std.specs.Prelude.{length};
    ghost use Rattle.scripted_wire.specs.Shown.{Failed};

    ghost Value = { Failed };

    ghost view = { λ c. record { ports = length c.ports.items; links = length c.links.items } };
}

impl Calls {
    /// No call was made. Takes no memory.
    pub fn new(failing: Vec<u64>) -> Self
        ensures { result ≡ record { ports = 0; links = 0 } }
    {
        Calls {
            failing,
            count: 0,
            ports: Log::new(),
            links: Log::new(),
        }
    }

    /// Counts a call, and says whether it is to fail.
    pub fn next_fails(&mut self) -> bool
        ensures { self.new ≡ self.old }
    {
        self.count = self.count.saturating_add(1);
        self.failing.contains(&self.count)
    }

    /// The call of a port, or the wait, has failed.
    pub fn fail_port(&mut self)
        ensures { self.new ≡ record self.old { ports = self.old.ports + 1 } }
    {
        self.ports = self.ports.and(&(), &());
    }

    /// The call of a link has failed.
    pub fn fail_link(&mut self)
        ensures { self.new ≡ record self.old { links = self.old.links + 1 } }
    {
        self.links = self.links.and(&(), &());
    }
}
