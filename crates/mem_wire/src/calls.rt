// Calls of which some are to fail.
ghost use Rattle.std.specs.Prelude.{◌≡◌, ◌+◌};

use http_server::Log;
use std::marker::Model;

/// Calls, counted from 1, of which those of a list are to fail. Contracts see how often one has failed.
#[derive(Drop)]
pub(crate) struct Calls {
    failing: Vec<u64>,
    count: u64,
    failed: Log<u64, u64>,
}

impl Model for Calls {
    ghost use Rattle.std.specs.Prelude.{ℕ, length};

    ghost Value = { ℕ };

    ghost view = { λ c. length c.failed.items };
}

impl Calls {
    /// No call was made. Takes no memory.
    pub fn new(failing: Vec<u64>) -> Self
        ensures { result ≡ 0 }
    {
        Calls {
            failing,
            count: 0,
            failed: Log::new(),
        }
    }

    /// Counts a call, and says whether it is to fail.
    pub fn next_fails(&mut self) -> bool
        ensures { self.new ≡ self.old }
    {
        self.count = self.count.saturating_add(1);
        self.failing.contains(&self.count)
    }

    /// The call has failed.
    pub fn fail(&mut self)
        ensures { self.new ≡ self.old + 1 }
    {
        self.failed = self.failed.and(&self.count, &0);
    }
}
