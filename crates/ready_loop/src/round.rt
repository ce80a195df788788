// What the loop counts from wake to wake.
ghost use Rattle.std.specs.Prelude.{◌≡◌, ◌<◌, ◌+◌, [], true, false};
ghost use Rattle.ready_loop.specs.Drained.{when_port};
ghost use Rattle.ready_loop.specs.Round.{CountsOf};

use mx_base::Port;

/// What was asked of the ports and of the names since the last wake, and how many calls of the wire were made.
#[derive(Clone, Copy)]
pub struct Round {
    /// The last accept of the port found nobody.
    pub traffic: bool,
    pub admin: bool,
    /// Each ready link was named.
    pub named: bool,
    /// Calls since the last wake.
    pub calls: u64,
    /// Waits that woke.
    pub wakes: u64,
}

impl Round {
    /// Before the first wake neither ports nor names are asked.
    pub fn new() -> Self
        ensures counts { CountsOf result [] }
        ensures calls { result.calls ≡ 0 }
        ensures wakes { result.wakes ≡ 0 }
    {
        Round {
            traffic: true,
            admin: true,
            named: true,
            calls: 0,
            wakes: 0,
        }
    }

    /// A wait woke: all is asked again.
    pub fn woke(&mut self)
        requires { self.old.wakes < 18446744073709551615 }
        ensures { self.new ≡ record { traffic = false; admin = false; named = false; calls = 0; wakes = self.old.wakes + 1 } }
    {
        self.traffic = false;
        self.admin = false;
        self.named = false;
        self.calls = 0;
        self.wakes += 1;
    }

    /// What the last accept of a port found.
    pub fn accepted(&mut self, port: Port, nobody: bool)
        ensures { self.new ≡ record self.old { traffic = when_port Port.Traffic port nobody self.old.traffic; admin = when_port Port.Admin port nobody self.old.admin } }
    {
        match port {
            Port::Traffic => self.traffic = nobody,
            Port::Admin => self.admin = nobody,
        }
    }
}
