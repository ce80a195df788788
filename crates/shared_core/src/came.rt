// Who came, and the moment.
ghost use Rattle.std.specs.Prelude.{◌≡◌};
ghost use Rattle.shared_core.specs.Came.{came_then, is_administrators_port};

use mx_base::Port;

/// How many clients came, at both ports, whether an administrator did, and the moment of the last wake, in milliseconds.
#[derive(Clone, Copy)]
pub struct Came {
    pub clients: u64,
    pub administrator: bool,
    pub clock: u64,
}

fn is_administrators(port: Port) -> bool
    ensures { result ≡ is_administrators_port port }
{
    match port {
        Port::Traffic => false,
        Port::Admin => true,
    }
}

impl Came {
    /// One more comes at this port.
    pub fn then(self, port: Port) -> Self
        ensures { result ≡ came_then self port }
    {
        Came {
            clients: self.clients.saturating_add(1),
            administrator: self.administrator || is_administrators(port),
            clock: self.clock,
        }
    }
}
