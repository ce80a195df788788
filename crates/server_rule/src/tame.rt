// Servers of which the laws hold.
ghost use Rattle.std.specs.Prelude.{◌≡◌, ℕ, List, IfOk, OnErr};
ghost use Rattle.server_rule.specs.Servers.{Step, Tests, Accepts, Runs};
ghost use Rattle.server_rule.specs.Classes.{router_reads};
ghost use Rattle.server_rule.specs.Laws.{IsTame};

use crate::{Cmd, ReplyList, Session};
use mx_base::OutOfMemory;

/// A server: its data, and what one command does to them and to the session of a connection.
pub trait TameServer {
    /// Its data.
    ghost stored: { Self → List ℕ };

    /// Which data and sessions it takes.
    ghost tests: { Tests };

    /// What a command does.
    ghost step: { Step };

    /// The ten laws hold, with the classes that the router reads. Does nothing.
    fn tame()
        ensures { IsTame router_reads tests step };

    /// Runs a command in a session. OutOfMemory changes neither.
    fn run(&mut self, session: &mut Session, cmd: &Cmd) -> Result<ReplyList, OutOfMemory>
        requires { Accepts tests (stored self.old) session.old }
        ensures ok { IfOk result (λ payloads. Runs step (stored self.old) session.old cmd.now (stored self.new) session.new payloads) }
        ensures err { OnErr result ((stored self.new ≡ stored self.old) × (session.new ≡ session.old)) };
}
