// The clients that wait at the port.
ghost use Rattle.std.specs.Prelude.{◌≡◌, ◌+◌, ◌<◌, length, nat_lt, not, IfOk, OnErr, Some};
ghost use Rattle.std.specs.List.{All};
ghost use Rattle.handshake.specs.Spelling.{IsText};
ghost use Rattle.scripted_wire.specs.Scripts.{Scripts, Comes, commands_at};

use crate::script::Script;
use crate::scripted_client::ScriptedClient;
use mx_base::{Bytes, OutOfMemory};
use std::alloc::Global;
use std::marker::Model;

/// The scripts in order, and how many of their clients have come.
#[derive(Drop)]
pub(crate) struct Waiting {
    scripts: Vec<Script>,
    came: usize,
}

impl Model for Waiting {
    ghost use Rattle.std.specs.List.{All};
    ghost use Rattle.handshake.specs.Spelling.{IsText};
    ghost use Rattle.scripted_wire.specs.Scripts.{Scripts};

    ghost Value = { Scripts };

    ghost view = { λ w. record { scripts = w.scripts.items; came = w.came } };

    ghost invariant = { λ w. All (λ script. IsText script.user) w.scripts.items };
}

impl Waiting {
    /// Nobody has come. Takes no memory.
    pub fn new(scripts: Vec<Script>) -> Self
        requires { All (λ script. IsText script.user) scripts.items }
        ensures { result ≡ record { scripts = scripts.items; came = 0 } }
    {
        Waiting { scripts, came: 0 }
    }

    /// Whether nobody waits.
    pub fn is_empty(&self) -> bool
        ensures { result ≡ not (nat_lt self.now.came (length self.now.scripts)) }
    {
        self.came >= self.scripts.len()
    }

    /// The next client comes, where one waits.
    pub fn next(&mut self, alloc: Global) -> Result<Option<ScriptedClient>, OutOfMemory>
        ensures ok { IfOk result (λ client. Comes self.old client self.new) }
        ensures err { OnErr result (self.new ≡ self.old) }
    {
        if self.came >= self.scripts.len() {
            return Ok(None);
        }
        let script = &self.scripts[self.came];
        let user = script.user.as_slice();
        let client = ScriptedClient::new(alloc, self.came, user, script.password.as_slice())?;
        self.came += 1;
        Ok(Some(client))
    }

    /// The commands of the script at this place.
    pub fn commands(&self, at: usize) -> &[Bytes]
        ensures { result.now ≡ commands_at self.now.scripts at }
    {
        match self.scripts.get(at) {
            Some(script) => &script.commands,
            None => &[],
        }
    }
}
