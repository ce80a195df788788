// A server that refuses.
ghost use Rattle.std.specs.Prelude.{◌≡◌, ◌∷◌, [], IfOk, OnOk, OnErr};
ghost use Rattle.small_server.specs.Refusals.{anything, ended, plain_ok, refused, refuses, syntax_error};

use mx_base::{Bytes, OutOfMemory};
use server_rule::{Cmd, ReplyList, Session, TameServer};
use session_vars::Settings;
use std::alloc::Global;
use std::marker::Model;

/// A server that refuses every command but the two that end a session. It has no data.
#[derive(Drop)]
pub struct Refuser {
    stored: Vec<u8>,
}

impl Model for Refuser {
    ghost use Rattle.std.specs.Prelude.{List, ℕ};

    ghost Value = { List ℕ };

    ghost view = { λ r. r.stored.items };
}

// A reply of one payload.
fn reply_of(alloc: Global, payload: &[u8]) -> Result<ReplyList, OutOfMemory>
    ensures { IfOk result (λ payloads. payloads ≡ payload.now ∷ []) }
{
    let mut reply = ReplyList::new(alloc);
    reply.push(Bytes::from_slice(alloc, payload)?)?;
    Ok(reply)
}

// Leaves a session as it is after a login, but for its schema.
fn end(session: &mut Session, alloc: Global) -> Result<(), OutOfMemory>
    ensures ok { OnOk result (session.new ≡ (ended [] session.old []).session) }
    ensures err { OnErr result (session.new ≡ session.old) }
{
    let settings = Settings::defaults(alloc)?;
    session.settings = settings;
    session.tx = Bytes::new(alloc);
    session.locks = Bytes::new(alloc);
    session.deep = Bytes::new(alloc);
    session.last_id = 0;
    session.diag = Bytes::new(alloc);
    Ok(())
}

impl Refuser {
    /// Takes no memory.
    pub fn new(alloc: Global) -> Self
        ensures { result ≡ [] }
    {
        Refuser {
            stored: Vec::new(alloc),
        }
    }
}

impl TameServer for Refuser {
    ghost stored = { λ r. r };

    ghost tests = { anything };

    ghost step = { refuses };

    fn tame() {}

    fn run(&mut self, session: &mut Session, cmd: &Cmd) -> Result<ReplyList, OutOfMemory> {
        let alloc = *self.stored.allocator();
        match cmd {
            Cmd::Reset => {
                let reply = reply_of(alloc, b"\0\0\0\x02\0\0\0")?;
                end(session, alloc)?;
                Ok(reply)
            }
            Cmd::Close => {
                end(session, alloc)?;
                Ok(ReplyList::new(alloc))
            }
            _ => {
                let reply = reply_of(alloc, b"\xFF\x28\x04#42000")?;
                session.diag = Bytes::new(alloc);
                Ok(reply)
            }
        }
    }
}
