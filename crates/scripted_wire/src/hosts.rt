// Servers in code, and the sessions of the links to them.
ghost use Rattle.std.specs.Prelude.{◌≡◌, true, [], length, map, IfOk, OnErr};
ghost use Rattle.std.specs.List.{All};
ghost use Rattle.server_rule.specs.Servers.{Runs, fresh};
ghost use Rattle.scripted_wire.specs.Hosts.{Hosted, RunsIn, Enters, index_of};

use mx_base::{Bytes, OutOfMemory, ServerId};
use server_rule::{Capabilities, Cmd, ReplyList, Session, TameServer};
use session_vars::Settings;
use std::alloc::Global;
use std::marker::Model;

/// A session, and the place of its server.
#[derive(Drop)]
pub(crate) struct Seat {
    pub server: usize,
    pub session: Session,
}

/// Servers in code, and the sessions of the links to them.
#[derive(Drop)]
pub struct Hosts<R: TameServer> {
    servers: Vec<R>,
    seats: Vec<Seat>,
}

impl<R: TameServer> Model for Hosts<R> {
    ghost use Rattle.std.specs.Prelude.{◌≡◌, map, true};
    ghost use Rattle.std.specs.List.{All};
    ghost use Rattle.scripted_wire.specs.Hosts.{Hosted, IsTaken};

    ghost Value = { Hosted };

    ghost view = { λ h. record { stored = map R.stored h.servers.items; seats = h.seats.items } };

    ghost invariant = { λ h. All (λ server. R.tests.is_data (R.stored server) ≡ true) h.servers.items × All (IsTaken R.tests) h.seats.items };
}

// A session in which nothing ran.
fn fresh(alloc: Global, user: &[u8], capabilities: Capabilities) -> Result<Session, OutOfMemory>
    ensures { IfOk result (λ session. session ≡ fresh user.now capabilities []) }
{
    Ok(Session {
        user: Bytes::from_slice(alloc, user)?,
        capabilities,
        schema: Bytes::new(alloc),
        settings: Settings::defaults(alloc)?,
        tx: Bytes::new(alloc),
        locks: Bytes::new(alloc),
        deep: Bytes::new(alloc),
        last_id: 0,
        diag: Bytes::new(alloc),
    })
}

impl<R: TameServer> Hosts<R> {
    /// Servers without a session.
    pub fn new(alloc: Global, servers: Vec<R>) -> Self
        requires { All (λ server. R.tests.is_data (R.stored server) ≡ true) servers.items }
        ensures { result ≡ record { stored = map R.stored servers.items; seats = [] } }
    {
        Hosts {
            servers,
            seats: Vec::new(alloc),
        }
    }

    /// The place of a server, which are counted from 1.
    pub fn index(&self, server: ServerId) -> Option<usize>
        ensures { result ≡ index_of (length self.now.stored) server }
    {
        let number = usize::from(server.0);
        if number == 0 || number > self.servers.len() {
            return None;
        }
        Some(number - 1)
    }

    /// A session begins at the server of this place. Answers the session's own place.
    pub fn enter(
        &mut self,
        alloc: Global,
        server: usize,
        user: &[u8],
        capabilities: Capabilities,
    ) -> Result<usize, OutOfMemory>
        ensures ok { IfOk result (λ seat. Enters server user.now capabilities self.old seat self.new) }
        ensures err { OnErr result (self.new ≡ self.old) }
    {
        R::tame();
        let seat = self.seats.len();
        let session = fresh(alloc, user, capabilities)?;
        self.seats.push(Seat { server, session })?;
        Ok(seat)
    }

    /// Runs a command in the session at this place. None where there is no such one. OutOfMemory changes nothing.
    pub fn run(&mut self, seat: usize, cmd: &Cmd) -> Result<Option<ReplyList>, OutOfMemory>
        ensures ok { IfOk result (λ reply. RunsIn R.step seat cmd.now self.old reply self.new) }
        ensures err { OnErr result (self.new ≡ self.old) }
    {
        if seat >= self.seats.len() {
            return Ok(None);
        }
        let place = &mut self.seats[seat];
        let server = place.server;
        if server >= self.servers.len() {
            return Ok(None);
        }
        let host = &mut self.servers[server];
        R::tame();
        Ok(Some(host.run(&mut place.session, cmd)?))
    }
}
