// A link of the router.
ghost use Rattle.std.specs.Prelude.{◌≡◌, ◌<◌, length, OnOk, IfOk};
ghost use Rattle.scripted_wire.specs.Giving.{Gives, is_some_of};
ghost use Rattle.scripted_wire.specs.Links.{new_link, unread, ends, has_news, peer_read, read_on, PeerHears, LinkHears, LinkServed, link_served, peer_rests, link_rests};

use crate::did::Did;
use crate::hosts::Hosts;
use crate::scripted_client::ScriptedClient;
use crate::server_link::ServerLink;
use crate::waiting::Waiting;
use mx_base::OutOfMemory;
use mx_wire::Got;
use server_rule::TameServer;
use std::alloc::Global;

/// Who is at the other end of a link.
#[derive(Drop)]
pub(crate) enum Peer {
    Client(ScriptedClient),
    Server(ServerLink),
}

/// A link of the router: who is at its other end, whether the router has closed it, and whether the router was told that the other
/// end has.
#[derive(Drop)]
pub(crate) struct Link {
    pub peer: Peer,
    pub closed: bool,
    pub told: bool,
}

impl Peer {
    // Reads what was said.
    fn give(&mut self, into: &mut [u8]) -> Got
        requires { 0 < length into.old }
        ensures gives { Gives (unread self.old) (ends self.old) into.old into.new result }
        ensures rest { self.new ≡ peer_read result self.old }
    {
        match self {
            Peer::Client(client) => client.give(into),
            Peer::Server(link) => link.give(into),
        }
    }

    // These bytes are written.
    fn hear(&mut self, alloc: Global, waiting: &Waiting, piece: &[u8]) -> Result<(), OutOfMemory>
        ensures { OnOk result (PeerHears waiting.now.scripts piece.now self.old self.new) }
    {
        match self {
            Peer::Client(client) => {
                let commands = waiting.commands(client.script);
                client.hear(alloc, commands, piece)
            }
            Peer::Server(link) => link.hear(piece),
        }
    }

    // Whether bytes can be read.
    fn has_said(&self) -> bool
        ensures { result ≡ is_some_of (unread self.now) }
    {
        match self {
            Peer::Client(client) => client.has_said(),
            Peer::Server(link) => link.has_said(),
        }
    }

    // Whether the link ends behind what was said.
    fn ends(&self) -> bool
        ensures { result ≡ ends self.now }
    {
        match self {
            Peer::Client(client) => client.ends(),
            Peer::Server(link) => link.ended,
        }
    }

    // Whether nothing is to come of a client.
    fn rests(&self, waiting: &Waiting) -> bool
        ensures { result ≡ peer_rests waiting.now.scripts self.now }
    {
        match self {
            Peer::Client(client) => client.is_finished(waiting.commands(client.script).len()),
            Peer::Server(_) => true,
        }
    }
}

impl Link {
    /// A link that comes.
    pub fn new(peer: Peer) -> Link
        ensures { result ≡ new_link peer }
    {
        Link {
            peer,
            closed: false,
            told: false,
        }
    }

    /// The router reads.
    pub fn give(&mut self, into: &mut [u8]) -> Got
        requires { 0 < length into.old }
        ensures gives { Gives (unread self.old.peer) (ends self.old.peer) into.old into.new result }
        ensures rest { self.new ≡ read_on result self.old }
    {
        let got = self.peer.give(into);
        if let Got::End = got {
            self.told = true;
        }
        got
    }

    /// The router writes these bytes. Behind OutOfMemory nothing is promised.
    pub fn hear(
        &mut self,
        alloc: Global,
        waiting: &Waiting,
        piece: &[u8],
    ) -> Result<(), OutOfMemory>
        ensures { OnOk result (LinkHears waiting.now.scripts piece.now self.old self.new) }
    {
        self.peer.hear(alloc, waiting, piece)
    }

    /// The server does what it does at a wake, where the link is to one. Behind OutOfMemory nothing is promised.
    pub fn serve<R: TameServer>(
        &mut self,
        alloc: Global,
        hosts: &mut Hosts<R>,
    ) -> Result<Did, OutOfMemory>
        ensures { IfOk result (λ did. record { link = self.new; hosted = hosts.new; did = did } ≡ link_served R.step self.old hosts.old) }
    {
        let closed = self.closed;
        match &mut self.peer {
            Peer::Client(_) => Ok(Did::Nothing),
            Peer::Server(link) => link.serve(alloc, hosts, closed),
        }
    }

    /// Whether there is something to read, or the end, of which the router wasn't told.
    pub fn has_news(&self) -> bool
        ensures { result ≡ has_news self.now }
    {
        !self.closed && (self.peer.has_said() || (self.peer.ends() && !self.told))
    }

    /// Whether nothing is to come of it.
    pub fn rests(&self, waiting: &Waiting) -> bool
        ensures { result ≡ link_rests waiting.now.scripts self.now }
    {
        self.closed || (!self.has_news() && self.peer.rests(waiting))
    }
}
