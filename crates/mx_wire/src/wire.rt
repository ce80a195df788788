// The wire: each call is one entry of the log.
ghost use Rattle.std.specs.Prelude.{◌≡◌, ℕ, ◌<◌, ◌≤◌, List, Option, length};
ghost use Rattle.mx_base.specs.declared.names.LinkId.{LinkId};
ghost use Rattle.mx_wire.specs.Log.{Log};
ghost use Rattle.mx_wire.specs.Tells.{Tells, HasCause, OpenFor};
ghost use Rattle.mx_wire.specs.Offers.{TakesBy};
ghost use Rattle.mx_wire.specs.Answers.{listened_entry, woke_entry, named_entry, accepted_entry, opened_entry, got_entry, took_entry, ReadsAtMost, TakesAtMost};
ghost use Rattle.mx_wire.specs.declared.entry.Entry.TheVariants as entry;

use mx_base::{Address, LinkId, OutOfMemory, Port, ServerId, Tag};

/// The answer of `listen`.
#[derive(Clone, Copy, Debug)]
pub enum Listened {
    Done,
    Failed,
}

/// The answer of `wait`.
#[derive(Clone, Copy, Debug)]
pub enum Woke {
    Woke { now_ms: u64 },
    /// Nothing further will be ready.
    Over,
    Failed,
}

/// The answer of `accept`. Each byte of a salt is from 0x01 to 0x7F.
#[derive(Clone, Copy, Debug)]
pub enum Accepted {
    Link { id: LinkId, salt: [u8; 20] },
    NotReady,
    Failed,
}

/// The answer of `open`.
#[derive(Clone, Copy, Debug)]
pub enum Opened {
    Link { id: LinkId },
    Failed,
}

/// The answer of `read`.
#[derive(Clone, Copy, Debug)]
pub enum Got {
    /// So many bytes were read, at least one.
    Got { n: usize },
    NotReady,
    End,
    Failed,
}

/// The answer of `write`.
#[derive(Clone, Copy, Debug)]
pub enum Took {
    /// So many bytes of the piece were taken, at least one.
    Took { n: usize },
    NotReady,
    Failed,
}

/// Ports, links and readiness. Where a wire tells its log, each call but `reserve` adds the entry of its answer,
/// and marks may stand before it. A wire that doesn't tell its log at one moment doesn't tell it later.
pub trait Wire {
    /// The log so far, where the wire tells it.
    ghost told: { Self → Option Log };

    /// What the wire answers by, which no call changes.
    ghost Rules: { Type 0 };

    ghost ruled_by: { Self → Rules };

    /// What a write takes of a piece that is offered to a link behind a log, where the wire says so.
    ghost takes: { Rules → Log → LinkId → (piece taken : List ℕ) → Type 0 };

    /// How often a port or a wait has failed.
    ghost port_faults: { Self → ℕ };

    /// How often a link has failed.
    ghost faults: { Self → ℕ };

    /// Makes room, so that this many links can be open without further memory.
    fn reserve(&mut self, links: u32) -> Result<(), OutOfMemory>
        ensures told { told self.new ≡ told self.old }
        ensures rule { ruled_by self.new ≡ ruled_by self.old }
        ensures port_faults { port_faults self.old ≤ port_faults self.new }
        ensures faults { faults self.old ≤ faults self.new };

    /// Listens at an address. Failed comes only where `port_faults` rose.
    fn listen(&mut self, port: Port, address: Address) -> Listened
        ensures told { Tells (told self.old) (listened_entry port address result) (told self.new) }
        ensures rule { ruled_by self.new ≡ ruled_by self.old }
        ensures cause { HasCause (result ≡ Listened.Failed) (port_faults self.old) (port_faults self.new) }
        ensures faults { faults self.old ≤ faults self.new };

    /// Waits until something is ready or the moment has come. Moments never fall. Over says that nothing further
    /// will be ready; Failed comes only where `port_faults` rose.
    fn wait(&mut self, until_ms: u64) -> Woke
        ensures told { Tells (told self.old) (woke_entry until_ms result) (told self.new) }
        ensures rule { ruled_by self.new ≡ ruled_by self.old }
        ensures cause { HasCause (result ≡ Woke.Failed) (port_faults self.old) (port_faults self.new) }
        ensures faults { faults self.old ≤ faults self.new };

    /// The links that the last wake named, each once, then None.
    fn next_ready(&mut self) -> Option<LinkId>
        ensures told { Tells (told self.old) (named_entry result) (told self.new) }
        ensures rule { ruled_by self.new ≡ ruled_by self.old }
        ensures port_faults { port_faults self.old ≤ port_faults self.new }
        ensures faults { faults self.old ≤ faults self.new };

    /// The next client that waits at the port, on a new link. Failed comes only where `port_faults` rose.
    fn accept(&mut self, port: Port) -> Accepted
        ensures told { Tells (told self.old) (accepted_entry port result) (told self.new) }
        ensures rule { ruled_by self.new ≡ ruled_by self.old }
        ensures cause { HasCause (result ≡ Accepted.Failed) (port_faults self.old) (port_faults self.new) }
        ensures faults { faults self.old ≤ faults self.new };

    /// Opens a new link to a server. Failed comes only where `faults` rose.
    fn open(&mut self, server: ServerId, address: Address) -> Opened
        ensures told { Tells (told self.old) (opened_entry server address result) (told self.new) }
        ensures rule { ruled_by self.new ≡ ruled_by self.old }
        ensures cause { HasCause (result ≡ Opened.Failed) (faults self.old) (faults self.new) }
        ensures port_faults { port_faults self.old ≤ port_faults self.new };

    /// Reads to the front of `into`, which has room for 65,536 bytes. Failed comes only where `faults` rose.
    fn read(&mut self, link: LinkId, into: &mut [u8]) -> Got
        requires room { length into.old ≡ 65536 }
        requires open { OpenFor (told self.old) link }
        ensures told { Tells (told self.old) (got_entry link into.new result) (told self.new) }
        ensures rule { ruled_by self.new ≡ ruled_by self.old }
        ensures bound { ReadsAtMost (length into.old) result }
        ensures cause { HasCause (result ≡ Got.Failed) (faults self.old) (faults self.new) }
        ensures port_faults { port_faults self.old ≤ port_faults self.new };

    /// Writes a front of the piece. Failed comes only where `faults` rose.
    fn write(&mut self, link: LinkId, tag: Tag, piece: &[u8]) -> Took
        requires some { 0 < length piece.now }
        requires open { OpenFor (told self.old) link }
        ensures told { Tells (told self.old) (took_entry link tag piece.now result) (told self.new) }
        ensures takes { TakesBy (takes (ruled_by self.old)) link piece.now (told self.new) }
        ensures rule { ruled_by self.new ≡ ruled_by self.old }
        ensures bound { TakesAtMost (length piece.now) result }
        ensures cause { HasCause (result ≡ Took.Failed) (faults self.old) (faults self.new) }
        ensures port_faults { port_faults self.old ≤ port_faults self.new };

    /// Closes a link, which no later call names.
    fn close(&mut self, link: LinkId)
        requires open { OpenFor (told self.old) link }
        ensures told { Tells (told self.old) (entry.Closed link) (told self.new) }
        ensures rule { ruled_by self.new ≡ ruled_by self.old }
        ensures port_faults { port_faults self.old ≤ port_faults self.new }
        ensures faults { faults self.old ≤ faults self.new };
}
