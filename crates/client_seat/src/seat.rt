// The seat of a client.
use crate::outbox::Outbox;
use crate::phase::Phase;
use client_session::{Refusal, Setup, write_refusal};
use client_side::Client;
use mx_base::{Bytes, ClientNo, Hostgroup, LinkId, OutOfMemory, Port};
use session_state::Place;
use session_vars::Settings;
use std::alloc::Global;
use stmt_map::ClientStatements;

/// While at least so many bytes for it are unwritten, none of a client's messages is taken up.
const ROOM: usize = 1_048_576;

/// A client whose last message isn't answered isn't read while so many bytes are kept.
const AHEAD: u64 = 1_048_576;

/// A client: what was read of it and isn't taken up, how far it is, where it stands, what it has prepared, and what is to be
/// written to it.
#[derive(Drop)]
pub struct Seat {
    /// The link and the port on which it came.
    pub link: LinkId,
    pub port: Port,
    /// Its number, its login, and its messages. What it says itself to the client goes to `outbox` at once.
    pub client: Client,
    pub phase: Phase,
    /// It was asked to switch the login method.
    pub switched: bool,
    /// Its last message that was taken up is answered.
    pub answered: bool,
    /// The sequence id with which the answer to its last message that came up begins.
    pub first: u8,
    /// Where it stands, and the collation of its login.
    pub place: Place,
    pub collation: u8,
    /// The flag by which rules are tried first.
    pub flag: u16,
    /// The hostgroup of its last statement that became due.
    pub last: Option<Hostgroup>,
    pub statements: ClientStatements,
    pub outbox: Outbox,
}

impl Seat {
    ghost use Rattle.std.specs.Prelude.{◌≡◌, ◌≤◌, None, OnErr, OnOk, IfOk, length, ℕ};
    ghost use Rattle.packet_frame.specs.Packets.{lacking};
    ghost use Rattle.server_side.specs.Account.{Account};
    ghost use Rattle.std.specs.Option.{option_copied};
    ghost use Rattle.stmt_map.specs.Client.{statement_at};
    ghost use Rattle.client_seat.specs.Seats.{account_in, drained, ended, got, has_room, is_finished, new_seat, seat_of, turned_away, wants_read, wrote};

    // A seat to which nothing is to be written but what its client's link says.
    fn of(alloc: Global, link: LinkId, port: Port, client: Client) -> Result<Self, OutOfMemory>
        ensures is { IfOk result (λ seat. seat ≡ seat_of link port client seat.statements) }
        ensures none { IfOk result (λ seat. (number : ℕ) → statement_at seat.statements number ≡ None) }
        ensures unnumbered { IfOk result (λ seat. seat.statements.last ≡ 0) }
    {
        let settings = Settings::defaults(alloc)?;
        Ok(Seat {
            link,
            port,
            client,
            phase: Phase::LoggingIn,
            switched: false,
            answered: true,
            first: 0,
            place: Place {
                schema: Bytes::new(alloc),
                settings,
            },
            collation: 0,
            flag: 0,
            last: None,
            statements: ClientStatements::new(alloc),
            outbox: Outbox::new(alloc),
        })
    }

    // What the client's link says is due.
    pub(crate) fn drain(&mut self) -> Result<(), OutOfMemory>
        ensures { OnOk result (self.new ≡ drained self.old) }
    {
        let said = self.client.outgoing();
        let n = said.len();
        self.outbox.say(said)?;
        self.client.taken(n);
        Ok(())
    }

    /// A client that comes and is served: the greeting is due to it (client/server protocol, "Protocol::Handshake").
    pub fn new(
        alloc: Global,
        link: LinkId,
        number: ClientNo,
        salt: [u8; 20],
        port: Port,
        setup: &Setup,
    ) -> Result<Self, OutOfMemory>
        ensures is { IfOk result (λ seat. seat ≡ new_seat link number salt port setup.now seat.statements) }
        ensures none { IfOk result (λ seat. (number : ℕ) → statement_at seat.statements number ≡ None) }
        ensures unnumbered { IfOk result (λ seat. seat.statements.last ≡ 0) }
    {
        let client = Client::new(alloc, number, salt, setup.limit(), setup.version())?;
        let mut seat = Seat::of(alloc, link, port, client)?;
        seat.drain()?;
        Ok(seat)
    }

    /// A client that isn't served, and nothing is read of it: error 1040 is due to it, alone.
    pub fn turned_away(
        alloc: Global,
        link: LinkId,
        number: ClientNo,
        salt: [u8; 20],
        port: Port,
    ) -> Result<Self, OutOfMemory>
        ensures is { IfOk result (λ seat. seat ≡ turned_away link number salt port seat.statements) }
    {
        let mut packet = Vec::new(alloc);
        write_refusal(alloc, &mut packet, 0, Refusal::TooManyConnections)?;
        let client = Client::told(alloc, number, salt, 0, &packet)?;
        let mut seat = Seat::of(alloc, link, port, client)?;
        seat.drain()?;
        seat.end();
        Ok(seat)
    }

    /// Bytes of the client come, and are kept unless it ended. OutOfMemory leaves everything as it was.
    pub fn got(&mut self, bytes: &[u8]) -> Result<(), OutOfMemory>
        ensures ok { OnOk result (self.new ≡ got bytes.now self.old) }
        ensures err { OnErr result (self.new ≡ self.old) }
    {
        match self.phase {
            Phase::Ended => Ok(()),
            _ => self.client.feed(bytes),
        }
    }

    /// Whether more of it is to be read: it didn't end, and where its last message isn't answered, less than a mebibyte
    /// is kept.
    pub fn wants_read(&self) -> bool
        ensures { result ≡ wants_read self.now }
    {
        match self.phase {
            Phase::Ended => false,
            _ => self.answered || self.client.kept() < AHEAD,
        }
    }

    /// Its number.
    pub fn number(&self) -> ClientNo
        ensures { result ≡ self.now.client.number }
    {
        self.client.number()
    }

    /// Who the client is, once it is logged in and until it ends.
    pub fn account(&self) -> Option<&server_side::Account>
        ensures { option_copied result ≡ account_in self.now.phase }
    {
        match &self.phase {
            Phase::Serving(account) => Some(account),
            _ => None,
        }
    }

    /// How many bytes are kept of what was read.
    pub fn kept(&self) -> u64
        ensures { result ≡ length self.now.client.framer.kept }
    {
        self.client.kept()
    }

    /// How many bytes the packet that the kept bytes begin with still lacks, 0 while its header isn't whole.
    pub fn lacking(&self) -> u64
        ensures { result ≡ lacking self.now.client.framer.kept }
    {
        self.client.announced()
    }

    /// What is to be written.
    pub fn outgoing(&self) -> &[u8]
        ensures { result.now ≡ self.now.outbox.due }
    {
        self.outbox.due()
    }

    /// So many of these bytes were written. Takes no memory.
    pub fn wrote(&mut self, n: usize)
        requires { n ≤ length self.old.outbox.due }
        ensures { self.new ≡ wrote n self.old }
    {
        self.outbox.advance(n);
    }

    /// Whether fewer than a mebibyte of bytes are unwritten.
    pub fn has_room(&self) -> bool
        ensures { result ≡ has_room self.now }
    {
        self.outbox.due().len() < ROOM
    }

    /// The client ends: no more is read of it, and what is due to it stays so. Takes no memory.
    pub fn end(&mut self)
        ensures { self.new ≡ ended self.old }
    {
        self.phase = Phase::Ended;
    }

    /// Whether it ended, and all was written to it.
    pub fn is_finished(&self) -> bool
        ensures { result ≡ is_finished self.now }
    {
        matches!(self.phase, Phase::Ended) && self.outbox.due().is_empty()
    }
}
