// The link of a client.
ghost use Rattle.std.specs.Prelude.{◌≡◌};
ghost use Rattle.client_side.specs.Login.{login_limit};

use crate::greeting::greeting_packet;
use crate::next::counted;
use crate::stage::Stage;
use handshake::Response;
use mx_base::{ByteQueue, ClientNo, OutOfMemory};
use packet_frame::Framer;
use std::alloc::Global;
use std::marker::Model;

/// What a client may say before its login is done: messages of so many bytes.
const MOST_LOGIN: u64 = 65_536;

/// The limit of the messages of a login, where commands have this one: 65,536 bytes, or that one where it is less.
pub fn login_limit(limit: u64) -> u64
    ensures { result ≡ login_limit limit }
{
    if limit < MOST_LOGIN {
        limit
    } else {
        MOST_LOGIN
    }
}

/// The link of a client (client/server protocol, "Connection Lifecycle"): what was read of it and isn't answered, and
/// what is to be written to it.
#[derive(Drop)]
pub struct Client {
    pub(crate) alloc: Global,
    number: ClientNo,
    pub(crate) salt: [u8; 20],
    limit: u64,
    pub(crate) framer: Framer,
    pub(crate) stage: Stage,
    pub(crate) arrived: u64,
    pub(crate) outgoing: ByteQueue,
}

impl Model for Client {
    ghost use Rattle.client_side.specs.Client.{ClientState};

    ghost Value = { ClientState };

    ghost view = { λ c. record { number = c.number; salt = c.salt; framer = record c.framer { limit = c.limit }; stage = c.stage; arrived = c.arrived; outgoing = c.outgoing } };

    ghost use Rattle.std.specs.Prelude.{◌≡◌};
    ghost use Rattle.client_side.specs.Client.{is_in, limit_at};

    ghost invariant = { λ c. c.framer.limit ≡ limit_at (is_in c.stage) c.limit };
}

impl Client {
    ghost use Rattle.std.specs.Prelude.{◌≡◌, ◌≤◌, ◌++◌, length, drop, IsSome, IfSome, IfOk, OnOk, OnErr};
    ghost use Rattle.std.specs.Option.{option_copied};
    ghost use Rattle.packet_frame.specs.Packets.{lacking, id_of_answer};
    ghost use Rattle.handshake.specs.Spelling.{IsText};
    ghost use Rattle.client_side.specs.Client.{ClientState, told_first, new_client, fed, login_of, HasFound, IsDone};

    /// A client of which nothing was read, and to which the greeting is to be written. It takes commands of at most
    /// `limit` bytes, and what it says before them is as short as `login_limit` has it.
    pub fn new(
        alloc: Global,
        number: ClientNo,
        salt: [u8; 20],
        limit: u64,
        version: &[u8],
    ) -> Result<Self, OutOfMemory>
        requires text { IsText version.now }
        requires short { length version.now ≤ 255 }
        ensures { IfOk result (λ client. client ≡ new_client number salt limit version.now) }
    {
        let greeting = greeting_packet(alloc, number, salt, version)?;
        Client::told(alloc, number, salt, limit, &greeting)
    }

    /// A client of which nothing was read, and to which these bytes are to be written in the greeting's place. It takes
    /// messages as `new` does.
    pub fn told(
        alloc: Global,
        number: ClientNo,
        salt: [u8; 20],
        limit: u64,
        first: &[u8],
    ) -> Result<Self, OutOfMemory>
        ensures { IfOk result (λ client. client ≡ told_first number salt limit first.now) }
    {
        let mut outgoing = ByteQueue::new(alloc);
        outgoing.push(first)?;
        Ok(Client {
            alloc,
            number,
            salt,
            limit,
            framer: Framer::new(alloc, login_limit(limit)),
            stage: Stage::Response,
            arrived: 0,
            outgoing,
        })
    }

    /// Keeps bytes that were read. OutOfMemory leaves everything as it was.
    pub fn feed(&mut self, bytes: &[u8]) -> Result<(), OutOfMemory>
        ensures ok { OnOk result (self.new ≡ fed self.old bytes.now) }
        ensures err { OnErr result (self.new ≡ self.old) }
    {
        self.framer.feed(bytes)
    }

    /// The client's number.
    pub fn number(&self) -> ClientNo
        ensures { result ≡ self.now.number }
    {
        self.number
    }

    /// What its answer is computed from.
    pub fn salt(&self) -> &[u8; 20]
        ensures { result.now ≡ self.now.salt }
    {
        &self.salt
    }

    /// How many commands have arrived.
    pub fn arrived(&self) -> u64
        ensures { result ≡ self.now.arrived }
    {
        self.arrived
    }

    /// Who the client says it is, from the step Login until `done`; its answer is the bare one where there was a switch.
    pub fn login(&self) -> Option<&Response>
        ensures { option_copied result ≡ login_of self.now.stage }
    {
        match &self.stage {
            Stage::Login { response, .. } => Some(response),
            _ => None,
        }
    }

    /// The payload of the command that was found.
    pub fn payload(&self) -> &[u8]
        requires { IsSome self.now.framer.found }
        ensures { IfSome self.now.framer.found (λ message. result.now ≡ message.payload) }
    {
        self.framer.payload()
    }

    /// Drops what was found: behind a login commands come, and a command has arrived. Takes no memory, and gives it back that a long
    /// message took.
    pub fn done(&mut self)
        requires { HasFound self.old.stage self.old.framer.found }
        ensures { IsDone self.old.stage self.old self.new }
    {
        match &self.stage {
            Stage::Login { .. } => {
                self.framer.allow(self.limit);
                self.framer.rest();
                self.stage = Stage::Commands;
            }
            _ => {
                self.framer.done();
                self.framer.rest();
                self.arrived = counted(self.arrived);
            }
        }
    }

    /// How many bytes are kept of what was read.
    pub fn kept(&self) -> u64
        ensures { result ≡ length self.now.framer.kept }
    {
        self.framer.kept()
    }

    /// How many bytes the packet that the kept bytes begin with still lacks, 0 while its header isn't whole.
    pub fn announced(&self) -> u64
        ensures { result ≡ lacking self.now.framer.kept }
    {
        self.framer.announced()
    }

    /// The sequence id of an error about a message that isn't whole: the id behind that of the last whole header of the
    /// first message in the kept bytes with `unfed` behind them, 0 where no header is whole.
    pub fn err_id(&self, unfed: &[u8]) -> u8
        ensures { result ≡ id_of_answer (self.now.framer.kept ++ unfed.now) }
    {
        self.framer.err_id(unfed)
    }

    /// Appends bytes to what is to be written. OutOfMemory leaves everything as it was.
    pub fn answer_grown(&mut self, reply: &[u8]) -> Result<(), OutOfMemory>
        ensures ok { OnOk result (self.new ≡ record self.old { outgoing = self.old.outgoing ++ reply.now }) }
        ensures err { OnErr result (self.new ≡ self.old) }
    {
        self.outgoing.push(reply)
    }

    /// What is to be written.
    pub fn outgoing(&self) -> &[u8]
        ensures { result.now ≡ self.now.outgoing }
    {
        self.outgoing.as_slice()
    }

    /// So many of these bytes were written. Takes no memory, and gives it back that a long answer took.
    pub fn taken(&mut self, n: usize)
        requires { n ≤ length self.old.outgoing }
        ensures { self.new ≡ record self.old { outgoing = drop n self.old.outgoing } }
    {
        self.outgoing.advance(n);
        self.outgoing.rest();
    }
}
