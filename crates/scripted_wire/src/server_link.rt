// A link to a server in code.
ghost use Rattle.std.specs.Prelude.{◌≡◌, ◌<◌, [], codes, length, IsSome, IfOk, OnOk};
ghost use Rattle.client_side.specs.Client.{HasFound};
ghost use Rattle.packet_frame.specs.Packets.{spelling, spellings};
ghost use Rattle.reply_text.specs.Replies.{err_payload, ok_payload};
ghost use Rattle.scripted_wire.specs.Giving.{Gives, is_some_of};
ghost use Rattle.scripted_wire.specs.Hosts.{ran};
ghost use Rattle.scripted_wire.specs.Serving.{Served, answered, first_link, hears, link_read, asked_for, served, rests, drops, is_welcome, turned_away, logs_in, runs, answers, replied, says, refuses};

use crate::asked::{Asked, read_asked};
use crate::did::Did;
use crate::giving::give;
use crate::hosts::Hosts;
use client_side::{Client, ClientStep};
use handshake::Response;
use mx_base::{Bytes, ClientNo, OutOfMemory};
use mx_wire::Got;
use packet_frame::write_message;
use reply_text::{write_err, write_ok};
use server_rule::{Capabilities, Cmd, ReplyList, TameServer};
use std::alloc::Global;

/// What a server in code calls itself.
const VERSION: &[u8] = b"8.0.30-scripted";

/// The longest message that it takes, in bytes (MySQL Reference Manual, "max_allowed_packet").
const MOST_MESSAGE: u64 = 1_073_741_824;

/// FOUND_ROWS: an UPDATE tells of the rows that it found (client/server protocol, "Capabilities Flags").
const FOUND_ROWS: u32 = 0x0000_0002;

/// IGNORE_SPACE: blanks may stand behind the name of a function.
const IGNORE_SPACE: u32 = 0x0000_0100;

/// MULTI_RESULTS: a text may be answered by several results.
const MULTI_RESULTS: u32 = 0x0002_0000;

/// PS_MULTI_RESULTS: so may a prepared statement.
const PS_MULTI_RESULTS: u32 = 0x0004_0000;

/// SERVER_STATUS_AUTOCOMMIT (client/server protocol, "SERVER_STATUS_flags_enum").
const AUTOCOMMIT: u16 = 0x0002;

/// Whom a server in code lets in.
#[derive(Clone, Copy)]
pub enum LetsIn {
    /// Whoever it says it is.
    Anybody,
    /// Who answers the salt with nothing, as a user without a password does. Others get error 1045.
    WithoutPassword,
}

/// A link to a server in code, as that sees it: the login and the commands of its other end, and what is to be read there; whom it lets
/// in; the place of the server, that of the session once there was a login, and whether the server has ended the link.
#[derive(Drop)]
pub struct ServerLink {
    pub client: Client,
    pub lets_in: LetsIn,
    pub server: usize,
    pub seat: Option<usize>,
    pub ended: bool,
}

// What a client asks for that changes what a server answers.
fn asked_for(capabilities: u32) -> Capabilities
    ensures { result ≡ asked_for capabilities }
{
    Capabilities {
        found_rows: capabilities & FOUND_ROWS != 0,
        multi_results: capabilities & MULTI_RESULTS != 0 && capabilities & PS_MULTI_RESULTS != 0,
        ignore_space: capabilities & IGNORE_SPACE != 0,
    }
}

// Whether who logs in so is let in.
fn is_welcome(lets_in: LetsIn, response: &Response) -> bool
    ensures { result ≡ is_welcome lets_in response.now }
{
    match lets_in {
        LetsIn::Anybody => true,
        LetsIn::WithoutPassword => response.answer.as_slice().is_empty(),
    }
}

// What was asked is done with.
fn let_go(_asked: Asked) {}

// The packets of a reply, the first with the sequence id `first`.
fn spelled(alloc: Global, first: u8, payloads: &[Bytes]) -> Result<Vec<u8>, OutOfMemory>
    ensures { IfOk result (λ packets. packets.items ≡ spellings first payloads.now) }
{
    let mut packets = Vec::new(alloc);
    let mut id = first;
    for payload in payloads {
        id = write_message(&mut packets, id, payload.as_slice())?;
    }
    Ok(packets)
}

impl ServerLink {
    /// A link on which the greeting is to be read.
    pub fn new(
        alloc: Global,
        lets_in: LetsIn,
        server: usize,
        number: ClientNo,
        salt: [u8; 20],
    ) -> Result<Self, OutOfMemory>
        ensures { IfOk result (λ link. link ≡ first_link lets_in server number salt) }
    {
        Ok(ServerLink {
            client: Client::new(alloc, number, salt, MOST_MESSAGE, VERSION)?,
            lets_in,
            server,
            seat: None,
            ended: false,
        })
    }

    /// The router writes these bytes.
    pub fn hear(&mut self, bytes: &[u8]) -> Result<(), OutOfMemory>
        ensures { OnOk result (self.new ≡ hears bytes.now self.old) }
    {
        self.client.feed(bytes)
    }

    /// The router reads what the server has said.
    pub fn give(&mut self, into: &mut [u8]) -> Got
        requires { 0 < length into.old }
        ensures gives { Gives self.old.client.outgoing self.old.ended into.old into.new result }
        ensures rest { self.new ≡ link_read result self.old }
    {
        let bytes = self.client.outgoing();
        if bytes.is_empty() {
            return if self.ended { Got::End } else { Got::NotReady };
        }
        let n = give(bytes, into);
        self.client.taken(n);
        Got::Got { n }
    }

    /// Whether bytes can be read.
    pub fn has_said(&self) -> bool
        ensures { result ≡ is_some_of self.now.client.outgoing }
    {
        !self.client.outgoing().is_empty()
    }

    /// The server takes the next thing that was written whole: a login, or a command, which it runs. On a link that its other end has
    /// closed, where nothing is left to run, it closes the session. Behind OutOfMemory nothing is promised.
    pub fn serve<R: TameServer>(
        &mut self,
        alloc: Global,
        hosts: &mut Hosts<R>,
        closed: bool,
    ) -> Result<Did, OutOfMemory>
        ensures { IfOk result (λ did. record { link = self.new; hosted = hosts.new; did = did } ≡ served R.step closed self.old hosts.old) }
    {
        if self.ended {
            return Ok(Did::Nothing);
        }
        match self.client.next()? {
            ClientStep::Nothing => self.rest(hosts, closed),
            ClientStep::Login { first } => self.log_in(alloc, hosts, first),
            ClientStep::Message { first, .. } => self.run(alloc, hosts, first),
            ClientStep::Refused { first, .. } => self.refuse(alloc, hosts, first),
        }
    }

    // Nothing is left to run.
    fn rest<R: TameServer>(
        &mut self,
        hosts: &mut Hosts<R>,
        closed: bool,
    ) -> Result<Did, OutOfMemory>
        ensures { IfOk result (λ did. record { link = self.new; hosted = hosts.new; did = did } ≡ rests R.step closed self.old hosts.old) }
    {
        if closed {
            self.end(hosts)
        } else {
            Ok(Did::Nothing)
        }
    }

    // The session is closed, where there is one, and nothing more is heard.
    fn end<R: TameServer>(&mut self, hosts: &mut Hosts<R>) -> Result<Did, OutOfMemory>
        ensures { IfOk result (λ did. record { link = self.new; hosted = hosts.new; did = did } ≡ drops R.step self.old hosts.old) }
    {
        self.ended = true;
        let Some(seat) = self.seat else {
            return Ok(Did::Nothing);
        };
        let _none = hosts.run(seat, &Cmd::Close)?;
        Ok(Did::Dropped)
    }

    // An OK is said.
    fn say_ok(&mut self, alloc: Global, first: u8) -> Result<(), OutOfMemory>
        ensures { OnOk result (self.new ≡ answered (spelling first (ok_payload 2 [])) self.old) }
    {
        let mut ok = Vec::new(alloc);
        let _next = write_ok(&mut ok, first, AUTOCOMMIT, b"")?;
        self.client.answer_grown(&ok)
    }

    // An ERR is said.
    fn say_err(
        &mut self,
        alloc: Global,
        first: u8,
        code: u16,
        state: &[u8; 5],
        text: &[u8],
    ) -> Result<(), OutOfMemory>
        ensures { OnOk result (self.new ≡ answered (spelling first (err_payload code state.now text.now)) self.old) }
    {
        let mut err = Vec::new(alloc);
        let _next = write_err(&mut err, first, code, state, text)?;
        self.client.answer_grown(&err)
    }

    // Who logs in is let in, or isn't.
    fn log_in<R: TameServer>(
        &mut self,
        alloc: Global,
        hosts: &mut Hosts<R>,
        first: u8,
    ) -> Result<Did, OutOfMemory>
        requires { HasFound self.old.client.stage self.old.client.framer.found }
        ensures { IfOk result (λ did. record { link = self.new; hosted = hosts.new; did = did } ≡ logs_in first self.old hosts.old) }
    {
        let Some(response) = self.client.login() else {
            return Ok(Did::Nothing);
        };
        if !is_welcome(self.lets_in, response) {
            return self.turn_away(alloc, first);
        }
        let asked = asked_for(response.capabilities);
        let seat = hosts.enter(alloc, self.server, response.user.as_slice(), asked)?;
        self.say_ok(alloc, first)?;
        self.client.done();
        self.seat = Some(seat);
        Ok(Did::Answered)
    }

    // Who logs in isn't let in, and nothing more is heard.
    fn turn_away(&mut self, alloc: Global, first: u8) -> Result<Did, OutOfMemory>
        ensures { IfOk result (λ did. (self.new ≡ turned_away first self.old) × (did ≡ Did.Answered)) }
    {
        self.say_err(alloc, first, 1045, b"28000", b"Access denied")?;
        self.ended = true;
        Ok(Did::Answered)
    }

    // The command that was found is run.
    fn run<R: TameServer>(
        &mut self,
        alloc: Global,
        hosts: &mut Hosts<R>,
        first: u8,
    ) -> Result<Did, OutOfMemory>
        requires found { HasFound self.old.client.stage self.old.client.framer.found }
        requires some { IsSome self.old.client.framer.found }
        ensures { IfOk result (λ did. record { link = self.new; hosted = hosts.new; did = did } ≡ runs R.step first self.old hosts.old) }
    {
        let Some(seat) = self.seat else {
            self.client.done();
            self.ended = true;
            return Ok(Did::Nothing);
        };
        let asked = read_asked(alloc, self.client.payload())?;
        self.client.done();
        let did = self.answer(alloc, hosts, first, seat, &asked);
        let_go(asked);
        did
    }

    // What is asked in a session is done.
    fn answer<R: TameServer>(
        &mut self,
        alloc: Global,
        hosts: &mut Hosts<R>,
        first: u8,
        seat: usize,
        asked: &Asked,
    ) -> Result<Did, OutOfMemory>
        ensures { IfOk result (λ did. record { link = self.new; hosted = hosts.new; did = did } ≡ answers R.step first seat asked.now self.old hosts.old) }
    {
        match asked {
            Asked::Run(cmd) => self.run_in(alloc, hosts, first, seat, cmd),
            Asked::Quit => {
                self.ended = true;
                let _none = hosts.run(seat, &Cmd::Close)?;
                Ok(Did::Ran)
            }
            Asked::Unknown => {
                self.say_err(alloc, first, 1047, b"08S01", b"Unknown command")?;
                Ok(Did::Ran)
            }
        }
    }

    // A command runs in a session, and its reply is said.
    fn run_in<R: TameServer>(
        &mut self,
        alloc: Global,
        hosts: &mut Hosts<R>,
        first: u8,
        seat: usize,
        cmd: &Cmd,
    ) -> Result<Did, OutOfMemory>
        ensures { IfOk result (λ did. record { link = self.new; hosted = hosts.new; did = did } ≡ replied first (ran R.step seat cmd.now hosts.old) self.old) }
    {
        let reply = hosts.run(seat, cmd)?;
        self.reply(alloc, first, reply)?;
        Ok(Did::Ran)
    }

    // A reply is said, where there is one.
    fn reply(
        &mut self,
        alloc: Global,
        first: u8,
        reply: Option<ReplyList>,
    ) -> Result<(), OutOfMemory>
        ensures { OnOk result (self.new ≡ says first reply self.old) }
    {
        let Some(reply) = reply else {
            return Ok(());
        };
        let packets = spelled(alloc, first, reply.as_slice())?;
        self.client.answer_grown(&packets)
    }

    // Bytes came that can be no message: a login is answered so, and a session is closed.
    fn refuse<R: TameServer>(
        &mut self,
        alloc: Global,
        hosts: &mut Hosts<R>,
        first: u8,
    ) -> Result<Did, OutOfMemory>
        ensures { IfOk result (λ did. record { link = self.new; hosted = hosts.new; did = did } ≡ refuses R.step first self.old hosts.old) }
    {
        if self.seat.is_some() {
            return self.end(hosts);
        }
        self.say_err(alloc, first, 1043, b"08S01", b"Bad handshake")?;
        self.ended = true;
        Ok(Did::Answered)
    }
}
