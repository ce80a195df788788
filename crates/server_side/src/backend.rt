// The link to a server.
use crate::account::Account;
use crate::command::{Command, command_of};
use crate::stage::Stage;
use mx_base::{ByteQueue, Bytes, OutOfMemory, Piece, Tag};
use packet_frame::{Framer, write_message};
use std::alloc::Global;
use std::marker::Model;

/// The longest payload of a message, in bytes, so that each is one packet.
const MOST_PAYLOAD: u64 = 16_777_214;

/// The link to a server (client/server protocol, "Connection Lifecycle"): the router's login, and behind it one command at a
/// time and the reply to it.
#[derive(Drop)]
pub struct Backend {
    pub(crate) alloc: Global,
    pub(crate) account: Account,
    pub(crate) framer: Framer,
    pub(crate) stage: Stage,
    pub(crate) own: ByteQueue,
    pub(crate) command: Option<Command>,
    pub(crate) reply: Bytes,
}

impl Model for Backend {
    ghost use Rattle.server_side.specs.Backend.{BackendState};

    ghost Value = { BackendState };

    ghost view = { λ b. record { account = b.account; framer = b.framer; stage = b.stage; own = b.own; command = b.command; reply = b.reply } };
}

impl Backend {
    ghost use Rattle.std.specs.Prelude.{◌≡◌, [], None, is_some, length, OnOk, OnErr, IfOk};
    ghost use Rattle.packet_frame.specs.Packets.{spelling};
    ghost use Rattle.handshake.specs.Spelling.{IsText};
    ghost use Rattle.server_side.specs.declared.stage.Stage.TheVariants.{In};
    ghost use Rattle.mx_base.specs.Sent.{IsLent, MayTake};
    ghost use Rattle.server_side.specs.Backend.{BackendState, new_backend, left, taken, withdrawn, commanded, is_begun, is_sent};

    /// A link on which nothing was heard. The user's name has no NUL.
    pub fn new(
        alloc: Global,
        user: &[u8],
        password: &[u8],
        found_rows: bool,
    ) -> Result<Self, OutOfMemory>
        requires { IsText user.now }
        ensures { IfOk result (λ backend. backend ≡ new_backend (record { user = user.now; password = password.now; found_rows = found_rows })) }
    {
        Ok(Backend {
            alloc,
            account: Account::new(
                Bytes::from_slice(alloc, user)?,
                Bytes::from_slice(alloc, password)?,
                found_rows,
            ),
            framer: Framer::new(alloc, MOST_PAYLOAD),
            stage: Stage::Greeting,
            own: ByteQueue::new(alloc),
            command: None,
            reply: Bytes::new(alloc),
        })
    }

    /// A command is to be written, as packets from the sequence id 0 on, with this tag. The reply to it will begin with the
    /// sequence id `first` for the client; the last one is dropped. OutOfMemory leaves everything as it was.
    pub fn command(&mut self, tag: Tag, payload: &[u8], first: u8) -> Result<(), OutOfMemory>
        requires logged_in { self.old.stage ≡ In }
        requires free { self.old.command ≡ None }
        ensures ok { OnOk result (self.new ≡ commanded tag payload.now first self.old) }
        ensures err { OnErr result (self.new ≡ self.old) }
    {
        let mut bytes = Vec::new(self.alloc);
        write_message(&mut bytes, 0, payload)?;
        self.command = Some(command_of(tag, Bytes::from_vec(bytes), first));
        self.reply = Bytes::new(self.alloc);
        Ok(())
    }

    /// What is to be written, with its tag: what the router says of its own, and then the command.
    pub fn outgoing(&self) -> Option<Piece<'_>>
        ensures { IsLent result (left self.now) }
    {
        let own = self.own.as_slice();
        if !own.is_empty() {
            return Some(Piece {
                tag: Tag::Own,
                bytes: own,
            });
        }
        match &self.command {
            Some(command) => {
                let bytes = command.bytes.as_slice();
                if command.sent < bytes.len() {
                    Some(Piece {
                        tag: command.tag,
                        bytes: &bytes[command.sent..],
                    })
                } else {
                    None
                }
            }
            None => None,
        }
    }

    /// So many of these bytes were written. Takes no memory.
    pub fn taken(&mut self, n: usize)
        requires { MayTake (left self.old) n }
        ensures { self.new ≡ taken n self.old }
    {
        if !self.own.as_slice().is_empty() {
            self.own.advance(n);
        } else if let Some(command) = &mut self.command {
            // A length is known to fit, and so is the sum, which is at most this one.
            let _length = command.bytes.as_slice().len();
            command.sent += n;
        }
    }

    /// Drops a command of which no byte was written, whose reply isn't due then. Takes no memory.
    pub fn withdraw(&mut self)
        ensures { self.new ≡ withdrawn self.old }
    {
        if let Some(command) = &self.command {
            if command.sent == 0 {
                self.command = None;
            }
        }
    }

    /// What was read of the reply, or the last one that was whole, as packets from the client's sequence id on.
    pub fn reply(&self) -> &[u8]
        ensures { result.now ≡ self.now.reply }
    {
        self.reply.as_slice()
    }

    /// Whether a command has no reply yet.
    pub fn has_command(&self) -> bool
        ensures { result ≡ is_some self.now.command }
    {
        self.command.is_some()
    }

    /// Whether a byte of the command was written, so that its reply is due.
    pub fn is_begun(&self) -> bool
        ensures { result ≡ is_begun self.now.command }
    {
        match &self.command {
            Some(command) => command.sent != 0,
            None => false,
        }
    }

    /// Whether all bytes of the command were written.
    pub fn is_sent(&self) -> bool
        ensures { result ≡ is_sent self.now.command }
    {
        match &self.command {
            Some(command) => command.sent == command.bytes.as_slice().len(),
            None => false,
        }
    }

    /// How far the login is.
    pub fn stage(&self) -> Stage
        ensures { result ≡ self.now.stage }
    {
        self.stage
    }
}
