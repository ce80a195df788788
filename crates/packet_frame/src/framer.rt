// Messages out of bytes that come in pieces.
use crate::answer_id::answer_id;
use crate::fault::FrameFault;
use crate::header::lacking;
use crate::kept::Kept;
use crate::message::Message;
use mx_base::OutOfMemory;
use std::alloc::Global;
use std::marker::Model;

/// Messages out of bytes that come in pieces of any lengths (client/server protocol, "MySQL Packets"). Each byte
/// is moved a bounded number of times, and looking for a message takes no time that grows with its length. It keeps the
/// bytes of a message once.
#[derive(Drop)]
pub struct Framer {
    limit: u64,
    kept: Kept,
    refused: Option<FrameFault>,
}

impl Model for Framer {
    ghost use Rattle.packet_frame.specs.FramerState.{FramerState, framer_of};
    ghost use Rattle.packet_frame.specs.Joining.{IsJoined};

    ghost Value = { FramerState };

    ghost view = { λ f. framer_of f.limit f.refused f.kept };

    ghost invariant = { λ f. IsJoined f.limit f.kept };
}

impl Framer {
    ghost use Rattle.std.specs.Prelude.{◌≡◌, ◌≤◌, ◌++◌, [], length, None, IsSome, IfSome, OnOk, OnErr};
    ghost use Rattle.packet_frame.specs.Packets.{id_of_answer};
    ghost use Rattle.packet_frame.specs.FramerState.{FramerState, look, seen, answer, past};

    /// A framer that takes messages of at most `limit` bytes, without any bytes yet. Takes no memory.
    pub fn new(alloc: Global, limit: u64) -> Self
        ensures { result ≡ record { limit = limit; kept = []; found = None; fault = None } }
    {
        Framer {
            limit,
            kept: Kept::new(alloc),
            refused: None,
        }
    }

    /// From now on messages of at most `limit` bytes are taken, which is no less than before. Takes no memory.
    pub fn allow(&mut self, limit: u64)
        requires { self.old.limit ≤ limit }
        ensures { self.new ≡ record self.old { limit = limit } }
    {
        self.limit = limit;
    }

    /// Keeps the next piece of the bytes. OutOfMemory leaves everything as it was.
    pub fn feed(&mut self, piece: &[u8]) -> Result<(), OutOfMemory>
        ensures ok { OnOk result (self.new ≡ record self.old { kept = self.old.kept ++ piece.now }) }
        ensures err { OnErr result (self.new ≡ self.old) }
    {
        self.kept.push(piece)?;
        Ok(())
    }

    /// The message that the kept bytes begin with, whose first packet has to have the sequence id `first`; None
    /// exactly where no whole message is kept. It stays found until `done`. OutOfOrder is the first packet with
    /// another id, TooLarge the first header up to which more bytes than the limit are announced, with their number; in
    /// one header OutOfOrder comes first. After a fault each call answers it again. Takes no memory.
    pub fn next(&mut self, first: u8) -> Result<Option<Message>, FrameFault>
        ensures found { result ≡ answer (look first self.old) }
        ensures after { self.new ≡ seen self.old (look first self.old) }
    {
        match self.refused {
            Some(fault) => Err(fault),
            None => match self.kept.find(self.limit, first) {
                Ok(message) => Ok(message),
                Err(fault) => {
                    self.refused = Some(fault);
                    Err(fault)
                }
            },
        }
    }

    /// The payload of the message that was found.
    pub fn payload(&self) -> &[u8]
        requires { IsSome self.now.found }
        ensures { IfSome self.now.found (λ message. result.now ≡ message.payload) }
    {
        self.kept.payload()
    }

    /// Drops the message that was found. Takes no memory.
    pub fn done(&mut self)
        requires { IsSome self.old.found }
        ensures { self.new ≡ past self.old }
    {
        self.kept.clear();
    }

    /// Gives memory back where few bytes are kept, but for 4,096 bytes. Takes none.
    pub fn rest(&mut self)
        ensures { self.new ≡ self.old }
    {
        self.kept.shrink();
    }

    /// How many bytes are kept.
    pub fn kept(&self) -> u64
        ensures { result ≡ length self.now.kept }
    {
        self.kept.read() as u64
    }

    /// The sequence id of an answer to what is no whole message yet: the id behind that of the last whole header of
    /// the first message in the kept bytes with `unfed` behind them, 0 where no header is whole. Takes no memory.
    pub fn err_id(&self, unfed: &[u8]) -> u8
        ensures { result ≡ id_of_answer (self.now.kept ++ unfed.now) }
    {
        answer_id(&self.kept, unfed)
    }

    /// How many bytes the last packet of the first message still lacks, of which a byte is kept, 0 while its header
    /// isn't whole.
    pub fn announced(&self) -> u64
        ensures { result ≡ Rattle.packet_frame.specs.Packets.lacking self.now.kept }
    {
        match self.kept.message() {
            Some(_) => 0,
            None => lacking(self.kept.rest()),
        }
    }
}
