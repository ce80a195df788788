// A link to a server behind the router's login.
ghost use Rattle.std.specs.Prelude.{◌≡◌};
ghost use Rattle.mx_base.specs.Sent.{IsLent, MayTake};
ghost use Rattle.reply_relay.specs.Relays.{left_of, sent_on, due_in};

use crate::asked::{Asked, Replying, Wanted, asked_of};
use mx_base::{Bytes, Piece, Tag};
use reply_track::{Progress, ReplyEnd};

/// A link to a server behind the router's login: one command at a time, and the reply to it in pieces, of which nothing is kept
/// but how far it is (client/server protocol, "Command Phase"). No call takes memory.
#[derive(Drop)]
pub struct Relay {
    pub asked: Option<Asked>,
}

/// What a piece of a server's bytes told.
#[derive(Clone, Copy, Debug)]
pub enum Relayed {
    /// The piece is a part of the reply, which goes on.
    Part,
    /// The reply is whole with the first `used` bytes of the piece, and it ended so.
    Whole { used: usize, end: ReplyEnd },
    /// From this place of the reply on, counted from 0, no reply goes on; 0 where none is due.
    Bad { at: u64 },
}

// What is to be written of a command.
fn left_of(asked: &Asked) -> Option<Piece<'_>>
    ensures { IsLent result (left_of asked.now) }
{
    let bytes = asked.packets.as_slice();
    if asked.sent < bytes.len() {
        Some(Piece {
            tag: asked.tag,
            bytes: &bytes[asked.sent..],
        })
    } else {
        None
    }
}

// So many of these bytes were written; a command without a reply is done with its last byte.
fn sent_on(mut asked: Asked, n: usize) -> Option<Asked>
    requires { MayTake (left_of asked) n }
    ensures { result ≡ sent_on n asked }
{
    let length = asked.packets.as_slice().len();
    asked.sent += n;
    if asked.reply.is_none() && asked.sent >= length {
        None
    } else {
        Some(asked)
    }
}

// The reply that is due, once a byte of its command is written.
fn due_in(asked: &Asked) -> Option<Replying>
    ensures { result ≡ due_in asked.now }
{
    if asked.sent == 0 { None } else { asked.reply }
}

impl Relay {
    ghost use Rattle.std.specs.Prelude.{◌≡◌, None, false, is_some};
    ghost use Rattle.std.specs.Option.{option_map_or};
    ghost use Rattle.mx_base.specs.Sent.{IsLent, MayTake};
    ghost use Rattle.reply_relay.specs.Relays.{Hearing, asking, relay_left, relay_taken, is_begun_of, is_sent_of, unbegun, begun, due, followed, hears};

    /// A link on which nothing is asked.
    pub fn new() -> Self
        ensures { result ≡ record { asked = None } }
    {
        Relay { asked: None }
    }

    /// These packets, from the sequence id 0 on, are to be written as a command with this tag, and have this reply; none as a
    /// statement's close, a part of a parameter or QUIT.
    pub fn ask(&mut self, tag: Tag, packets: Bytes, wanted: Option<Wanted>)
        requires { self.old.asked ≡ None }
        ensures { self.new ≡ asking tag packets wanted }
    {
        self.asked = Some(asked_of(tag, packets, wanted));
    }

    /// What is to be written, with its tag.
    pub fn outgoing(&self) -> Option<Piece<'_>>
        ensures { IsLent result (relay_left self.now) }
    {
        match &self.asked {
            Some(asked) => left_of(asked),
            None => None,
        }
    }

    /// So many of these bytes were written. A command that has no reply is done with its last one.
    pub fn taken(&mut self, n: usize)
        requires { MayTake (relay_left self.old) n }
        ensures { self.new ≡ relay_taken n self.old }
    {
        if let Some(asked) = self.asked.take() {
            self.asked = sent_on(asked, n);
        }
    }

    /// Takes back a command of which no byte was written.
    pub fn withdraw(&mut self) -> Option<Asked>
        ensures is { result ≡ unbegun self.old }
        ensures rest { self.new ≡ begun self.old }
    {
        let asked = self.asked.take()?;
        if asked.sent == 0 {
            Some(asked)
        } else {
            self.asked = Some(asked);
            None
        }
    }

    /// Whether a command is under way: one that isn't wholly written, or whose reply isn't whole.
    pub fn has_command(&self) -> bool
        ensures { result ≡ is_some self.now.asked }
    {
        self.asked.is_some()
    }

    /// Whether a byte of it was written.
    pub fn is_begun(&self) -> bool
        ensures { result ≡ option_map_or is_begun_of self.now.asked false }
    {
        match &self.asked {
            Some(asked) => asked.sent != 0,
            None => false,
        }
    }

    /// Whether all bytes of it were written.
    pub fn is_sent(&self) -> bool
        ensures { result ≡ option_map_or is_sent_of self.now.asked false }
    {
        match &self.asked {
            Some(asked) => asked.sent == asked.packets.as_slice().len(),
            None => false,
        }
    }

    /// The reply that is due, once a byte of its command is written.
    pub fn due(&self) -> Option<Replying>
        ensures { result ≡ due self.now }
    {
        match &self.asked {
            Some(asked) => due_in(asked),
            None => None,
        }
    }

    /// Takes the next bytes that were read, and makes of them what the client gets: packets whose sequence ids go on from the
    /// first one that it is to have, with its own number of a prepared statement. Where the reply goes on that is the whole
    /// piece, and where it ends the first `used` bytes. Behind a whole reply nothing is due; what is left of a command that
    /// wasn't wholly written isn't written any more. Each byte is looked at once, and bytes of a row are passed over.
    pub fn hear(&mut self, piece: &mut [u8]) -> Relayed
        ensures { record { told = result; relay = self.new; piece = piece.new } ≡ hears piece.old self.old }
    {
        let size = piece.len();
        let Some(mut replying) = self.due() else {
            return Relayed::Bad { at: 0 };
        };
        match replying.tracker.take(piece) {
            Progress::More => {
                replying.read = replying.read.saturating_add(size as u64);
                self.follow(replying);
                Relayed::Part
            }
            Progress::Done { used, end } => {
                self.asked = None;
                Relayed::Whole { used, end }
            }
            Progress::Bad { at } => Relayed::Bad {
                at: replying.read.saturating_add(at as u64),
            },
        }
    }

    // The reply stands so.
    fn follow(&mut self, replying: Replying)
        ensures { self.new ≡ followed replying self.old }
    {
        if let Some(asked) = &mut self.asked {
            asked.reply = Some(replying);
        }
    }
}
