// A command on its way to a server, and how far its reply is.
ghost use Rattle.std.specs.Prelude.{◌≡◌};
ghost use Rattle.reply_track.specs.Replying.{id_after};
ghost use Rattle.reply_relay.specs.Relays.{asked_of, replying_to};

use mx_base::{Bytes, Tag};
use reply_track::{ReplyKind, Tracker};

/// The reply that a command has: its kind, the sequence id with which it begins for the client, and the client's number of the
/// statement that the command prepares.
#[derive(Clone, Copy)]
pub struct Wanted {
    pub kind: ReplyKind,
    pub first: u8,
    pub number: u32,
}

/// How far the reply to a command is, the sequence id with which it begins for the client, and how many bytes were read of it.
#[derive(Clone, Copy)]
pub struct Replying {
    pub tracker: Tracker,
    pub first: u8,
    pub read: u64,
}

/// A command to a server, as packets, how many of their bytes are written, and its reply; None where it has none.
#[derive(Drop)]
pub struct Asked {
    pub tag: Tag,
    pub packets: Bytes,
    pub sent: usize,
    pub reply: Option<Replying>,
}

/// The bytes of a packet with the longest body.
const LONGEST_PACKET: usize = 16_777_219;

// The sequence id that follows those of a whole command's packets.
fn id_after(packets: &[u8]) -> u8
    ensures { result ≡ id_after packets.now }
{
    ((packets.len() / LONGEST_PACKET + 1) % 256) as u8
}

// A reply of which nothing is read, to a whole command.
fn replying_to(packets: &[u8], wanted: Wanted) -> Replying
    ensures { result ≡ replying_to packets.now wanted }
{
    Replying {
        tracker: Tracker::start(wanted.kind, id_after(packets), wanted.first, wanted.number),
        first: wanted.first,
        read: 0,
    }
}

/// A command of which nothing is written, as packets from the sequence id 0 on.
pub(crate) fn asked_of(tag: Tag, packets: Bytes, wanted: Option<Wanted>) -> Asked
    ensures { result ≡ asked_of tag packets wanted }
{
    let reply = match wanted {
        Some(wanted) => Some(replying_to(packets.as_slice(), wanted)),
        None => None,
    };
    Asked {
        tag,
        packets,
        sent: 0,
        reply,
    }
}
