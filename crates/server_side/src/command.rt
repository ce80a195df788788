// A command to a server.
ghost use Rattle.std.specs.Prelude.{◌≡◌};
ghost use Rattle.server_side.specs.Backend.{command_of};

use mx_base::{Bytes, Tag};
use reply_track::Tracker;

/// A command to a server, as packets, how many of their bytes are written, the sequence id with which its reply begins
/// for the client, and how far that reply is.
#[derive(Drop)]
pub struct Command {
    pub tag: Tag,
    pub bytes: Bytes,
    pub sent: usize,
    pub first: u8,
    pub tracker: Tracker,
}

/// A command of which nothing is written, and nothing of its reply is read (client/server protocol, "Sequence ID"); for the client
/// that begins with the sequence id `first`.
pub(crate) fn command_of(tag: Tag, packets: Bytes, first: u8) -> Command
    ensures { result ≡ command_of tag packets first }
{
    let tracker = Tracker::to_command(packets.as_slice(), first);
    Command {
        tag,
        bytes: packets,
        sent: 0,
        first,
        tracker,
    }
}
