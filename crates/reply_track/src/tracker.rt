// The end of a reply whose bytes come in pieces.
ghost use Rattle.std.specs.Prelude.{◌≡◌, ℕ, List, []};
ghost use Rattle.reply_track.specs.Replying.{kind_to, id_after, to_command};
ghost use Rattle.reply_track.specs.Runs.{Walked};
ghost use Rattle.reply_track.specs.Tracking.{Sought, Took, Answers};

use crate::body::Body;
use crate::due::first_due;
use crate::place::{Outcome, Place, State, behind, headed, passed, step, written};
use crate::reply::{Progress, ReplyKind};

/// The code of COM_FIELD_LIST.
const FIELD_LIST: u8 = 4;

/// The bytes of a packet with the longest body.
const LONGEST_PACKET: usize = 16_777_219;

/// Follows a reply to its end, over bytes that come in pieces of any lengths (client/server protocol, "Command
/// Phase"), and renumbers its packets for the client. Nothing of the reply is kept, and of a row only the headers
/// of its packets and its first byte are looked at.
#[derive(Clone, Copy)]
pub struct Tracker {
    state: State,
}

// Walks over a piece.
pub(crate) fn walk(state: &mut State, piece: &mut [u8]) -> Progress
    ensures { Walked state.old piece.old state.new piece.new result }
{
    let mut at = 0;
    while at < piece.len() {
        let left = piece.len() - at;
        let count = passed(*state, left);
        if count > 0 {
            *state = behind(*state, count);
            at += count;
            continue;
        }
        if left >= 4 {
            let (a, b, c, id) = (piece[at], piece[at + 1], piece[at + 2], piece[at + 3]);
            if let Some(next) = headed(*state, a, b, c, id) {
                piece[at + 3] = state.client;
                *state = next;
                at += 4;
                continue;
            }
        }
        let byte = piece[at];
        let new = written(*state, byte);
        match step(*state, byte) {
            Outcome::On(next) => {
                piece[at] = new;
                *state = next;
                at += 1;
            }
            Outcome::Over(end) => {
                piece[at] = new;
                return Progress::Done { used: at + 1, end };
            }
            Outcome::Wrong => return Progress::Bad { at },
        }
    }
    Progress::More
}

// What a whole command is answered by.
fn kind_to(command: &[u8]) -> ReplyKind
    ensures { result ≡ kind_to command.now }
{
    if command.len() > 4 && command[4] == FIELD_LIST {
        ReplyKind::Fields
    } else {
        ReplyKind::Command
    }
}

// The sequence id that follows those of a whole command's packets.
fn id_after(command: &[u8]) -> u8
    ensures { result ≡ id_after command.now }
{
    ((command.len() / LONGEST_PACKET + 1) % 256) as u8
}

impl Tracker {
    /// A tracker of a reply of this kind, whose first packet has the sequence id `server_first`, and is to have
    /// `client_first`; `number` takes the place of the server's number of a prepared statement. Takes no memory.
    pub fn start(kind: ReplyKind, server_first: u8, client_first: u8, number: u32) -> Self
        ensures { Took (record { kind = kind; server = server_first; client = client_first; number = number }) [] [] result.state }
    {
        let body = Body::Due(first_due(kind));
        Tracker {
            state: State {
                server: server_first,
                client: client_first,
                number,
                place: Place::First,
                body,
            },
        }
    }

    /// A tracker of the reply to a whole command, whose packets have the sequence ids from 0 on; the client is to get the
    /// reply from `client_first` on. COM_FIELD_LIST has a reply of its own kind. Takes no memory.
    pub fn to_command(command: &[u8], client_first: u8) -> Self
        ensures { Took (to_command command.now client_first) [] [] result.state }
    {
        Tracker::start(kind_to(command), id_after(command), client_first, 0)
    }

    /// Takes the next piece of the reply, and rewrites in place the sequence ids, so that they run from
    /// `client_first`, and the statement number of the answer to a prepare. `More` where the whole piece belongs to
    /// the reply, which goes on; `Done` where the reply ends, with the piece's first `used` bytes; `Bad` at the first
    /// byte behind which no reply goes on, be it of a length, a sequence id or a payload. Bytes behind the end, and
    /// from the bad byte on, stay as they are. Takes no memory. After `Done` and `Bad` there is nothing more to take.
    pub fn take(&mut self, piece: &mut [u8]) -> Progress
        ensures means { (sought : Sought) (bytes made : List ℕ) → Took sought bytes made self.old.state → Answers sought bytes made piece.old piece.new self.new.state result }
        ensures walks { Walked self.old.state piece.old self.new.state piece.new result }
    {
        walk(&mut self.state, piece)
    }
}
