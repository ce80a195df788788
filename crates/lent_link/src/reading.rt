// A reply that is read.
ghost use Rattle.std.specs.Prelude.{◌≡◌, length};
ghost use Rattle.reply_track.specs.Runs.{renumbered, run};
ghost use Rattle.lent_link.specs.Reads.{end_of, kind_of, reading, taken_by, walked};

use reply_track::{Progress, ReplyKind, Tracker};
use session_state::{EndKind, ReplyEnd};

/// A reply under way: how far it is, and how many bytes of it were read.
#[derive(Clone, Copy)]
pub struct Reading {
    pub tracker: Tracker,
    pub read: u64,
}

/// What a piece made of a reply.
#[derive(Clone, Copy)]
pub enum Took {
    /// It goes on, and the whole piece is of it.
    Part,
    /// It ended so, with the first `used` bytes of the piece.
    Whole { used: usize, end: ReplyEnd },
    /// From this place of it on no reply goes on.
    Bad { place: u64 },
}

fn kind_of(kind: reply_track::EndKind) -> EndKind
    ensures { result ≡ kind_of kind }
{
    match kind {
        reply_track::EndKind::Ok => EndKind::Ok,
        reply_track::EndKind::Err => EndKind::Err,
        reply_track::EndKind::Rows => EndKind::Rows,
        reply_track::EndKind::Prepared => EndKind::Prepared,
    }
}

// How a reply ended, in the words of sessions.
fn end_of(end: reply_track::ReplyEnd) -> ReplyEnd
    ensures { result ≡ end_of end }
{
    ReplyEnd {
        kind: kind_of(end.kind),
        flags: end.flags,
        warnings: end.warnings,
        insert_id: end.insert_id,
        code: end.code,
        server_number: end.server_number,
        params: end.params,
    }
}

impl Reading {
    /// A reply of which nothing was read: its first packet has the sequence id `server`, and is to have `client`; `number` takes the place
    /// of the server's number of what it prepared. Takes no memory.
    pub fn new(kind: ReplyKind, server: u8, client: u8, number: u32) -> Self
        ensures { result ≡ reading kind server client number }
    {
        Reading {
            tracker: Tracker::start(kind, server, client, number),
            read: 0,
        }
    }

    /// The next piece of it, which becomes the client's: with its own ids, and its own number of what was prepared. Takes no memory.
    pub fn take(&mut self, piece: &mut [u8]) -> Took
        ensures took { result ≡ taken_by (length piece.old) self.old.read (run self.old.tracker.state piece.old) }
        ensures reading { self.new ≡ walked (length piece.old) self.old (run self.old.tracker.state piece.old) }
        ensures piece { piece.new ≡ renumbered self.old.tracker.state piece.old }
    {
        let size = piece.len();
        let mut tracker = self.tracker;
        match tracker.take(piece) {
            Progress::More => {
                self.tracker = tracker;
                self.read = self.read.wrapping_add(size as u64);
                Took::Part
            }
            Progress::Done { used, end } => Took::Whole {
                used,
                end: end_of(end),
            },
            Progress::Bad { at } => Took::Bad {
                place: self.read.wrapping_add(at as u64),
            },
        }
    }
}
