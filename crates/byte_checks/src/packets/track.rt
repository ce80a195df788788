// Replies that are followed to their ends.
use crate::packets::show::debug;
use check_lines::{Answer, Fields};
use reply_track::{Progress, ReplyKind, Tracker};

/// `track <kind> <first id> <number> <piece> ..`: what the tracker of a reply answers to each piece, and the piece as it is then.
pub fn track(fields: &mut Fields<'_>) {
    let kind = fields.text();
    let first = fields.number();
    let number = fields.number();
    let kind = kind_of(&mut fields.answer, kind);
    let mut tracker = Tracker::start(kind, first, 1, number);
    let pieces = fields.rest_text();
    follow(&mut fields.answer, pieces, &mut tracker);
}

// The answers to the pieces, up to the last one of the reply.
fn follow(answer: &mut Answer, pieces: &str, tracker: &mut Tracker) {
    for piece in pieces.split(' ') {
        let mut piece = answer.spelled(piece);
        let progress = tracker.take(&mut piece);
        show(answer, progress, &piece);
        if !matches!(progress, Progress::More) {
            break;
        }
    }
}

// An answer, and the piece.
fn show(answer: &mut Answer, progress: Progress, piece: &[u8]) {
    debug(answer, progress);
    answer.text(" ");
    answer.bytes(piece);
}

// The kind of a reply, by its name.
fn kind_of(answer: &mut Answer, name: &str) -> ReplyKind {
    match name {
        "prepare" => ReplyKind::Prepare,
        "fields" => ReplyKind::Fields,
        "command" => ReplyKind::Command,
        _ => {
            answer.bad();
            ReplyKind::Command
        }
    }
}
