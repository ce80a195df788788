// What was written to clients, reply by reply.
ghost use Rattle.std.specs.Prelude.{◌≤◌, length};

use check_lines::Answer;
use mx_base::{LinkId, get_u16, get_u24};
use mx_wire::Entry;

// The codes of the router's own errors begin here.
const OWN_ERRORS: u16 = 9100;

/// What a client was written, and whether its link failed.
#[derive(Drop)]
pub struct Written {
    link: Option<LinkId>,
    came: usize,
    pub bytes: Vec<u8>,
    pub has_failed: bool,
}

impl Written {
    // A client comes; it may be the one behind so many.
    fn comes(&mut self, client: usize, link: LinkId) {
        if self.came == client {
            self.link = Some(link);
        }
        self.came = self.came.saturating_add(1);
    }

    // The link fails, where it is this client's.
    fn fails(&mut self, link: LinkId) {
        if self.link == Some(link) {
            self.has_failed = true;
        }
    }

    // Bytes are written, where they are for this client.
    fn takes(&mut self, answer: &mut Answer, link: LinkId, bytes: &[u8]) {
        if self.link == Some(link) && self.bytes.extend_from_slice(bytes).is_err() {
            answer.refused();
        }
    }
}

/// What the client was written that came as this one, counted from 0.
pub fn written_to(answer: &mut Answer, log: &[Entry], client: usize) -> Written {
    let mut written = Written {
        link: None,
        came: 0,
        bytes: Vec::new(answer.alloc()),
        has_failed: false,
    };
    for entry in log {
        match entry {
            Entry::Accepted { link, .. } => written.comes(client, *link),
            Entry::Wrote { link, bytes, .. } => written.takes(answer, *link, bytes.as_slice()),
            Entry::ReadFailed { link } => written.fails(*link),
            Entry::WriteFailed { link } => written.fails(*link),
            _ => {}
        }
    }
    written
}

// How many bytes the first reply has: packets whose sequence ids rise. What is said in a login counts as one.
fn reply_size(bytes: &[u8]) -> usize
    ensures { result ≤ length bytes.now }
{
    let mut at = 0usize;
    let mut last = None;
    for _ in 0..bytes.len() {
        let id = bytes.get(at.saturating_add(3)).copied();
        if id.is_none() {
            return bytes.len();
        }
        if id <= last {
            return at.min(bytes.len());
        }
        last = id;
        let length = get_u24(bytes, at).unwrap_or(0);
        at = at.saturating_add(4).saturating_add(length as usize);
    }
    bytes.len()
}

// Whether a reply is one of the router's own errors.
fn is_own_error(reply: &[u8]) -> bool {
    reply.get(4) == Some(&0xFF) && get_u16(reply, 5).unwrap_or(0) >= OWN_ERRORS
}

/// How many bytes what is said in a login has.
pub fn login_size(bytes: &[u8]) -> usize
    ensures { result ≤ length bytes.now }
{
    reply_size(bytes)
}

/// Whether what a client was written is, reply by reply, the front of what it is written where no call fails, but that one of the router's
/// own errors may stand in place of a reply. The last reply may be cut.
pub fn is_front(whole: &[u8], written: &[u8]) -> bool {
    let mut whole = whole;
    let mut written = written;
    for _ in 0..written.len() {
        let (due, more_due) = whole.split_at(reply_size(whole));
        let (reply, more) = written.split_at(reply_size(written));
        if reply != due && !is_own_error(reply) {
            return more.is_empty() && due.starts_with(reply);
        }
        whole = more_due;
        written = more;
    }
    true
}

/// How many calls that can fail a log tells of.
pub fn calls_in(log: &[Entry]) -> u64 {
    let mut calls = 0u64;
    for entry in log {
        match entry {
            Entry::Named { .. }
            | Entry::NoneNamed
            | Entry::Closed { .. }
            | Entry::Exec { .. }
            | Entry::Drop { .. } => {}
            _ => calls = calls.saturating_add(1),
        }
    }
    calls
}
