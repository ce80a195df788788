// Messages out of packets, and back.
use crate::packets::show::{bytes, debug, with_id};
use crate::packets::steps::{Steps, take_steps};
use check_lines::{Answer, Fields};
use mx_base::{Bytes, OutOfMemory};
use packet_frame::{Framer, Payloads, payloads_of, write_message};

/// `framer <limit> <step> ..`: a Framer that is led through the steps `feed=<piece>`, `next=<first>`, `kept`, `announced`,
/// `err_id=<unfed>` and `take=<first>`, which is next, then payload and done where a message is found.
pub fn feed(fields: &mut Fields<'_>) {
    let limit = fields.number();
    let framer = Framer::new(fields.answer.alloc(), limit);
    take_steps(fields, Ok(framer));
}

impl Steps for Framer {
    fn step(&mut self, answer: &mut Answer, call: &str, argument: &str, bytes: &mut [u8]) {
        match call {
            "feed" => answer.done(self.feed(bytes)),
            "next" => next(answer, self, argument),
            "take" => take(answer, self, argument),
            "kept" => debug(answer, self.kept()),
            "announced" => debug(answer, self.announced()),
            "err_id" => debug(answer, self.err_id(bytes)),
            _ => answer.bad(),
        }
    }
}

// The message that is found next.
fn next(answer: &mut Answer, framer: &mut Framer, first: &str) {
    let first = answer.parsed(first);
    debug(answer, framer.next(first));
}

// The message that is found next, which is taken.
fn take(answer: &mut Answer, framer: &mut Framer, first: &str) {
    let first = answer.parsed(first);
    match framer.next(first) {
        Ok(Some(_)) => {
            bytes(answer, framer.payload());
            framer.done();
        }
        other => debug(answer, other),
    }
}

/// `payloads_of <limit> <first> <piece> ..`: the fault behind the messages of the pieces, and their payloads.
pub fn join(fields: &mut Fields<'_>) {
    let limit = fields.number();
    let first = fields.number();
    let pieces = fields.rest_text();
    let pieces = pieces_of(&mut fields.answer, pieces, ' ');
    match payloads_of(fields.answer.alloc(), limit, first, &pieces) {
        Ok(found) => show(&mut fields.answer, &found),
        Err(OutOfMemory) => fields.answer.refused(),
    }
}

// The fault, and the payloads before it.
fn show(answer: &mut Answer, found: &Payloads) {
    answer.debug(found.fault);
    for payload in &found.payloads {
        answer.text(" ");
        answer.bytes(payload.as_slice());
    }
}

/// What a part of a text spells.
pub trait Spelled: Drop {
    fn spelled(answer: &mut Answer, text: &str) -> Self;
}

impl Spelled for Bytes {
    fn spelled(answer: &mut Answer, text: &str) -> Self {
        Bytes::from_vec(answer.spelled(text))
    }
}

/// What the parts of a text spell between which this character stands.
pub fn pieces_of<S: Spelled>(answer: &mut Answer, text: &str, between: char) -> Vec<S> {
    let mut pieces = Vec::new(answer.alloc());
    for piece in text.split(between) {
        let piece = S::spelled(answer, piece);
        answer.keep(&mut pieces, piece);
    }
    pieces
}

/// `write_message <first> <before> <payload>`: the id behind the last packet, and the bytes before with the packets.
pub fn write(fields: &mut Fields<'_>) {
    let first = fields.number();
    let mut out = fields.bytes();
    let payload = fields.rest_bytes();
    let id = write_message(&mut out, first, &payload);
    with_id(&mut fields.answer, id, &out);
}
