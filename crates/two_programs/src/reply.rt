// Replies in words.
use mx_base::{Bytes, OutOfMemory, get_u16};
use packet_frame::Framer;
use std::alloc::Global;
use std::io::{self, ErrorKind};

/// The longest reply, in bytes.
const MOST_BYTES: u64 = 65_536;

/// How many messages a reply has at most.
const MOST_MESSAGES: usize = 16;

// The payloads of a reply, whose packets have the sequence ids from 1 on.
fn payloads_of(alloc: Global, reply: &[u8]) -> Result<Vec<Bytes>, OutOfMemory> {
    let mut framer = Framer::new(alloc, MOST_BYTES);
    framer.feed(reply)?;
    let mut payloads = Vec::new(alloc);
    let mut id = 1u8;
    for _ in 0..MOST_MESSAGES {
        let Ok(Some(message)) = framer.next(id) else {
            return Ok(payloads);
        };
        payloads.push(Bytes::from_slice(alloc, framer.payload())?)?;
        framer.done();
        id = message.last.wrapping_add(1);
    }
    Ok(payloads)
}

fn unread() -> io::Error {
    io::Error::from(ErrorKind::InvalidData)
}

fn text(alloc: Global, bytes: &[u8]) -> io::Result<String> {
    match str::from_utf8(bytes) {
        Ok(text) => Ok(String::from_str(alloc, text)?),
        Err(_) => Err(unread()),
    }
}

/// An error in words.
pub fn error_in_words(alloc: Global, code: u16) -> io::Result<String> {
    Ok(format!(in alloc; "error {code}")?)
}

// An OK or an ERR.
fn lone_in_words(alloc: Global, payload: &[u8]) -> io::Result<String> {
    match payload {
        [0x00, ..] => text(alloc, b"OK"),
        [0xFF, ..] => error_in_words(alloc, get_u16(payload, 1).unwrap_or(0)),
        _ => Err(unread()),
    }
}

// The only cell of a row, which is a short text or NULL.
fn cell_in_words(alloc: Global, row: &[u8]) -> io::Result<String> {
    match row {
        [0xFB] => text(alloc, b"NULL"),
        [length, cell @ ..] if cell.len() == usize::from(*length) => text(alloc, cell),
        _ => Err(unread()),
    }
}

/// A reply in words: `OK`, `error` with its code, or the only cell of a table with one row or none.
pub fn in_words(alloc: Global, reply: &[u8]) -> io::Result<String> {
    let payloads = match payloads_of(alloc, reply) {
        Ok(payloads) => payloads,
        Err(_) => return Err(io::Error::from(ErrorKind::OutOfMemory)),
    };
    match payloads.as_slice() {
        [only] => lone_in_words(alloc, only.as_slice()),
        [_, _, _, row, _] => cell_in_words(alloc, row.as_slice()),
        [_, _, _, _] => text(alloc, b"no row"),
        _ => Err(unread()),
    }
}
