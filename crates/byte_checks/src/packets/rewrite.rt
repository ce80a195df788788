// The payloads of a login, written.
ghost use Rattle.std.specs.Prelude.{◌≤◌, length, IsTrue};
ghost use Rattle.std.specs.Option.{ForSome};
ghost use Rattle.handshake.specs.Spelling.{IsText};

use crate::packets::show::appended;
use crate::packets::text::is_text;
use check_lines::{Answer, Fields};
use handshake::{
    Greeting, HandFault, Response, read_greeting, read_response, write_greeting, write_response,
    write_switch,
};
use mx_base::Bytes;

/// `rewrite_greeting <before> <payload>`, and so `rewrite_response`: the bytes before, and what is read of the payload, written.
pub fn again(fields: &mut Fields<'_>) {
    let mut out = fields.bytes();
    let payload = fields.bytes();
    write(&mut fields.answer, fields.case.reader, &mut out, &payload);
}

fn write(answer: &mut Answer, reader: &str, out: &mut Vec<u8>, payload: &[u8]) {
    match reader {
        "rewrite_greeting" => rewritten(answer, out, read_greeting(answer.alloc(), payload)),
        "rewrite_response" => rewritten(answer, out, read_response(answer.alloc(), payload)),
        _ => answer.bad(),
    }
}

// What can be written where it can be read.
trait Rewrites: Drop {
    fn rewrite(&self, answer: &mut Answer, out: &mut Vec<u8>);
}

// The bytes before, and what is read.
fn rewritten<T: Rewrites>(answer: &mut Answer, out: &mut Vec<u8>, read: Result<T, HandFault>) {
    match read {
        Ok(value) => value.rewrite(answer, out),
        Err(_) => answer.bad(),
    }
}

impl Rewrites for Greeting {
    fn rewrite(&self, answer: &mut Answer, out: &mut Vec<u8>) {
        if is_text(self.version.as_slice()) && is_text(self.plugin.as_slice()) {
            let done = write_greeting(out, self);
            appended(answer, done, out);
        } else {
            answer.bad();
        }
    }
}

impl Rewrites for Response {
    fn rewrite(&self, answer: &mut Answer, out: &mut Vec<u8>) {
        if may_be_written(self) {
            let done = write_response(out, self);
            appended(answer, done, out);
        } else {
            answer.bad();
        }
    }
}

// Whether a response can be written.
fn may_be_written(response: &Response) -> bool
    ensures user { IsTrue result → IsText response.now.user }
    ensures schema { IsTrue result → ForSome response.now.schema IsText }
    ensures plugin { IsTrue result → ForSome response.now.plugin IsText }
    ensures answer { IsTrue result → length response.now.answer ≤ 255 }
{
    is_text(response.user.as_slice())
        && is_text_or_none(&response.schema)
        && is_text_or_none(&response.plugin)
        && response.answer.as_slice().len() <= 255
}

// Whether there is no text, or one that has no NUL.
fn is_text_or_none(text: &Option<Bytes>) -> bool
    ensures { IsTrue result → ForSome text.now IsText }
{
    match text {
        Some(text) => is_text(text.as_slice()),
        None => true,
    }
}

/// `write_switch <salt> <before>`: the bytes before and the request to switch.
pub fn switch(fields: &mut Fields<'_>) {
    let salt = fields.array();
    let mut out = fields.bytes();
    let done = write_switch(&mut out, &salt);
    appended(&mut fields.answer, done, &out);
}
