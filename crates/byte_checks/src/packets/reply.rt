// Replies that the router writes or knows.
use crate::packets::show::with_id;
use check_lines::Fields;
use reply_text::{is_lone_reply, write_eof, write_err, write_ok};

/// `write_ok <first> <status> <before> <info>`: the id behind the OK, and the bytes before with it.
pub fn ok(fields: &mut Fields<'_>) {
    let first = fields.number();
    let status = fields.number();
    let mut out = fields.bytes();
    let info = fields.rest_bytes();
    let id = write_ok(&mut out, first, status, &info);
    with_id(&mut fields.answer, id, &out);
}

/// `write_err <first> <code> <state> <before> <text>`: the id behind the ERR, and the bytes before with it.
pub fn err(fields: &mut Fields<'_>) {
    let first = fields.number();
    let code = fields.number();
    let state = fields.array();
    let mut out = fields.bytes();
    let text = fields.rest_bytes();
    let id = write_err(&mut out, first, code, &state, &text);
    with_id(&mut fields.answer, id, &out);
}

/// `write_eof <first> <status> <before>`: the id behind the EOF, and the bytes before with it.
pub fn eof(fields: &mut Fields<'_>) {
    let first = fields.number();
    let status = fields.number();
    let mut out = fields.rest_bytes();
    let id = write_eof(&mut out, first, status);
    with_id(&mut fields.answer, id, &out);
}

/// `is_lone_reply <payload>`: whether it is a whole reply.
pub fn is_lone(fields: &mut Fields<'_>) {
    let payload = fields.rest_bytes();
    fields.answer.debug(is_lone_reply(&payload));
}
