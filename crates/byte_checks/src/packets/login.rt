// The payloads of a login, read.
ghost use Rattle.std.specs.Prelude.{◌≡◌, ◌<◌, ◌↔◌, length, slice_index, IsTrue};

use crate::packets::show::{Shows, number, part, shown, spell, spell_next, spell_or_none};
use check_lines::{Answer, Fields};
use handshake::{Greeting, HandFault, Response, Switch, read_greeting, read_response, read_switch};

/// `read_greeting <payload>`, and so `read_response` and `read_switch`: its fields in order, capabilities in hex digits, or its
/// fault. `greeting_fronts <payload>` and so on: the fault of each of its fronts, each from the length on that stands before it.
pub fn read(fields: &mut Fields<'_>) {
    let payload = fields.bytes();
    show(&mut fields.answer, fields.case.reader, &payload);
}

fn show(answer: &mut Answer, reader: &str, payload: &[u8]) {
    match reader {
        "read_greeting" => shown(answer, read_greeting(answer.alloc(), payload)),
        "read_response" => shown(answer, read_response(answer.alloc(), payload)),
        "read_switch" => switch(answer, payload),
        _ => fronts(answer, reader, payload),
    }
}

// A request to switch, or its fault.
fn switch(answer: &mut Answer, payload: &[u8]) {
    if may_switch(payload) {
        shown(answer, read_switch(answer.alloc(), payload));
    } else {
        answer.bad();
    }
}

// The fields of a greeting.
impl Shows for Greeting {
    fn show(&self, answer: &mut Answer) {
        spell(answer, self.version.as_slice());
        answer.text(" ");
        answer.display(self.connection);
        spell_next(answer, &self.salt);
        answer.text(" ");
        show_capabilities(answer, self.capabilities);
        number(answer, self.collation);
        answer.display(self.status);
        spell_next(answer, self.plugin.as_slice());
    }
}

// Capabilities in hex digits, and a blank.
fn show_capabilities(answer: &mut Answer, capabilities: u32) {
    answer.digits(&capabilities.to_be_bytes());
    answer.text(" ");
}

// The fields of a response.
impl Shows for Response {
    fn show(&self, answer: &mut Answer) {
        part(answer);
        show_capabilities(answer, self.capabilities);
        number(answer, self.max_packet);
        answer.display(self.collation);
        spell_next(answer, self.user.as_slice());
        spell_next(answer, self.answer.as_slice());
        spell_or_none(answer, &self.schema);
        spell_or_none(answer, &self.plugin);
    }
}

// The fields of a request to switch.
impl Shows for Switch {
    fn show(&self, answer: &mut Answer) {
        spell(answer, self.plugin.as_slice());
        spell_next(answer, &self.salt);
    }
}

// Whether a payload is empty or begins as a request to switch.
fn may_switch(payload: &[u8]) -> bool
    ensures { IsTrue result ↔ (0 < length payload.now → slice_index payload.now 0 ≡ 254) }
{
    match payload {
        [first, ..] => *first == 0xFE,
        [] => true,
    }
}

// The fault of each front of a payload, from the length on with which it comes.
fn fronts(answer: &mut Answer, reader: &str, payload: &[u8]) {
    let mut last = None;
    for length in 0..=payload.len() {
        let fault = fault_of(answer, reader, &payload[..length]);
        if length == 0 || fault != last {
            front(answer, length, fault);
            last = fault;
        }
    }
}

// The fault that comes from a length on.
fn front(answer: &mut Answer, length: usize, fault: Option<HandFault>) {
    part(answer);
    number(answer, length);
    match fault {
        Some(fault) => answer.debug(fault),
        None => answer.text("none"),
    }
}

// The fault of a payload.
fn fault_of(answer: &mut Answer, reader: &str, payload: &[u8]) -> Option<HandFault> {
    let alloc = answer.alloc();
    match reader {
        "greeting_fronts" => read_greeting(alloc, payload).err(),
        "response_fronts" => read_response(alloc, payload).err(),
        "switch_fronts" if may_switch(payload) => read_switch(alloc, payload).err(),
        _ => {
            answer.bad();
            None
        }
    }
}
