// The link of a client.
use crate::packets::show::{Shows, bytes, debug, word};
use crate::packets::steps::{Steps, take_steps};
use crate::packets::text::is_text;
use check_lines::{Answer, Fields};
use client_side::{Client, ClientStep};
use mx_base::{ClientNo, OutOfMemory};

/// `greeted <number> <limit> <salt> <version> <step> ..`: a Client that is led through the steps `feed=<bytes>`, `next`, `take`,
/// which is next, then what was found, and done, `login`, `outgoing`, `taken=<count>`, `answer=<bytes>`, `err_id=<unfed>` and
/// the words of `look`. `told <number> <limit> <salt> <bytes> <step> ..`: one that is told these bytes in the greeting's place.
pub fn serve(fields: &mut Fields<'_>) {
    let number = ClientNo(fields.number());
    let limit = fields.number();
    let salt = fields.array();
    let first = fields.bytes();
    let alloc = fields.answer.alloc();
    if fields.case.reader == "told" {
        take_steps(fields, Client::told(alloc, number, salt, limit, &first));
    } else if is_text(&first) && first.len() <= 255 {
        take_steps(fields, Client::new(alloc, number, salt, limit, &first));
    } else {
        fields.answer.bad();
    }
}

impl Steps for Client {
    fn step(&mut self, answer: &mut Answer, call: &str, argument: &str, bytes: &mut [u8]) {
        match call {
            "feed" => answer.done(self.feed(bytes)),
            "answer" => answer.done(self.answer_grown(bytes)),
            "err_id" => debug(answer, self.err_id(bytes)),
            "taken" => written(answer, self, argument),
            "next" => debug(answer, self.next()),
            "take" => take(answer, self),
            _ => look(answer, self, call),
        }
    }
}

// What can be seen of a client.
fn look(answer: &mut Answer, client: &Client, call: &str) {
    match call {
        "login" => login(answer, client),
        "outgoing" => bytes(answer, client.outgoing()),
        "salt" => bytes(answer, client.salt()),
        "number" => debug(answer, client.number()),
        "arrived" => debug(answer, client.arrived()),
        "kept" => debug(answer, client.kept()),
        "announced" => debug(answer, client.announced()),
        _ => answer.bad(),
    }
}

// Who the client says it is.
fn login(answer: &mut Answer, client: &Client) {
    match client.login() {
        Some(response) => response.show(answer),
        None => word(answer, "none"),
    }
}

// So many bytes were written.
fn written(answer: &mut Answer, client: &mut Client, count: &str) {
    let count = answer.parsed(count);
    if count <= client.outgoing().len() {
        client.taken(count);
    } else {
        answer.bad();
    }
}

// Takes what the client says next.
fn take(answer: &mut Answer, client: &mut Client) {
    match client.next() {
        Ok(ClientStep::Login { .. }) => {
            login(answer, client);
            client.done();
        }
        Ok(ClientStep::Message { .. }) => {
            bytes(answer, client.payload());
            client.done();
        }
        Ok(other) => debug(answer, other),
        Err(OutOfMemory) => answer.refused(),
    }
}
