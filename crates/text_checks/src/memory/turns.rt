// Turns of a private world over a server that refuses.
use crate::memory::parts::{Answering, follow};
use check_lines::{Answer, Fields};
use mx_base::{Bytes, ClientNo, Hostgroup, OutOfMemory};
use oracle::{Statement, Who, World};
use server_rule::{Capabilities, Cmd};
use session_state::{MessageName, SessionName};
use small_server::Refuser;

#[derive(Drop)]
struct Private {
    world: World,
    server: Refuser,
}

fn who(client: u64) -> Who<'static> {
    Who {
        name: SessionName {
            client: ClientNo(client),
            hostgroup: Hostgroup(0),
            life: 0,
        },
        user: b"u",
        capabilities: Capabilities {
            found_rows: false,
            multi_results: false,
            ignore_space: false,
        },
    }
}

// The text of a turn, as a query.
fn query(fields: &mut Fields<'_>) -> Cmd {
    Cmd::Query {
        text: Bytes::from_vec(fields.rest_bytes()),
    }
}

// A turn is done, unless memory was refused.
fn done(answer: &mut Answer, done: Result<(), OutOfMemory>) {
    answer.done(done);
    answer.text("done");
}

impl Private {
    fn ask(&mut self, fields: &mut Fields<'_>, who: &Who<'_>) {
        let asked = Statement {
            ordinal: fields.number(),
            place: None,
            key: 0,
            command: query(fields),
        };
        let alloc = fields.answer.alloc();
        let said = self.world.statement(alloc, &mut self.server, who, asked);
        done(&mut fields.answer, said);
    }

    fn prepare(&mut self, fields: &mut Fields<'_>, who: &Who<'_>) {
        let key = fields.number();
        let text = Bytes::from_vec(fields.rest_bytes());
        let alloc = fields.answer.alloc();
        let said = self.world.prepare(alloc, &mut self.server, who, key, text);
        done(&mut fields.answer, said);
    }

    fn step(&mut self, fields: &mut Fields<'_>, who: &Who<'_>) {
        let command = query(fields);
        let alloc = fields.answer.alloc();
        let said = self.world.step(alloc, &mut self.server, who, &command);
        done(&mut fields.answer, said);
    }

    fn end(&mut self, answer: &mut Answer, who: &Who<'_>) {
        let said = self.world.end(answer.alloc(), &mut self.server, who);
        done(answer, said);
    }

    fn close(&mut self, answer: &mut Answer, who: &Who<'_>) {
        let said = self.world.close(answer.alloc(), &mut self.server, who);
        done(answer, said);
    }
}

// The first payload of the answer to a message.
fn put_answered(fields: &mut Fields<'_>, world: &World, client: u64) {
    let name = MessageName {
        client: ClientNo(client),
        ordinal: fields.number(),
    };
    match world.answered(name) {
        Some(answered) => put_first(&mut fields.answer, answered.payloads.as_slice()),
        None => fields.answer.text("none"),
    }
}

fn put_first(answer: &mut Answer, payloads: &[Bytes]) {
    match payloads {
        [] => answer.text("nothing"),
        [first, ..] => answer.bytes(first.as_slice()),
    }
}

// A turn is its name, whose it is, the ordinal or key where it has one, and what stands behind.
impl Answering for Private {
    fn answer(&mut self, fields: &mut Fields<'_>) {
        let client = fields.number();
        let who = who(client);
        match fields.case.reader {
            "answer" => put_answered(fields, &self.world, client),
            "statement" => self.ask(fields, &who),
            "prepare" => self.prepare(fields, &who),
            "step" => self.step(fields, &who),
            "end" => self.end(&mut fields.answer, &who),
            "close" => self.close(&mut fields.answer, &who),
            _ => fields.answer.bad(),
        }
    }
}

/// `turns <turn> | <turn> ..`: what each of these turns leaves.
pub fn take_turns(fields: &mut Fields<'_>) {
    let text = fields.rest_text();
    let alloc = fields.answer.alloc();
    let mut private = Private {
        world: World::new(alloc),
        server: Refuser::new(alloc),
    };
    follow(fields, &mut private, text);
}
