// A session at a server.
use crate::memory::bound::Bound;
use crate::memory::reply::put_reply;
use crate::memory::verb::Verb;
use check_lines::Answer;
use mem_server::MemServer;
use mx_base::{Bytes, OutOfMemory};
use server_rule::{Capabilities, Cmd, Session};
use session_vars::Settings;
use std::alloc::Global;

/// A session, and what was prepared last in it: the text, and the schema of that moment.
#[derive(Drop)]
pub struct Seat {
    session: Session,
    text: Bytes,
    schema: Bytes,
}

fn fresh(alloc: Global) -> Result<Session, OutOfMemory> {
    let user = Bytes::from_slice(alloc, b"u")?;
    let settings = Settings::defaults(alloc)?;
    Ok(Session {
        user,
        capabilities: Capabilities {
            found_rows: false,
            multi_results: false,
            ignore_space: false,
        },
        schema: Bytes::new(alloc),
        settings,
        tx: Bytes::new(alloc),
        locks: Bytes::new(alloc),
        deep: Bytes::new(alloc),
        last_id: 0,
        diag: Bytes::new(alloc),
    })
}

fn execute(text: Bytes, schema: Bytes, settings: Settings, bound: Bound) -> Cmd {
    Cmd::Run {
        text,
        schema,
        settings,
        types: Some(Bytes::from_vec(bound.types)),
        nulls: Bytes::from_vec(bound.nulls),
        values: Bytes::from_vec(bound.values),
        long: bound.long,
    }
}

fn other(verb: Verb, rest: Bytes) -> Cmd {
    match verb {
        Verb::Choose => Cmd::InitDb { schema: rest },
        Verb::Fields => Cmd::FieldList { rest },
        Verb::Prepare => Cmd::Prepare { text: rest },
        Verb::Reset => Cmd::Reset,
        Verb::Quit => Cmd::Close,
        _ => Cmd::Query { text: rest },
    }
}

// These bytes once more.
fn copied(answer: &mut Answer, bytes: &[u8]) -> Bytes {
    let mut copy = Bytes::new(answer.alloc());
    answer.done(copy.append(bytes));
    copy
}

impl Seat {
    /// A fresh session.
    pub fn new(alloc: Global) -> Result<Seat, OutOfMemory> {
        Ok(Seat {
            session: fresh(alloc)?,
            text: Bytes::new(alloc),
            schema: Bytes::new(alloc),
        })
    }

    // What is prepared is kept for the next execute.
    fn keep(&mut self, answer: &mut Answer, text: &str) {
        self.text = copied(answer, text.as_bytes());
        self.schema = copied(answer, self.session.schema.as_slice());
    }

    fn execute(&mut self, answer: &mut Answer, server: &mut MemServer, values: &str) {
        match Settings::defaults(answer.alloc()) {
            Ok(settings) => self.execute_under(answer, server, settings, values),
            Err(OutOfMemory) => answer.refused(),
        }
    }

    fn execute_under(
        &mut self,
        answer: &mut Answer,
        server: &mut MemServer,
        settings: Settings,
        values: &str,
    ) {
        let text = copied(answer, self.text.as_slice());
        let schema = copied(answer, self.schema.as_slice());
        let cmd = execute(text, schema, settings, Bound::of(answer, values));
        self.ask(answer, server, Verb::Execute, cmd);
    }

    // The one place where a command ends.
    fn ask(&mut self, answer: &mut Answer, server: &mut MemServer, verb: Verb, cmd: Cmd) {
        self.ask_lent(answer, server, verb, &cmd);
    }

    fn ask_lent(&mut self, answer: &mut Answer, server: &mut MemServer, verb: Verb, cmd: &Cmd) {
        match server.run(answer.alloc(), &mut self.session, cmd) {
            Ok(reply) => put_reply(answer, verb, reply.as_slice()),
            Err(OutOfMemory) => answer.refused(),
        }
    }

    fn command(&mut self, answer: &mut Answer, server: &mut MemServer, verb: Verb, text: &str) {
        let cmd = other(verb, copied(answer, text.as_bytes()));
        self.ask(answer, server, verb, cmd);
    }

    /// Runs a step, and shows its reply.
    pub fn run(&mut self, answer: &mut Answer, server: &mut MemServer, verb: Verb, text: &str) {
        if matches!(verb, Verb::Execute) {
            return self.execute(answer, server, text);
        }
        if matches!(verb, Verb::Prepare) {
            self.keep(answer, text);
        }
        self.command(answer, server, verb, text);
    }
}
