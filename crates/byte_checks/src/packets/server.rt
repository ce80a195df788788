// The link to a server.
use crate::packets::show::{bytes, debug, spell_next, word};
use crate::packets::steps::{Steps, take_steps};
use crate::packets::text::is_text;
use check_lines::{Answer, Fields};
use mx_base::{ClientNo, Tag};
use server_side::{Backend, BackendFault, Heard, Stage};

/// The tag of each command.
const COMMAND: Tag = Tag::For {
    client: ClientNo(1),
    ordinal: 1,
};

/// `backend <found rows> <user> <password> <step> ..`: a Backend that is led through the steps `got=<piece>`, `each=<piece>`,
/// whose bytes come each alone, `enter=<piece>`, `command=<first>:<payload>`, `write`, which is outgoing and then taken whole,
/// `taken=<count>`, `withdraw` and the words of `look`.
pub fn log_in(fields: &mut Fields<'_>) {
    let found_rows = fields.text() == "true";
    let user = fields.bytes();
    let password = fields.bytes();
    let alloc = fields.answer.alloc();
    if is_text(&user) {
        take_steps(fields, Backend::new(alloc, &user, &password, found_rows));
    } else {
        fields.answer.bad();
    }
}

impl Steps for Backend {
    fn step(&mut self, answer: &mut Answer, call: &str, argument: &str, bytes: &mut [u8]) {
        match call {
            "got" => debug(answer, self.got(bytes)),
            "each" => debug(answer, each(self, bytes)),
            "enter" => debug(answer, self.enter(bytes)),
            "command" => command(answer, self, argument),
            "taken" => take(answer, self, argument),
            "write" => write(answer, self),
            "withdraw" => self.withdraw(),
            _ => look(answer, self, call),
        }
    }
}

// What bytes that come each alone tell of the whole piece.
fn each(backend: &mut Backend, piece: &mut [u8]) -> Result<Heard, BackendFault> {
    let mut heard = Heard::Quiet;
    for at in 0..piece.len() {
        heard = match backend.got(&mut piece[at..at + 1])? {
            Heard::Part { .. } => Heard::Part { used: at + 1 },
            Heard::Whole { .. } => return Ok(Heard::Whole { used: at + 1 }),
            login => login,
        };
    }
    Ok(heard)
}

// What can be seen of a link.
fn look(answer: &mut Answer, backend: &Backend, call: &str) {
    match call {
        "outgoing" => outgoing(answer, backend),
        "reply" => bytes(answer, backend.reply()),
        "stage" => debug(answer, backend.stage()),
        "has_command" => debug(answer, backend.has_command()),
        "is_begun" => debug(answer, backend.is_begun()),
        "is_sent" => debug(answer, backend.is_sent()),
        "unasked" => debug(answer, backend.unasked()),
        _ => answer.bad(),
    }
}

// What is to be written, and what it is for.
fn outgoing(answer: &mut Answer, backend: &Backend) {
    match backend.outgoing() {
        Some(left) => tagged(answer, left.tag, left.bytes),
        None => word(answer, "none"),
    }
}

// Bytes behind their tag.
fn tagged(answer: &mut Answer, tag: Tag, bytes: &[u8]) {
    debug(answer, tag);
    spell_next(answer, bytes);
}

// What is to be written, all of which is written then.
fn write(answer: &mut Answer, backend: &mut Backend) {
    outgoing(answer, backend);
    if let Some(left) = backend.outgoing() {
        let count = left.bytes.len();
        backend.taken(count);
    }
}

// A command is to be written, where the router is logged in and none is.
fn command(answer: &mut Answer, backend: &mut Backend, argument: &str) {
    let (first, payload) = argument.split_once(':').unwrap_or((argument, ""));
    let first = answer.parsed(first);
    let payload = answer.spelled(payload);
    if backend.stage() != Stage::In || backend.has_command() {
        answer.bad();
    } else {
        answer.done(backend.command(COMMAND, &payload, first));
    }
}

// So many bytes were written of what is left.
fn take(answer: &mut Answer, backend: &mut Backend, count: &str) {
    let count = answer.parsed(count);
    match backend.outgoing() {
        Some(left) if count <= left.bytes.len() => backend.taken(count),
        _ => answer.bad(),
    }
}
