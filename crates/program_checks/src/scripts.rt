// Scripts as a case spells them.
ghost use Rattle.std.specs.Prelude.{◌≤◌, length};
ghost use Rattle.std.specs.List.{All};
ghost use Rattle.handshake.specs.Spelling.{IsText};

use crate::tables::{add, found};
use crate::user::User;
use check_lines::Answer;
use mx_base::Bytes;
use scripted_wire::Script;

// What a command begins with: a byte before a text, a byte of the case's own, or none.
#[derive(Clone, Copy)]
enum Begins {
    With(u8),
    WithNumber,
    WithNothing,
}

// Commands by their words.
const COMMANDS: [(&str, Begins); 7] = [
    ("quit", Begins::With(0x01)),
    ("schema", Begins::With(0x02)),
    ("query", Begins::With(0x03)),
    ("ping", Begins::With(0x0E)),
    ("reset", Begins::With(0x1F)),
    ("byte", Begins::WithNumber),
    ("empty", Begins::WithNothing),
];

/// A copy, or nothing where memory is refused.
pub fn copied(answer: &mut Answer, bytes: &[u8]) -> Bytes
    ensures text { IsText bytes.now → IsText result }
    ensures short { length result ≤ length bytes.now }
{
    match Bytes::from_slice(answer.alloc(), bytes) {
        Ok(copy) => copy,
        Err(_) => {
            answer.refused();
            Bytes::new(answer.alloc())
        }
    }
}

fn put_number(answer: &mut Answer, payload: &mut Bytes, number: &str) {
    match number.parse::<u8>() {
        Ok(byte) => answer.done(payload.append(&[byte])),
        Err(_) => answer.bad(),
    }
}

fn put_command(answer: &mut Answer, payload: &mut Bytes, word: &str, rest: &str) {
    match found(&COMMANDS, word) {
        Some(Begins::With(byte)) => {
            answer.done(payload.append(&[byte]));
            answer.done(payload.append(rest.as_bytes()));
        }
        Some(Begins::WithNumber) => put_number(answer, payload, rest),
        Some(Begins::WithNothing) => {}
        None => answer.bad(),
    }
}

// The payload of a command: `query <text>`, `schema <name>`, `quit`, `ping`, `reset`, `empty` for no byte at all, and `byte <number>`.
fn command_of(answer: &mut Answer, text: &str) -> Bytes {
    let (word, rest) = text.split_once(' ').unwrap_or((text, ""));
    let mut payload = Bytes::new(answer.alloc());
    put_command(answer, &mut payload, word, rest);
    payload
}

// The commands of a script, between which `; ` stands.
fn commands_of(answer: &mut Answer, text: &str) -> Vec<Bytes> {
    let mut commands = Vec::new(answer.alloc());
    for part in text.split_terminator("; ") {
        let command = command_of(answer, part);
        add(answer, &mut commands, command);
    }
    commands
}

// Who the client of a script is, and its commands: behind `; `, where it has any.
fn parts_of(text: &str) -> (Option<User>, &str) {
    let (word, commands) = text.split_once("; ").unwrap_or((text, ""));
    (User::of(word), commands)
}

fn script_of(answer: &mut Answer, text: &str) -> Script
    ensures { IsText result.user }
{
    let (user, commands) = parts_of(text);
    if user.is_none() {
        answer.bad();
    }
    let user = user.unwrap_or(User::U);
    Script {
        user: copied(answer, user.name()),
        password: copied(answer, user.password()),
        commands: commands_of(answer, commands),
    }
}

/// The scripts of a case, between which ` | ` stands. No text is no client.
pub fn scripts_of(answer: &mut Answer, text: &str) -> Vec<Script>
    ensures { All (λ script. IsText script.user) result.items }
{
    let mut scripts = Vec::new(answer.alloc());
    for part in text.split_terminator(" | ") {
        let script = script_of(answer, part);
        if scripts.push(script).is_err() {
            answer.refused();
        }
    }
    scripts
}

/// Who the client is that comes behind so many of these scripts, u where none is left.
pub fn user_behind(scripts: &str, count: usize) -> User {
    let mut before = 0usize;
    for part in scripts.split(" | ") {
        if before == count {
            return parts_of(part).0.unwrap_or(User::U);
        }
        before = before.saturating_add(1);
    }
    User::U
}
