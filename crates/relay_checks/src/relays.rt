// A link to a server behind the router's login.
use check_lines::{Answer, Fields};
use mx_base::{Bytes, ClientNo, Tag};
use reply_relay::{Relay, Relayed, Wanted};
use reply_track::ReplyKind;

/// The tag of each command.
const COMMAND: Tag = Tag::For {
    client: ClientNo(1),
    ordinal: 1,
};

/// `relay <kind or none> <first> <number> <packets> <step> ..`: a command that is asked on a link, which is led through the steps
/// `got=<piece>`, `each=<piece>`, whose bytes come each alone, `taken=<count>`, `withdraw` and `look`. A piece is answered by what
/// it told, and by the bytes that the client gets.
pub fn run(fields: &mut Fields<'_>) {
    let kind = fields.text();
    let first = fields.number();
    let number = fields.number();
    let packets = Bytes::from_vec(fields.bytes());
    let steps = fields.rest_text();
    let wanted = match kind {
        "command" => wanted(ReplyKind::Command, first, number),
        "prepare" => wanted(ReplyKind::Prepare, first, number),
        "fields" => wanted(ReplyKind::Fields, first, number),
        _ => None,
    };
    let mut relay = Relay::new();
    relay.ask(COMMAND, packets, wanted);
    for step in steps.split(' ') {
        let (call, argument) = step.split_once('=').unwrap_or((step, ""));
        answer_step(&mut fields.answer, &mut relay, call, argument);
    }
}

// A reply that the command is to have.
fn wanted(kind: ReplyKind, first: u8, number: u32) -> Option<Wanted> {
    Some(Wanted {
        kind,
        first,
        number,
    })
}

fn answer_step(answer: &mut Answer, relay: &mut Relay, call: &str, argument: &str) {
    match call {
        "got" => got(answer, relay, argument),
        "each" => each(answer, relay, argument),
        "taken" => taken(answer, relay, argument),
        "withdraw" => {
            let withdrawn = relay.withdraw().is_some();
            say(answer, if withdrawn { "withdrawn" } else { "begun" });
        }
        "look" => look(answer, relay),
        _ => answer.bad(),
    }
}

// A part of the answer.
fn say(answer: &mut Answer, text: &str) {
    answer.separate(0, "; ");
    answer.text(text);
}

// What a piece told, and what of it goes to the client.
fn got(answer: &mut Answer, relay: &mut Relay, argument: &str) {
    let mut piece = answer.spelled(argument);
    let told = relay.hear(&mut piece);
    let used = used_of(told, piece.len());
    answer.separate(0, "; ");
    answer.debug(told);
    answer.text(" ");
    if used <= piece.len() {
        answer.bytes(&piece[..used]);
    }
}

// How many bytes of a piece go to the client.
fn used_of(told: Relayed, size: usize) -> usize {
    match told {
        Relayed::Part => size,
        Relayed::Whole { used, .. } => used,
        Relayed::Bad { .. } => 0,
    }
}

// What the last of the bytes told that come each alone, and what of them goes to the client.
fn each(answer: &mut Answer, relay: &mut Relay, argument: &str) {
    let mut piece = answer.spelled(argument);
    let mut told = Relayed::Part;
    let mut passed = Vec::new(answer.alloc());
    for byte in piece.iter_mut() {
        let mut alone = [*byte];
        told = relay.hear(&mut alone);
        if used_of(told, 1) == 1 {
            answer.keep(&mut passed, alone[0]);
        }
        if !matches!(told, Relayed::Part) {
            break;
        }
    }
    answer.separate(0, "; ");
    answer.debug(told);
    answer.text(" ");
    answer.bytes(&passed);
}

// So many bytes are written.
fn taken(answer: &mut Answer, relay: &mut Relay, argument: &str) {
    let count = answer.parsed(argument);
    let may = match relay.outgoing() {
        Some(left) => count <= left.bytes.len(),
        None => false,
    };
    if may {
        relay.taken(count);
        say(answer, "taken");
    } else {
        answer.bad();
    }
}

// What can be seen of a link.
fn look(answer: &mut Answer, relay: &Relay) {
    say(answer, if relay.has_command() { "asked" } else { "free" });
    say(answer, if relay.is_begun() { "begun" } else { "unbegun" });
    say(answer, if relay.is_sent() { "sent" } else { "unsent" });
    match relay.due() {
        Some(replying) => {
            say(answer, "read ");
            answer.display(replying.read);
        }
        None => say(answer, "none due"),
    }
    match relay.outgoing() {
        Some(left) => {
            answer.separate(0, "; ");
            answer.debug(left.tag);
            answer.text(" ");
            answer.bytes(left.bytes);
        }
        None => say(answer, "none left"),
    }
}
