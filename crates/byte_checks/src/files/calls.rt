// The calls of a wire.
ghost use Rattle.std.specs.Prelude.{◌≡◌, true, if◌then◌else◌};
ghost use Rattle.mx_wire.specs.Log.{is_open, is_link, link_of, open_step};
ghost use Rattle.mx_wire.specs.Tells.{OpenFor};

use crate::files::answers::Answering;
use check_lines::{Answer, Fields};
use mem_wire::Tape;
use mx_base::{Address, LinkId, Port, ServerId, Tag};
use mx_wire::{Entry, Wire};

const ADDRESS: Address = Address {
    ip: [127, 0, 0, 1],
    port: 3306,
};

/// What the tape answers to a call: `listen`, `wait <until>`, `next`, `accept`, `accept_admin`, `open <server>`,
/// `read <link>`, `write <link> <bytes>` or `close <link>`, of a link that is open. The address is always the same.
impl Answering for Tape {
    fn answer(&mut self, fields: &mut Fields<'_>) {
        match fields.case.reader {
            "listen" => fields.answer.debug(self.listen(Port::Traffic, ADDRESS)),
            "wait" => {
                let until_ms = fields.number();
                fields.answer.debug(self.wait(until_ms));
            }
            "next" => fields.answer.debug(self.next_ready()),
            "accept" => fields.answer.debug(self.accept(Port::Traffic)),
            "accept_admin" => fields.answer.debug(self.accept(Port::Admin)),
            "open" => {
                let server = ServerId(fields.number());
                fields.answer.debug(self.open(server, ADDRESS));
            }
            _ => call_link(fields, self),
        }
    }
}

// A call of a link that is open.
fn call_link(fields: &mut Fields<'_>, tape: &mut Tape) {
    let link = LinkId(fields.number());
    if !is_told_open(tape, link) {
        return fields.answer.bad();
    }
    match fields.case.reader {
        "read" => read(&mut fields.answer, tape, link),
        "write" => write(fields, tape, link),
        _ => {
            tape.close(link);
            fields.answer.debug("closed");
        }
    }
}

fn read(answer: &mut Answer, tape: &mut Tape, link: LinkId)
    requires { OpenFor tape.old.told link }
{
    match vec![in answer.alloc(); 0u8; 65_536] {
        Ok(mut into) => answer.debug(tape.read(link, &mut into)),
        Err(_) => answer.refused(),
    }
}

fn write(fields: &mut Fields<'_>, tape: &mut Tape, link: LinkId)
    requires { OpenFor tape.old.told link }
{
    let piece = fields.text().as_bytes();
    if piece.is_empty() {
        fields.answer.bad();
    } else {
        fields.answer.debug(tape.write(link, Tag::Own, piece));
    }
}

fn is_told_open(tape: &Tape, link: LinkId) -> bool
    ensures { result ≡ true → OpenFor tape.now.told link }
{
    match tape.log() {
        Some(log) => is_open(log, link),
        None => false,
    }
}

// Whether the link is open behind these entries.
fn is_open(log: &[Entry], link: LinkId) -> bool
    ensures { result ≡ is_open link log.now }
{
    let mut open = false;
    for entry in log {
        open = open_behind(open, entry, link);
    }
    open
}

fn open_behind(was: bool, entry: &Entry, link: LinkId) -> bool
    ensures { result ≡ (if is_link link (link_of entry.now) then open_step was entry.now else was) }
{
    match entry {
        Entry::Accepted { link: other, .. } | Entry::Opened { link: other, .. } => {
            was || *other == link
        }
        Entry::Closed { link: other } => was && *other != link,
        _ => was,
    }
}
