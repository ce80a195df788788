// Routers, servers and wires that do wrong, and what the oracle of loads says of their logs.
use crate::soak::is_kept;
use crate::tables::found;
use check_lines::Fields;
use generated_load::{first_session, load_server};
use mem_server::MemServer;
use mx_base::{Address, Bytes, ClientNo, LinkId, OutOfMemory, Port, ServerId, Tag};
use mx_wire::Entry;
use packet_frame::write_message;
use server_rule::{Cmd, ReplyList, Session};
use std::alloc::Global;
use std::mem;

/// The link to the server; the clients' have the numbers of these.
const SHARED: LinkId = LinkId(3);

/// What a client says in its login, and is written there: a packet each way, and an OK.
const RESPONSE: [u8; 5] = [1, 0, 0, 1, 0];

const WELCOME: [u8; 10] = [1, 0, 0, 0, 0x0A, 1, 0, 0, 2, 0];

/// COM_QUERY.
const COM_QUERY: u8 = 3;

/// What is wrong.
#[derive(Clone, Copy, PartialEq, Eq)]
enum Wrong {
    Nothing,
    /// Clients share a session, that isn't reset.
    Shared,
    /// Each is answered what the one before was to be.
    Mixed,
    /// All is over before the last is run.
    Short,
}

const WRONGS: [(&str, Wrong); 4] = [
    ("nothing", Wrong::Nothing),
    ("shared", Wrong::Shared),
    ("mixed", Wrong::Mixed),
    ("short", Wrong::Short),
];

/// The sessions of the clients, the last reply, and the log.
#[derive(Drop)]
struct Careless {
    wrong: Wrong,
    server: MemServer,
    sessions: Vec<Session>,
    last: Vec<u8>,
    log: Vec<Entry>,
}

impl Careless {
    // Two clients have come.
    fn new(alloc: Global, wrong: Wrong) -> Result<Self, OutOfMemory> {
        let mut careless = Careless {
            wrong,
            server: load_server(alloc)?,
            sessions: Vec::new(alloc),
            last: Vec::new(alloc),
            log: Vec::new(alloc),
        };
        for link in [LinkId(1), LinkId(2)] {
            careless.sessions.push(first_session(alloc)?)?;
            careless.comes(alloc, link)?;
        }
        careless.opens()?;
        Ok(careless)
    }

    fn opens(&mut self) -> Result<(), OutOfMemory> {
        self.log.push(Entry::Opened {
            server: ServerId(1),
            address: Address {
                ip: [127, 0, 0, 1],
                port: 3306,
            },
            link: SHARED,
        })?;
        Ok(())
    }

    // A client comes, and is let in.
    fn comes(&mut self, alloc: Global, link: LinkId) -> Result<(), OutOfMemory> {
        self.log.push(Entry::Accepted {
            port: Port::Traffic,
            link,
            salt: [0; 20],
        })?;
        self.got(alloc, link, &RESPONSE)?;
        self.wrote(alloc, link, Tag::Reply, &WELCOME)
    }

    fn got(&mut self, alloc: Global, link: LinkId, bytes: &[u8]) -> Result<(), OutOfMemory> {
        let bytes = Bytes::from_slice(alloc, bytes)?;
        self.log.push(Entry::Got { link, bytes })?;
        Ok(())
    }

    fn wrote(
        &mut self,
        alloc: Global,
        link: LinkId,
        tag: Tag,
        bytes: &[u8],
    ) -> Result<(), OutOfMemory> {
        let bytes = Bytes::from_slice(alloc, bytes)?;
        self.log.push(Entry::Wrote { link, tag, bytes })?;
        Ok(())
    }

    // A text of a client runs. The packets that it is answered.
    fn run(&mut self, alloc: Global, client: u64, text: &str) -> Result<Vec<u8>, OutOfMemory> {
        let query = Cmd::Query {
            text: Bytes::from_slice(alloc, text.as_bytes())?,
        };
        let is_first = client == 1 || self.wrong == Wrong::Shared;
        let at = if is_first { 0 } else { 1 };
        let Some(session) = self.sessions.get_mut(at) else {
            return Ok(Vec::new(alloc));
        };
        let reply = self.server.run(alloc, session, &query)?;
        let reply = packets(alloc, &reply)?;
        if self.wrong == Wrong::Mixed {
            return Ok(mem::replace(&mut self.last, reply));
        }
        Ok(reply)
    }

    // A client asks a text, its message of this place.
    fn asks(
        &mut self,
        alloc: Global,
        client: u64,
        ordinal: u64,
        text: &str,
    ) -> Result<(), OutOfMemory> {
        let query = query_of(alloc, text)?;
        let tag = Tag::For {
            client: ClientNo(client),
            ordinal,
        };
        self.got(alloc, LinkId(client), &query)?;
        self.wrote(alloc, SHARED, tag, &query)
    }

    // And is answered.
    fn answers(&mut self, alloc: Global, client: u64, text: &str) -> Result<(), OutOfMemory> {
        let reply = self.run(alloc, client, text)?;
        self.log.push(Entry::Exec { link: SHARED })?;
        self.wrote(alloc, LinkId(client), Tag::Reply, &reply)
    }
}

fn packets(alloc: Global, reply: &ReplyList) -> Result<Vec<u8>, OutOfMemory> {
    let mut packets = Vec::new(alloc);
    let mut id = 1;
    for payload in reply.as_slice() {
        id = write_message(&mut packets, id, payload.as_slice())?;
    }
    Ok(packets)
}

fn query_of(alloc: Global, text: &str) -> Result<Vec<u8>, OutOfMemory> {
    let mut payload = Vec::new(alloc);
    payload.push(COM_QUERY)?;
    payload.extend_from_slice(text.as_bytes())?;
    let mut packet = Vec::new(alloc);
    let _next = write_message(&mut packet, 0, &payload)?;
    Ok(packet)
}

// The log of the steps.
fn told(alloc: Global, wrong: Wrong, steps: &str) -> Result<Vec<Entry>, OutOfMemory> {
    let mut careless = Careless::new(alloc, wrong)?;
    let mut first = 0u64;
    let mut second = 0u64;
    let mut left = count(steps);
    for step in steps.split("; ") {
        let (who, text) = step.split_once(' ').unwrap_or((step, ""));
        let (client, ordinal) = if who == "a" {
            first = first.saturating_add(1);
            (1, first)
        } else {
            second = second.saturating_add(1);
            (2, second)
        };
        left = left.saturating_sub(1);
        careless.asks(alloc, client, ordinal, text)?;
        if left > 0 || wrong != Wrong::Short {
            careless.answers(alloc, client, text)?;
        }
    }
    Ok(careless.log)
}

fn count(steps: &str) -> u64 {
    let mut count = 0u64;
    for _ in steps.split("; ") {
        count = count.saturating_add(1);
    }
    count
}

/// `careless <wrong> <client> <text>; <client> <text> ..` runs the texts of two clients, a and b, over one link, where this is wrong: `nothing`; `shared`, they
/// run in one session, as if a router kept none for who needs it and reset none; `mixed`, a server answers each what the one before was to be
/// answered; `short`, a wire is over before the last ran. It answers whether the oracle of loads takes the log of that for one in which each
/// client was written what it is due, and each statement was answered.
pub fn answer(fields: &mut Fields<'_>) {
    let wrong = fields.text();
    let steps = fields.rest_text();
    let answer = &mut fields.answer;
    let Some(wrong) = found(&WRONGS, wrong) else {
        return answer.bad();
    };
    match told(answer.alloc(), wrong, steps) {
        Ok(log) => {
            let kept = is_kept(answer, &log, Some(count(steps)));
            answer.text(if kept { "kept" } else { "not kept" });
        }
        Err(_) => answer.refused(),
    }
}
