// What an operator should know of.

use crate::policy::Policy;
use admin_port::{EventKind, EventRow};
use core_service::{Failure, payload_of};
use hostgroups::ServerName;
use mx_base::{Bytes, ClientNo, OutOfMemory, ServerId};
use std::alloc::Global;
use std::collections::VecDeque;

/// How many events are kept.
const MOST_EVENTS: usize = 1_000;

/// One thing that happened: when, of which client and server, and the router's error that came of it.
#[derive(Clone, Copy)]
pub struct Event {
    pub moment_ms: u64,
    pub kind: EventKind,
    pub client: Option<ClientNo>,
    pub server: Option<ServerName>,
    pub why: Option<Failure>,
}

/// The last of them, the oldest first.
#[derive(Drop)]
pub struct Events {
    last: VecDeque<Event>,
}

fn code_of(event: &Event) -> Option<u16> {
    match (event.kind, event.why) {
        (EventKind::TooManyConnections, _) => Some(1040),
        (_, Some(Failure::LinkLost)) => Some(9101),
        (_, Some(Failure::NoConnection { .. })) => Some(9102),
        (_, Some(Failure::Refused)) => Some(9103),
        (_, Some(Failure::StepRefused { .. })) => Some(9104),
        (_, Some(Failure::BadBytes { .. })) => Some(9110),
        (_, Some(Failure::BuffersFull { .. })) => Some(9112),
        (_, Some(Failure::ShuttingDown)) => Some(1053),
        (_, None) => None,
    }
}

// The text of an error, behind its code and its state.
fn text_in(payload: &[u8]) -> &[u8] {
    match payload {
        [_, _, _, _, _, _, _, _, _, text @ ..] => text,
        _ => &[],
    }
}

fn text_of(alloc: Global, event: &Event) -> Result<Bytes, OutOfMemory> {
    match (event.kind, event.why) {
        (EventKind::TooManyConnections, _) => Bytes::from_slice(alloc, b"Too many connections"),
        (_, Some(why)) => {
            let payload = payload_of(alloc, why)?;
            Bytes::from_slice(alloc, text_in(payload.as_slice()))
        }
        (_, None) => Ok(Bytes::new(alloc)),
    }
}

impl Event {
    fn row(&self, alloc: Global) -> Result<EventRow, OutOfMemory> {
        Ok(EventRow {
            moment_ms: self.moment_ms,
            kind: self.kind,
            client: self.client,
            server: self.server,
            code: code_of(self),
            text: text_of(alloc, self)?,
        })
    }
}

impl Events {
    /// None yet. Takes no memory.
    pub fn new(alloc: Global) -> Self {
        Events {
            last: VecDeque::new(alloc),
        }
    }

    /// One more. It is forgotten where there is no memory for it.
    pub fn put(&mut self, event: Event) {
        if self.last.len() >= MOST_EVENTS {
            let _ = self.last.pop_front();
        }
        let _ = self.last.push_back(event);
    }

    /// As rows.
    pub(crate) fn rows(&self, alloc: Global) -> Result<Vec<EventRow>, OutOfMemory> {
        let mut rows = Vec::new(alloc);
        for event in self.last.iter() {
            rows.push(event.row(alloc)?)?;
        }
        Ok(rows)
    }
}

impl Policy {
    /// A client is told this error in place of a server's answer, or as its last word.
    pub fn fails(&mut self, client: ClientNo, why: Failure, now: u64) {
        self.board.counts.fails(why);
        self.board.events.put(Event {
            moment_ms: now,
            kind: EventKind::StatementRefused,
            client: Some(client),
            server: None,
            why: Some(why),
        });
    }

    /// A client's login is refused.
    pub fn login_refused(&mut self, client: ClientNo, now: u64) {
        self.of_client(EventKind::LoginRefused, client, now);
    }

    /// Something happened to a client.
    pub(crate) fn of_client(&mut self, kind: EventKind, client: ClientNo, now: u64) {
        self.board.events.put(Event {
            moment_ms: now,
            kind,
            client: Some(client),
            server: None,
            why: None,
        });
    }

    /// Something happened at a server.
    pub(crate) fn of_server(&mut self, kind: EventKind, server: ServerId, now: u64) {
        let server = match self.servers.row(server) {
            Some(row) => Some(row.name()),
            None => None,
        };
        self.board.events.put(Event {
            moment_ms: now,
            kind,
            client: None,
            server,
            why: None,
        });
    }
}
