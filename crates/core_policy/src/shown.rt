// Rows that are made for an administrator's answer.

use crate::clients::is_ended;
use crate::losing::name_in;
use crate::policy::Policy;
use admin_port::{ClientState, EventRow, NamedRow, PoolRow, ProcessRow};
use client_desk::Work;
use core_tables::{Client, Tables};
use hostgroups::{ServerName, ServerRow, ServerStatus};
use mx_base::{Bytes, ClientNo, LinkId, OutOfMemory, Port, ServerId};
use session_state::Pin;
use std::alloc::Global;
use std::collections::{BTreeSet, HashMap};

/// Rows that are made for an administrator's answer: the servers in force with the status that each has now, and with its links; the clients;
/// counts; and the last events.
#[derive(Drop)]
pub struct Shown {
    pub servers: Vec<ServerRow>,
    pub pool: Vec<PoolRow>,
    pub processes: Vec<ProcessRow>,
    pub totals: Vec<NamedRow>,
    pub events: Vec<EventRow>,
}

// How many links to a server carry somebody, and how many others are open.
#[derive(Clone, Copy)]
struct LinkCounts {
    used: u64,
    free: u64,
}

impl LinkCounts {
    fn none() -> Self {
        LinkCounts { used: 0, free: 0 }
    }

    fn with(self, is_used: bool) -> Self {
        if is_used {
            LinkCounts {
                used: self.used.saturating_add(1),
                free: self.free,
            }
        } else {
            LinkCounts {
                used: self.used,
                free: self.free.saturating_add(1),
            }
        }
    }
}

impl Shown {
    /// No rows. Takes no memory.
    pub fn none(alloc: Global) -> Self {
        Shown {
            servers: Vec::new(alloc),
            pool: Vec::new(alloc),
            processes: Vec::new(alloc),
            totals: Vec::new(alloc),
            events: Vec::new(alloc),
        }
    }
}

// The links of each server, by its number.
fn count_links(alloc: Global, tables: &Tables) -> Result<HashMap<u16, LinkCounts>, OutOfMemory> {
    let mut counts = HashMap::new(alloc);
    for server in tables.links.values() {
        let number = server.row.link.server.0;
        let is_used = name_in(server.row.link.state.carries).is_some();
        let counted = match counts.get(&number) {
            Some(counted) => *counted,
            None => LinkCounts::none(),
        };
        counts.insert(number, counted.with(is_used))?;
    }
    Ok(counts)
}

// The first reason for which a session keeps its link.
fn reason_of(pin: Pin) -> Option<&'static [u8]> {
    if pin.tx {
        Some(b"transaction".as_slice())
    } else if pin.locks {
        Some(b"locks".as_slice())
    } else if pin.next_tx {
        Some(b"next transaction".as_slice())
    } else if pin.after_err {
        Some(b"error".as_slice())
    } else if pin.uncommitted {
        Some(b"autocommit off".as_slice())
    } else if pin.rule {
        Some(b"rule".as_slice())
    } else if pin.deep {
        Some(b"session state".as_slice())
    } else if pin.diag {
        Some(b"diagnostics".as_slice())
    } else {
        None
    }
}

// What a client does.
fn state_of(row: &Client) -> ClientState {
    if row.desk.seat.account().is_none() {
        return ClientState::LoggingIn;
    }
    match &row.desk.work {
        Some(work) if work.sent => ClientState::Running,
        Some(_) => ClientState::Waiting,
        None => ClientState::Idle,
    }
}

fn user_of(alloc: Global, row: &Client) -> Result<Bytes, OutOfMemory> {
    match row.desk.seat.account() {
        Some(account) => Bytes::from_slice(alloc, account.user()),
        None => Ok(Bytes::new(alloc)),
    }
}

// The link that carries a session of a client, that of its statement in work first, and what keeps the session there.
fn kept_by(row: &Client) -> Option<(LinkId, Pin)> {
    if let Some(work) = &row.desk.work {
        let session = row.desk.session(work.hostgroup);
        if let Some(home) = session.home {
            return Some((home, session.pin));
        }
    }
    for session in row.desk.sessions.as_slice() {
        if let Some(home) = session.home {
            return Some((home, session.pin));
        }
    }
    None
}

fn time_of(work: &Option<Work>, now: u64) -> Option<u64> {
    match work {
        Some(work) => Some(now.saturating_sub(work.since_ms)),
        None => None,
    }
}

fn text_of(alloc: Global, text: Option<&[u8]>) -> Result<Option<Bytes>, OutOfMemory> {
    match text {
        Some(text) => Ok(Some(Bytes::from_slice(alloc, text)?)),
        None => Ok(None),
    }
}

// A count by its name.
fn put(
    alloc: Global,
    rows: &mut Vec<NamedRow>,
    name: &[u8],
    count: u64,
) -> Result<(), OutOfMemory> {
    let text = format!(in alloc; "{count}")?;
    rows.push(NamedRow {
        name: Bytes::from_slice(alloc, name)?,
        value: Bytes::from_slice(alloc, text.as_bytes())?,
    })?;
    Ok(())
}

// Clients that no longer say anything aren't shown, nor administrators.
fn is_listed(row: &Client) -> bool {
    row.desk.seat.port == Port::Traffic && !is_ended(row)
}

fn numbers_of(alloc: Global, tables: &Tables) -> Result<BTreeSet<u64>, OutOfMemory> {
    let mut numbers = BTreeSet::new(alloc);
    for number in tables.clients.keys() {
        numbers.insert(*number)?;
    }
    Ok(numbers)
}

impl Policy {
    /// Rows for an administrator's answer; none for another client, which cost nothing.
    pub fn shown_to(
        &self,
        tables: &Tables,
        client: ClientNo,
        now: u64,
    ) -> Result<Shown, OutOfMemory> {
        if self.is_admin(tables, client) {
            self.shown(tables, now)
        } else {
            Ok(Shown::none(self.alloc))
        }
    }

    fn is_admin(&self, tables: &Tables, client: ClientNo) -> bool {
        if self.admins == 0 {
            return false;
        }
        match tables.clients.get(&client.0) {
            Some(row) => row.desk.seat.port == Port::Admin,
            None => false,
        }
    }

    fn shown(&self, tables: &Tables, now: u64) -> Result<Shown, OutOfMemory> {
        Ok(Shown {
            servers: self.servers_shown()?,
            pool: self.pool_shown(tables)?,
            processes: self.processes_shown(tables, now)?,
            totals: self.totals_shown()?,
            events: self.board.events.rows(self.alloc)?,
        })
    }

    // The status that the server of a row has now.
    fn status_of(&self, row: &ServerRow) -> ServerStatus {
        match self.servers.number(row.hostgroup, row.address) {
            Some(server) => self.servers.status(server).unwrap_or(row.status),
            None => row.status,
        }
    }

    fn servers_shown(&self) -> Result<Vec<ServerRow>, OutOfMemory> {
        let mut rows = Vec::new(self.alloc);
        for row in self.board.servers.iter() {
            let mut shown = *row;
            shown.status = self.status_of(row);
            rows.push(shown)?;
        }
        Ok(rows)
    }

    fn pool_row(&self, row: &ServerRow, counts: &HashMap<u16, LinkCounts>) -> PoolRow {
        let mut counted = LinkCounts::none();
        if let Some(server) = self.servers.number(row.hostgroup, row.address) {
            if let Some(there) = counts.get(&server.0) {
                counted = *there;
            }
        }
        PoolRow {
            server: row.name(),
            status: self.status_of(row),
            used: counted.used,
            free: counted.free,
        }
    }

    fn pool_shown(&self, tables: &Tables) -> Result<Vec<PoolRow>, OutOfMemory> {
        let counts = count_links(self.alloc, tables)?;
        let mut rows = Vec::new(self.alloc);
        for row in self.board.servers.iter() {
            rows.push(self.pool_row(row, &counts))?;
        }
        Ok(rows)
    }

    // The server of a link.
    fn server_on(&self, tables: &Tables, link: LinkId) -> Option<ServerName> {
        let server: ServerId = tables.links.get(&link.0)?.row.link.server;
        Some(self.servers.row(server)?.name())
    }

    fn process_row(
        &self,
        tables: &Tables,
        client: ClientNo,
        row: &Client,
        now: u64,
    ) -> Result<ProcessRow, OutOfMemory> {
        let (server, reason) = match kept_by(row) {
            Some((link, pin)) => (self.server_on(tables, link), reason_of(pin)),
            None => (None, None),
        };
        Ok(ProcessRow {
            client,
            user: user_of(self.alloc, row)?,
            server,
            state: state_of(row),
            time_ms: time_of(&row.desk.work, now),
            pinned_by: text_of(self.alloc, reason)?,
        })
    }

    // In the order in which they came.
    fn processes_shown(&self, tables: &Tables, now: u64) -> Result<Vec<ProcessRow>, OutOfMemory> {
        let numbers = numbers_of(self.alloc, tables)?;
        let mut rows = Vec::new(self.alloc);
        for number in numbers.iter() {
            if let Some(row) = tables.clients.get(number) {
                if is_listed(row) {
                    rows.push(self.process_row(tables, ClientNo(*number), row, now)?)?;
                }
            }
        }
        Ok(rows)
    }

    fn totals_shown(&self) -> Result<Vec<NamedRow>, OutOfMemory> {
        let counts = &self.board.counts;
        let alloc = self.alloc;
        let mut rows = Vec::new(alloc);
        put(alloc, &mut rows, b"clients_connected", self.here)?;
        put(alloc, &mut rows, b"clients_accepted", counts.clients)?;
        put(alloc, &mut rows, b"statements", counts.statements)?;
        put(alloc, &mut rows, b"links_open", self.links.len() as u64)?;
        put(alloc, &mut rows, b"links_opened", counts.opened)?;
        put(alloc, &mut rows, b"links_reused", counts.reused)?;
        put(alloc, &mut rows, b"links_reset", counts.resets)?;
        self.put_errors(&mut rows)?;
        Ok(rows)
    }

    // The router's errors by their codes.
    fn put_errors(&self, rows: &mut Vec<NamedRow>) -> Result<(), OutOfMemory> {
        let counts = &self.board.counts;
        let alloc = self.alloc;
        put(alloc, rows, b"errors_1040", counts.turned_away)?;
        put(alloc, rows, b"errors_9101", counts.lost)?;
        put(alloc, rows, b"errors_9102", counts.not_lent)?;
        put(alloc, rows, b"errors_9103", counts.refused)?;
        put(alloc, rows, b"errors_9104", counts.steps_refused)?;
        put(alloc, rows, b"errors_9110", counts.bad_bytes)?;
        put(alloc, rows, b"errors_9112", counts.buffers_full)
    }
}
