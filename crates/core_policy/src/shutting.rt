// The router shuts down.

use crate::clients::is_ended;
use crate::losing::name_in;
use crate::parts::ClientPart;
use crate::policy::{MOST_CLIENTS, OTHER_CLIENTS, Policy};
use crate::verdict::GiveUp;
use crate::waiting::unsent;
use client_desk::Work;
use core_service::Failure;
use core_tables::{Client, Tables};
use mx_base::{ClientNo, OutOfMemory, Port};
use served_link::Row;

// The ordinal of the message of a client that is in work; 0 where none is.
fn in_work(row: &Client) -> u64 {
    match &row.desk.work {
        Some(work) => work.ordinal,
        None => 0,
    }
}

impl ClientPart {
    fn is_at_clients_port(&self) -> bool {
        match self.port {
            Port::Traffic => true,
            Port::Admin => false,
        }
    }

    // A statement came since the router shuts down, and wasn't sent.
    fn is_late(&self, work: &Work) -> bool {
        self.is_at_clients_port() && !work.sent && work.ordinal > self.last
    }

    // Nothing is in work of it but what came since.
    fn is_done(&self, row: &Client) -> bool {
        match &row.desk.work {
            Some(work) => self.is_late(work),
            None => self.is_at_clients_port() && !is_ended(row),
        }
    }
}

impl Policy {
    /// An administrator has the router shut down: each client is dismissed as nothing is in work of it but what comes from now on. Takes no memory.
    pub fn shuts_down(&mut self, tables: &Tables, administrator: ClientNo) {
        if self.shut_by.is_some() {
            return;
        }
        self.shut_by = Some(administrator);
        for slot in 0..MOST_CLIENTS + OTHER_CLIENTS {
            self.shuts_out(tables, slot);
        }
    }

    fn shuts_out(&mut self, tables: &Tables, slot: u32) {
        let Some(client) = self.client_at(slot) else {
            return;
        };
        let (Some(row), Some(part)) = (
            tables.clients.get(&client.0),
            self.clients.get_mut(&client.0),
        ) else {
            return;
        };
        part.last = in_work(row);
        let part = *part;
        self.dismisses(part, row);
    }

    /// A client is ended at the next wake, where the router shuts down and nothing of it is in work. Takes no memory.
    pub(crate) fn dismisses(&mut self, part: ClientPart, row: &Client) {
        if self.shut_by.is_some() && part.is_done(row) {
            self.todo.clients.dismissed.put(part.slot);
        }
    }

    /// One that comes as the router shuts down is, too. Takes no memory.
    pub(crate) fn dismisses_new(&mut self, part: ClientPart) {
        if self.shut_by.is_some() && part.is_at_clients_port() {
            self.todo.clients.dismissed.put(part.slot);
        }
    }

    // Whether a client's statement came since the router shuts down, and wasn't sent.
    pub(crate) fn is_late(&self, client: ClientNo, work: &Work) -> bool {
        match (self.shut_by, self.client(client)) {
            (Some(_), Some(part)) => part.is_late(work),
            _ => false,
        }
    }

    // Whether nothing begins on a link, since the statement that is due in its session came too late.
    pub(crate) fn is_shut_out(&self, tables: &Tables, row: &Row) -> bool {
        let Some(name) = name_in(row.link.state.carries) else {
            return false;
        };
        let Some(client) = tables.clients.get(&name.client.0) else {
            return false;
        };
        match unsent(client) {
            Some(work) => {
                work.hostgroup.0 == name.hostgroup.0 && self.is_late(name.client, work)
            }
            None => false,
        }
    }

    /// The dismissed are to be ended now; a statement that came since is given up before. The link of one that isn't logged in closes at once.
    pub(crate) fn dismissed(
        &mut self,
        tables: &Tables,
        given: &mut Vec<GiveUp>,
    ) -> Result<(), OutOfMemory> {
        for _ in 0..u32::MAX {
            let Some(slot) = self.todo.clients.dismissed.pop() else {
                return Ok(());
            };
            if let Some(client) = self.client_at(slot) {
                self.todo.clients.ousted.put(slot);
                self.parts_unknown(tables, slot, client);
                if let Some(up) = self.shut_down_on(tables, client) {
                    given.push(up)?;
                }
            }
        }
        Ok(())
    }

    fn parts_unknown(&mut self, tables: &Tables, slot: u32, client: ClientNo) {
        if let Some(row) = tables.clients.get(&client.0) {
            if row.desk.seat.account().is_none() {
                self.todo.clients.parts.put(slot);
            }
        }
    }

    fn shut_down_on(&self, tables: &Tables, client: ClientNo) -> Option<GiveUp> {
        let work = unsent(tables.clients.get(&client.0)?)?;
        if self.is_late(client, work) {
            Some(GiveUp {
                client,
                why: Failure::ShuttingDown,
            })
        } else {
            None
        }
    }

    /// Whether the router has shut down: no client is connected at their port, and the administrator was told all, or is connected no more.
    pub fn is_over(&self, tables: &Tables) -> bool {
        match self.shut_by {
            Some(client) => self.here == 0 && is_told(tables, client),
            None => false,
        }
    }
}

// Whether all is written that a client is told.
fn is_told(tables: &Tables, client: ClientNo) -> bool {
    match tables.clients.get(&client.0) {
        Some(row) => row.desk.seat.outgoing().is_empty(),
        None => true,
    }
}
