// Clients come, change and go.

use crate::parts::ClientPart;
use crate::policy::Policy;
use crate::waiting::unsent;
use admin_port::EventKind;
use client_seat::Phase;
use core_service::Service;
use core_tables::{Client, Tables};
use mx_base::{ClientNo, OutOfMemory, Port};

/// How many administrators are served at a time.
const MOST_ADMINS: u64 = 16;

/// Whether no more is read of a client.
pub(crate) fn is_ended(row: &Client) -> bool {
    match row.desk.seat.phase {
        Phase::Ended => true,
        _ => false,
    }
}

impl Policy {
    /// Whether one more client is served that came at this port.
    pub fn serves(&self, service: &Service, port: Port) -> bool {
        match port {
            Port::Traffic => self.here < u64::from(service.setup.max_clients()),
            Port::Admin => self.admins < MOST_ADMINS,
        }
    }

    // One more is connected at a port.
    fn one_more(&mut self, port: Port) {
        match port {
            Port::Traffic => self.here = self.here.saturating_add(1),
            Port::Admin => self.admins = self.admins.saturating_add(1),
        }
    }

    // One is connected there no more.
    fn one_fewer(&mut self, port: Port) {
        match port {
            Port::Traffic => self.here = self.here.saturating_sub(1),
            Port::Admin => self.admins = self.admins.saturating_sub(1),
        }
    }

    /// A client comes at this port and moment, and is served or turned away.
    pub fn comes(
        &mut self,
        client: ClientNo,
        port: Port,
        served: bool,
        now: u64,
    ) -> Result<(), OutOfMemory> {
        let Some(slot) = self.client_slots.take(client.0)? else {
            return Ok(());
        };
        let part = ClientPart {
            slot,
            port,
            waits: None,
            stands: None,
            stood: None,
            served,
            ended: false,
            counted: 0,
            last: 0,
        };
        self.clients.insert(client.0, part)?;
        self.board.counts.comes(served);
        if !served {
            self.of_client(EventKind::TooManyConnections, client, now);
        }
        if served {
            self.one_more(port);
            self.todo.clients.logins.put(slot, 0, now);
            self.dismisses_new(part);
        }
        Ok(())
    }

    /// Something changed of a client: its statement waits for a link, or waits no more; it ended, or was told all. Takes no memory.
    pub fn client_changed(&mut self, tables: &Tables, client: ClientNo, now: u64) {
        let (Some(row), Some(part)) = (
            tables.clients.get(&client.0),
            self.clients.get_mut(&client.0),
        ) else {
            return;
        };
        let slot = part.slot;
        let behind = part.leaves(row);
        let is_due = part.waits.is_none() && unsent(row).is_some();
        self.kept = part.counts(row, self.kept);
        let ends = is_ended(row) && !part.ended;
        part.ended = part.ended || ends;
        let part = *part;
        if let Some(waiting) = behind {
            self.left_behind(slot, waiting, row);
        }
        if is_due {
            self.todo.clients.anew.put(slot);
        }
        self.ended(slot, ends, row, now);
        self.logs_in(slot, row);
        self.dismisses(part, row);
    }

    // It ended: its link closes once all is written, or its time is over.
    fn ended(&mut self, slot: u32, ends: bool, row: &Client, now: u64) {
        if ends {
            self.todo.clients.leavers.put(slot, 0, now);
        }
        if is_ended(row) && row.desk.seat.outgoing().is_empty() {
            self.todo.clients.parts.put(slot);
        }
    }

    /// A client parts: its link is closed next, whatever is left to write there. Takes no memory.
    pub fn parts(&mut self, client: ClientNo) {
        if let Some(part) = self.client(client) {
            self.todo.clients.parts.put(part.slot);
        }
    }

    /// A client is no more. Takes no memory.
    pub fn forget_client(&mut self, client: ClientNo) {
        let Some(part) = self.client(client) else {
            return;
        };
        if part.served {
            self.one_fewer(part.port);
        }
        self.kept = self.kept.saturating_sub(part.counted);
        if let Some(waiting) = part.waits {
            self.leaves_queue(part.slot, waiting);
        }
        self.todo.forget_client(part.slot);
        self.client_slots.leave(part.slot);
        let _ = self.clients.remove(&client.0);
    }
}
