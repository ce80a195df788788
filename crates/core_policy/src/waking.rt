// The loop wakes.

use crate::losing::name_in;
use crate::policy::{Policy, server_place};
use crate::verdict::GiveUp;
use crate::waiting::unsent;
use core_service::{Failure, Service};
use core_tables::Tables;
use hostgroups::ServerStatus;
use mx_base::{ClientNo, LinkId, OutOfMemory, ServerId};
use std::collections::HashMap;

// A statement that waited too long, for which an idle link stands: its client's small number, the key, and since when it waits.
#[derive(Clone, Copy)]
struct Spared {
    slot: u32,
    key: u32,
    since: u64,
}

// It is given up, as no link was lent to it.
fn not_lent(tables: &Tables, client: ClientNo, since: u64, now_ms: u64) -> GiveUp {
    let since_ms = since_in(tables, client).unwrap_or(since);
    GiveUp {
        client,
        why: Failure::NoConnection { since_ms, now_ms },
    }
}

impl Policy {
    /// The loop woke at this moment: servers that were shunned long enough serve again, links that were idle too long are looked at, and
    /// clients that ended have no more time. Statements that waited too long are given up, and those that came too late as the router shuts down.
    pub fn woke(
        &mut self,
        tables: &Tables,
        service: &Service,
        now: u64,
    ) -> Result<Vec<GiveUp>, OutOfMemory> {
        self.servers.tick(now);
        self.bring_back(now);
        self.expire(service, now);
        self.part_late(service, now);
        let mut given = Vec::new(self.alloc);
        self.late(tables, service, now, &mut given)?;
        self.dismissed(tables, &mut given)?;
        self.held_up(tables, &mut given)?;
        Ok(given)
    }

    // Servers that are shunned no more take statements again.
    fn bring_back(&mut self, now: u64) {
        for _ in 0..u32::MAX {
            let Some(shunned) = self.todo.shunned.front().copied() else {
                return;
            };
            if shunned.until_ms > now {
                return;
            }
            self.todo.shunned.pop_front();
            self.bring_server_back(shunned.server, now);
        }
    }

    // Unless another row is in force for it by now.
    fn bring_server_back(&mut self, server: ServerId, now: u64) {
        if self.servers.status(server) != Some(ServerStatus::Online) {
            return;
        }
        self.bring_links_back(server_place(server), now);
        if let Some(row) = self.servers.row(server) {
            let hostgroup = row.hostgroup;
            self.has_room(hostgroup);
        }
    }

    /// Links to a server may be lent again. Takes no memory.
    pub(crate) fn bring_links_back(&mut self, server: u32, now: u64) {
        for _ in 0..u32::MAX {
            let Some(slot) = self.pool.bring_back(server, now) else {
                return;
            };
            self.may_be_lent(slot);
        }
    }

    // The link of this small number may be lent.
    fn may_be_lent(&mut self, slot: u32) {
        if let Some(link) = self.link_at(slot) {
            if let Some(part) = self.link(link) {
                self.may_lend(part.key);
            }
        }
    }

    // Links that were idle for so long are looked at.
    fn expire(&mut self, service: &Service, now: u64) {
        for _ in 0..u32::MAX {
            let Some(slot) = self.pool.expire(now, service.idle_ms) else {
                return;
            };
            self.todo.links.looks.put(slot);
        }
    }

    // Clients that ended and have no more time part.
    fn part_late(&mut self, service: &Service, now: u64) {
        for _ in 0..u32::MAX {
            let Some(slot) = self.todo.clients.leavers.oldest_of_all() else {
                return;
            };
            let since = self.todo.clients.leavers.since(slot);
            if since.saturating_add(service.wait_ms) > now {
                return;
            }
            self.todo.clients.leavers.take(slot);
            self.todo.clients.parts.put(slot);
        }
    }

    // Statements that waited too long, and for which no link is readied, are given up, longest first. Where an idle link stands for one, that
    // is lent to it instead.
    fn late(
        &mut self,
        tables: &Tables,
        service: &Service,
        now: u64,
        given: &mut Vec<GiveUp>,
    ) -> Result<(), OutOfMemory> {
        let mut spared = Vec::new(self.alloc);
        let mut idle = HashMap::new(self.alloc);
        let done = self.late_ones(tables, service, now, given, &mut spared, &mut idle);
        for it in &spared {
            self.unserved.put(it.slot, it.key, it.since);
            self.todo.keys.lends.put(it.key);
        }
        done
    }

    fn late_ones(
        &mut self,
        tables: &Tables,
        service: &Service,
        now: u64,
        given: &mut Vec<GiveUp>,
        spared: &mut Vec<Spared>,
        idle: &mut HashMap<u32, u32>,
    ) -> Result<(), OutOfMemory> {
        for _ in 0..u32::MAX {
            let Some(slot) = self.unserved.oldest_of_all() else {
                return Ok(());
            };
            let since = self.unserved.since(slot);
            if since.saturating_add(service.wait_ms) > now {
                return Ok(());
            }
            if let Some(key) = self.spares(slot, idle)? {
                spared.push(Spared { slot, key, since })?;
                self.unserved.take(slot);
                continue;
            }
            self.unserved.take(slot);
            if let Some(client) = self.client_at(slot) {
                given.push(not_lent(tables, client, since, now))?;
            }
        }
        Ok(())
    }

    // The key of a statement for which an idle link stands, beside those for the ones that are spared already: of each key so many are left.
    fn spares(&self, slot: u32, idle: &mut HashMap<u32, u32>) -> Result<Option<u32>, OutOfMemory> {
        let Some(key) = self.key_at(slot) else {
            return Ok(None);
        };
        let left = match idle.get(&key) {
            Some(left) => *left,
            None => self.pool.idle(key),
        };
        if left == 0 {
            return Ok(None);
        }
        idle.insert(key, left - 1)?;
        Ok(Some(key))
    }

    // The key by which the statement of a client waits.
    fn key_at(&self, slot: u32) -> Option<u32> {
        let client = self.client_at(slot)?;
        let waiting = self.client(client)?.waits?;
        Some(waiting.key)
    }

    // Links are to be closed that couldn't be: statements that are due there are given up.
    fn held_up(&mut self, tables: &Tables, given: &mut Vec<GiveUp>) -> Result<(), OutOfMemory> {
        for _ in 0..u32::MAX {
            let Some(slot) = self.todo.links.held.pop() else {
                return Ok(());
            };
            if let Some(link) = self.link_at(slot) {
                self.todo.links.looks.put(slot);
                if let Some(up) = due_on(tables, link) {
                    given.push(up)?;
                }
            }
        }
        Ok(())
    }

    // The moment at which the first of those that wait, that ended, that are shunned or that have to log in has waited long enough.
    fn first_lapse(&self, service: &Service) -> u64 {
        let waits = match self.unserved.oldest_of_all() {
            Some(slot) => self.unserved.since(slot).saturating_add(service.wait_ms),
            None => u64::MAX,
        };
        let parts = match self.todo.clients.leavers.oldest_of_all() {
            Some(slot) => self
                .todo
                .clients
                .leavers
                .since(slot)
                .saturating_add(service.wait_ms),
            None => u64::MAX,
        };
        let returns = match self.todo.shunned.front() {
            Some(shunned) => shunned.until_ms,
            None => u64::MAX,
        };
        waits.min(parts).min(returns).min(self.first_slow())
    }

    /// The moment at which there is something to do; `now` where there is at once.
    pub fn wakes_at(&self, service: &Service, now: u64) -> u64 {
        if self.todo.is_due() {
            return now;
        }
        let lapses = match self.pool.rests_since() {
            Some(since) => since.saturating_add(service.idle_ms),
            None => u64::MAX,
        };
        self.first_lapse(service).min(lapses)
    }
}

// The statement that is due in the session that a link carries.
fn due_on(tables: &Tables, link: LinkId) -> Option<GiveUp> {
    let server = tables.links.get(&link.0)?;
    let name = name_in(server.row.link.state.carries)?;
    let work = unsent(tables.clients.get(&name.client.0)?)?;
    if work.hostgroup.0 != name.hostgroup.0 {
        return None;
    }
    Some(GiveUp {
        client: name.client,
        why: Failure::BadBytes { place: 0 },
    })
}

// Since when a client's statement is due.
fn since_in(tables: &Tables, client: ClientNo) -> Option<u64> {
    let row = tables.clients.get(&client.0)?;
    Some(unsent(row)?.since_ms)
}
