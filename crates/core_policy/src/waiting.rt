// Statements that wait for a link.

use crate::keys::{Keys, LinkKey};
use crate::parts::{ClientPart, Standpoint, Waiting};
use crate::policy::Policy;
use client_desk::{Work, outlasts};
use core_tables::{Client, Tables};
use mx_base::{ClientNo, OutOfMemory};

/// A client's statement that wasn't sent.
pub(crate) fn unsent(row: &Client) -> Option<&Work> {
    match &row.desk.work {
        Some(work) if !work.sent => Some(work),
        _ => None,
    }
}

// It wasn't sent, and no link is lent for it: it waits for one still. One that was prepared for on a link waits for none, and is given up only
// by what that link says.
fn waits_still(row: &Client, ordinal: u64) -> bool {
    match unsent(row) {
        Some(work) => work.ordinal == ordinal && row.desk.session(work.hostgroup).home.is_none(),
        None => false,
    }
}

// The key of a link for a client's statement. One that can't be read fully may read what was left there, so it goes where nobody was served.
fn key_for<'a>(row: &'a Client, work: &Work) -> Option<LinkKey<'a>> {
    let seat = &row.desk.seat;
    let account = seat.account()?;
    Some(LinkKey {
        hostgroup: work.hostgroup,
        user: account.user(),
        found_rows: account.found_rows(),
        bare: seat.place.schema.as_slice().is_empty(),
        fresh: match &work.form {
            Some(form) => outlasts(form),
            None => false,
        },
    })
}

fn is_key(keys: &Keys, standpoint: Option<Standpoint>, wanted: &LinkKey) -> Option<u32> {
    let key = standpoint?.key;
    if keys.is(key, wanted) {
        Some(key)
    } else {
        None
    }
}

// One more is of a client's key, which is mostly that of its last statement, or of the one before.
fn take_key(
    keys: &mut Keys,
    part: &ClientPart,
    wanted: &LinkKey,
) -> Result<Option<u32>, OutOfMemory> {
    let known = is_key(keys, part.stands, wanted).or(is_key(keys, part.stood, wanted));
    match known {
        Some(key) => {
            keys.hold(key);
            Ok(Some(key))
        }
        None => keys.take(wanted),
    }
}

impl ClientPart {
    // What it waited for, where that was sent or given up: it waits no more.
    pub(crate) fn leaves(&mut self, row: &Client) -> Option<Waiting> {
        let waiting = self.waits?;
        if waits_still(row, waiting.ordinal) {
            return None;
        }
        self.waits = None;
        Some(waiting)
    }
}

impl Policy {
    // What waited was sent or given up: a link that is readied for it is nobody's.
    pub(crate) fn left_behind(&mut self, slot: u32, waiting: Waiting, row: &Client) {
        self.leaves_queue(slot, waiting);
        if let Some(link) = row.note.readied {
            if let Some(link) = self.link(link) {
                self.todo.links.unreadies.put(link.slot);
            }
        }
    }

    /// What a client waited for is left. Takes no memory.
    pub(crate) fn leaves_queue(&mut self, slot: u32, waiting: Waiting) {
        self.pool.leave(slot);
        self.unserved.take(slot);
        self.keys.leave(waiting.key);
    }

    /// Statements that are due wait for a link, or go to the one that carries their session.
    pub(crate) fn queue_anew(&mut self, tables: &Tables) -> Result<(), OutOfMemory> {
        for _ in 0..u32::MAX {
            let Some(slot) = self.todo.clients.anew.pop() else {
                return Ok(());
            };
            if let Some(client) = self.client_at(slot) {
                self.queue(tables, client)?;
            }
        }
        Ok(())
    }

    fn queue(&mut self, tables: &Tables, client: ClientNo) -> Result<(), OutOfMemory> {
        let Some(row) = tables.clients.get(&client.0) else {
            return Ok(());
        };
        let Some(work) = unsent(row) else {
            return Ok(());
        };
        if self.is_late(client, work) {
            return Ok(());
        }
        match row.desk.session(work.hostgroup).home {
            Some(link) => {
                self.look_at(link);
                Ok(())
            }
            None => self.waits(client, row, work),
        }
    }

    // It waits for a link of its key since it became due, unless it does.
    fn waits(&mut self, client: ClientNo, row: &Client, work: &Work) -> Result<(), OutOfMemory> {
        let Some(wanted) = key_for(row, work) else {
            return Ok(());
        };
        let Some(part) = self.clients.get_mut(&client.0) else {
            return Ok(());
        };
        if part.waits.is_some() {
            return Ok(());
        }
        let Some(key) = take_key(&mut self.keys, part, &wanted)? else {
            return Ok(());
        };
        part.comes_by(key);
        part.waits = Some(Waiting {
            ordinal: work.ordinal,
            key,
        });
        self.pool.wait(part.slot, key, work.since_ms);
        self.unserved.put(part.slot, key, work.since_ms);
        self.todo.keys.lends.put(key);
        Ok(())
    }

    /// Whoever waits, and for whom a link was readied, waits for another. Takes no memory.
    pub(crate) fn unserved_again(&mut self, tables: &Tables, client: ClientNo) {
        let (Some(row), Some(part)) = (tables.clients.get(&client.0), self.client(client)) else {
            return;
        };
        if let (Some(waiting), Some(work)) = (part.waits, unsent(row)) {
            self.unserved.put(part.slot, waiting.key, work.since_ms);
            self.todo.keys.lends.put(waiting.key);
        }
    }

    /// The client that waits longest for a link of a key.
    pub(crate) fn oldest_of(&self, key: u32) -> Option<ClientNo> {
        self.client_at(self.pool.oldest_of(key)?)
    }
}
