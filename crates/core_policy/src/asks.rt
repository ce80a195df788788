// What is asked for: closes first, and then opens.

use crate::policy::{MOST_LINKS, Policy};
use crate::todo::{MAY_WANT, no_room};
use core_tables::Tables;
use mx_base::{Address, ClientNo, Hostgroup, LinkId, ServerId};

/// The link that is being opened: at which server, where that is, and for which key.
#[derive(Clone, Copy)]
pub struct Asked {
    pub server: ServerId,
    pub address: Address,
    pub key: u32,
}

/// What is asked for next.
#[derive(Clone, Copy)]
pub enum Asks {
    /// The link of this client is closed.
    Parts { client: ClientNo, link: LinkId },
    /// This link to a server is closed.
    Closes { link: LinkId },
    /// A link is opened.
    Opens(Asked),
}

impl Policy {
    /// What is asked for next. Takes no memory.
    pub fn asks(&mut self, tables: &Tables) -> Option<Asks> {
        if let Some(part) = self.next_parting(tables) {
            return Some(part);
        }
        if let Some(close) = self.next_close() {
            return Some(close);
        }
        self.next_open()
    }

    // The next client that parts.
    fn next_parting(&mut self, tables: &Tables) -> Option<Asks> {
        let slot = self.todo.clients.parts.pop()?;
        let client = self.client_at(slot)?;
        let link = tables.clients.get(&client.0)?.desk.seat.link;
        Some(Asks::Parts { client, link })
    }

    // The next link to a server that is closed.
    fn next_close(&mut self) -> Option<Asks> {
        let slot = self.todo.links.closes.pop()?;
        let link = self.link_at(slot)?;
        Some(Asks::Closes { link })
    }

    /// A link that is to be closed can't be yet, since a statement is due in the session that it carries: that is given up at the next wake.
    /// Takes no memory.
    pub fn holds(&mut self, link: LinkId) {
        if let Some(part) = self.link(link) {
            self.todo.links.held.put(part.slot);
        }
    }

    /// Whether more of a key wait for whom no link is readied than there are links that may be lent, log in, or end a step.
    pub(crate) fn wants_link(&self, key: u32) -> bool {
        self.pool.coming(key) < u64::from(self.unserved.count(key))
    }

    /// A key may want a link more.
    pub(crate) fn may_want(&mut self, key: u32) {
        self.todo.keys.opens.put(key, MAY_WANT, 0);
    }

    /// There may be room for a link more in a hostgroup, which matters where a key found none there. Takes no memory.
    pub(crate) fn has_room(&mut self, hostgroup: Hostgroup) {
        let group = u32::from(hostgroup.0);
        if self.todo.keys.opens.count(no_room(group)) > 0 {
            self.todo.keys.rooms.put(group);
        }
    }

    /// There may be room for one in the hostgroup of a key. Takes no memory.
    pub(crate) fn room_for(&mut self, key: u32) {
        if let Some(row) = self.keys.row(key) {
            let hostgroup = row.hostgroup;
            self.has_room(hostgroup);
        }
    }

    // The next key that may want a link, or that found no room in a hostgroup in which there may be some now.
    fn next_key(&mut self) -> Option<u32> {
        if let Some(key) = self.todo.keys.opens.oldest(MAY_WANT) {
            return Some(key);
        }
        for _ in 0..u32::MAX {
            let hostgroup = self.todo.keys.rooms.first()?;
            if let Some(key) = self.todo.keys.opens.oldest(no_room(hostgroup)) {
                return Some(key);
            }
            self.todo.keys.rooms.take(hostgroup);
        }
        None
    }

    // What is opened next, or closed to make room for that.
    fn next_open(&mut self) -> Option<Asks> {
        for _ in 0..u32::MAX {
            let key = self.next_key()?;
            if let Some(asks) = self.open_for(key) {
                return Some(asks);
            }
        }
        None
    }

    // The server of which a link is opened next in a hostgroup. Links to servers that have gone count too, until they are closed.
    fn next_server(&mut self, hostgroup: Hostgroup) -> Option<ServerId> {
        if self.links.len() >= MOST_LINKS as usize {
            return None;
        }
        self.servers.pick(hostgroup, self.pool.connections())
    }

    fn open_for(&mut self, key: u32) -> Option<Asks> {
        self.todo.keys.opens.take(key);
        if !self.wants_link(key) {
            self.may_lend(key);
            return None;
        }
        let hostgroup = self.keys.row(key)?.hostgroup;
        if let Some(server) = self.next_server(hostgroup) {
            let address = self.servers.row(server)?.address;
            self.may_want(key);
            return Some(Asks::Opens(Asked {
                server,
                address,
                key,
            }));
        }
        if let Some(slot) = self.pool.evict(u32::from(hostgroup.0)) {
            self.todo.links.closes.put(slot);
            self.may_want(key);
            return self.next_close();
        }
        self.waits_for_room(key, hostgroup);
        self.todo.keys.rooms.take(u32::from(hostgroup.0));
        None
    }

    /// A key stands among those for which there was no room in its hostgroup, by who waits longest for one of it. Takes no memory.
    pub(crate) fn waits_for_room(&mut self, key: u32, hostgroup: Hostgroup) {
        let since = match self.unserved.oldest(key) {
            Some(slot) => self.unserved.since(slot),
            None => 0,
        };
        let group = no_room(u32::from(hostgroup.0));
        self.todo.keys.opens.put(key, group, since);
    }
}
