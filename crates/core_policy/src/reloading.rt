// Other rows of servers are in force.

use crate::hearing::{is_held_fast, works_in};
use crate::losing::name_in;
use crate::policy::{MOST_LINKS, Policy, server_place};
use core_tables::Tables;
use hostgroups::{ServerRow, ServerStatus};
use mx_base::{OutOfMemory, ServerId};
use served_link::Row;
use std::collections::BTreeSet;

impl Policy {
    /// Other rows of servers were put in force: links of servers that are ONLINE may be lent, and those of others stand aside; each link is looked
    /// at; and whoever found no room is tried again.
    pub fn reloaded(&mut self, rows: Vec<ServerRow>, now: u64) {
        self.board.servers = rows;
        self.settle_servers(now);
        self.look_at_all();
        self.have_room();
    }

    fn settle_servers(&mut self, now: u64) {
        for number in 1..u16::MAX {
            let server = ServerId(number);
            match self.servers.status(server) {
                Some(ServerStatus::Online) => self.bring_links_back(server_place(server), now),
                Some(_) => self.put_links_aside(server, now),
                None => return,
            }
        }
    }

    /// No link to a server may be lent. Takes no memory.
    pub(crate) fn put_links_aside(&mut self, server: ServerId, now: u64) {
        for _ in 0..u32::MAX {
            if self.pool.put_aside(server_place(server), now).is_none() {
                return;
            }
        }
    }

    fn look_at_all(&mut self) {
        for slot in 0..MOST_LINKS {
            if self.link_at(slot).is_some() {
                self.todo.links.looks.put(slot);
            }
        }
    }

    /// A link isn't to be used at all, on which a client's session can't be given up: a statement of it runs there, or it can't go on elsewhere. The
    /// client is ended at the next wake; the link is closed then. Takes no memory.
    pub(crate) fn ousts(&mut self, tables: &Tables, row: &Row) -> bool {
        let Some(name) = name_in(row.link.state.carries) else {
            return false;
        };
        let is_left = row.lost || row.left.is_some();
        if is_left || !(works_in(tables, name) || is_held_fast(tables, name)) {
            return false;
        }
        match self.client(name.client) {
            Some(part) => {
                self.todo.clients.ousted.put(part.slot);
                true
            }
            None => false,
        }
    }

    /// Those who are ended so; each is named once.
    pub(crate) fn ousted(&mut self, ousted: &mut BTreeSet<u64>) -> Result<(), OutOfMemory> {
        for _ in 0..u32::MAX {
            let Some(slot) = self.todo.clients.ousted.pop() else {
                return Ok(());
            };
            if let Some(client) = self.client_at(slot) {
                ousted.insert(client.0)?;
            }
        }
        Ok(())
    }

    /// There may be room in each hostgroup that has servers. Takes no memory.
    pub(crate) fn have_room(&mut self) {
        for at in 0..self.board.servers.len() {
            let Some(row) = self.board.servers.get(at) else {
                return;
            };
            let hostgroup = row.hostgroup;
            self.has_room(hostgroup);
        }
    }
}
