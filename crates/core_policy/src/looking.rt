// What is done next.

use crate::deed::Deed;
use crate::keys::Keys;
use crate::policy::{Policy, server_place};
use crate::steps::{Next, begins_on};
use conn_pool::Shelf;
use core_service::Service;
use core_tables::{Server, Tables};
use core_texts::Texts;
use hostgroups::ServerStatus;
use mx_base::{LinkId, OutOfMemory, ServerId};
use served_link::{Outside, Row};

fn take_spot(keys: &mut Keys, row: &Row) -> Result<Option<u32>, OutOfMemory> {
    let settings = &row.link.state.told.settings;
    match &row.link.state.told.schema {
        Some(schema) => keys.take_spot(row.key, schema.as_slice(), settings),
        None => keys.take_spot(row.key, &[0], settings),
    }
}

// The number of its key with what it was told, which it has mostly.
fn spot_of(keys: &mut Keys, known: Option<u32>, row: &Row) -> Result<Option<u32>, OutOfMemory> {
    match known {
        Some(spot) => Ok(Some(spot)),
        None => take_spot(keys, row),
    }
}

// It may be lent.
fn is_lendable(row: &Row) -> bool {
    row.is_vacant() && row.readied.is_none() && !row.is_spoilt(false) && !row.amiss
}

impl Policy {
    /// What is done next to the tables, where anything is: links that are readied for who waits no more are nobody's; statements wait;
    /// links are looked at of which something changed; and links are lent.
    pub fn deed(
        &mut self,
        tables: &Tables,
        texts: &Texts,
        service: &Service,
        now: u64,
    ) -> Result<Option<Deed>, OutOfMemory> {
        if let Some(deed) = self.unready(tables, now) {
            return Ok(Some(deed));
        }
        self.queue_anew(tables)?;
        if let Some(deed) = self.look(tables, texts, service, now)? {
            return Ok(Some(deed));
        }
        self.lend(tables)
    }

    // Links are looked at of which something changed.
    fn look(
        &mut self,
        tables: &Tables,
        texts: &Texts,
        service: &Service,
        now: u64,
    ) -> Result<Option<Deed>, OutOfMemory> {
        for _ in 0..u32::MAX {
            let Some(slot) = self.todo.links.looks.pop() else {
                return Ok(None);
            };
            if let Some(link) = self.link_at(slot) {
                if let Some(deed) = self.look_on(tables, texts, service, link, now)? {
                    return Ok(Some(deed));
                }
            }
        }
        Ok(None)
    }

    // What else decides whether a link is closed.
    fn outside(&self, service: &Service, server: ServerId, now: u64) -> Outside {
        Outside {
            off: self.servers.status(server) == Some(ServerStatus::OfflineHard),
            soft: self.servers.status(server) == Some(ServerStatus::OfflineSoft),
            crowded: false,
            now,
            idle_ms: service.idle_ms,
        }
    }

    // What stands next there is taken back first.
    fn look_on(
        &mut self,
        tables: &Tables,
        texts: &Texts,
        service: &Service,
        link: LinkId,
        now: u64,
    ) -> Result<Option<Deed>, OutOfMemory> {
        let Some(server) = tables.links.get(&link.0) else {
            return Ok(None);
        };
        let row = &server.row;
        if row.link.next.is_some() {
            self.look_at(link);
            return Ok(Some(Deed::TakeBack { link }));
        }
        let outside = self.outside(service, row.link.server, now);
        if outside.off && self.ousts(tables, row) {
            return Ok(None);
        }
        if self.is_used_up(link, row) || row.is_to_close(outside) {
            return Ok(self.closes(tables, link, server));
        }
        if is_lendable(row) {
            self.rests(link, row, now)?;
        }
        if !row.may_take() || self.is_shut_out(tables, row) {
            return Ok(None);
        }
        match begins_on(self.alloc, tables, texts, link, row)? {
            Some(next) => Ok(Some(self.begins(link, next))),
            None => Ok(None),
        }
    }

    // What goes there next may change what it was told, and where a client stands.
    fn begins(&mut self, link: LinkId, next: Next) -> Deed {
        if let Some(client) = next.moves {
            if let Some(part) = self.clients.get_mut(&client.0) {
                part.moves();
            }
            self.leaves_spot(link);
        }
        next.deed
    }

    // What a link was told isn't known any more.
    fn leaves_spot(&mut self, link: LinkId) {
        let Some(part) = self.links.get_mut(&link.0) else {
            return;
        };
        if let Some(spot) = part.spot {
            part.spot = None;
            self.keys.leave_spot(spot);
        }
    }

    // Whether it can serve nobody any more: it was cut; a rule kept it for a client that left it, and what is left there isn't known; or it was
    // for one session alone.
    fn is_used_up(&self, link: LinkId, row: &Row) -> bool {
        match self.link(link) {
            Some(part) => part.cut
                || (row.is_vacant() && (part.ruled || (part.once && part.served))),
            None => false,
        }
    }

    // Whether an answer came there before the question was written whole.
    fn is_cut(&self, link: LinkId) -> bool {
        match self.link(link) {
            Some(part) => part.cut,
            None => false,
        }
    }

    // A link is to be closed: for whom it is readied waits for another, and it is told QUIT, where that may begin.
    fn closes(&mut self, tables: &Tables, link: LinkId, server: &Server) -> Option<Deed> {
        if let Some(client) = server.row.readied {
            self.unserved_again(tables, client);
            self.look_at(link);
            return Some(Deed::Unready { link, client });
        }
        if let Some(part) = self.link(link) {
            self.todo.links.closes.put(part.slot);
        }
        if server.row.may_part() && !self.is_cut(link) {
            Some(Deed::BeginQuit { link })
        } else {
            None
        }
    }

    // It stands in the pool from now on, if it doesn't. One whose server isn't ONLINE stands aside.
    fn rests(&mut self, link: LinkId, row: &Row, now: u64) -> Result<(), OutOfMemory> {
        let Some(part) = self.links.get_mut(&link.0) else {
            return Ok(());
        };
        if part.rests {
            return Ok(());
        }
        let Some(spot) = spot_of(&mut self.keys, part.spot, row)? else {
            return Ok(());
        };
        part.spot = Some(spot);
        part.rests = true;
        let server = server_place(row.link.server);
        let shelf = Shelf {
            key: row.key,
            place: spot,
            group: u32::from(row.hostgroup.0),
            server,
        };
        self.pool.logged_in(part.slot);
        self.pool.give_back(part.slot, &shelf, row.used);
        self.may_lend(row.key);
        if self.servers.status(row.link.server) != Some(ServerStatus::Online) {
            let _ = self.pool.put_aside(server, now);
        }
        Ok(())
    }
}
