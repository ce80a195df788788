// Links that carry nobody are lent to those who wait.

use crate::deed::Deed;
use crate::keys::{Keys, Spot};
use crate::parts::{ClientPart, Standpoint};
use crate::policy::Policy;
use crate::todo::no_room;
use core_tables::Tables;
use mx_base::{ClientNo, OutOfMemory};

// The number of a client's key with its place, where that is known to be the same still.
fn known_spot(keys: &Keys, part: &ClientPart, key: u32, lefts: u64) -> Option<Spot> {
    let stands = part.stands?;
    let spot = stands.spot?;
    if stands.key == key && stands.lefts == lefts && keys.has_spot(spot) {
        Some(spot)
    } else {
        None
    }
}

impl Policy {
    /// A link that may be lent is readied for who waits longest for one of its key. A key that wants more may have one opened; one of
    /// another key may be closed where it wants none, or where one of that waits longer.
    pub(crate) fn lend(&mut self, tables: &Tables) -> Result<Option<Deed>, OutOfMemory> {
        for _ in 0..u32::MAX {
            let Some(key) = self.todo.keys.lends.pop() else {
                return Ok(None);
            };
            if self.gives_way(key) {
                self.is_behind(key);
                continue;
            }
            if let Some(deed) = self.lend_one(tables, key)? {
                self.may_lend(key);
                return Ok(Some(deed));
            }
            if self.wants_link(key) {
                self.may_want(key);
            } else {
                self.room_for(key);
            }
        }
        Ok(None)
    }

    // Whether a statement for which there was no room in the hostgroup of a key waits longer than each for one of this.
    fn gives_way(&self, key: u32) -> bool {
        let (Some(row), Some(slot)) = (self.keys.row(key), self.unserved.oldest(key)) else {
            return false;
        };
        let group = no_room(u32::from(row.hostgroup.0));
        let Some(other) = self.todo.keys.opens.oldest(group) else {
            return false;
        };
        match self.unserved.oldest(other) {
            Some(older) => {
                self.unserved.since(older) < self.unserved.since(slot) && self.wants_link(other)
            }
            None => false,
        }
    }

    // A key comes behind those for which there was no room in its hostgroup, and they are tried again.
    fn is_behind(&mut self, key: u32) {
        if let Some(row) = self.keys.row(key) {
            let hostgroup = row.hostgroup;
            self.waits_for_room(key, hostgroup);
            self.has_room(hostgroup);
        }
    }

    /// A link of a key may be lent: to who waits for one; where nobody does, one of another key may be opened in its place. Takes no memory.
    pub(crate) fn may_lend(&mut self, key: u32) {
        if self.unserved.count(key) > 0 {
            self.todo.keys.lends.put(key);
        } else {
            self.room_for(key);
        }
    }

    fn lend_one(&mut self, tables: &Tables, key: u32) -> Result<Option<Deed>, OutOfMemory> {
        let Some(slot) = self.unserved.oldest(key) else {
            return Ok(None);
        };
        let Some(client) = self.client_at(slot) else {
            return Ok(None);
        };
        let spot = self.spot_for(tables, client, key)?;
        let Some(place) = self.pool.lend(key, spot) else {
            return Ok(None);
        };
        let Some(link) = self.link_at(place) else {
            return Ok(None);
        };
        self.unserved.take(slot);
        if let Some(part) = self.links.get_mut(&link.0) {
            part.rests = false;
            self.board.counts.lends(part.served);
        }
        self.todo.links.looks.put(place);
        Ok(Some(Deed::Ready { link, client }))
    }

    // What a link of this key should have been told for a client, where one was.
    fn spot_for(
        &mut self,
        tables: &Tables,
        client: ClientNo,
        key: u32,
    ) -> Result<u32, OutOfMemory> {
        let (Some(row), Some(part)) = (
            tables.clients.get(&client.0),
            self.clients.get_mut(&client.0),
        ) else {
            return Ok(0);
        };
        let lefts = row.desk.lefts;
        if let Some(spot) = known_spot(&self.keys, part, key, lefts) {
            return Ok(spot.number);
        }
        let place = &row.desk.seat.place;
        let spot = self
            .keys
            .spot(key, place.schema.as_slice(), &place.settings)?;
        part.stands = Some(Standpoint { key, spot, lefts });
        match spot {
            Some(spot) => Ok(spot.number),
            None => Ok(0),
        }
    }

    /// A link that is readied for who waits no more is nobody's. Takes no memory.
    pub(crate) fn unready(&mut self, tables: &Tables, now: u64) -> Option<Deed> {
        for _ in 0..u32::MAX {
            let slot = self.todo.links.unreadies.pop()?;
            if let Some(deed) = self.unready_at(tables, slot, now) {
                return Some(deed);
            }
        }
        None
    }

    // Until it may be lent, a step for who went may be under way there.
    fn unready_at(&mut self, tables: &Tables, slot: u32, now: u64) -> Option<Deed> {
        let link = self.link_at(slot)?;
        let client = tables.links.get(&link.0)?.row.readied?;
        let part = self.link(link)?;
        self.pool.steps(slot, part.key, now);
        self.look_at(link);
        Some(Deed::Unready { link, client })
    }
}
