// Links to servers are opened, and forgotten.

use crate::asks::Asked;
use crate::parts::LinkPart;
use crate::policy::{MOST_LINKS, Policy, server_place};
use mx_base::{Hostgroup, LinkId, OutOfMemory};
use served_link::Opening;

/// What a link is opened for, and as whom the router logs in there.
#[derive(Clone, Copy)]
pub struct Login<'a> {
    pub opening: Opening,
    pub user: &'a [u8],
    pub found_rows: bool,
}

impl Policy {
    /// What the link is opened for that was asked for.
    pub fn login(&self, asked: Asked) -> Login<'_> {
        match self.keys.row(asked.key) {
            Some(key) => Login {
                opening: Opening {
                    server: asked.server,
                    hostgroup: key.hostgroup,
                    key: asked.key,
                    bare: key.bare,
                },
                user: key.user,
                found_rows: key.found_rows,
            },
            None => Login {
                opening: Opening {
                    server: asked.server,
                    hostgroup: Hostgroup(0),
                    key: asked.key,
                    bare: false,
                },
                user: &[],
                found_rows: false,
            },
        }
    }

    /// A link was opened at this moment.
    pub fn opened(&mut self, asked: Asked, link: LinkId, now: u64) -> Result<(), OutOfMemory> {
        let Some(slot) = self.link_slots.take(link.0)? else {
            return Ok(());
        };
        self.board.counts.opens();
        self.keys.hold(asked.key);
        let once = match self.keys.row(asked.key) {
            Some(key) => key.fresh,
            None => false,
        };
        let part = LinkPart {
            slot,
            key: asked.key,
            spot: None,
            rests: false,
            cut: false,
            ruled: false,
            once,
            served: false,
        };
        self.links.insert(link.0, part)?;
        self.pool
            .opened(slot, server_place(asked.server), asked.key, now);
        Ok(())
    }

    /// A link is no more. Takes no memory.
    pub fn forget_link(&mut self, link: LinkId) {
        let Some(part) = self.link(link) else {
            return;
        };
        if self.links.len() >= MOST_LINKS as usize {
            self.have_room();
        }
        self.pool.close(part.slot);
        self.todo.forget_link(part.slot);
        self.link_slots.leave(part.slot);
        self.may_lend(part.key);
        self.room_for(part.key);
        self.keys.leave(part.key);
        if let Some(spot) = part.spot {
            self.keys.leave_spot(spot);
        }
        let _ = self.links.remove(&link.0);
    }
}
