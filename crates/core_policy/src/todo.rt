// What is left to do, by the small numbers of links, clients and keys. Nothing here takes memory but at the start, and as servers are shunned.
ghost use Rattle.std.specs.Prelude.{◌^◌, ◌<◌};

use crate::line::Line;
use core_pool::Ages;
use mx_base::{OutOfMemory, ServerId};
use std::alloc::Global;
use std::collections::VecDeque;

/// A server that is shunned until this moment.
#[derive(Clone, Copy)]
pub struct ShunnedServer {
    pub server: ServerId,
    pub until_ms: u64,
}

/// The keys in `KeyTodo::opens` that may want a link more. Behind them come those for which there was no room, by hostgroup.
pub const MAY_WANT: u32 = 0;

/// How many numbers of hostgroups there are.
const HOSTGROUPS: u32 = 65_536;

/// The keys in `KeyTodo::opens` for which there was no room in this hostgroup.
pub fn no_room(hostgroup: u32) -> u32 {
    hostgroup.saturating_add(1)
}

/// Links of which the next wish may be another, that are readied for who waits no more, that are to be closed, and that couldn't be yet.
#[derive(Drop)]
pub struct LinkTodo {
    pub looks: Line,
    pub unreadies: Line,
    pub closes: Line,
    pub held: Line,
}

/// Keys of which links may be lent, and that may want one more; and hostgroups in which there may be room for one.
#[derive(Drop)]
pub struct KeyTodo {
    pub lends: Line,
    pub opens: Ages,
    pub rooms: Line,
}

/// Clients that part, that ended, whose statements may wait again, that have to log in, that are to be ended at the next wake, and of those the ones that are
/// since the router shuts down.
#[derive(Drop)]
pub struct ClientTodo {
    pub parts: Line,
    pub leavers: Ages,
    pub anew: Line,
    pub logins: Ages,
    pub ousted: Line,
    pub dismissed: Line,
}

/// What is left to do, the oldest first, and servers that are shunned.
#[derive(Drop)]
pub struct Todo {
    pub links: LinkTodo,
    pub keys: KeyTodo,
    pub clients: ClientTodo,
    pub shunned: VecDeque<ShunnedServer>,
}

fn no_links(alloc: Global, links: u32) -> Result<LinkTodo, OutOfMemory>
    requires { links < 2 ^ 31 }
{
    let looks = Line::new(alloc, links)?;
    let unreadies = Line::new(alloc, links)?;
    let closes = Line::new(alloc, links)?;
    let held = Line::new(alloc, links)?;
    Ok(LinkTodo {
        looks,
        unreadies,
        closes,
        held,
    })
}

fn no_keys(alloc: Global, keys: u32) -> Result<KeyTodo, OutOfMemory>
    requires { keys < 2 ^ 31 }
{
    let lends = Line::new(alloc, keys)?;
    let opens = Ages::new(alloc, keys, HOSTGROUPS + 1)?;
    let rooms = Line::new(alloc, HOSTGROUPS)?;
    Ok(KeyTodo {
        lends,
        opens,
        rooms,
    })
}

fn no_clients(alloc: Global, clients: u32) -> Result<ClientTodo, OutOfMemory>
    requires { clients < 2 ^ 31 }
{
    let parts = Line::new(alloc, clients)?;
    let leavers = Ages::new(alloc, clients, 1)?;
    let anew = Line::new(alloc, clients)?;
    let logins = Ages::new(alloc, clients, 1)?;
    let ousted = Line::new(alloc, clients)?;
    let dismissed = Line::new(alloc, clients)?;
    Ok(ClientTodo {
        parts,
        leavers,
        anew,
        logins,
        ousted,
        dismissed,
    })
}

impl Todo {
    /// Nothing. There may be so many links, clients and keys.
    pub fn new(alloc: Global, links: u32, clients: u32, keys: u32) -> Result<Self, OutOfMemory>
        requires links { links < 2 ^ 31 }
        requires clients { clients < 2 ^ 31 }
        requires keys { keys < 2 ^ 31 }
    {
        let links = no_links(alloc, links)?;
        let keys = no_keys(alloc, keys)?;
        let clients = no_clients(alloc, clients)?;
        Ok(Todo {
            links,
            keys,
            clients,
            shunned: VecDeque::new(alloc),
        })
    }

    /// Whether there is something to do at once.
    pub fn is_due(&self) -> bool {
        let is_done = self.clients.anew.is_empty()
            && self.clients.ousted.is_empty()
            && self.clients.dismissed.is_empty()
            && self.links.looks.is_empty()
            && self.links.unreadies.is_empty()
            && self.links.held.is_empty()
            && self.keys.lends.is_empty();
        !is_done
    }

    /// No link of this number is there any more.
    pub fn forget_link(&mut self, slot: u32) {
        self.links.looks.take(slot);
        self.links.unreadies.take(slot);
        self.links.closes.take(slot);
        self.links.held.take(slot);
    }

    /// No client of this number is there any more.
    pub fn forget_client(&mut self, slot: u32) {
        self.clients.parts.take(slot);
        self.clients.leavers.take(slot);
        self.clients.anew.take(slot);
        self.clients.logins.take(slot);
        self.clients.ousted.take(slot);
        self.clients.dismissed.take(slot);
    }
}
