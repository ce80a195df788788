// The policy.
ghost use Rattle.std.specs.Prelude.{◌≡◌, ◌+◌, ◌≤◌, ◌<◌, ◌^◌, All};
ghost use Rattle.conn_pool.specs.Sized.{IsSmall};
ghost use Rattle.mx_config.specs.Lawful.{IsLawful};

use crate::board::Board;
use crate::keys::Keys;
use crate::parts::{ClientPart, LinkPart};
use crate::slots::Slots;
use crate::todo::Todo;
use conn_pool::Sizes;
use core_pool::{Ages, Berths};
use hostgroups::Servers;
use mx_base::{ClientNo, LinkId, OutOfMemory, ServerId};
use mx_config::Config;
use std::alloc::Global;
use std::collections::HashMap;

/// The connections that servers allow in all, at most, and the clients that a configuration does.
pub(crate) const MOST_LINKS: u32 = 10_000;

pub(crate) const MOST_CLIENTS: u32 = 4_000;

/// The administrators that are served, and one on each port that is being refused.
pub(crate) const OTHER_CLIENTS: u32 = 18;

/// What is chosen by: servers; keys of links; small numbers and more of clients and links; links that may be lent; statements that wait and
/// for which no link is readied, by key; what is left to do; how many clients and administrators are connected, and how many bytes of clients
/// are kept; what is kept for administrators; and the one who had the router shut down. The pool and what is left to do are large, and stand on the heap.
#[derive(Drop)]
pub struct Policy {
    pub alloc: Global,
    pub servers: Servers,
    pub keys: Keys,
    pub client_slots: Slots,
    pub link_slots: Slots,
    pub clients: HashMap<u64, ClientPart>,
    pub links: HashMap<u64, LinkPart>,
    pub pool: Box<Berths>,
    pub unserved: Ages,
    pub todo: Box<Todo>,
    pub here: u64,
    pub admins: u64,
    pub kept: u64,
    pub board: Board,
    pub shut_by: Option<ClientNo>,
}

/// The place of a server among the counts of links.
pub(crate) fn server_place(server: ServerId) -> u32 {
    u32::from(server.0).saturating_sub(1)
}

// The servers of a configuration that was read stand.
fn servers_of(alloc: Global, config: &Config) -> Result<Servers, OutOfMemory>
    requires { All (λ row. 1 ≤ row.weight) config.now.servers }
{
    match Servers::build(alloc, config.servers.as_slice()) {
        Ok(servers) => Ok(servers),
        Err(_) => Err(OutOfMemory),
    }
}

// How large the pool is for so many clients.
fn sizes_for(clients: u32) -> Sizes
    requires { clients ≤ MOST_CLIENTS + OTHER_CLIENTS }
    ensures small { IsSmall result }
    ensures waiters { result.waiters ≡ clients }
    ensures keys { result.keys ≡ MOST_LINKS + clients }
{
    let keys = MOST_LINKS + clients;
    Sizes {
        links: MOST_LINKS,
        waiters: clients,
        keys,
        places: keys,
        groups: 65_536,
        servers: 65_536,
    }
}

fn no_clients(alloc: Global) -> HashMap<u64, ClientPart> {
    HashMap::new(alloc)
}

fn no_links(alloc: Global) -> HashMap<u64, LinkPart> {
    HashMap::new(alloc)
}

fn pool_for(alloc: Global, sizes: Sizes) -> Result<Box<Berths>, OutOfMemory>
    requires { IsSmall sizes }
{
    let pool = Berths::new(alloc, sizes)?;
    Ok(Box::new(alloc, pool)?)
}

fn todo_for(alloc: Global, clients: u32, keys: u32) -> Result<Box<Todo>, OutOfMemory>
    requires clients { clients < 2 ^ 31 }
    requires keys { keys < 2 ^ 31 }
{
    let todo = Todo::new(alloc, MOST_LINKS, clients, keys)?;
    Ok(Box::new(alloc, todo)?)
}

impl Policy {
    /// No client came.
    pub fn new(alloc: Global, config: &Config) -> Result<Self, OutOfMemory>
        requires { IsLawful config.now }
    {
        let clients = config.proxy.max_clients.min(MOST_CLIENTS) + OTHER_CLIENTS;
        let sizes = sizes_for(clients);
        let servers = servers_of(alloc, config)?;
        let pool = pool_for(alloc, sizes)?;
        let unserved = Ages::new(alloc, clients, sizes.keys)?;
        let todo = todo_for(alloc, clients, sizes.keys)?;
        let board = Board::new(alloc, config)?;
        Ok(Policy {
            alloc,
            servers,
            keys: Keys::new(alloc, sizes.keys),
            client_slots: Slots::new(alloc, clients),
            link_slots: Slots::new(alloc, MOST_LINKS),
            clients: no_clients(alloc),
            links: no_links(alloc),
            pool,
            unserved,
            todo,
            here: 0,
            admins: 0,
            kept: 0,
            board,
            shut_by: None,
        })
    }

    /// The client of a small number.
    pub(crate) fn client_at(&self, slot: u32) -> Option<ClientNo> {
        Some(ClientNo(self.client_slots.name(slot)?))
    }

    /// The link to a server of a small number.
    pub(crate) fn link_at(&self, slot: u32) -> Option<LinkId> {
        Some(LinkId(self.link_slots.name(slot)?))
    }

    /// What is chosen by of a client.
    pub(crate) fn client(&self, client: ClientNo) -> Option<ClientPart> {
        self.clients.get(&client.0).copied()
    }

    /// What is chosen by of a link.
    pub(crate) fn link(&self, link: LinkId) -> Option<LinkPart> {
        self.links.get(&link.0).copied()
    }

    /// What goes to a link next may be another. Takes no memory.
    pub fn look_at(&mut self, link: LinkId) {
        if let Some(part) = self.link(link) {
            self.todo.links.looks.put(part.slot);
        }
    }
}
