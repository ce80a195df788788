// The tables of clients and links.
ghost use Rattle.std.specs.Prelude.{◌≡◌};
ghost use Rattle.core_tables.specs.Tables.{IsSame, no_tables, tables_of};

use crate::client::Client;
use crate::server::Server;
use mx_base::ClientNo;
use std::alloc::Global;
use std::collections::HashMap;

/// Clients by number, their numbers by their links, and links to servers.
#[derive(Drop)]
pub struct Tables {
    pub alloc: Global,
    pub clients: HashMap<u64, Client>,
    pub numbers: HashMap<u64, ClientNo>,
    pub links: HashMap<u64, Server>,
}

impl Tables {
    /// Nobody is there yet. Takes no memory.
    #[tactic(auto, unfolding(crate::specs::Tables::tables_of))]
    pub fn new(alloc: Global) -> Self
        ensures { IsSame (tables_of result) no_tables }
    {
        Tables {
            alloc,
            clients: HashMap::new(alloc),
            numbers: HashMap::new(alloc),
            links: HashMap::new(alloc),
        }
    }
}
