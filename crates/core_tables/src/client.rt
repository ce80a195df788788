// A client of the router.

use client_desk::Desk;
use mx_base::{Hostgroup, LinkId};

/// What only the choice of the next act needs of a client: its small number, the number of the key of which it waits for a link, the link
/// that is readied for it, whether it counts as connected, whether it is to end, and how many of its bytes count.
#[derive(Clone, Copy)]
pub struct ClientNote {
    pub slot: u32,
    pub key: Option<u32>,
    pub readied: Option<LinkId>,
    pub served: bool,
    pub broken: bool,
    pub counted: u64,
}

/// A client: its desk, and the hostgroup to which its last message went, if that went to a server.
#[derive(Drop)]
pub struct Client {
    pub desk: Desk,
    pub went: Option<Hostgroup>,
    pub note: ClientNote,
}
