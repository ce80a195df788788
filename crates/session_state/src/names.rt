// Names of sessions and of messages.
use mx_base::{ClientNo, Hostgroup};

/// A session of a client in a hostgroup. Each session that is left makes room for the next life, counted from 0.
#[derive(Clone, Copy, PartialEq, Eq, Hash)]
pub struct SessionName {
    pub client: ClientNo,
    pub hostgroup: Hostgroup,
    pub life: u64,
}

/// A command message of a client. Ordinals count from 1.
#[derive(Clone, Copy, PartialEq, Eq, Hash)]
pub struct MessageName {
    pub client: ClientNo,
    pub ordinal: u64,
}
