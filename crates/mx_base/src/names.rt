// Names of links, clients, servers and ports.

/// A connection of the proxy, to a client or to a server. No two links of one run have the same.
#[derive(Clone, Copy, Debug, PartialEq, Eq, Hash)]
pub struct LinkId(pub u64);

/// A client, counted from 1 in the order in which clients were accepted over both ports.
#[derive(Clone, Copy, Debug, PartialEq, Eq, Hash)]
pub struct ClientNo(pub u64);

/// A server, counted from 1 in the order of the configuration's rows.
#[derive(Clone, Copy, Debug, PartialEq, Eq, Hash)]
pub struct ServerId(pub u16);

/// A hostgroup, by the number that the configuration gives it.
#[derive(Clone, Copy, Debug, PartialEq, Eq, Hash)]
pub struct Hostgroup(pub u16);

/// A user, counted from 1 in the order of the configuration's rows.
#[derive(Clone, Copy, PartialEq, Eq)]
pub struct UserId(pub u16);

/// An IPv4 address with its port; the first byte of `ip` is the leftmost of `a.b.c.d`.
#[derive(Clone, Copy, Debug, PartialEq, Eq)]
pub struct Address {
    pub ip: [u8; 4],
    pub port: u16,
}

/// The two ports on which clients are accepted.
#[derive(Clone, Copy, Debug, PartialEq, Eq)]
pub enum Port {
    Traffic,
    Admin,
}
