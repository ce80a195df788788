// A server, found by its number.
ghost use Rattle.std.specs.Prelude.{◌≡◌, option_copied};
ghost use Rattle.hostgroups.specs.Servers.{server_at, turning};
ghost use Rattle.hostgroups.specs.Picks.{connections_at, is_ready, is_online_at};

use crate::{ServerRow, ServerStatus};
use mx_base::ServerId;

/// A server: the row that was last put in force for it, its status now, and whether it has gone: no row in force is its own.
#[derive(Clone, Copy)]
pub struct Server {
    pub row: ServerRow,
    pub status: ServerStatus,
    pub gone: bool,
}

impl Server {
    /// The row by which it has turns: one that has gone has none.
    pub(crate) fn turning(&self) -> ServerRow
        ensures { result ≡ turning self.now }
    {
        ServerRow {
            hostgroup: self.row.hostgroup,
            address: self.row.address,
            weight: if self.gone { 0 } else { self.row.weight },
            max_connections: self.row.max_connections,
            status: self.row.status,
        }
    }
}

// The server of a number.
pub fn find(servers: &[Server], server: ServerId) -> Option<&Server>
    ensures { option_copied result ≡ server_at servers.now server }
{
    if server.0 == 0 {
        return None;
    }
    servers.get(server.0 as usize - 1)
}

// Whether the server of a number is ONLINE.
pub fn is_online(servers: &[Server], server: ServerId) -> bool
    ensures { result ≡ is_online_at servers.now server }
{
    match find(servers, server) {
        Some(found) => found.status.is_online(),
        None => false,
    }
}

// Whether the server of a number is ONLINE with room, where these are the connections of each server.
pub fn is_ready(servers: &[Server], counts: &[u32], server: ServerId) -> bool
    ensures { result ≡ is_ready servers.now counts.now server }
{
    let connections = connections(counts, server);
    match find(servers, server) {
        Some(found) => found.status.is_online()
            && connections < u32::from(found.row.max_connections),
        None => false,
    }
}

// How many connections the server of a number has.
fn connections(counts: &[u32], server: ServerId) -> u32
    ensures { result ≡ connections_at counts.now server }
{
    let at = usize::from(server.0).saturating_sub(1);
    counts.get(at).copied().unwrap_or(0)
}
