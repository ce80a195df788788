// The servers by number.
ghost use Rattle.std.specs.Prelude.{◌≡◌, ◌≤◌, ◌<◌, ◌++◌, ◌∷◌, [], length, map, OnOk, None, option_copied};
ghost use Rattle.hostgroups.specs.Reloads.{row_named};
ghost use Rattle.hostgroups.specs.Rows.{number_of, name_of, connections_of, fault_of};
ghost use Rattle.hostgroups.specs.Servers.{server_at, in_force, is_known, rows_of, names_of, restated, with_status};
ghost use Rattle.hostgroups.specs.Statuses.{once_ticked};

use crate::server::{Server, find};
use crate::{ServerName, ServerNumbers, ServerRow, ServerStatus, ServersFault};
use mx_base::{OutOfMemory, ServerId};
use std::alloc::Global;
use std::marker::Model;

/// The rows that a table of servers may have.
const MAX_ROWS: usize = 1024;

/// The connections that the rows may allow in all.
const MAX_CONNECTIONS: u32 = 10_000;

/// Servers with their numbers, which contracts see as a list: the server of the number 1 comes first.
#[derive(Drop)]
pub struct NumberedServers {
    servers: Vec<Server>,
    numbers: ServerNumbers,
}

impl Model for NumberedServers {
    ghost use Rattle.std.specs.Prelude.{◌≡◌, List};
    ghost use Rattle.hostgroups.specs.declared.server.Server.{Server};

    ghost Value = { List Server };

    ghost view = { λ s. s.servers.items };

    ghost use Rattle.hostgroups.specs.Servers.{names_of};

    ghost invariant = { λ s. s.numbers ≡ names_of s.servers.items };
}

impl NumberedServers {
    pub fn new(alloc: Global) -> Self
        ensures { result ≡ [] }
    {
        NumberedServers {
            servers: Vec::new(alloc),
            numbers: ServerNumbers::new(alloc),
        }
    }

    pub fn as_slice(&self) -> &[Server]
        ensures { result.now ≡ self.now }
    {
        self.servers.as_slice()
    }

    /// The number of a server, None exactly where it has none.
    pub fn number(&self, name: ServerName) -> Option<ServerId>
        ensures { result ≡ number_of (names_of self.now) name }
    {
        let _servers = &self.servers;
        self.numbers.number(name)
    }

    /// The server of a number.
    pub fn find(&self, server: ServerId) -> Option<&Server>
        ensures { option_copied result ≡ server_at self.now server }
    {
        find(self.servers.as_slice(), server)
    }

    /// What keeps a row from being put in force behind these servers, which allow so many connections.
    pub fn fault(&self, connections: u32, row: &ServerRow) -> Option<ServersFault>
        requires counted { connections ≡ connections_of (rows_of self.now) }
        requires few { connections ≤ 10000 }
        requires short { length self.now ≤ 1024 }
        ensures { result ≡ fault_of (rows_of self.now) row.now }
    {
        let before = self.servers.len();
        if self.numbers.number(row.name()).is_some() {
            return Some(ServersFault::Duplicate {
                row: before as u32 + 1,
            });
        }
        if before >= MAX_ROWS || connections + u32::from(row.max_connections) > MAX_CONNECTIONS {
            return Some(ServersFault::TooMany);
        }
        None
    }

    /// Gives the row's server the next number.
    pub fn add(&mut self, row: &ServerRow) -> Result<(), OutOfMemory>
        requires new { number_of (names_of self.old) (name_of row.now) ≡ None }
        requires room { length self.old < 65535 }
        ensures { OnOk result (self.new ≡ self.old ++ in_force row.now ∷ []) }
    {
        self.servers.reserve(1)?;
        self.numbers.add(row.name())?;
        self.servers.push(Server {
            row: *row,
            status: row.status,
            gone: false,
        })?;
        Ok(())
    }

    /// Puts a server behind the others.
    pub fn push(&mut self, server: Server) -> Result<(), OutOfMemory>
        requires { length self.old < 65535 }
        ensures { OnOk result (self.new ≡ self.old ++ server ∷ []) }
    {
        self.servers.reserve(1)?;
        self.numbers.append(server.row.name())?;
        self.servers.push(server)?;
        Ok(())
    }

    /// The row of a name.
    pub fn row_named(&self, name: ServerName) -> Option<ServerRow>
        ensures { result ≡ row_named (rows_of self.now) name }
    {
        match self.number(name) {
            Some(number) => match self.find(number) {
                Some(server) => Some(server.row),
                None => None,
            },
            None => None,
        }
    }

    /// Gives a server a status. False exactly where no server has that number.
    pub fn set_status(&mut self, server: ServerId, status: ServerStatus) -> bool
        ensures known { result ≡ is_known self.old server }
        ensures servers { self.new ≡ with_status self.old server status }
    {
        if server.0 == 0 || usize::from(server.0) > self.servers.len() {
            return false;
        }
        let at = usize::from(server.0) - 1;
        self.servers[at].status = status;
        true
    }

    /// Servers that were shunned until this moment, or until an earlier one, are ONLINE.
    pub fn tick(&mut self, now_ms: u64)
        ensures { self.new ≡ map (restated (once_ticked now_ms)) self.old }
    {
        for server in self.servers.iter_mut() {
            server.status = server.status.once_ticked(now_ms);
        }
    }
}
