// Other rows are put in force.
ghost use Rattle.std.specs.Prelude.{◌≡◌, ◌≢◌, ◌+◌, ◌≤◌, ◌++◌, if◌then◌else◌, length, map, IfErr, IfOk, OnOk, Some, None};
ghost use Rattle.hostgroups.specs.Reloads.{as_named, is_new, new_rows, put_in, reload_fault, reload_fault_of, reloaded};
ghost use Rattle.hostgroups.specs.Rows.{connections_of};
ghost use Rattle.hostgroups.specs.Servers.{in_force, rows_of, turning_rows};

use crate::numbered::NumberedServers;
use crate::server::Server;
use crate::{ServerRow, ServerStatus, ServersFault};
use mx_base::OutOfMemory;
use std::alloc::Global;

/// How many numbers there are.
const NUMBERS: usize = 65_535;

// A server whose row is this one now; without one it has gone.
fn put_in(server: &Server, row: Option<ServerRow>) -> Server
    ensures { result ≡ put_in server.now row }
{
    match row {
        Some(row) => Server {
            row,
            status: server.status.behind(row.status),
            gone: false,
        },
        None => Server {
            row: server.row,
            status: ServerStatus::OfflineHard,
            gone: true,
        },
    }
}

/// The rows by which servers have turns.
pub fn turning_rows(alloc: Global, servers: &[Server]) -> Result<Vec<ServerRow>, OutOfMemory>
    ensures { IfOk result (λ rows. rows.items ≡ turning_rows servers.now) }
{
    let mut rows = Vec::new(alloc);
    for server in servers {
        rows.push(server.turning())?;
    }
    Ok(rows)
}

impl NumberedServers {
    // Whether a row's server has no number.
    fn is_new(&self, row: &ServerRow) -> bool
        ensures { result ≡ is_new self.now row.now }
    {
        self.number(row.name()).is_none()
    }

    // What keeps a row from being put in force behind the wanted ones, which allow so many connections, where so many numbers are given.
    fn reload_fault(
        &self,
        wanted: &NumberedServers,
        connections: u32,
        given: usize,
        row: &ServerRow,
    ) -> Option<ServersFault>
        requires counted { connections ≡ connections_of (rows_of wanted.now) }
        requires few { connections ≤ 10000 }
        requires short { length wanted.now ≤ 1024 }
        requires given { given ≡ length self.now + length (new_rows self.now (rows_of wanted.now)) }
        ensures { result ≡ reload_fault_of self.now (rows_of wanted.now) row.now }
    {
        if let Some(fault) = wanted.fault(connections, row) {
            return Some(fault);
        }
        if self.is_new(row) && NUMBERS <= given {
            return Some(ServersFault::NumbersSpent);
        }
        None
    }

    // So many numbers are given with that of a row, where so many were.
    fn given_with(&self, given: usize, row: &ServerRow) -> usize
        requires { given ≤ 65535 }
        ensures { result ≡ given + (if is_new self.now row.now then 1 else 0) }
    {
        if self.is_new(row) { given + 1 } else { given }
    }

    /// The rows as a table of their own, where they can be put in force in place of these servers' ones, or their first fault.
    pub fn wanted(&self, alloc: Global, rows: &[ServerRow]) -> Result<NumberedServers, ServersFault>
        requires { length self.now ≤ 65535 }
        ensures wanted { IfOk result (λ wanted. wanted ≡ map in_force rows.now) }
        ensures sound { OnOk result (reload_fault self.now rows.now ≡ None) }
        ensures room { OnOk result (length self.now + length (new_rows self.now rows.now) ≤ 65535) }
        ensures fault { IfErr result (λ fault. fault ≢ ServersFault.OutOfMemory → reload_fault self.now rows.now ≡ Some fault) }
    {
        let mut wanted = NumberedServers::new(alloc);
        let mut connections = 0;
        let mut given = self.as_slice().len();
        for row in rows {
            match self.reload_fault(&wanted, connections, given, row) {
                Some(fault) => return Err(fault),
                None => wanted.add(row)?,
            }
            connections += u32::from(row.max_connections);
            given = self.given_with(given, row);
        }
        Ok(wanted)
    }

    // These servers, each as the wanted rows say.
    fn as_wanted(
        &self,
        alloc: Global,
        wanted: &NumberedServers,
    ) -> Result<NumberedServers, OutOfMemory>
        requires { length self.now ≤ 65535 }
        ensures { IfOk result (λ servers. servers ≡ map (as_named (rows_of wanted.now)) self.now) }
    {
        let mut servers = NumberedServers::new(alloc);
        for server in self.as_slice() {
            let row = wanted.row_named(server.row.name());
            servers.push(put_in(server, row))?;
        }
        Ok(servers)
    }

    // Those rows that have no number among these servers get the next ones.
    fn add_new(&self, servers: &mut NumberedServers, rows: &[ServerRow]) -> Result<(), OutOfMemory>
        requires { length servers.old + length (new_rows self.now rows.now) ≤ 65535 }
        ensures { OnOk result (servers.new ≡ servers.old ++ map in_force (new_rows self.now rows.now)) }
    {
        for row in rows {
            if self.is_new(row) {
                servers.push(Server {
                    row: *row,
                    status: row.status,
                    gone: false,
                })?;
            }
        }
        Ok(())
    }

    /// These servers, with the wanted rows in force.
    pub fn reloaded(
        &self,
        alloc: Global,
        wanted: &NumberedServers,
        rows: &[ServerRow],
    ) -> Result<NumberedServers, OutOfMemory>
        requires wanted { wanted.now ≡ map in_force rows.now }
        requires few { length self.now ≤ 65535 }
        requires room { length self.now + length (new_rows self.now rows.now) ≤ 65535 }
        ensures { IfOk result (λ servers. servers ≡ reloaded self.now rows.now) }
    {
        let mut servers = self.as_wanted(alloc, wanted)?;
        self.add_new(&mut servers, rows)?;
        Ok(servers)
    }
}
