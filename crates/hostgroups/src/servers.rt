// The servers of a table, and which of them is picked.
ghost use Rattle.std.specs.Prelude.{◌≡◌, ◌≢◌, ◌≤◌, ◌↔◌, true, false, length, map, All, IfOk, OnOk, OnErr, IfErr, IfSome, IfNone, IsTrue, Some, None, option_map, option_copied};
ghost use Rattle.mx_base.specs.declared.names.ServerId.{ServerId};
ghost use Rattle.hostgroups.specs.Reloads.{reload_fault, reloaded};
ghost use Rattle.hostgroups.specs.Rows.{number_of, first_fault};
ghost use Rattle.hostgroups.specs.Rounds.{AreFull};
ghost use Rattle.hostgroups.specs.Servers.{belongs, server_at, in_force, is_known, names_of, once_open_failed, restated, turning_rows, with_status};
ghost use Rattle.hostgroups.specs.Statuses.{once_ticked};
ghost use Rattle.hostgroups.specs.Picks.{is_online_at, is_ready, picked, after_pick};

use crate::numbered::NumberedServers;
use crate::reload::turning_rows;
use crate::rounds::Rounds;
use crate::{ServerName, ServerRow, ServerStatus, ServersFault};
use mx_base::{Address, Hostgroup, ServerId};
use std::alloc::Global;
use std::marker::Model;

/// The servers of a table by number, and the rounds in which the servers of each hostgroup have their turns. A server keeps
/// its number, and the row and the status of it are found by that.
#[derive(Drop)]
pub struct Servers {
    servers: NumberedServers,
    rounds: Rounds,
}

impl Model for Servers {
    ghost use Rattle.hostgroups.specs.Tables.{Table, Holds};

    ghost Value = { Table };

    ghost view = { λ s. record { servers = s.servers; rounds = s.rounds } };

    ghost invariant = { λ s. Holds (record { servers = s.servers; rounds = s.rounds }) };
}

impl Servers {
    /// The servers of a table, each with the number of its row, counted from 1, and the status of its row, and before the
    /// first turn of each hostgroup. In a round of a hostgroup each of its servers has as many turns as its weight. Of several
    /// faults the one at the earliest row comes, and there a duplicate before too many; never `NumbersSpent`.
    pub fn build(alloc: Global, rows: &[ServerRow]) -> Result<Servers, ServersFault>
        requires weights { All (λ row. 1 ≤ row.weight) rows.now }
        ensures servers { IfOk result (λ table. table.servers ≡ map in_force rows.now) }
        ensures rounds { IfOk result (λ table. AreFull rows.now table.rounds) }
        ensures sound { OnOk result (first_fault rows.now ≡ None) }
        ensures fault { IfErr result (λ fault. fault ≢ ServersFault.OutOfMemory → first_fault rows.now ≡ Some fault) }
        ensures numbered { result ≢ Err ServersFault.NumbersSpent }
    {
        let servers = numbered(alloc, rows)?;
        let rounds = Rounds::of(alloc, rows)?;
        Ok(Servers { servers, rounds })
    }

    /// Puts these rows in force in place of those that are (ProxySQL, `LOAD MYSQL SERVERS TO RUNTIME`). A server keeps its number by its
    /// hostgroup and address; one without a row has gone, has no turns and is OFFLINE_HARD; one that is SHUNNED stays so where its row says
    /// ONLINE. New ones get the next numbers, in the order of their rows. Each round is dealt anew. Of several faults the one at the earliest
    /// row comes, and there in the order in which `ServersFault` has them. A fault leaves everything as it was.
    pub fn reload(&mut self, alloc: Global, rows: &[ServerRow]) -> Result<(), ServersFault>
        requires weights { All (λ row. 1 ≤ row.weight) rows.now }
        ensures servers { OnOk result (self.new.servers ≡ reloaded self.old.servers rows.now) }
        ensures rounds { OnOk result (AreFull (turning_rows self.new.servers) self.new.rounds) }
        ensures sound { OnOk result (reload_fault self.old.servers rows.now ≡ None) }
        ensures fault { IfErr result (λ fault. fault ≢ ServersFault.OutOfMemory → reload_fault self.old.servers rows.now ≡ Some fault) }
        ensures same { OnErr result (self.new ≡ self.old) }
    {
        let wanted = self.servers.wanted(alloc, rows)?;
        let servers = self.servers.reloaded(alloc, &wanted, rows)?;
        let turning = turning_rows(alloc, servers.as_slice())?;
        let rounds = Rounds::of(alloc, &turning)?;
        self.servers = servers;
        self.rounds = rounds;
        Ok(())
    }

    /// The number of a server, None exactly where no row of that hostgroup and address was put in force.
    pub fn number(&self, hostgroup: Hostgroup, address: Address) -> Option<ServerId>
        ensures { result ≡ number_of (names_of self.now.servers) (record { hostgroup = hostgroup; address = address }) }
    {
        self.servers.number(ServerName { hostgroup, address })
    }

    /// The row last put in force for a server, with the status that it had there, None exactly where no server has
    /// that number.
    pub fn row(&self, server: ServerId) -> Option<&ServerRow>
        ensures { option_copied result ≡ option_map (λ s. s.row) (server_at self.now.servers server) }
    {
        match self.servers.find(server) {
            Some(server) => Some(&server.row),
            None => None,
        }
    }

    /// The status of a server, None exactly where no server has that number.
    pub fn status(&self, server: ServerId) -> Option<ServerStatus>
        ensures { result ≡ option_map (λ s. s.status) (server_at self.now.servers server) }
    {
        match self.servers.find(server) {
            Some(server) => Some(server.status),
            None => None,
        }
    }

    /// Gives a server a status (ProxySQL, "mysql_servers", column `status`). False exactly where no server has that number.
    pub fn set_status(&mut self, server: ServerId, status: ServerStatus) -> bool
        ensures known { result ≡ is_known self.old.servers server }
        ensures after { self.new ≡ record self.old { servers = with_status self.old.servers server status } }
    {
        self.servers.set_status(server, status)
    }

    /// An open of a connection to a server failed at this moment: where it is ONLINE, it is SHUNNED for ten seconds, at most
    /// until the last moment (ProxySQL, "mysql_servers", status `SHUNNED`). Another status stays.
    pub fn open_failed(&mut self, server: ServerId, now_ms: u64)
        ensures { self.new ≡ record self.old { servers = once_open_failed self.old.servers server now_ms } }
    {
        match self.status(server) {
            Some(status) => {
                self.servers.set_status(server, status.once_failed(now_ms));
            }
            None => {}
        }
    }

    /// Each server that is SHUNNED until this moment, or until an earlier one, is ONLINE.
    pub fn tick(&mut self, now_ms: u64)
        ensures { self.new ≡ record self.old { servers = map (restated (once_ticked now_ms)) self.old.servers } }
    {
        self.servers.tick(now_ms);
    }

    /// Whether a server of the hostgroup is ONLINE.
    pub fn online(&self, hostgroup: Hostgroup) -> bool
        ensures { IsTrue result
            ↔ ((server : ServerId) × (belongs self.now.servers hostgroup server ≡ true) × (is_online_at self.now.servers server ≡ true)) }
    {
        self.rounds.has_online(self.servers.as_slice(), hostgroup)
    }

    /// The server of the hostgroup whose turn comes first of those that are ONLINE and have fewer connections than their
    /// rows allow; None exactly where no server of the hostgroup is so. The turns up to its own are over then. `counts` has
    /// the connections of the server n at the place n - 1, and 0 counts past its end. Takes no memory, and as many steps as
    /// there are turns up to the server's own (ProxySQL, "mysql_servers", columns `weight` and `max_connections`; by turns
    /// where ProxySQL draws).
    pub fn pick(&mut self, hostgroup: Hostgroup, counts: &[u32]) -> Option<ServerId>
        ensures picked { result ≡ picked self.old hostgroup counts.now }
        ensures after { self.new ≡ after_pick self.old hostgroup counts.now }
        ensures ready { IfSome result (λ server. (belongs self.old.servers hostgroup server ≡ true)
            × (is_ready self.old.servers counts.now server ≡ true)) }
        ensures none { IfNone result ((server : ServerId) → belongs self.old.servers hostgroup server ≡ true
            → is_ready self.old.servers counts.now server ≡ false) }
    {
        self.rounds.pick(self.servers.as_slice(), counts, hostgroup)
    }
}

// The servers of a table by number, or its first fault.
fn numbered(alloc: Global, rows: &[ServerRow]) -> Result<NumberedServers, ServersFault>
    requires weights { All (λ row. 1 ≤ row.weight) rows.now }
    ensures servers { IfOk result (λ servers. servers ≡ map in_force rows.now) }
    ensures sound { OnOk result (first_fault rows.now ≡ None) }
    ensures short { OnOk result (length rows.now ≤ 1024) }
    ensures fault { IfErr result (λ fault. fault ≢ ServersFault.OutOfMemory → first_fault rows.now ≡ Some fault) }
    ensures numbered { result ≢ Err ServersFault.NumbersSpent }
{
    let mut servers = NumberedServers::new(alloc);
    let mut connections = 0;
    for row in rows {
        match servers.fault(connections, row) {
            Some(fault) => return Err(fault),
            None => servers.add(row)?,
        }
        connections += u32::from(row.max_connections);
    }
    Ok(servers)
}
