// The rows of the table of servers.
ghost use Rattle.std.specs.Prelude.{◌≡◌};
ghost use Rattle.hostgroups.specs.Reloads.{status_behind};
ghost use Rattle.hostgroups.specs.Statuses.{is_online, once_failed, once_ticked};

use mx_base::{Address, Hostgroup};

/// What a server is used for (ProxySQL, "mysql_servers", column `status`).
#[derive(Clone, Copy, Debug, PartialEq, Eq)]
pub enum ServerStatus {
    /// It serves.
    Online,
    /// It failed, and isn't used before this moment, in milliseconds.
    Shunned { until_ms: u64 },
    /// It gets no new work, and finishes what runs on it.
    OfflineSoft,
    /// It isn't used, and what runs on it is broken off.
    OfflineHard,
}

/// How long a server is shunned once an open failed, in milliseconds.
const SHUNNED_MS: u64 = 10_000;

impl ServerStatus {
    // Whether the server gets new work.
    pub(crate) fn is_online(self) -> bool
        ensures { result ≡ is_online self }
    {
        match self {
            ServerStatus::Online => true,
            _ => false,
        }
    }

    // The status once an open failed.
    pub(crate) fn once_failed(self, now_ms: u64) -> Self
        ensures { result ≡ once_failed now_ms self }
    {
        match self {
            ServerStatus::Online => ServerStatus::Shunned {
                until_ms: now_ms.saturating_add(SHUNNED_MS),
            },
            other => other,
        }
    }

    // The status at this moment, where it was this one.
    pub(crate) fn once_ticked(self, now_ms: u64) -> Self
        ensures { result ≡ once_ticked now_ms self }
    {
        match self {
            ServerStatus::Shunned { until_ms } if until_ms <= now_ms => ServerStatus::Online,
            other => other,
        }
    }

    // The status once a row with this one is put in force: a server that is SHUNNED stays so where that says ONLINE.
    pub(crate) fn behind(self, status: ServerStatus) -> Self
        ensures { result ≡ status_behind self status }
    {
        match (self, status) {
            (ServerStatus::Shunned { until_ms }, ServerStatus::Online) => {
                ServerStatus::Shunned { until_ms }
            }
            (_, status) => status,
        }
    }
}

/// A row of the table of servers (ProxySQL, "mysql_servers"): a server, and how it may be used in its hostgroup.
#[derive(Clone, Copy, Debug)]
pub struct ServerRow {
    pub hostgroup: Hostgroup,
    pub address: Address,
    /// How many turns it has in each round of its hostgroup, at least 1.
    pub weight: u16,
    /// How many connections it may have at once.
    pub max_connections: u16,
    pub status: ServerStatus,
}

/// What tells servers apart: a server that stands in two hostgroups counts as two.
#[derive(Clone, Copy)]
pub struct ServerName {
    pub hostgroup: Hostgroup,
    pub address: Address,
}

impl ServerRow {
    ghost use Rattle.hostgroups.specs.Rows.{name_of};

    /// The name of the row's server.
    pub fn name(&self) -> ServerName
        ensures { result ≡ name_of self.now }
    {
        ServerName {
            hostgroup: self.hostgroup,
            address: self.address,
        }
    }
}
