// The table `servers`.
ghost use Rattle.std.specs.Prelude.{◌≡◌, ◌≤◌, ◌<◌, ◌+◌, ◌++◌, ◌∷◌, [], None, length, map, IfOk, OnOk};
ghost use Rattle.toml.specs.View.{view, items_view, table_view};
ghost use Rattle.hostgroups.specs.Rows.{has_server, name_of, number_of, connections_of};
ghost use Rattle.mx_config.specs.Faults.{Gives};
ghost use Rattle.mx_config.specs.Lawful.{IsBetween, IsLawfulServer, AreLawfulServers};
ghost use Rattle.mx_config.specs.Tables.{named_server, duty_of, server_row, rows_from, counted, new_server};

use crate::ConfigRefusal;
use crate::fault::{Kind, Place, TableName, refusal};
use crate::row::{Row, row_behind};
use hostgroups::{ServerName, ServerNumbers, ServerRow, ServerStatus};
use mx_base::{Address, Hostgroup, Items, OutOfMemory};
use std::alloc::Global;
use std::marker::Model;
use toml::Value;

/// The connections that the rows may allow in all.
const MAX_CONNECTIONS: u64 = 10_000;

/// The keys of a row, in order.
const KEYS: [&str; 6] = [
    "hostgroup",
    "host",
    "port",
    "weight",
    "max_connections",
    "status",
];

/// What a server may be asked for.
#[derive(Clone, Copy)]
pub(crate) struct Duty {
    pub weight: u16,
    pub max_connections: u16,
    pub status: ServerStatus,
}

/// The rows of servers so far, which contracts see as a list.
#[derive(Drop)]
pub(crate) struct ServerTable {
    rows: Vec<ServerRow>,
    numbers: ServerNumbers,
    connections: u64,
}

impl Model for ServerTable {
    ghost use Rattle.std.specs.Prelude.{List};
    ghost use Rattle.hostgroups.specs.declared.row.ServerRow.{ServerRow};

    ghost Value = { List ServerRow };

    ghost view = { λ t. t.rows.items };

    ghost use Rattle.mx_config.specs.Names.{AreServers};

    ghost invariant = { AreServers };
}

impl ServerTable {
    fn new(alloc: Global) -> Self
        ensures { result ≡ [] }
    {
        ServerTable {
            rows: Vec::new(alloc),
            numbers: ServerNumbers::new(alloc),
            connections: 0,
        }
    }

    fn len(&self) -> usize
        ensures { result ≡ length self.now }
    {
        self.rows.len()
    }

    fn has(&self, name: ServerName) -> bool
        ensures { result ≡ has_server self.now name }
    {
        let _rows = &self.rows;
        self.numbers.number(name).is_some()
    }

    fn connections(&self) -> u64
        ensures sum { result ≡ connections_of self.now }
        ensures few { result ≤ 10000 }
    {
        self.connections
    }

    fn push(&mut self, row: ServerRow) -> Result<(), OutOfMemory>
        requires new { number_of (map name_of self.old) (name_of row) ≡ None }
        requires room { length self.old < 1024 }
        requires few { connections_of self.old + row.max_connections ≤ 10000 }
        ensures { OnOk result (self.new ≡ self.old ++ row ∷ []) }
    {
        self.rows.reserve(1)?;
        self.numbers.add(row.name())?;
        self.connections += u64::from(row.max_connections);
        self.rows.push(row)?;
        Ok(())
    }

    fn into_rows(self) -> Items<ServerRow>
        ensures { result ≡ self }
    {
        Items::from_vec(self.rows)
    }
}

/// The rows of servers.
pub(crate) fn read_server_rows(
    alloc: Global,
    items: &[Value],
) -> Result<Items<ServerRow>, ConfigRefusal>
    requires { length items.now ≤ 1024 }
    ensures said { Gives result (rows_from server_row [] (items_view items.now)) }
    ensures lawful { IfOk result AreLawfulServers }
{
    let mut servers = ServerTable::new(alloc);
    for value in items {
        let row = read_server_row(alloc, &servers, value)?;
        servers.push(row)?;
    }
    Ok(servers.into_rows())
}

// The row of servers behind the rows so far.
#[tactic(auto, using(crate::proofs::Steps::steps), unfolding(crate::specs::Tables::server_row))]
fn read_server_row(
    alloc: Global,
    before: &ServerTable,
    value: &Value,
) -> Result<ServerRow, ConfigRefusal>
    requires { length before.now < 1024 }
    ensures said { Gives result (server_row before.now (view value.now)) }
    ensures lawful { IfOk result (IsLawfulServer before.now) }
{
    let row = row_behind(alloc, TableName::Servers, before.len(), value, &KEYS)?;
    let name = read_name(&row)?;
    let duty = read_duty(before, &row)?;
    new_server(alloc, row.place, before, name)?;
    Ok(ServerRow {
        hostgroup: name.hostgroup,
        address: name.address,
        weight: duty.weight,
        max_connections: duty.max_connections,
        status: duty.status,
    })
}

#[tactic(auto, using(crate::proofs::Steps::steps), unfolding(crate::specs::Tables::named_server))]
fn read_name(row: &Row) -> Result<ServerName, ConfigRefusal>
    ensures { Gives result (named_server row.now.place (table_view row.now.members.now)) }
{
    let hostgroup = row.number("hostgroup", None, 0, 65_535)?;
    let ip = row.host("host", None)?;
    let port = row.number("port", None, 0, 65_535)?;
    Ok(ServerName {
        hostgroup: Hostgroup(hostgroup as u16),
        address: Address {
            ip,
            port: port as u16,
        },
    })
}

#[tactic(auto, using(crate::proofs::Steps::steps), unfolding(crate::specs::Tables::duty_of))]
fn read_duty(before: &ServerTable, row: &Row) -> Result<Duty, ConfigRefusal>
    ensures said { Gives result (duty_of row.now.place before.now (table_view row.now.members.now)) }
    ensures weight { IfOk result (λ d. IsBetween 1 1000 d.weight) }
    ensures connections { IfOk result (λ d. IsBetween 1 10000 d.max_connections) }
    ensures few { IfOk result (λ d. connections_of before.now + d.max_connections ≤ 10000) }
{
    let weight = row.number("weight", Some(1), 1, 1000)?;
    let max_connections = row.number("max_connections", Some(100), 1, 10_000)?;
    few_connections(row.alloc, row.place, before, max_connections)?;
    let status = row.status("status", Some(ServerStatus::Online))?;
    Ok(Duty {
        weight: weight as u16,
        max_connections: max_connections as u16,
        status,
    })
}

// Refuses a row that passes the connections that all rows may allow.
fn few_connections(
    alloc: Global,
    place: Place,
    before: &ServerTable,
    max_connections: u64,
) -> Result<(), ConfigRefusal>
    requires { max_connections ≤ 10000 }
    ensures said { Gives result (counted place before.now max_connections) }
    ensures few { OnOk result (connections_of before.now + max_connections ≤ 10000) }
{
    if before.connections() + max_connections > MAX_CONNECTIONS {
        return Err(refusal(alloc, place, Kind::OutOfRange, "max_connections"));
    }
    Ok(())
}

// Refuses a server that stands in a row before.
fn new_server(
    alloc: Global,
    place: Place,
    before: &ServerTable,
    name: ServerName,
) -> Result<(), ConfigRefusal>
    ensures said { Gives result (new_server place before.now name) }
    ensures new { OnOk result (number_of (map name_of before.now) name ≡ None) }
{
    if before.has(name) {
        return Err(refusal(alloc, place, Kind::DuplicateServer, "hostgroup"));
    }
    Ok(())
}
