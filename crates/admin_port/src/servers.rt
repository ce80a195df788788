// The staged rows of servers.
ghost use Rattle.std.specs.Prelude.{◌≡◌, ◌≤◌, ◌<◌, ◌++◌, ◌∷◌, [], All, IfOk, OnOk, OnErr, length, position};
ghost use Rattle.admin_port.specs.Faults.{Changes, Gives};
ghost use Rattle.admin_port.specs.Staged.{is_host, is_key_column, is_server, server_set, server_set_at, servers_left, servers_set, sets_key, settled, with_server};

use crate::Fault;
use crate::column::read_host;
use crate::pair::Pair;
use crate::row::read_server;
use crate::row_values::{put_copies, server_pairs};
use crate::statement::{ServerKey, StagedTable};
use hostgroups::{ServerRow, Servers, ServersFault};
use mx_base::OutOfMemory;
use sql_tokens::{is_one_of, same_text};
use std::alloc::Global;

fn is_key_column(table: StagedTable, column: &[u8]) -> bool
    ensures { result ≡ is_key_column table column.now }
{
    match table {
        StagedTable::Servers => is_one_of(column, &[b"hostgroup_id", b"hostname", b"port"]),
        StagedTable::Rules => same_text(column, b"rule_id"),
    }
}

/// Whether a column of the key is among these.
pub(crate) fn sets_key(table: StagedTable, pairs: &[Pair]) -> bool
    ensures { result ≡ sets_key table pairs.now }
{
    pairs
        .iter()
        .any(|pair| is_key_column(table, pair.column.as_slice()))
}

fn is_host(host: Option<[u8; 4]>, ip: [u8; 4]) -> bool
    ensures { result ≡ is_host host ip }
{
    match host {
        Some(host) => ip == host,
        None => false,
    }
}

fn is_server(key: &ServerKey, row: &ServerRow) -> bool
    ensures { result ≡ is_server key.now row.now }
{
    u64::from(row.hostgroup.0) == key.hostgroup
        && is_host(read_host(key.host.as_slice()), row.address.ip)
        && u64::from(row.address.port) == key.port
}

fn place(rows: &[ServerRow], key: &ServerKey) -> Option<usize>
    ensures { result ≡ position (is_server key.now) rows.now }
{
    rows.iter().position(|row| is_server(key, row))
}

// The rows, where a table of servers can be made of them.
fn settle(alloc: Global, rows: &[ServerRow]) -> Result<(), Fault>
    requires { All (λ row. 1 ≤ row.weight) rows.now }
    ensures { Changes result rows.now rows.now (settled rows.now) }
{
    match Servers::build(alloc, rows) {
        Ok(_) => Ok(()),
        Err(ServersFault::OutOfMemory) => Err(Fault::OutOfMemory),
        Err(_) => Err(Fault::Refused),
    }
}

fn push(rows: &mut Vec<ServerRow>, row: ServerRow) -> Result<(), OutOfMemory>
    ensures ok { OnOk result (rows.new.items ≡ rows.old.items ++ row ∷ []) }
    ensures err { OnErr result (rows.new.items ≡ rows.old.items) }
{
    rows.push(row)?;
    Ok(())
}

/// Appends the server of these values.
#[tactic(auto, using(crate::proofs::Steps::steps, crate::proofs::Weights::turns))]
pub(crate) fn insert_server(
    alloc: Global,
    rows: &mut Vec<ServerRow>,
    pairs: &[Pair],
    patterned: bool,
) -> Result<(), Fault>
    requires { All (λ row. 1 ≤ row.weight) rows.old.items }
    ensures said { Changes result rows.old.items rows.new.items (with_server patterned rows.old.items pairs.now) }
    ensures weights { All (λ row. 1 ≤ row.weight) rows.new.items }
{
    let row = read_server(pairs, patterned)?;
    let before = rows.len();
    push(rows, row)?;
    match settle(alloc, rows) {
        Ok(()) => Ok(()),
        Err(fault) => {
            rows.truncate(before);
            Err(fault)
        }
    }
}

// The row with these values in place of its own.
fn server_set(
    alloc: Global,
    row: &ServerRow,
    pairs: &[Pair],
    patterned: bool,
) -> Result<ServerRow, Fault>
    ensures said { Gives result (server_set patterned row.now pairs.now) }
    ensures weight { IfOk result (λ row. 1 ≤ row.weight) }
{
    let mut all = server_pairs(alloc, row)?;
    put_copies(alloc, &mut all, pairs)?;
    read_server(&all, patterned)
}

// Gives the row at a place these values.
#[tactic(auto, using(crate::proofs::Steps::steps, std::proofs::lemmas::Option::gets, crate::proofs::Weights::turns))]
fn set_at(
    alloc: Global,
    rows: &mut Vec<ServerRow>,
    pairs: &[Pair],
    patterned: bool,
    at: usize,
) -> Result<(), Fault>
    requires place { at < length rows.old.items }
    requires weights { All (λ row. 1 ≤ row.weight) rows.old.items }
    ensures said { Changes result rows.old.items rows.new.items (server_set_at patterned rows.old.items pairs.now at) }
    ensures weights { All (λ row. 1 ≤ row.weight) rows.new.items }
{
    let new = server_set(alloc, &rows[at], pairs, patterned)?;
    let old = rows[at];
    rows[at] = new;
    match settle(alloc, rows) {
        Ok(()) => Ok(()),
        Err(fault) => {
            rows[at] = old;
            Err(fault)
        }
    }
}

/// Gives the server of a key these values.
#[tactic(auto, using(crate::proofs::Steps::steps))]
pub(crate) fn set_server(
    alloc: Global,
    rows: &mut Vec<ServerRow>,
    key: &ServerKey,
    pairs: &[Pair],
    patterned: bool,
) -> Result<(), Fault>
    requires { All (λ row. 1 ≤ row.weight) rows.old.items }
    ensures said { Changes result rows.old.items rows.new.items (servers_set patterned rows.old.items key.now pairs.now) }
    ensures weights { All (λ row. 1 ≤ row.weight) rows.new.items }
{
    if sets_key(StagedTable::Servers, pairs) {
        return Err(Fault::Refused);
    }
    match place(rows, key) {
        Some(at) => set_at(alloc, rows, pairs, patterned, at),
        None => Err(Fault::Refused),
    }
}

/// Takes the server of a key out.
#[tactic(auto, using(crate::proofs::Weights::turns))]
pub(crate) fn remove_server(rows: &mut Vec<ServerRow>, key: &ServerKey) -> Result<(), Fault>
    requires { All (λ row. 1 ≤ row.weight) rows.old.items }
    ensures said { Changes result rows.old.items rows.new.items (servers_left rows.old.items key.now) }
    ensures weights { All (λ row. 1 ≤ row.weight) rows.new.items }
{
    match place(rows, key) {
        Some(at) => {
            rows.remove(at);
            Ok(())
        }
        None => Err(Fault::Refused),
    }
}
