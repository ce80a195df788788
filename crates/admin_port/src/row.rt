// The rows of the staged tables: what the values of columns make of them.
ghost use Rattle.std.specs.Prelude.{◌≡◌, ◌≤◌, IfOk};
ghost use Rattle.admin_port.specs.Faults.{Gives};
ghost use Rattle.admin_port.specs.RowValues.{has_server_key, hostgroup_of, if_replaces, rule_from, rule_said, server_from, server_said};

use crate::Fault;
use crate::column::{
    are_columns, digest_at, has_value, host_at, number_at, read_text_at, small_at, status_at,
    switch_at,
};
use crate::pair::Pair;
use crate::statement::StagedTable;
use hostgroups::ServerRow;
use mx_base::{Address, Hostgroup, OutOfMemory};
use query_rules::RuleRow;
use std::alloc::Global;

fn server_from(pairs: &[Pair]) -> ServerRow
    ensures row { result ≡ server_from pairs.now }
    ensures weight { 1 ≤ result.weight }
{
    let hostgroup = number_at(b"hostgroup_id", 0, 0, 65_535, pairs) as u16;
    let port = number_at(b"port", 0, 0, 65_535, pairs) as u16;
    ServerRow {
        hostgroup: Hostgroup(hostgroup),
        address: Address {
            ip: host_at(b"hostname", pairs),
            port,
        },
        weight: number_at(b"weight", 1, 1, 1_000, pairs) as u16,
        max_connections: number_at(b"max_connections", 100, 1, 10_000, pairs) as u16,
        status: status_at(b"status", pairs),
    }
}

fn has_server_key(pairs: &[Pair]) -> bool
    ensures { result ≡ has_server_key pairs.now }
{
    has_value(b"hostgroup_id", pairs) && has_value(b"hostname", pairs) && has_value(b"port", pairs)
}

/// The server that the values of columns make.
pub(crate) fn read_server(pairs: &[Pair], patterned: bool) -> Result<ServerRow, Fault>
    ensures said { Gives result (server_said patterned pairs.now) }
    ensures weight { IfOk result (λ row. 1 ≤ row.weight) }
{
    if !are_columns(StagedTable::Servers, patterned, pairs) || !has_server_key(pairs) {
        return Err(Fault::Refused);
    }
    Ok(server_from(pairs))
}

fn hostgroup_of(number: Option<u16>) -> Option<Hostgroup>
    ensures { result ≡ hostgroup_of number }
{
    match number {
        Some(number) => Some(Hostgroup(number)),
        None => None,
    }
}

fn rule_from(alloc: Global, pairs: &[Pair]) -> Result<RuleRow, OutOfMemory>
    ensures { IfOk result (λ row. row ≡ rule_from pairs.now) }
{
    let username = read_text_at(alloc, b"username", pairs)?;
    let schemaname = read_text_at(alloc, b"schemaname", pairs)?;
    let match_digest = read_text_at(alloc, b"match_digest", pairs)?;
    let match_pattern = read_text_at(alloc, b"match_pattern", pairs)?;
    let replace_pattern = read_text_at(alloc, b"replace_pattern", pairs)?;
    let error_msg = read_text_at(alloc, b"error_msg", pairs)?;
    let ok_msg = read_text_at(alloc, b"OK_msg", pairs)?;
    Ok(RuleRow {
        rule_id: number_at(b"rule_id", 1, 1, 4_294_967_295, pairs) as u32,
        active: switch_at(b"active", pairs).unwrap_or(true),
        username,
        schemaname,
        flagIN: number_at(b"flagIN", 0, 0, 65_535, pairs) as u16,
        digest: digest_at(b"digest", pairs),
        match_digest,
        match_pattern,
        negate_match_pattern: switch_at(b"negate_match_pattern", pairs).unwrap_or(false),
        flagOUT: small_at(b"flagOUT", pairs),
        replace_pattern,
        destination_hostgroup: hostgroup_of(small_at(b"destination_hostgroup", pairs)),
        next_query_flagIN: small_at(b"next_query_flagIN", pairs),
        multiplex: switch_at(b"multiplex", pairs),
        error_msg,
        OK_msg: ok_msg,
        apply: switch_at(b"apply", pairs).unwrap_or(false),
    })
}

fn if_replaces(row: RuleRow) -> Result<RuleRow, Fault>
    ensures { Gives result (if_replaces row) }
{
    if row.replaces_nothing() {
        return Err(Fault::Refused);
    }
    Ok(row)
}

/// The rule that the values of columns make.
pub(crate) fn read_rule(alloc: Global, pairs: &[Pair], patterned: bool) -> Result<RuleRow, Fault>
    ensures { Gives result (rule_said patterned pairs.now) }
{
    if !are_columns(StagedTable::Rules, patterned, pairs) || !has_value(b"rule_id", pairs) {
        return Err(Fault::Refused);
    }
    let row = rule_from(alloc, pairs)?;
    if_replaces(row)
}
