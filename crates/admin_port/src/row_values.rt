// The values of rows, in the order of the columns.
ghost use Rattle.std.specs.Prelude.{◌≡◌, [], ◌∷◌, ◌++◌, IfOk, OnOk, decimal};
ghost use Rattle.admin_port.specs.RowValues.{answer_pairs, asker_pairs, effect_pairs, hash_text, hash_value, host_text, hostgroup_value, match_pairs, named, number_value, optional_switch, route_pairs, rule_pairs, server_pairs, small_value, start_pairs, status_text, switch_value, text_pairs, text_value};

use crate::pair::Pair;
use crate::value::Value;
use hostgroups::{ServerRow, ServerStatus};
use itoa::Buffer;
use mx_base::{Bytes, Hostgroup, OutOfMemory};
use query_rules::RuleRow;
use std::alloc::Global;

/// The columns of servers.
pub(crate) const SERVER_COLUMNS: [&[u8]; 6] = [
    b"hostgroup_id",
    b"hostname",
    b"port",
    b"status",
    b"weight",
    b"max_connections",
];

/// The columns of rules.
pub(crate) const RULE_COLUMNS: [&[u8]; 17] = [
    b"rule_id",
    b"active",
    b"apply",
    b"negate_match_pattern",
    b"username",
    b"schemaname",
    b"flagIN",
    b"digest",
    b"match_digest",
    b"match_pattern",
    b"flagOUT",
    b"next_query_flagIN",
    b"replace_pattern",
    b"destination_hostgroup",
    b"multiplex",
    b"error_msg",
    b"OK_msg",
];

/// A number in decimal digits.
pub(crate) fn decimal_text(alloc: Global, n: u64) -> Result<Bytes, OutOfMemory>
    ensures { IfOk result (λ text. text ≡ decimal n) }
{
    let mut buffer = Buffer::new();
    Bytes::from_slice(alloc, buffer.format(n).as_bytes())
}

fn number_value(alloc: Global, n: u64) -> Result<Value, OutOfMemory>
    ensures { IfOk result (λ value. value ≡ number_value n) }
{
    Ok(Value::Number(decimal_text(alloc, n)?))
}

fn small_value(alloc: Global, n: Option<u16>) -> Result<Value, OutOfMemory>
    ensures { IfOk result (λ value. value ≡ small_value n) }
{
    match n {
        Some(n) => number_value(alloc, u64::from(n)),
        None => Ok(Value::Null),
    }
}

fn hostgroup_value(alloc: Global, hostgroup: Option<Hostgroup>) -> Result<Value, OutOfMemory>
    ensures { IfOk result (λ value. value ≡ hostgroup_value hostgroup) }
{
    match hostgroup {
        Some(hostgroup) => number_value(alloc, u64::from(hostgroup.0)),
        None => Ok(Value::Null),
    }
}

fn switch_value(alloc: Global, yes: bool) -> Result<Value, OutOfMemory>
    ensures { IfOk result (λ value. value ≡ switch_value yes) }
{
    let digits: &[u8] = if yes { b"1" } else { b"0" };
    Ok(Value::Number(Bytes::from_slice(alloc, digits)?))
}

fn optional_switch(alloc: Global, yes: Option<bool>) -> Result<Value, OutOfMemory>
    ensures { IfOk result (λ value. value ≡ optional_switch yes) }
{
    match yes {
        Some(yes) => switch_value(alloc, yes),
        None => Ok(Value::Null),
    }
}

fn text_value(alloc: Global, text: &Option<Bytes>) -> Result<Value, OutOfMemory>
    ensures { IfOk result (λ value. value ≡ text_value text.now) }
{
    match text {
        Some(text) => Ok(Value::Text(Bytes::from_slice(alloc, text.as_slice())?)),
        None => Ok(Value::Null),
    }
}

/// A hash as 16 hexadecimal digits in upper case.
pub(crate) fn hash_text(alloc: Global, hash: u64) -> Result<Bytes, OutOfMemory>
    ensures { IfOk result (λ text. text ≡ hash_text hash) }
{
    let text = hex::encode_upper(alloc, hash.to_be_bytes())?;
    Bytes::from_slice(alloc, text.as_bytes())
}

fn hash_value(alloc: Global, hash: Option<u64>) -> Result<Value, OutOfMemory>
    ensures { IfOk result (λ value. value ≡ hash_value hash) }
{
    match hash {
        Some(hash) => Ok(Value::Text(hash_text(alloc, hash)?)),
        None => Ok(Value::Null),
    }
}

/// A host as `a.b.c.d`.
pub(crate) fn host_text(alloc: Global, ip: [u8; 4]) -> Result<Bytes, OutOfMemory>
    ensures { IfOk result (λ text. text ≡ host_text ip) }
{
    let [a, b, c, d] = ip;
    let mut text = decimal_text(alloc, u64::from(a))?;
    text.append(b".")?;
    text.append(decimal_text(alloc, u64::from(b))?.as_slice())?;
    text.append(b".")?;
    text.append(decimal_text(alloc, u64::from(c))?.as_slice())?;
    text.append(b".")?;
    text.append(decimal_text(alloc, u64::from(d))?.as_slice())?;
    Ok(text)
}

/// A status as it is shown.
pub(crate) fn status_text(status: ServerStatus) -> &'static [u8]
    ensures { result.now ≡ status_text status }
{
    match status {
        ServerStatus::Online => b"ONLINE",
        ServerStatus::Shunned { .. } => b"SHUNNED",
        ServerStatus::OfflineSoft => b"OFFLINE_SOFT",
        ServerStatus::OfflineHard => b"OFFLINE_HARD",
    }
}

// Appends a column and its value.
fn put(alloc: Global, pairs: &mut Vec<Pair>, column: &[u8], value: Value) -> Result<(), OutOfMemory>
    ensures { OnOk result (pairs.new.items ≡ pairs.old.items ++ named column.now value ∷ []) }
{
    let column = Bytes::from_slice(alloc, column)?;
    pairs.push(Pair { column, value })?;
    Ok(())
}

/// A server's row, column by column.
pub(crate) fn server_pairs(alloc: Global, row: &ServerRow) -> Result<Vec<Pair>, OutOfMemory>
    ensures { IfOk result (λ pairs. pairs.items ≡ server_pairs row.now) }
{
    let mut pairs = Vec::new(alloc);
    let hostgroup = number_value(alloc, u64::from(row.hostgroup.0))?;
    put(alloc, &mut pairs, b"hostgroup_id", hostgroup)?;
    let host = host_text(alloc, row.address.ip)?;
    put(alloc, &mut pairs, b"hostname", Value::Text(host))?;
    let port = number_value(alloc, u64::from(row.address.port))?;
    put(alloc, &mut pairs, b"port", port)?;
    let status = Bytes::from_slice(alloc, status_text(row.status))?;
    put(alloc, &mut pairs, b"status", Value::Text(status))?;
    let weight = number_value(alloc, u64::from(row.weight))?;
    put(alloc, &mut pairs, b"weight", weight)?;
    let connections = number_value(alloc, u64::from(row.max_connections))?;
    put(alloc, &mut pairs, b"max_connections", connections)?;
    Ok(pairs)
}

// Which rule it is, and how it is used.
fn put_start(alloc: Global, pairs: &mut Vec<Pair>, row: &RuleRow) -> Result<(), OutOfMemory>
    ensures { OnOk result (pairs.new.items ≡ pairs.old.items ++ start_pairs row.now) }
{
    let id = number_value(alloc, u64::from(row.rule_id))?;
    put(alloc, pairs, b"rule_id", id)?;
    let active = switch_value(alloc, row.active)?;
    put(alloc, pairs, b"active", active)?;
    let apply = switch_value(alloc, row.apply)?;
    put(alloc, pairs, b"apply", apply)?;
    let negate = switch_value(alloc, row.negate_match_pattern)?;
    put(alloc, pairs, b"negate_match_pattern", negate)
}

// When it is tried.
fn put_asker(alloc: Global, pairs: &mut Vec<Pair>, row: &RuleRow) -> Result<(), OutOfMemory>
    ensures { OnOk result (pairs.new.items ≡ pairs.old.items ++ asker_pairs row.now) }
{
    let username = text_value(alloc, &row.username)?;
    put(alloc, pairs, b"username", username)?;
    let schemaname = text_value(alloc, &row.schemaname)?;
    put(alloc, pairs, b"schemaname", schemaname)?;
    let flag = number_value(alloc, u64::from(row.flagIN))?;
    put(alloc, pairs, b"flagIN", flag)
}

// The texts that it is for.
fn put_texts(alloc: Global, pairs: &mut Vec<Pair>, row: &RuleRow) -> Result<(), OutOfMemory>
    ensures { OnOk result (pairs.new.items ≡ pairs.old.items ++ text_pairs row.now) }
{
    let digest = hash_value(alloc, row.digest)?;
    put(alloc, pairs, b"digest", digest)?;
    let match_digest = text_value(alloc, &row.match_digest)?;
    put(alloc, pairs, b"match_digest", match_digest)?;
    let match_pattern = text_value(alloc, &row.match_pattern)?;
    put(alloc, pairs, b"match_pattern", match_pattern)
}

fn put_match(alloc: Global, pairs: &mut Vec<Pair>, row: &RuleRow) -> Result<(), OutOfMemory>
    ensures { OnOk result (pairs.new.items ≡ pairs.old.items ++ match_pairs row.now) }
{
    put_asker(alloc, pairs, row)?;
    put_texts(alloc, pairs, row)
}

// What becomes of a statement.
fn put_route(alloc: Global, pairs: &mut Vec<Pair>, row: &RuleRow) -> Result<(), OutOfMemory>
    ensures { OnOk result (pairs.new.items ≡ pairs.old.items ++ route_pairs row.now) }
{
    let out = small_value(alloc, row.flagOUT)?;
    put(alloc, pairs, b"flagOUT", out)?;
    let next = small_value(alloc, row.next_query_flagIN)?;
    put(alloc, pairs, b"next_query_flagIN", next)?;
    let template = text_value(alloc, &row.replace_pattern)?;
    put(alloc, pairs, b"replace_pattern", template)?;
    let destination = hostgroup_value(alloc, row.destination_hostgroup)?;
    put(alloc, pairs, b"destination_hostgroup", destination)
}

// Whether its connection is kept, and what is answered in place of a server.
fn put_answers(alloc: Global, pairs: &mut Vec<Pair>, row: &RuleRow) -> Result<(), OutOfMemory>
    ensures { OnOk result (pairs.new.items ≡ pairs.old.items ++ answer_pairs row.now) }
{
    let multiplex = optional_switch(alloc, row.multiplex)?;
    put(alloc, pairs, b"multiplex", multiplex)?;
    let error = text_value(alloc, &row.error_msg)?;
    put(alloc, pairs, b"error_msg", error)?;
    let ok = text_value(alloc, &row.OK_msg)?;
    put(alloc, pairs, b"OK_msg", ok)
}

fn put_effects(alloc: Global, pairs: &mut Vec<Pair>, row: &RuleRow) -> Result<(), OutOfMemory>
    ensures { OnOk result (pairs.new.items ≡ pairs.old.items ++ effect_pairs row.now) }
{
    put_route(alloc, pairs, row)?;
    put_answers(alloc, pairs, row)
}

/// A rule's row, column by column.
pub(crate) fn rule_pairs(alloc: Global, row: &RuleRow) -> Result<Vec<Pair>, OutOfMemory>
    ensures { IfOk result (λ pairs. pairs.items ≡ rule_pairs row.now) }
{
    let mut pairs = Vec::new(alloc);
    put_start(alloc, &mut pairs, row)?;
    put_match(alloc, &mut pairs, row)?;
    put_effects(alloc, &mut pairs, row)?;
    Ok(pairs)
}

fn copy_value(alloc: Global, value: &Value) -> Result<Value, OutOfMemory>
    ensures { IfOk result (λ copy. copy ≡ value.now) }
{
    match value {
        Value::Number(digits) => Ok(Value::Number(Bytes::from_slice(alloc, digits.as_slice())?)),
        Value::Text(text) => Ok(Value::Text(Bytes::from_slice(alloc, text.as_slice())?)),
        Value::Null => Ok(Value::Null),
    }
}

/// Appends copies of these pairs.
pub(crate) fn put_copies(
    alloc: Global,
    all: &mut Vec<Pair>,
    pairs: &[Pair],
) -> Result<(), OutOfMemory>
    ensures { OnOk result (all.new.items ≡ all.old.items ++ pairs.now) }
{
    for pair in pairs {
        let value = copy_value(alloc, &pair.value)?;
        put(alloc, all, pair.column.as_slice(), value)?;
    }
    Ok(())
}
