// Reading a statement.
ghost use Rattle.std.specs.Prelude.{◌≡◌, option_map, option_copied};
ghost use Rattle.admin_port.specs.Faults.{Gives};
ghost use Rattle.admin_port.specs.declared.statement.StagedTable.TheVariants.{Rules, Servers};
ghost use Rattle.admin_port.specs.Statements.{alone, by_first, condition_of, delete_key, delete_of, insert_of, key_in, key_of, like_of, load_of, number_in, other_of, pattern_of, picked_of, query_of, select_of, server_key, show_of, statement_of, text_in, update_of};

use crate::Fault;
use crate::pair::{Pair, read_assigned, read_names, read_pairs, read_zipped};
use crate::parts::{insert_parts, is_habit, query_parts, staged_first, update_parts};
use crate::statement::{Action, Change, Key, Picked, Query, ServerKey, StagedTable, Statement};
use crate::value::{Value, read_value};
use crate::words::{behind, first_token, is_phrase, reads, statement_tokens};
use mx_base::{Bytes, Items, read_number};
use sql_tokens::{Token, same_text};
use std::alloc::Global;

fn read_picked(alloc: Global, text: &[u8], tokens: &[Token]) -> Result<Picked, Fault>
    ensures { Gives result (picked_of text.now tokens.now) }
{
    if is_phrase(text, tokens, &[b"*"]) {
        return Ok(Picked::All);
    }
    if is_phrase(text, tokens, &[b"COUNT", b"(", b"*", b")"]) {
        return Ok(Picked::Count);
    }
    let names = read_names(alloc, text, tokens)?;
    Ok(Picked::Columns(names))
}

fn read_alone(alloc: Global, text: &[u8], tokens: &[Token]) -> Result<Pair, Fault>
    ensures { Gives result (alone text.now tokens.now) }
{
    let Some((column, behind)) = first_token(tokens) else {
        return Err(Fault::Refused);
    };
    let Some((equals, behind)) = first_token(behind) else {
        return Err(Fault::Refused);
    };
    let Some((value, behind)) = first_token(behind) else {
        return Err(Fault::Refused);
    };
    if first_token(behind).is_some() {
        return Err(Fault::Refused);
    }
    read_assigned(alloc, text, &column, &equals, &value)
}

fn read_condition(alloc: Global, text: &[u8], tokens: &[Token]) -> Result<Option<Pair>, Fault>
    ensures { Gives result (condition_of text.now tokens.now) }
{
    let Some((word, rest)) = first_token(tokens) else {
        return Ok(None);
    };
    if !reads(text, &word, b"WHERE") {
        return Err(Fault::Refused);
    }
    let pair = read_alone(alloc, text, rest)?;
    Ok(Some(pair))
}

#[tactic(auto, using(crate::proofs::Steps::steps))]
fn read_query(alloc: Global, text: &[u8], tokens: &[Token]) -> Result<Statement, Fault>
    ensures { Gives result (query_of text.now tokens.now) }
{
    let Some(parts) = query_parts(text, tokens) else {
        return Err(Fault::Refused);
    };
    let picked = read_picked(alloc, text, parts.picked)?;
    let condition = read_condition(alloc, text, parts.condition)?;
    Ok(Statement::Select(Query {
        table: parts.table,
        picked,
        condition,
        limit: parts.limit,
    }))
}

fn read_select(alloc: Global, text: &[u8], tokens: &[Token]) -> Result<Statement, Fault>
    ensures { Gives result (select_of text.now tokens.now) }
{
    if is_phrase(text, tokens, &[b"@@version_comment", b"LIMIT", b"1"]) {
        return Ok(Statement::VersionComment);
    }
    read_query(alloc, text, tokens)
}

#[tactic(auto, using(crate::proofs::Steps::steps))]
fn read_insert(alloc: Global, text: &[u8], tokens: &[Token]) -> Result<Statement, Fault>
    ensures { Gives result (insert_of text.now tokens.now) }
{
    let Some(parts) = insert_parts(text, tokens) else {
        return Err(Fault::Refused);
    };
    let pairs = read_zipped(alloc, text, parts.columns, parts.values)?;
    Ok(Statement::Stage(
        Action::Insert,
        Change {
            table: parts.table,
            pairs,
            key: Key::All,
        },
    ))
}

fn number_in(value: &Value) -> Option<u64>
    ensures { result ≡ number_in value.now }
{
    match value {
        Value::Number(digits) => read_number(digits.as_slice()),
        _ => None,
    }
}

fn text_in(value: &Value) -> Option<&[u8]>
    ensures { option_copied result ≡ text_in value.now }
{
    match value {
        Value::Text(text) => Some(text.as_slice()),
        _ => None,
    }
}

fn server_key(alloc: Global, hostgroup: &Value, host: &Value, port: &Value) -> Result<Key, Fault>
    ensures { Gives result (server_key hostgroup.now host.now port.now) }
{
    let Some(hostgroup) = number_in(hostgroup) else {
        return Err(Fault::Refused);
    };
    let Some(host) = text_in(host) else {
        return Err(Fault::Refused);
    };
    let Some(port) = number_in(port) else {
        return Err(Fault::Refused);
    };
    Ok(Key::Server(ServerKey {
        hostgroup,
        host: Bytes::from_slice(alloc, host)?,
        port,
    }))
}

fn rule_key(id: &Value) -> Result<Key, Fault>
    ensures { Gives result (option_map (λ n. Key.Rule n) (number_in id.now)) }
{
    match number_in(id) {
        Some(id) => Ok(Key::Rule(id)),
        None => Err(Fault::Refused),
    }
}

// The key of a rule, which these columns are.
#[tactic(auto, using(crate::proofs::Keyed::rule_missing, crate::proofs::Keyed::rule_many, crate::proofs::Keyed::rule_other))]
fn rule_key_in(pairs: &[Pair]) -> Result<Key, Fault>
    ensures { Gives result (key_in Rules pairs.now) }
{
    let [id] = pairs else {
        return Err(Fault::Refused);
    };
    if !same_text(id.column.as_slice(), b"rule_id") {
        return Err(Fault::Refused);
    }
    rule_key(&id.value)
}

// The key of a server, which these columns are.
#[tactic(auto, using(crate::proofs::Keyed::server_few, crate::proofs::Keyed::server_many, crate::proofs::Keyed::server_other))]
fn server_key_in(alloc: Global, pairs: &[Pair]) -> Result<Key, Fault>
    ensures { Gives result (key_in Servers pairs.now) }
{
    let [hostgroup, host, port] = pairs else {
        return Err(Fault::Refused);
    };
    let named = same_text(hostgroup.column.as_slice(), b"hostgroup_id")
        && same_text(host.column.as_slice(), b"hostname")
        && same_text(port.column.as_slice(), b"port");
    if !named {
        return Err(Fault::Refused);
    }
    server_key(alloc, &hostgroup.value, &host.value, &port.value)
}

// The key that these columns are.
fn key_in(alloc: Global, table: StagedTable, pairs: &[Pair]) -> Result<Key, Fault>
    ensures { Gives result (key_in table pairs.now) }
{
    match table {
        StagedTable::Rules => rule_key_in(pairs),
        StagedTable::Servers => server_key_in(alloc, pairs),
    }
}

#[tactic(auto, using(crate::proofs::Steps::steps))]
fn read_key(alloc: Global, text: &[u8], table: StagedTable, tokens: &[Token]) -> Result<Key, Fault>
    ensures { Gives result (key_of text.now table tokens.now) }
{
    let pairs = read_pairs(alloc, text, tokens, b"AND")?;
    key_in(alloc, table, pairs.as_slice())
}

#[tactic(auto, using(crate::proofs::Steps::steps))]
fn read_update(alloc: Global, text: &[u8], tokens: &[Token]) -> Result<Statement, Fault>
    ensures { Gives result (update_of text.now tokens.now) }
{
    let Some(parts) = update_parts(text, tokens) else {
        return Err(Fault::Refused);
    };
    let pairs = read_pairs(alloc, text, parts.assignments, b",")?;
    let key = read_key(alloc, text, parts.table, parts.key)?;
    Ok(Statement::Stage(
        Action::Update,
        Change {
            table: parts.table,
            pairs,
            key,
        },
    ))
}

fn delete_key(
    alloc: Global,
    text: &[u8],
    table: StagedTable,
    tokens: &[Token],
) -> Result<Key, Fault>
    ensures { Gives result (delete_key text.now table tokens.now) }
{
    let Some((word, rest)) = first_token(tokens) else {
        return Ok(Key::All);
    };
    if !reads(text, &word, b"WHERE") {
        return Err(Fault::Refused);
    }
    read_key(alloc, text, table, rest)
}

#[tactic(auto, using(crate::proofs::Steps::steps))]
fn read_delete(alloc: Global, text: &[u8], tokens: &[Token]) -> Result<Statement, Fault>
    ensures { Gives result (delete_of text.now tokens.now) }
{
    let Some(from) = behind(text, tokens, &[b"FROM"]) else {
        return Err(Fault::Refused);
    };
    let Some((table, rest)) = staged_first(text, from) else {
        return Err(Fault::Refused);
    };
    let key = delete_key(alloc, text, table, rest)?;
    Ok(Statement::Stage(
        Action::Delete,
        Change {
            table,
            pairs: Items::new(alloc),
            key,
        },
    ))
}

fn read_load(text: &[u8], tokens: &[Token]) -> Result<Statement, Fault>
    ensures { Gives result (load_of text.now tokens.now) }
{
    if is_phrase(
        text,
        tokens,
        &[b"MYSQL", b"QUERY", b"RULES", b"TO", b"RUNTIME"],
    ) {
        return Ok(Statement::Load(StagedTable::Rules));
    }
    if is_phrase(text, tokens, &[b"MYSQL", b"SERVERS", b"TO", b"RUNTIME"]) {
        return Ok(Statement::Load(StagedTable::Servers));
    }
    Err(Fault::Refused)
}

fn read_pattern(alloc: Global, text: &[u8], tokens: &[Token]) -> Result<Statement, Fault>
    ensures { Gives result (pattern_of text.now tokens.now) }
{
    let Some((pattern, rest)) = first_token(tokens) else {
        return Err(Fault::Refused);
    };
    if !rest.is_empty() {
        return Err(Fault::Refused);
    }
    match read_value(alloc, text, &pattern)? {
        Value::Text(pattern) => Ok(Statement::ShowVariables(Some(pattern))),
        _ => Err(Fault::Refused),
    }
}

#[tactic(auto, using(crate::proofs::Steps::steps))]
fn read_like(alloc: Global, text: &[u8], tokens: &[Token]) -> Result<Statement, Fault>
    ensures { Gives result (like_of text.now tokens.now) }
{
    let Some(rest) = behind(text, tokens, &[b"VARIABLES", b"LIKE"]) else {
        return Err(Fault::Refused);
    };
    read_pattern(alloc, text, rest)
}

fn read_show(alloc: Global, text: &[u8], tokens: &[Token]) -> Result<Statement, Fault>
    ensures { Gives result (show_of text.now tokens.now) }
{
    if is_phrase(text, tokens, &[b"TABLES"]) {
        return Ok(Statement::ShowTables);
    }
    if is_phrase(text, tokens, &[b"VARIABLES"]) {
        return Ok(Statement::ShowVariables(None));
    }
    read_like(alloc, text, tokens)
}

fn read_other(text: &[u8], tokens: &[Token]) -> Result<Statement, Fault>
    ensures { Gives result (other_of text.now tokens.now) }
{
    if is_phrase(text, tokens, &[b"PROXYSQL", b"SHUTDOWN"]) {
        return Ok(Statement::Shutdown);
    }
    if is_habit(text, tokens) {
        return Ok(Statement::Accepted);
    }
    Err(Fault::Refused)
}

fn read_tokens(alloc: Global, text: &[u8], tokens: &[Token]) -> Result<Statement, Fault>
    ensures { Gives result (by_first text.now tokens.now) }
{
    let Some((first, rest)) = first_token(tokens) else {
        return Err(Fault::Refused);
    };
    if reads(text, &first, b"SELECT") {
        return read_select(alloc, text, rest);
    }
    if reads(text, &first, b"INSERT") {
        return read_insert(alloc, text, rest);
    }
    if reads(text, &first, b"UPDATE") {
        return read_update(alloc, text, rest);
    }
    if reads(text, &first, b"DELETE") {
        return read_delete(alloc, text, rest);
    }
    if reads(text, &first, b"LOAD") {
        return read_load(text, rest);
    }
    if reads(text, &first, b"SHOW") {
        return read_show(alloc, text, rest);
    }
    read_other(text, tokens)
}

/// The statement that a text is. Refused exactly where it is none. Takes time in proportion to the text.
pub fn read_statement(alloc: Global, text: &[u8]) -> Result<Statement, Fault>
    ensures { Gives result (statement_of text.now) }
{
    let tokens = statement_tokens(alloc, text)?;
    read_tokens(alloc, text, &tokens)
}
