// The parts of a statement, by its tokens.
ghost use Rattle.std.specs.Prelude.{◌≡◌, option_map, option_copied, map};
ghost use Rattle.admin_port.specs.Statements.{before_bracket, begins, insert_parts, is_habit, limit_of, number_alone, query_parts, shown_first, shown_named, staged_first, staged_named, update_parts};

use crate::statement::{ShownTable, StagedTable};
use crate::words::{behind, cut, first_token, is_phrase};
use mx_base::read_number;
use sql_tokens::{Token, bytes_of, same_text};

/// The parts of a SELECT of a table.
#[derive(Clone, Copy)]
pub(crate) struct ReadQuery<'a> {
    pub picked: &'a [Token],
    pub table: ShownTable,
    pub condition: &'a [Token],
    pub limit: Option<u64>,
}

/// The parts of an INSERT.
#[derive(Clone, Copy)]
pub(crate) struct ReadInsert<'a> {
    pub table: StagedTable,
    pub columns: &'a [Token],
    pub values: &'a [Token],
}

/// The parts of an UPDATE.
#[derive(Clone, Copy)]
pub(crate) struct ReadUpdate<'a> {
    pub table: StagedTable,
    pub assignments: &'a [Token],
    pub key: &'a [Token],
}

fn staged_named(name: &[u8]) -> Option<StagedTable>
    ensures { result ≡ staged_named name.now }
{
    if same_text(name, b"mysql_servers") {
        Some(StagedTable::Servers)
    } else if same_text(name, b"mysql_query_rules") {
        Some(StagedTable::Rules)
    } else {
        None
    }
}

fn shown_named(name: &[u8]) -> Option<ShownTable>
    ensures { result ≡ shown_named name.now }
{
    if same_text(name, b"mysql_servers") {
        Some(ShownTable::Servers)
    } else if same_text(name, b"runtime_mysql_servers") {
        Some(ShownTable::RuntimeServers)
    } else if same_text(name, b"mysql_query_rules") {
        Some(ShownTable::Rules)
    } else if same_text(name, b"runtime_mysql_query_rules") {
        Some(ShownTable::RuntimeRules)
    } else if same_text(name, b"stats_mysql_query_digest") {
        Some(ShownTable::Digests)
    } else if same_text(name, b"stats_mysql_connection_pool") {
        Some(ShownTable::Pool)
    } else if same_text(name, b"stats_mysql_processlist") {
        Some(ShownTable::Processes)
    } else if same_text(name, b"stats_mysql_global") {
        Some(ShownTable::Totals)
    } else if same_text(name, b"stats_mysql_events") {
        Some(ShownTable::Events)
    } else {
        None
    }
}

/// The staged table that stands first, and what stands behind it.
pub(crate) fn staged_first<'a>(
    text: &[u8],
    tokens: &'a [Token],
) -> Option<(StagedTable, &'a [Token])>
    ensures { option_map (λ found. (found.0, found.1.now)) result ≡ staged_first text.now tokens.now }
{
    let (name, rest) = first_token(tokens)?;
    let table = staged_named(bytes_of(text, &name))?;
    Some((table, rest))
}

fn shown_first<'a>(text: &[u8], tokens: &'a [Token]) -> Option<(ShownTable, &'a [Token])>
    ensures { option_map (λ found. (found.0, found.1.now)) result ≡ shown_first text.now tokens.now }
{
    let (name, rest) = first_token(tokens)?;
    let table = shown_named(bytes_of(text, &name))?;
    Some((table, rest))
}

fn number_alone(text: &[u8], tokens: &[Token]) -> Option<u64>
    ensures { result ≡ number_alone text.now tokens.now }
{
    let (token, rest) = first_token(tokens)?;
    if rest.is_empty() {
        read_number(bytes_of(text, &token))
    } else {
        None
    }
}

// What stands before LIMIT, and its number.
fn limit_of<'a>(text: &[u8], tokens: &'a [Token]) -> Option<(&'a [Token], Option<u64>)>
    ensures { option_map (λ found. (found.0.now, found.1)) result ≡ limit_of text.now tokens.now }
{
    match cut(text, tokens, b"LIMIT") {
        Some((before, after)) => {
            let limit = number_alone(text, after)?;
            Some((before, Some(limit)))
        }
        None => Some((tokens, None)),
    }
}

/// The parts of a SELECT of a table, behind its first word.
pub(crate) fn query_parts<'a>(text: &[u8], tokens: &'a [Token]) -> Option<ReadQuery<'a>>
    ensures { option_map (λ parts. record { picked = parts.picked.now; table = parts.table; condition = parts.condition.now; limit = parts.limit }) result ≡ query_parts text.now tokens.now }
{
    let (picked, from) = cut(text, tokens, b"FROM")?;
    let (table, rest) = shown_first(text, from)?;
    let (condition, limit) = limit_of(text, rest)?;
    Some(ReadQuery {
        picked,
        table,
        condition,
        limit,
    })
}

// What stands before the `)` that ends the statement.
fn before_bracket<'a>(text: &[u8], tokens: &'a [Token]) -> Option<&'a [Token]>
    ensures { option_copied result ≡ before_bracket text.now tokens.now }
{
    let (before, after) = cut(text, tokens, b")")?;
    if after.is_empty() { Some(before) } else { None }
}

/// The parts of an INSERT, behind its first word.
pub(crate) fn insert_parts<'a>(text: &[u8], tokens: &'a [Token]) -> Option<ReadInsert<'a>>
    ensures { option_map (λ parts. record { table = parts.table; columns = parts.columns.now; values = parts.values.now }) result ≡ insert_parts text.now tokens.now }
{
    let into = behind(text, tokens, &[b"INTO"])?;
    let (table, rest) = staged_first(text, into)?;
    let open = behind(text, rest, &[b"("])?;
    let (columns, rest) = cut(text, open, b")")?;
    let rest = behind(text, rest, &[b"VALUES", b"("])?;
    let values = before_bracket(text, rest)?;
    Some(ReadInsert {
        table,
        columns,
        values,
    })
}

/// The parts of an UPDATE, behind its first word.
pub(crate) fn update_parts<'a>(text: &[u8], tokens: &'a [Token]) -> Option<ReadUpdate<'a>>
    ensures { option_map (λ parts. record { table = parts.table; assignments = parts.assignments.now; key = parts.key.now }) result ≡ update_parts text.now tokens.now }
{
    let (table, rest) = staged_first(text, tokens)?;
    let set = behind(text, rest, &[b"SET"])?;
    let (assignments, key) = cut(text, set, b"WHERE")?;
    Some(ReadUpdate {
        table,
        assignments,
        key,
    })
}

fn begins(text: &[u8], tokens: &[Token], words: &[&[u8]]) -> bool
    ensures { result ≡ begins text.now tokens.now (map (λ w. w.now) words.now) }
{
    behind(text, tokens, words).is_some()
}

/// Whether the statement is one that clients send of habit, and that changes nothing here.
pub(crate) fn is_habit(text: &[u8], tokens: &[Token]) -> bool
    ensures { result ≡ is_habit text.now tokens.now }
{
    is_phrase(text, tokens, &[b"BEGIN"])
        || is_phrase(text, tokens, &[b"COMMIT"])
        || is_phrase(text, tokens, &[b"ROLLBACK"])
        || is_phrase(text, tokens, &[b"START", b"TRANSACTION"])
        || begins(text, tokens, &[b"SET", b"NAMES"])
        || begins(text, tokens, &[b"SET", b"AUTOCOMMIT"])
        || begins(text, tokens, &[b"SET", b"character_set_results"])
        || begins(text, tokens, &[b"SET", b"SQL_AUTO_IS_NULL"])
}
