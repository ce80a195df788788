// What a statement is answered.
ghost use Rattle.std.specs.Prelude.{◌≡◌, ◌∷◌, [], map, filter, length, nat_eq, IfOk, OnErr};
ghost use Rattle.admin_port.specs.Answers.{HasWholeTable, answered_by, begun, code_of, done_or, is_quick, like, one_column, refusal_for, reply_of, rows_or, text_of, unknown, variables, variables_sheet, IsAnswered, IsAnsweredBy, Refused};
ghost use Rattle.admin_port.specs.Selecting.{selected};
ghost use Rattle.admin_port.specs.Sheets.{GivesSheet, named_cells, sheet_of, shown};
ghost use Rattle.admin_port.specs.Staged.{changed};

use crate::patterns::are_patterned;
use crate::running::{NamedRow, Running};
use crate::select::selected;
use crate::sheet::{Cells, Listed, NAMED_COLUMNS, columns_of, shown, table_of};
use crate::statement::{Action, Change, Query, StagedTable, Statement};
use crate::words::{first_token, statement_tokens};
use crate::{Fault, Staged, read_statement};
use mx_base::{Bytes, OutOfMemory};
use reply_text::Table;
use sql_tokens::{Token, bytes_of, is_one_of};
use std::alloc::Global;

/// Why a statement is refused.
#[derive(Drop)]
pub enum Refusal {
    /// It is none that is answered; with its first word, where statements here begin with it.
    Unknown(Option<Bytes>),
    /// The rule can't be staged, or isn't there.
    Rule,
    /// The server can't be staged, or isn't there.
    Server,
}

/// What a statement is answered.
#[derive(Drop)]
pub enum Answer {
    /// OK.
    Done,
    Rows(Table),
    Refused(Refusal),
    /// OK, once the staged rows of a table are in force.
    Load(StagedTable),
    /// OK, and the router ends.
    Shutdown,
}

/// The words that statements here begin with.
const FIRST_WORDS: [&[u8]; 9] = [
    b"SELECT",
    b"INSERT",
    b"UPDATE",
    b"DELETE",
    b"LOAD",
    b"SAVE",
    b"SHOW",
    b"SET",
    b"PROXYSQL",
];

const TABLE_NAMES: [&[u8]; 9] = [
    b"mysql_query_rules",
    b"mysql_servers",
    b"runtime_mysql_query_rules",
    b"runtime_mysql_servers",
    b"stats_mysql_connection_pool",
    b"stats_mysql_events",
    b"stats_mysql_global",
    b"stats_mysql_processlist",
    b"stats_mysql_query_digest",
];

/// How many `%` a pattern may have.
const MOST_WILD: usize = 4;

impl Refusal {
    /// The code of its error.
    pub fn code(&self) -> u16
        ensures { result ≡ code_of self.now }
    {
        match self {
            Refusal::Unknown(_) => 9120,
            Refusal::Rule => 9121,
            Refusal::Server => 9122,
        }
    }

    /// The text of its error.
    pub fn text(&self, alloc: Global) -> Result<Bytes, OutOfMemory>
        ensures { IfOk result (λ text. text ≡ text_of self.now) }
    {
        match self {
            Refusal::Unknown(None) => Bytes::from_slice(alloc, b"Unknown admin statement"),
            Refusal::Unknown(Some(word)) => {
                let mut text = Bytes::from_slice(
                    alloc,
                    b"Unknown admin statement: docs/ADMIN.md has the forms of ",
                )?;
                text.append(word.as_slice())?;
                Ok(text)
            }
            Refusal::Rule => Bytes::from_slice(alloc, b"Rule refused"),
            Refusal::Server => Bytes::from_slice(alloc, b"Server refused"),
        }
    }
}

fn begun(alloc: Global, text: &[u8], tokens: &[Token]) -> Result<Option<Bytes>, OutOfMemory>
    ensures { IfOk result (λ word. word ≡ begun text.now tokens.now) }
{
    let Some((first, _)) = first_token(tokens) else {
        return Ok(None);
    };
    let word = bytes_of(text, &first);
    if is_one_of(word, &FIRST_WORDS) {
        Ok(Some(Bytes::from_slice(alloc, word)?))
    } else {
        Ok(None)
    }
}

// Why a text that is no statement is refused.
fn unknown(alloc: Global, text: &[u8]) -> Result<Refusal, OutOfMemory>
    ensures { IfOk result (λ refusal. refusal ≡ unknown text.now) }
{
    let tokens = statement_tokens(alloc, text)?;
    let word = begun(alloc, text, &tokens)?;
    Ok(Refusal::Unknown(word))
}

fn refusal_for(table: StagedTable) -> Refusal
    ensures { result ≡ refusal_for table }
{
    match table {
        StagedTable::Servers => Refusal::Server,
        StagedTable::Rules => Refusal::Rule,
    }
}

// Whether a name is LIKE a pattern.
fn like(pattern: &[u8], name: &[u8]) -> bool
    ensures { result ≡ like pattern.now name.now }
{
    let [p, rest @ ..] = pattern else {
        return name.is_empty();
    };
    if *p != b'%' {
        return match name {
            [b, more @ ..] if *p == b'_' || p.to_ascii_lowercase() == b.to_ascii_lowercase() => {
                like(rest, more)
            }
            _ => false,
        };
    }
    let mut left = name;
    while let [_, more @ ..] = left {
        if like(rest, left) {
            return true;
        }
        left = more;
    }
    like(rest, left)
}

fn is_quick(pattern: &[u8]) -> bool
    ensures { result ≡ is_quick pattern.now }
{
    let wild = wild_in(pattern);
    wild <= MOST_WILD
}

// How often a pattern has `%`.
fn wild_in(pattern: &[u8]) -> usize
    ensures { result ≡ length (filter (λ p. nat_eq p 37) pattern.now) }
{
    pattern.iter().filter(|p| **p == b'%').count()
}

fn name_value(alloc: Global, row: &NamedRow) -> Result<Cells, OutOfMemory>
    ensures { IfOk result (λ cells. cells.items ≡ named_cells row.now) }
{
    row.cells(alloc)
}

fn liked_rows(alloc: Global, pattern: &[u8], rows: &[NamedRow]) -> Result<Vec<Cells>, OutOfMemory>
    ensures { IfOk result (λ all. map (λ row. row.items) all.items ≡ map named_cells (filter (λ row. like pattern.now row.name) rows.now)) }
{
    let mut all = Vec::new(alloc);
    for row in rows {
        if like(pattern, row.name.as_slice()) {
            let cells = name_value(alloc, row)?;
            all.push(cells)?;
        }
    }
    Ok(all)
}

fn liked(alloc: Global, pattern: &[u8], rows: &[NamedRow]) -> Result<Table, OutOfMemory>
    ensures { IfOk result (λ table. sheet_of table ≡ variables_sheet (filter (λ row. like pattern.now row.name) rows.now)) }
{
    let columns = columns_of(alloc, &NAMED_COLUMNS)?;
    let rows = liked_rows(alloc, pattern, rows)?;
    Ok(Table { columns, rows })
}

fn variables(alloc: Global, pattern: &Option<Bytes>, rows: &[NamedRow]) -> Result<Table, Fault>
    ensures { GivesSheet result (variables pattern.now rows.now) }
{
    let Some(pattern) = pattern else {
        let table = table_of(alloc, &NAMED_COLUMNS, rows)?;
        return Ok(table);
    };
    if !is_quick(pattern.as_slice()) {
        return Err(Fault::Refused);
    }
    let table = liked(alloc, pattern.as_slice(), rows)?;
    Ok(table)
}

fn one_cell_rows(alloc: Global, values: &[&[u8]]) -> Result<Vec<Cells>, OutOfMemory>
    ensures { IfOk result (λ all. map (λ row. row.items) all.items ≡ map (λ value. Some value.now ∷ []) values.now) }
{
    let mut all = Vec::new(alloc);
    for value in values {
        let mut row = Vec::new(alloc);
        let cell = Bytes::from_slice(alloc, value)?;
        row.push(Some(cell))?;
        all.push(row)?;
    }
    Ok(all)
}

fn one_column(alloc: Global, name: &[u8], values: &[&[u8]]) -> Result<Table, OutOfMemory>
    ensures { IfOk result (λ table. sheet_of table ≡ one_column name.now (map (λ value. value.now) values.now)) }
{
    let columns = columns_of(alloc, &[name])?;
    let rows = one_cell_rows(alloc, values)?;
    Ok(Table { columns, rows })
}

fn refused(alloc: Global, text: &[u8]) -> Result<Answer, OutOfMemory>
    ensures { IfOk result (λ answer. reply_of answer ≡ Refused (unknown text.now)) }
{
    let refusal = unknown(alloc, text)?;
    Ok(Answer::Refused(refusal))
}

#[tactic(auto, using(crate::proofs::Answered::answered))]
fn select(
    alloc: Global,
    text: &[u8],
    query: &Query,
    staged: &Staged,
    running: &Running,
) -> Result<Answer, OutOfMemory>
    ensures { IfOk result (λ answer. reply_of answer ≡ rows_or (unknown text.now) (selected query.now (shown query.now.table staged.now running.now))) }
{
    let table = shown(alloc, query.table, staged, running)?;
    match selected(alloc, query, table) {
        Ok(table) => Ok(Answer::Rows(table)),
        Err(Fault::Refused) => refused(alloc, text),
        Err(Fault::OutOfMemory) => Err(OutOfMemory),
    }
}

#[tactic(auto, using(crate::proofs::Answered::answered))]
fn show_variables(
    alloc: Global,
    text: &[u8],
    pattern: &Option<Bytes>,
    running: &Running,
) -> Result<Answer, OutOfMemory>
    ensures { IfOk result (λ answer. reply_of answer ≡ rows_or (unknown text.now) (variables pattern.now running.now.variables.now)) }
{
    match variables(alloc, pattern, running.variables) {
        Ok(table) => Ok(Answer::Rows(table)),
        Err(Fault::Refused) => refused(alloc, text),
        Err(Fault::OutOfMemory) => Err(OutOfMemory),
    }
}

// OK, or a refusal that leaves what was staged.
#[tactic(auto, using(crate::proofs::Answered::answered))]
fn stage_rows(
    alloc: Global,
    action: Action,
    change: &Change,
    patterned: bool,
    staged: &mut Staged,
) -> Result<Answer, OutOfMemory>
    ensures said { IfOk result (λ answer. (staged.new, reply_of answer) ≡ done_or staged.old (refusal_for change.now.table) (changed patterned staged.old action change.now)) }
    ensures memory { OnErr result (staged.new ≡ staged.old) }
{
    match staged.change(alloc, action, change, patterned) {
        Ok(()) => Ok(Answer::Done),
        Err(Fault::Refused) => Ok(Answer::Refused(refusal_for(change.table))),
        Err(Fault::OutOfMemory) => Err(OutOfMemory),
    }
}

/// What a statement is answered, and makes of the staged tables. `text` is the statement's own. Whether the texts of patterns that it
/// gives are patterns is `patterned`, as `are_patterned` tells. Of what is running only the rows of the table that a SELECT reads are
/// looked at. OutOfMemory leaves what is staged.
pub fn answer_statement(
    alloc: Global,
    text: &[u8],
    statement: &Statement,
    patterned: bool,
    staged: &mut Staged,
    running: &Running,
) -> Result<Answer, OutOfMemory>
    ensures said { IfOk result (λ answer. (staged.new, reply_of answer) ≡ answered_by patterned text.now staged.old running.now (Some statement.now)) }
    ensures memory { OnErr result (staged.new ≡ staged.old) }
{
    match statement {
        Statement::Select(query) => select(alloc, text, query, staged, running),
        Statement::Stage(action, what) => stage_rows(alloc, *action, what, patterned, staged),
        Statement::Load(table) => Ok(Answer::Load(*table)),
        Statement::ShowTables => {
            let table = one_column(alloc, b"tables", &TABLE_NAMES)?;
            Ok(Answer::Rows(table))
        }
        Statement::ShowVariables(pattern) => show_variables(alloc, text, pattern, running),
        Statement::VersionComment => {
            let table = one_column(alloc, b"@@version_comment", &[b"mx_proxy"])?;
            Ok(Answer::Rows(table))
        }
        Statement::Accepted => Ok(Answer::Done),
        Statement::Shutdown => Ok(Answer::Shutdown),
    }
}

#[tactic(auto, using(crate::proofs::Answered::answered))]
fn answered(
    alloc: Global,
    text: &[u8],
    statement: &Statement,
    staged: &mut Staged,
    running: &Running,
) -> Result<Answer, OutOfMemory>
    ensures said { IfOk result (λ answer. IsAnsweredBy text.now staged.old running.now (Some statement.now) (staged.new, reply_of answer)) }
    ensures memory { OnErr result (staged.new ≡ staged.old) }
{
    let patterned = are_patterned(alloc, statement)?;
    answer_statement(alloc, text, statement, patterned, staged, running)
}

#[tactic(auto, using(crate::proofs::Answered::answered))]
fn answered_text(
    alloc: Global,
    text: &[u8],
    staged: &mut Staged,
    running: &Running,
) -> Result<Answer, OutOfMemory>
    ensures said { IfOk result (λ answer. IsAnswered text.now staged.old running.now (staged.new, reply_of answer)) }
    ensures memory { OnErr result (staged.new ≡ staged.old) }
{
    match read_statement(alloc, text) {
        Ok(statement) => answered(alloc, text, &statement, staged, running),
        Err(Fault::Refused) => refused(alloc, text),
        Err(Fault::OutOfMemory) => Err(OutOfMemory),
    }
}

/// What an administrator's text is answered, and makes of the staged tables (ProxySQL documentation, "Admin Interface"). A table has
/// as many cells in each of its rows as columns. OutOfMemory leaves what is staged.
pub fn answer_text(
    alloc: Global,
    text: &[u8],
    staged: &mut Staged,
    running: &Running,
) -> Result<Answer, OutOfMemory>
    ensures said { IfOk result (λ answer. IsAnswered text.now staged.old running.now (staged.new, reply_of answer)) }
    ensures whole { IfOk result HasWholeTable }
    ensures memory { OnErr result (staged.new ≡ staged.old) }
{
    answered_text(alloc, text, staged, running)
}
