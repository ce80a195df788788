// The tables that can be read.
ghost use Rattle.std.specs.Prelude.{◌≡◌, ◌++◌, ◌∷◌, [], map, decimal, option_map, IfOk, OnOk};
ghost use Rattle.admin_port.specs.RowValues.{cell_of};
ghost use Rattle.admin_port.specs.Sheets.{digest_cells, digest_columns, kind_text, place_cells, sheet, sheet_of, shown, state_text};

use crate::Staged;
use crate::pair::Pair;
use crate::row_values::{
    RULE_COLUMNS, SERVER_COLUMNS, decimal_text, hash_text, host_text, rule_pairs, server_pairs,
    status_text,
};
use crate::running::{ClientState, EventKind, EventRow, NamedRow, PoolRow, ProcessRow, Running};
use crate::statement::ShownTable;
use crate::value::Value;
use hostgroups::{ServerName, ServerRow};
use mx_base::{Bytes, OutOfMemory};
use query_digest::{DigestKey, DigestTable, digest_hash};
use query_rules::RuleRow;
use reply_text::Table;
use std::alloc::Global;

/// The cells of a row.
pub(crate) type Cells = Vec<Option<Bytes>>;

/// A row of a table that can be read.
pub(crate) trait Listed {
    ghost use Rattle.std.specs.Prelude.{ℕ, List, Option, IfOk, ◌≡◌};

    ghost cells_of: { Self → List (Option (List ℕ)) };

    /// Its cells, in the order of the columns.
    fn cells(&self, alloc: Global) -> Result<Vec<Option<Bytes>>, OutOfMemory>
        ensures { IfOk result (λ cells. cells.items ≡ cells_of self.now) };
}

/// The columns of the table of digests.
const DIGEST_COLUMNS: [&[u8]; 6] = [
    b"hostgroup",
    b"schemaname",
    b"username",
    b"digest",
    b"digest_text",
    b"count_star",
];

const POOL_COLUMNS: [&[u8]; 6] = [
    b"hostgroup",
    b"srv_host",
    b"srv_port",
    b"status",
    b"ConnUsed",
    b"ConnFree",
];

const PROCESS_COLUMNS: [&[u8]; 8] = [
    b"SessionID",
    b"user",
    b"hostgroup",
    b"srv_host",
    b"srv_port",
    b"state",
    b"time_ms",
    b"pinned_by",
];

/// The columns of what has a name and a value.
pub(crate) const NAMED_COLUMNS: [&[u8]; 2] = [b"Variable_Name", b"Variable_Value"];

const EVENT_COLUMNS: [&[u8]; 8] = [
    b"moment_ms",
    b"event",
    b"SessionID",
    b"hostgroup",
    b"srv_host",
    b"srv_port",
    b"code",
    b"text",
];

fn text_cell(alloc: Global, text: &[u8]) -> Result<Option<Bytes>, OutOfMemory>
    ensures { IfOk result (λ cell. cell ≡ Some text.now) }
{
    Ok(Some(Bytes::from_slice(alloc, text)?))
}

fn put_text(alloc: Global, cells: &mut Cells, text: &[u8]) -> Result<(), OutOfMemory>
    ensures { OnOk result (cells.new.items ≡ cells.old.items ++ Some text.now ∷ []) }
{
    let cell = text_cell(alloc, text)?;
    cells.push(cell)?;
    Ok(())
}

fn put_number(alloc: Global, cells: &mut Cells, n: u64) -> Result<(), OutOfMemory>
    ensures { OnOk result (cells.new.items ≡ cells.old.items ++ Some (decimal n) ∷ []) }
{
    cells.push(Some(decimal_text(alloc, n)?))?;
    Ok(())
}

fn put_optional(alloc: Global, cells: &mut Cells, n: Option<u64>) -> Result<(), OutOfMemory>
    ensures { OnOk result (cells.new.items ≡ cells.old.items ++ option_map decimal n ∷ []) }
{
    match n {
        Some(n) => put_number(alloc, cells, n),
        None => {
            cells.push(None)?;
            Ok(())
        }
    }
}

fn put_if_there(alloc: Global, cells: &mut Cells, text: &Option<Bytes>) -> Result<(), OutOfMemory>
    ensures { OnOk result (cells.new.items ≡ cells.old.items ++ text.now ∷ []) }
{
    match text {
        Some(text) => put_text(alloc, cells, text.as_slice()),
        None => {
            cells.push(None)?;
            Ok(())
        }
    }
}

fn put_place(
    alloc: Global,
    cells: &mut Cells,
    server: Option<ServerName>,
) -> Result<(), OutOfMemory>
    ensures { OnOk result (cells.new.items ≡ cells.old.items ++ place_cells server) }
{
    match server {
        Some(server) => {
            put_number(alloc, cells, u64::from(server.hostgroup.0))?;
            let host = host_text(alloc, server.address.ip)?;
            put_text(alloc, cells, host.as_slice())?;
            put_number(alloc, cells, u64::from(server.address.port))
        }
        None => {
            cells.push(None)?;
            cells.push(None)?;
            cells.push(None)?;
            Ok(())
        }
    }
}

fn put_value(alloc: Global, cells: &mut Cells, value: &Value) -> Result<(), OutOfMemory>
    ensures { OnOk result (cells.new.items ≡ cells.old.items ++ cell_of value.now ∷ []) }
{
    match value {
        Value::Number(digits) => put_text(alloc, cells, digits.as_slice()),
        Value::Text(text) => put_text(alloc, cells, text.as_slice()),
        Value::Null => {
            cells.push(None)?;
            Ok(())
        }
    }
}

fn value_cells(alloc: Global, pairs: &[Pair]) -> Result<Cells, OutOfMemory>
    ensures { IfOk result (λ cells. cells.items ≡ map (λ pair. cell_of pair.value) pairs.now) }
{
    let mut cells = Vec::new(alloc);
    for pair in pairs {
        put_value(alloc, &mut cells, &pair.value)?;
    }
    Ok(cells)
}

impl Listed for ServerRow {
    ghost use Rattle.admin_port.specs.Sheets.{server_cells};

    ghost cells_of = { server_cells };

    fn cells(&self, alloc: Global) -> Result<Vec<Option<Bytes>>, OutOfMemory> {
        let pairs = server_pairs(alloc, self)?;
        value_cells(alloc, &pairs)
    }
}

impl Listed for RuleRow {
    ghost use Rattle.admin_port.specs.Sheets.{rule_cells};

    ghost cells_of = { rule_cells };

    fn cells(&self, alloc: Global) -> Result<Vec<Option<Bytes>>, OutOfMemory> {
        let pairs = rule_pairs(alloc, self)?;
        value_cells(alloc, &pairs)
    }
}

impl Listed for PoolRow {
    ghost use Rattle.admin_port.specs.Sheets.{pool_cells};

    ghost cells_of = { pool_cells };

    fn cells(&self, alloc: Global) -> Result<Vec<Option<Bytes>>, OutOfMemory> {
        let mut cells = Vec::new(alloc);
        put_place(alloc, &mut cells, Some(self.server))?;
        put_text(alloc, &mut cells, status_text(self.status))?;
        put_number(alloc, &mut cells, self.used)?;
        put_number(alloc, &mut cells, self.free)?;
        Ok(cells)
    }
}

fn state_text(state: ClientState) -> &'static [u8]
    ensures { result.now ≡ state_text state }
{
    match state {
        ClientState::LoggingIn => b"login",
        ClientState::Idle => b"idle",
        ClientState::Waiting => b"waiting",
        ClientState::Running => b"running",
    }
}

impl Listed for ProcessRow {
    ghost use Rattle.admin_port.specs.Sheets.{process_cells};

    ghost cells_of = { process_cells };

    fn cells(&self, alloc: Global) -> Result<Vec<Option<Bytes>>, OutOfMemory> {
        let mut cells = Vec::new(alloc);
        put_number(alloc, &mut cells, self.client.0)?;
        put_text(alloc, &mut cells, self.user.as_slice())?;
        put_place(alloc, &mut cells, self.server)?;
        put_text(alloc, &mut cells, state_text(self.state))?;
        put_optional(alloc, &mut cells, self.time_ms)?;
        put_if_there(alloc, &mut cells, &self.pinned_by)?;
        Ok(cells)
    }
}

impl Listed for NamedRow {
    ghost use Rattle.admin_port.specs.Sheets.{named_cells};

    ghost cells_of = { named_cells };

    fn cells(&self, alloc: Global) -> Result<Vec<Option<Bytes>>, OutOfMemory> {
        let mut cells = Vec::new(alloc);
        put_text(alloc, &mut cells, self.name.as_slice())?;
        put_text(alloc, &mut cells, self.value.as_slice())?;
        Ok(cells)
    }
}

fn kind_text(kind: EventKind) -> &'static [u8]
    ensures { result.now ≡ kind_text kind }
{
    match kind {
        EventKind::LoginRefused => b"login refused",
        EventKind::TooManyConnections => b"too many connections",
        EventKind::StatementRefused => b"statement refused",
        EventKind::OpenFailed => b"open failed",
        EventKind::ServerLoginFailed => b"server login failed",
        EventKind::ServerShunned => b"server shunned",
        EventKind::OutOfDescriptors => b"out of descriptors",
    }
}

impl Listed for EventRow {
    ghost use Rattle.admin_port.specs.Sheets.{event_cells};

    ghost cells_of = { event_cells };

    fn cells(&self, alloc: Global) -> Result<Vec<Option<Bytes>>, OutOfMemory> {
        let mut cells = Vec::new(alloc);
        put_number(alloc, &mut cells, self.moment_ms)?;
        put_text(alloc, &mut cells, kind_text(self.kind))?;
        let client = match self.client {
            Some(client) => Some(client.0),
            None => None,
        };
        put_optional(alloc, &mut cells, client)?;
        put_place(alloc, &mut cells, self.server)?;
        let code = match self.code {
            Some(code) => Some(u64::from(code)),
            None => None,
        };
        put_optional(alloc, &mut cells, code)?;
        put_text(alloc, &mut cells, self.text.as_slice())?;
        Ok(cells)
    }
}

fn digest_cells(alloc: Global, key: &DigestKey, count: u64) -> Result<Cells, OutOfMemory>
    ensures { IfOk result (λ cells. cells.items ≡ digest_cells (key.now, count)) }
{
    let mut hash = Bytes::from_slice(alloc, b"0x")?;
    let digits = hash_text(alloc, digest_hash(key.digest.as_slice()))?;
    hash.append(digits.as_slice())?;
    let mut cells = Vec::new(alloc);
    put_number(alloc, &mut cells, u64::from(key.hostgroup.0))?;
    put_text(alloc, &mut cells, key.schema.as_slice())?;
    put_text(alloc, &mut cells, key.user.as_slice())?;
    put_text(alloc, &mut cells, hash.as_slice())?;
    put_text(alloc, &mut cells, key.digest.as_slice())?;
    put_number(alloc, &mut cells, count)?;
    Ok(cells)
}

/// The names of columns.
pub(crate) fn columns_of(alloc: Global, names: &[&[u8]]) -> Result<Vec<Bytes>, OutOfMemory>
    ensures { IfOk result (λ columns. columns.items ≡ map (λ name. name.now) names.now) }
{
    let mut columns = Vec::new(alloc);
    for name in names {
        columns.push(Bytes::from_slice(alloc, name)?)?;
    }
    Ok(columns)
}

fn rows_of<R: Listed>(alloc: Global, rows: &[R]) -> Result<Vec<Cells>, OutOfMemory>
    ensures { IfOk result (λ all. map (λ row. row.items) all.items ≡ map R.cells_of rows.now) }
{
    let mut all = Vec::new(alloc);
    for row in rows {
        all.push(row.cells(alloc)?)?;
    }
    Ok(all)
}

/// The table of rows.
pub(crate) fn table_of<R: Listed>(
    alloc: Global,
    names: &[&[u8]],
    rows: &[R],
) -> Result<Table, OutOfMemory>
    ensures { IfOk result (λ table. sheet_of table ≡ sheet (map (λ name. name.now) names.now) R.cells_of rows.now) }
{
    let columns = columns_of(alloc, names)?;
    let rows = rows_of(alloc, rows)?;
    Ok(Table { columns, rows })
}

fn digest_rows(alloc: Global, digests: &DigestTable) -> Result<Vec<Cells>, OutOfMemory>
    ensures { IfOk result (λ all. map (λ row. row.items) all.items ≡ map digest_cells digests.now) }
{
    let mut all = Vec::new(alloc);
    for (key, count) in digests.iter() {
        all.push(digest_cells(alloc, key, *count)?)?;
    }
    Ok(all)
}

fn digest_table(alloc: Global, digests: &DigestTable) -> Result<Table, OutOfMemory>
    ensures { IfOk result (λ table. sheet_of table ≡ sheet digest_columns digest_cells digests.now) }
{
    let columns = columns_of(alloc, &DIGEST_COLUMNS)?;
    let rows = digest_rows(alloc, digests)?;
    Ok(Table { columns, rows })
}

/// A table as it is.
pub(crate) fn shown(
    alloc: Global,
    table: ShownTable,
    staged: &Staged,
    running: &Running,
) -> Result<Table, OutOfMemory>
    ensures { IfOk result (λ t. sheet_of t ≡ shown table staged.now running.now) }
{
    match table {
        ShownTable::Servers => table_of(alloc, &SERVER_COLUMNS, staged.servers()),
        ShownTable::RuntimeServers => table_of(alloc, &SERVER_COLUMNS, running.servers),
        ShownTable::Rules => table_of(alloc, &RULE_COLUMNS, staged.rules()),
        ShownTable::RuntimeRules => table_of(alloc, &RULE_COLUMNS, running.rules),
        ShownTable::Digests => digest_table(alloc, running.digests),
        ShownTable::Pool => table_of(alloc, &POOL_COLUMNS, running.pool),
        ShownTable::Processes => table_of(alloc, &PROCESS_COLUMNS, running.processes),
        ShownTable::Totals => table_of(alloc, &NAMED_COLUMNS, running.totals),
        ShownTable::Events => table_of(alloc, &EVENT_COLUMNS, running.events),
    }
}
