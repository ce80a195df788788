// What a SELECT reads of a table.
ghost use Rattle.std.specs.Prelude.{◌≡◌, [], filter, map, slice_index_or, IfOk, option_copied};
ghost use Rattle.admin_port.specs.Faults.{Gives};
ghost use Rattle.admin_port.specs.RowValues.{cell_of};
ghost use Rattle.admin_port.specs.Selecting.{at_places, cell_at, columns_at, count_sheet, kept, limited, named_sheet, picked_sheet, place_in, places_from, same_cell, selected};
ghost use Rattle.admin_port.specs.Sheets.{GivesSheet, sheet_of};

use crate::Fault;
use crate::pair::Pair;
use crate::row_values::decimal_text;
use crate::sheet::{Cells, columns_of};
use crate::statement::{Picked, Query};
use crate::value::Value;
use mx_base::{Bytes, Items, OutOfMemory};
use reply_text::Table;
use sql_tokens::same_text;
use std::alloc::Global;

fn place_in(columns: &[Bytes], name: &[u8]) -> Option<usize>
    ensures { result ≡ place_in columns.now name.now }
{
    columns
        .iter()
        .position(|column| same_text(column.as_slice(), name))
}

fn places(alloc: Global, columns: &[Bytes], names: &[Bytes]) -> Result<Items<usize>, Fault>
    ensures { Gives result (places_from columns.now [] names.now) }
{
    let mut places = Items::new(alloc);
    for name in names {
        let Some(place) = place_in(columns, name.as_slice()) else {
            return Err(Fault::Refused);
        };
        places.push(place)?;
    }
    Ok(places)
}

fn cell_at(row: &[Option<Bytes>], place: usize) -> Option<&[u8]>
    ensures { option_copied result ≡ cell_at row.now place }
{
    match row.get(place) {
        Some(Some(text)) => Some(text.as_slice()),
        _ => None,
    }
}

fn cell_in(value: &Value) -> Option<&[u8]>
    ensures { option_copied result ≡ cell_of value.now }
{
    match value {
        Value::Number(digits) => Some(digits.as_slice()),
        Value::Text(text) => Some(text.as_slice()),
        Value::Null => None,
    }
}

fn same_cell(a: Option<&[u8]>, b: Option<&[u8]>) -> bool
    ensures { result ≡ same_cell (option_copied a.entry) (option_copied b.entry) }
{
    match (a, b) {
        (Some(a), Some(b)) => a == b,
        _ => false,
    }
}

fn keeps(row: &Cells, place: usize, value: &Value) -> bool
    ensures { result ≡ same_cell (cell_at row.now.items place) (cell_of value.now) }
{
    same_cell(cell_at(row, place), cell_in(value))
}

// The rows that have a value at a place.
fn keep(
    alloc: Global,
    rows: Vec<Cells>,
    place: usize,
    value: &Value,
) -> Result<Vec<Cells>, OutOfMemory>
    ensures { IfOk result (λ left. map (λ row. row.items) left.items ≡ filter (λ row. same_cell (cell_at row place) (cell_of value.now)) (map (λ row. row.items) rows.items)) }
{
    let mut left = Vec::new(alloc);
    for row in rows {
        if keeps(&row, place, value) {
            left.push(row)?;
        }
    }
    Ok(left)
}

// The rows that have the value in the column.
fn kept(alloc: Global, condition: &Option<Pair>, table: Table) -> Result<Table, Fault>
    ensures { GivesSheet result (kept condition.now (sheet_of table)) }
{
    let Some(pair) = condition else {
        return Ok(table);
    };
    let Some(place) = place_in(&table.columns, pair.column.as_slice()) else {
        return Err(Fault::Refused);
    };
    let rows = keep(alloc, table.rows, place, &pair.value)?;
    Ok(Table {
        columns: table.columns,
        rows,
    })
}

fn copy_cell(alloc: Global, cell: Option<&[u8]>) -> Result<Option<Bytes>, OutOfMemory>
    ensures { IfOk result (λ copy. copy ≡ option_copied cell.entry) }
{
    match cell {
        Some(text) => Ok(Some(Bytes::from_slice(alloc, text)?)),
        None => Ok(None),
    }
}

fn at_places(alloc: Global, row: &[Option<Bytes>], places: &[usize]) -> Result<Cells, OutOfMemory>
    ensures { IfOk result (λ cells. cells.items ≡ at_places places.now row.now) }
{
    let mut cells = Vec::new(alloc);
    for place in places {
        let cell = copy_cell(alloc, cell_at(row, *place))?;
        cells.push(cell)?;
    }
    Ok(cells)
}

fn rows_at(alloc: Global, rows: &[Cells], places: &[usize]) -> Result<Vec<Cells>, OutOfMemory>
    ensures { IfOk result (λ all. map (λ row. row.items) all.items ≡ map (at_places places.now) (map (λ row. row.items) rows.now)) }
{
    let mut all = Vec::new(alloc);
    for row in rows {
        let cells = at_places(alloc, row, places)?;
        all.push(cells)?;
    }
    Ok(all)
}

fn column_at(alloc: Global, columns: &[Bytes], place: usize) -> Result<Bytes, OutOfMemory>
    ensures { IfOk result (λ column. column ≡ slice_index_or columns.now place []) }
{
    match columns.get(place) {
        Some(column) => Bytes::from_slice(alloc, column.as_slice()),
        None => Ok(Bytes::new(alloc)),
    }
}

fn columns_at(alloc: Global, columns: &[Bytes], places: &[usize]) -> Result<Vec<Bytes>, OutOfMemory>
    ensures { IfOk result (λ all. all.items ≡ columns_at columns.now places.now) }
{
    let mut all = Vec::new(alloc);
    for place in places {
        let column = column_at(alloc, columns, *place)?;
        all.push(column)?;
    }
    Ok(all)
}

#[tactic(auto, using(crate::proofs::Steps::steps))]
fn named_sheet(alloc: Global, names: &[Bytes], table: &Table) -> Result<Table, Fault>
    ensures { GivesSheet result (named_sheet names.now (sheet_of table.now)) }
{
    let places = places(alloc, &table.columns, names)?;
    let columns = columns_at(alloc, &table.columns, places.as_slice())?;
    let rows = rows_at(alloc, &table.rows, places.as_slice())?;
    Ok(Table { columns, rows })
}

fn count_sheet(alloc: Global, count: usize) -> Result<Table, OutOfMemory>
    ensures { IfOk result (λ table. sheet_of table ≡ count_sheet count) }
{
    let columns = columns_of(alloc, &[b"COUNT(*)"])?;
    let count = decimal_text(alloc, count as u64)?;
    let mut row = Vec::new(alloc);
    row.push(Some(count))?;
    let mut rows = Vec::new(alloc);
    rows.push(row)?;
    Ok(Table { columns, rows })
}

fn picked(alloc: Global, picked: &Picked, table: Table) -> Result<Table, Fault>
    ensures { GivesSheet result (picked_sheet picked.now (sheet_of table)) }
{
    match picked {
        Picked::All => Ok(table),
        Picked::Count => {
            let count = count_sheet(alloc, table.rows.len())?;
            Ok(count)
        }
        Picked::Columns(names) => {
            let names = names.as_slice();
            if names.is_empty() {
                return Err(Fault::Refused);
            }
            named_sheet(alloc, names, &table)
        }
    }
}

#[tactic(auto, using(crate::proofs::Lists::lists))]
fn limit(table: &mut Table, most: Option<u64>)
    ensures { sheet_of table.new ≡ limited most (sheet_of table.old) }
{
    if let Some(most) = most {
        let most = usize::try_from(most).unwrap_or(usize::MAX);
        table.rows.truncate(most);
    }
}

/// What a SELECT reads of a table. Refused exactly where it names a column that isn't there.
#[tactic(auto, using(crate::proofs::Steps::steps))]
pub(crate) fn selected(alloc: Global, query: &Query, table: Table) -> Result<Table, Fault>
    ensures { GivesSheet result (selected query.now (sheet_of table)) }
{
    let left = kept(alloc, &query.condition, table)?;
    let mut sheet = picked(alloc, &query.picked, left)?;
    limit(&mut sheet, query.limit);
    Ok(sheet)
}
