// A result set of texts.
ghost use Rattle.std.specs.Prelude.{◌≡◌, ◌<◌, ◌++◌, length, map, OnOk, OnErr, IfOk};
ghost use Rattle.std.specs.List.{All};
ghost use Rattle.packet_frame.specs.Packets.{spellings, ids_behind};
ghost use Rattle.packet_frame.specs.Writing.{Begins};
ghost use Rattle.reply_text.specs.Tables.{definition_payload, row_payload, table_payloads, count_payload};

use crate::eof::write_eof;
use crate::row::{count_payload, definition_payload, row_payload};
use mx_base::{Bytes, OutOfMemory};
use packet_frame::write_message;

/// A table of texts: the names of its columns, and its rows with a cell for each column, None being NULL.
#[derive(Drop)]
pub struct Table {
    pub columns: Vec<Bytes>,
    pub rows: Vec<Vec<Option<Bytes>>>,
}

/// Appends a result set (client/server protocol, "Text Resultset"), whose first packet has the sequence id `first`:
/// the column count, a definition for each column (of the type VAR_STRING, 1,024 bytes long, in utf8mb4, with no
/// names but the column's own), an EOF, the rows, and an EOF, both with these status flags and no warnings. Answers
/// the id behind the last packet's. OutOfMemory leaves `out` as it was.
pub fn write_table(
    out: &mut Vec<u8>,
    first: u8,
    status: u16,
    table: &Table,
) -> Result<u8, OutOfMemory>
    requires columns { 0 < length table.now.columns.items }
    requires cells { All (λ row. length row.items ≡ length table.now.columns.items) table.now.rows.items }
    ensures bytes { OnOk result (out.new.items ≡ out.old.items ++ spellings first (table_payloads status table.now.columns.items (map (λ row. row_payload row.items) table.now.rows.items))) }
    ensures behind { IfOk result (λ id. id ≡ ids_behind first (table_payloads status table.now.columns.items (map (λ row. row_payload row.items) table.now.rows.items))) }
    ensures err { OnErr result (out.new.items ≡ out.old.items) }
{
    let before = out.len();
    match append_table(out, first, status, table) {
        Ok(id) => Ok(id),
        Err(refused) => {
            out.truncate(before);
            Err(refused)
        }
    }
}

// Appends the result set, or some of its bytes where memory is refused.
fn append_table(out: &mut Vec<u8>, first: u8, status: u16, table: &Table) -> Result<u8, OutOfMemory>
    ensures bytes { OnOk result (out.new.items ≡ out.old.items ++ spellings first (table_payloads status table.now.columns.items (map (λ row. row_payload row.items) table.now.rows.items))) }
    ensures behind { IfOk result (λ id. id ≡ ids_behind first (table_payloads status table.now.columns.items (map (λ row. row_payload row.items) table.now.rows.items))) }
    ensures err { Begins out.old.items out.new.items }
{
    let columns = table.columns.as_slice();
    let count = count_payload(*out.allocator(), columns.len())?;
    let id = write_message(out, first, &count)?;
    let id = append_definitions(out, id, columns)?;
    let id = write_eof(out, id, status)?;
    let id = append_rows(out, id, &table.rows)?;
    write_eof(out, id, status)
}

// Appends a definition for each column.
fn append_definitions(out: &mut Vec<u8>, first: u8, columns: &[Bytes]) -> Result<u8, OutOfMemory>
    ensures bytes { OnOk result (out.new.items ≡ out.old.items ++ spellings first (map definition_payload columns.now)) }
    ensures behind { IfOk result (λ id. id ≡ ids_behind first (map definition_payload columns.now)) }
    ensures err { Begins out.old.items out.new.items }
{
    let mut id = first;
    for column in columns {
        let payload = definition_payload(*out.allocator(), column.as_slice())?;
        id = write_message(out, id, &payload)?;
    }
    Ok(id)
}

// Appends the rows.
fn append_rows(out: &mut Vec<u8>, first: u8, rows: &[Vec<Option<Bytes>>]) -> Result<u8, OutOfMemory>
    ensures bytes { OnOk result (out.new.items ≡ out.old.items ++ spellings first (map (λ row. row_payload row.items) rows.now)) }
    ensures behind { IfOk result (λ id. id ≡ ids_behind first (map (λ row. row_payload row.items) rows.now)) }
    ensures err { Begins out.old.items out.new.items }
{
    let mut id = first;
    for row in rows {
        let payload = row_payload(*out.allocator(), row)?;
        id = write_message(out, id, &payload)?;
    }
    Ok(id)
}
