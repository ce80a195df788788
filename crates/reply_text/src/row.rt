// The payloads of a result set of texts.
ghost use Rattle.std.specs.Prelude.{◌≡◌, ◌++◌, length, OnOk, IfOk};
ghost use Rattle.mx_base.specs.Fields.{lenenc};
ghost use Rattle.reply_text.specs.Tables.{text_bytes, definition_payload, row_payload, count_payload};

use mx_base::{Bytes, OutOfMemory, put_lenenc};
use std::alloc::Global;

/// NULL in a row.
const NULL_CELL: u8 = 0xFB;

/// The column count that begins a result set.
pub(crate) fn count_payload(alloc: Global, columns: usize) -> Result<Vec<u8>, OutOfMemory>
    ensures { IfOk result (λ payload. payload.items ≡ count_payload columns) }
{
    let mut payload = Vec::new(alloc);
    put_lenenc(&mut payload, columns as u64)?;
    Ok(payload)
}

/// The definition of a column of this name (client/server protocol, "Protocol::ColumnDefinition41").
pub(crate) fn definition_payload(alloc: Global, name: &[u8]) -> Result<Vec<u8>, OutOfMemory>
    ensures { IfOk result (λ payload. payload.items ≡ definition_payload name.now) }
{
    let mut payload = Vec::new(alloc);
    // the catalog, and no schema and tables
    payload.extend_from_slice(&[3, b'd', b'e', b'f', 0, 0, 0])?;
    put_text(&mut payload, name)?;
    // no original name; character set 45, length 1,024, VAR_STRING, no flags, no decimals
    payload.extend_from_slice(&[0, 0x0C, 45, 0, 0, 4, 0, 0, 0xFD, 0, 0, 0, 0, 0])?;
    Ok(payload)
}

/// A row (client/server protocol, "Text Resultset Row").
pub(crate) fn row_payload(alloc: Global, row: &[Option<Bytes>]) -> Result<Vec<u8>, OutOfMemory>
    ensures { IfOk result (λ payload. payload.items ≡ row_payload row.now) }
{
    let mut payload = Vec::new(alloc);
    for cell in row {
        match cell {
            None => payload.push(NULL_CELL)?,
            Some(text) => put_text(&mut payload, text.as_slice())?,
        }
    }
    Ok(payload)
}

// Appends a length-encoded text.
fn put_text(out: &mut Vec<u8>, text: &[u8]) -> Result<(), OutOfMemory>
    ensures { OnOk result (out.new.items ≡ out.old.items ++ text_bytes text.now) }
{
    put_lenenc(out, text.len() as u64)?;
    out.extend_from_slice(text)?;
    Ok(())
}
