// Tables that the router writes.
ghost use Rattle.std.specs.Prelude.{◌≡◌, ◌<◌, length};

use crate::packets::framing::{Spelled, pieces_of};
use crate::packets::show::with_id;
use check_lines::{Answer, Fields};
use mx_base::Bytes;
use reply_text::Table;

/// `write_table <first> <status> <column>,<column>.. <cell>,<cell>..`: the id behind a table of one row, and its bytes. A cell NULL
/// is none.
pub fn write(fields: &mut Fields<'_>) {
    let first = fields.number();
    let status = fields.number();
    let names = fields.text();
    let cells = fields.text();
    let columns = pieces_of(&mut fields.answer, names, ',');
    let row = pieces_of(&mut fields.answer, cells, ',');
    if columns.is_empty() || row.len() != columns.len() {
        fields.answer.bad();
    } else {
        written(&mut fields.answer, first, status, columns, row);
    }
}

// The table of one row.
fn written(
    answer: &mut Answer,
    first: u8,
    status: u16,
    columns: Vec<Bytes>,
    row: Vec<Option<Bytes>>,
)
    requires some { 0 < length columns.items }
    requires cells { length row.items ≡ length columns.items }
{
    let mut rows = Vec::new(answer.alloc());
    match rows.push(row) {
        Ok(()) => {
            let mut out = Vec::new(answer.alloc());
            let id = reply_text::write_table(&mut out, first, status, &Table { columns, rows });
            with_id(answer, id, &out);
        }
        Err(_) => answer.refused(),
    }
}

// A cell.
impl Spelled for Option<Bytes> {
    fn spelled(answer: &mut Answer, text: &str) -> Self {
        if text == "NULL" {
            None
        } else {
            Some(Bytes::spelled(answer, text))
        }
    }
}
