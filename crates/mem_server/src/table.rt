// Tables, and what notes do to them.
ghost use Rattle.std.specs.Prelude.{◌≡◌, ◌<◌, ◌^◌, [], OnOk, OnErr, bytes_eq, length, option_copied};
ghost use Rattle.mem_rule.specs.Tables.{row_at, greatest, rows_after};

use mem_rule::{Note, NoteKind};
use mx_base::{Bytes, OutOfMemory};
use std::alloc::Global;
use std::collections::BTreeMap;
use std::marker::Model;

/// The table of a schema: its rows by their ids.
#[derive(Drop)]
pub struct Table {
    schema: Bytes,
    rows: BTreeMap<u64, Bytes>,
}

impl Model for Table {
    ghost use Rattle.mem_rule.specs.Tables.{TableRows};

    ghost Value = { TableRows };

    ghost view = { λ t. record { schema = t.schema; rows = t.rows.entries } };
}

impl Table {
    /// A table without rows. Takes no memory.
    pub fn new(alloc: Global, schema: Bytes) -> Self
        ensures { result ≡ record { schema = schema; rows = [] } }
    {
        Table {
            schema,
            rows: BTreeMap::new(alloc),
        }
    }

    /// Whether it is the table of this schema. Takes no memory.
    pub fn is_of(&self, schema: &[u8]) -> bool
        ensures { result ≡ bytes_eq self.now.schema schema.now }
    {
        self.schema.as_slice() == schema
    }

    /// The text of a row. Takes no memory.
    pub fn row(&self, id: u64) -> Option<&Bytes>
        ensures { option_copied result ≡ row_at self.now.rows id }
    {
        self.rows.get(&id)
    }

    /// How many rows it has. Takes no memory.
    pub fn count(&self) -> usize
        ensures count { result ≡ length self.now.rows }
        ensures small { result < 2 ^ 63 }
    {
        self.rows.len()
    }

    /// The greatest id of a row, 0 where there is none. Takes no memory.
    pub fn greatest(&self) -> u64
        ensures { result ≡ greatest self.now.rows }
    {
        match self.rows.last_key_value() {
            None => 0,
            Some((id, _)) => *id,
        }
    }

    /// Does to the rows what a note says. OutOfMemory leaves them as they were.
    pub fn apply(&mut self, alloc: Global, note: &Note) -> Result<(), OutOfMemory>
        ensures ok { OnOk result (self.new ≡ record self.old { rows = rows_after self.old.rows note.now }) }
        ensures err { OnErr result (self.new ≡ self.old) }
    {
        match note.kind {
            NoteKind::Put => {
                let text = Bytes::from_slice(alloc, note.text.as_slice())?;
                self.rows.insert(note.id, text)?;
                Ok(())
            }
            NoteKind::Removed => {
                self.rows.remove(&note.id);
                Ok(())
            }
            _ => Ok(()),
        }
    }
}
