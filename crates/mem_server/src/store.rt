// The data of the server.
ghost use Rattle.std.specs.Prelude.{◌≡◌, ◌≤◌, OnOk, OnErr, drop, length, option_copied, slice_get};
ghost use Rattle.mem_rule.specs.Tables.{after, after_all, created, holds, no_tables, place_of, written};

use crate::table::Table;
use mem_rule::{Note, NoteKind, Notes};
use mx_base::{Bytes, OutOfMemory};
use std::alloc::Global;
use std::collections::BTreeSet;
use std::marker::Model;

// Tables, and the names of the locks that are held.
#[derive(Drop)]
pub(crate) struct Base {
    tables: Vec<Table>,
    held: BTreeSet<Bytes>,
}

impl Model for Base {
    ghost use Rattle.mem_rule.specs.Tables.{Tables};

    ghost Value = { Tables };

    ghost view = { λ b. record { tables = b.tables.items; held = b.held.keys } };
}

impl Base {
    // What its memory comes from.
    pub(crate) fn alloc(&self) -> Global {
        *self.tables.allocator()
    }

    // The place of a schema's table.
    pub(crate) fn place(&self, schema: &[u8]) -> Option<usize>
        ensures { result ≡ place_of self.now.tables schema.now }
    {
        self.tables.iter().position(|table| table.is_of(schema))
    }

    // The table at a place.
    pub(crate) fn table(&self, at: usize) -> Option<&Table>
        ensures { option_copied result ≡ slice_get self.now.tables at }
    {
        self.tables.get(at)
    }

    // Whether a lock of this name is held.
    pub(crate) fn holds(&self, name: &Bytes) -> bool
        ensures { result ≡ holds self.now.held name.now }
    {
        self.held.contains(name)
    }

    // Does what a note says to the table of its schema.
    fn write(&mut self, alloc: Global, note: &Note) -> Result<(), OutOfMemory>
        ensures ok { OnOk result (self.new ≡ record self.old { tables = written (place_of self.old.tables note.now.key) note.now self.old.tables }) }
        ensures err { OnErr result (self.new ≡ self.old) }
    {
        match self.place(note.key.as_slice()) {
            None => Ok(()),
            Some(at) => self.tables[at].apply(alloc, note),
        }
    }

    // Adds the table of a schema, where it isn't there.
    fn create(&mut self, alloc: Global, schema: &Bytes) -> Result<(), OutOfMemory>
        ensures ok { OnOk result (self.new ≡ record self.old { tables = created (place_of self.old.tables schema.now) schema.now self.old.tables }) }
        ensures err { OnErr result (self.new ≡ self.old) }
    {
        if self.place(schema.as_slice()).is_some() {
            return Ok(());
        }
        let table = Table::new(alloc, Bytes::from_slice(alloc, schema.as_slice())?);
        self.tables.push(table)?;
        Ok(())
    }

    // Does what a note says.
    pub(crate) fn apply(&mut self, alloc: Global, note: &Note) -> Result<(), OutOfMemory>
        ensures ok { OnOk result (self.new ≡ after self.old note.now) }
        ensures err { OnErr result (self.new ≡ self.old) }
    {
        match note.kind {
            NoteKind::Put => self.write(alloc, note),
            NoteKind::Removed => self.write(alloc, note),
            NoteKind::Created => self.create(alloc, &note.key),
            NoteKind::Held => {
                let name = Bytes::from_slice(alloc, note.key.as_slice())?;
                self.held.insert(name)?;
                Ok(())
            }
            NoteKind::Freed => {
                self.held.remove(&note.key);
                Ok(())
            }
            NoteKind::Begun => Ok(()),
            NoteKind::Named => Ok(()),
        }
    }
}

// Does the notes that are left; the first so many are done. OutOfMemory leaves some of them for later.
pub(crate) fn settle(
    alloc: Global,
    base: &mut Base,
    notes: &Notes,
    done: &mut usize,
) -> Result<(), OutOfMemory>
    requires { done.old ≤ length notes.now }
    ensures same { after_all base.new (drop done.new notes.now) ≡ after_all base.old (drop done.old notes.now) }
    ensures bound { done.new ≤ length notes.now }
    ensures ok { OnOk result (done.new ≡ length notes.now) }
{
    while *done < notes.as_slice().len() {
        base.apply(alloc, &notes.as_slice()[*done])?;
        *done += 1;
    }
    Ok(())
}

impl Base {
    // No data. Takes no memory.
    pub(crate) fn new(alloc: Global) -> Self
        ensures { result ≡ no_tables }
    {
        Base {
            tables: Vec::new(alloc),
            held: BTreeSet::new(alloc),
        }
    }
}
