// What a session sees of the table of a schema.
ghost use Rattle.std.specs.Prelude.{◌≡◌, ◌≤◌, ◌<◌, ◌^◌, ◌&&◌, IfOk, find, fold, is_some, length, not, option_copied, reverse};
ghost use Rattle.std.specs.List.{list_any};
ghost use Rattle.mem_rule.specs.Answers.{is_off_in};
ghost use Rattle.mem_rule.specs.Scenes as scenes;
ghost use Rattle.mem_rule.specs.Scenes.{added, creates, greater, is_last, is_locked, is_put_kind, named_lock, names, place_by, put_text, table_lock, taken, takes};
ghost use Rattle.mem_rule.specs.Notes.{is_row};
ghost use Rattle.mem_rule.specs.Tables.{greatest, row_at};

use crate::note::{has_row, is_row, notes_of, puts};
use crate::store::Base;
use crate::table::Table;
use mem_rule::{Note, NoteKind, Notes, Place};
use mx_base::{Bytes, OutOfMemory};
use server_rule::Session;
use session_vars::{Settings, Slot, SlotValue};
use sql_tokens::same_text;
use std::alloc::Global;
use std::marker::Model;

// A statement in its session.
#[derive(Drop)]
pub(crate) struct Scene<'a> {
    pub(crate) base: &'a Base,
    pub(crate) session: &'a Session,
    pub(crate) schema: &'a Bytes,
    pub(crate) kept: Notes,
    pub(crate) deep: Notes,
    pub(crate) place: Place,
}

impl<'a> Model for Scene<'a> {
    ghost use Rattle.std.specs.Prelude.{◌≡◌};
    ghost use Rattle.mem_rule.specs.Notes.{notes_of};
    ghost use Rattle.mem_rule.specs.Scenes.{Scene, place_in};

    ghost Value = { Scene };

    ghost view = { λ c. record { tables = c.base.now; tx = c.session.now.tx; locks = c.session.now.locks; deep = c.session.now.deep; settings = c.session.now.settings; last_id = c.session.now.last_id; diag = c.session.now.diag; schema = c.schema.now } };

    ghost invariant = { λ c. (c.kept ≡ notes_of c.session.now.tx) × (c.deep ≡ notes_of c.session.now.deep) × (c.place ≡ place_in c.base.now c.session.now.locks (notes_of c.session.now.deep) c.schema.now) };
}

// The name of the lock on the table of a schema.
pub(crate) fn table_lock(alloc: Global, schema: &[u8]) -> Result<Bytes, OutOfMemory>
    ensures { IfOk result (λ name. name ≡ table_lock schema.now) }
{
    let mut name = Bytes::from_slice(alloc, b"t")?;
    name.append(schema)?;
    Ok(name)
}

// The name of a lock by name.
pub(crate) fn named_lock(alloc: Global, name: &[u8]) -> Result<Bytes, OutOfMemory>
    ensures { IfOk result (λ lock. lock ≡ named_lock name.now) }
{
    let mut lock = Bytes::from_slice(alloc, b"n")?;
    lock.append(name)?;
    Ok(lock)
}

// Whether another session holds the lock on the table of a schema.
fn is_locked(alloc: Global, base: &Base, locks: &Bytes, schema: &[u8]) -> Result<bool, OutOfMemory>
    ensures { IfOk result (λ locked. locked ≡ is_locked base.now locks.now schema.now) }
{
    let name = table_lock(alloc, schema)?;
    Ok(base.holds(&name) && *locks != name)
}

fn creates(notes: &[Note], schema: &[u8]) -> bool
    ensures { result ≡ list_any (creates schema.now) notes.now }
{
    notes.iter().any(|note| matches!(note.kind, NoteKind::Created) && note.key.as_slice() == schema)
}

fn place_by(temporary: bool, locked: bool, at: Option<usize>) -> Place
    ensures { result ≡ place_by temporary locked at }
{
    if temporary {
        return Place::Temporary;
    }
    match at {
        None => Place::Absent,
        Some(_) if locked => Place::Locked,
        Some(at) => Place::There(at),
    }
}

// Whether autocommit is off.
pub(crate) fn is_off(settings: &Settings) -> bool
    ensures { result ≡ is_off_in settings.now }
{
    match settings.value(Slot::Autocommit) {
        SlotValue::Default => false,
        SlotValue::Text(text) => {
            text.as_slice() == b"0".as_slice() || same_text(text.as_slice(), b"OFF")
        }
    }
}

// The text that a note gives its row.
fn put_text(note: &Note) -> Option<&Bytes>
    ensures { option_copied result ≡ put_text note.now.kind note.now.text }
{
    match note.kind {
        NoteKind::Put => Some(&note.text),
        _ => None,
    }
}

// The text of a row in a table, where there is one.
fn row_at<'a>(table: Option<&'a Table>, id: u64) -> Option<&'a Bytes>
    ensures { option_copied result ≡ row_at (scenes.rows_of (option_copied table.entry)) id }
{
    match table {
        None => None,
        Some(table) => table.row(id),
    }
}

// The last note of a row.
fn last_note<'a>(notes: &'a [Note], schema: &[u8], id: u64) -> Option<&'a Note>
    ensures { option_copied result ≡ find (is_row schema.now id) (reverse notes.now) }
{
    notes.iter().rev().find(|note| is_row(note, schema, id))
}

// The greater of a number and of the id of a row that a note puts.
fn greater(schema: &[u8], most: u64, note: &Note) -> u64
    ensures { result ≡ greater schema.now most note.now }
{
    if puts(note) && note.key.as_slice() == schema && most < note.id {
        note.id
    } else {
        most
    }
}

// The greatest of a number and of the ids of rows that notes put.
fn greatest_put(schema: &[u8], most: u64, notes: &[Note]) -> u64
    ensures { result ≡ fold (greater schema.now) most notes.now }
{
    let mut greatest = most;
    for note in notes {
        greatest = greater(schema, greatest, note);
    }
    greatest
}

// The greatest id of a row of a table, where there is one.
fn greatest_row(table: Option<&Table>) -> u64
    ensures { result ≡ greatest (scenes.rows_of (option_copied table.entry)) }
{
    match table {
        None => 0,
        Some(table) => table.greatest(),
    }
}

// How many rows a table has, where there is one.
fn count_rows(table: Option<&Table>) -> usize
    ensures count { result ≡ length (scenes.rows_of (option_copied table.entry)) }
    ensures small { result < 2 ^ 63 }
{
    match table {
        None => 0,
        Some(table) => table.count(),
    }
}

// Whether a note is the last one of its row.
fn is_last(schema: &[u8], note: &Note, later: &[Note]) -> bool
    ensures { result ≡ is_last schema.now note.now later.now }
{
    is_row(note, schema, note.id) && !has_row(later, schema, note.id)
}

// Whether a note is the last one of its row, and adds it to those of a table.
fn adds(table: Option<&Table>, schema: &[u8], note: &Note, later: &[Note]) -> bool
    ensures { result ≡ is_last schema.now note.now later.now && is_put_kind note.now.kind && not (is_some (row_at (scenes.rows_of (option_copied table.entry)) note.now.id)) }
{
    is_last(schema, note, later) && puts(note) && row_at(table, note.id).is_none()
}

// Whether a note is the last one of its row, and takes it away.
fn takes_away(table: Option<&Table>, schema: &[u8], note: &Note, later: &[Note]) -> bool
    ensures { result ≡ is_last schema.now note.now later.now && not (is_put_kind note.now.kind) && is_some (row_at (scenes.rows_of (option_copied table.entry)) note.now.id) }
{
    is_last(schema, note, later) && !puts(note) && row_at(table, note.id).is_some()
}

// How many rows notes add to those of a table.
fn added(table: Option<&Table>, schema: &[u8], notes: &[Note]) -> usize
    ensures count { result ≡ added (scenes.rows_of (option_copied table.entry)) schema.now notes.now }
    ensures bound { result ≤ length notes.now }
{
    let mut count = 0;
    let mut left = notes;
    while let [note, later @ ..] = left {
        if adds(table, schema, note, later) {
            count += 1;
        }
        left = later;
    }
    count
}

// How many rows they take away.
fn taken(table: Option<&Table>, schema: &[u8], notes: &[Note]) -> usize
    ensures count { result ≡ taken (scenes.rows_of (option_copied table.entry)) schema.now notes.now }
    ensures bound { result ≤ length notes.now }
{
    let mut count = 0;
    let mut left = notes;
    while let [note, later @ ..] = left {
        if takes_away(table, schema, note, later) {
            count += 1;
        }
        left = later;
    }
    count
}

impl<'a> Scene<'a> {
    pub(crate) fn new(
        alloc: Global,
        base: &'a Base,
        session: &'a Session,
        schema: &'a Bytes,
    ) -> Result<Self, OutOfMemory>
        ensures { IfOk result (λ c. c ≡ record { tables = base.now; tx = session.now.tx; locks = session.now.locks; deep = session.now.deep; settings = session.now.settings; last_id = session.now.last_id; diag = session.now.diag; schema = schema.now }) }
    {
        let kept = notes_of(alloc, session.tx.as_slice())?;
        let deep = notes_of(alloc, session.deep.as_slice())?;
        let locked = is_locked(alloc, base, &session.locks, schema.as_slice())?;
        let temporary = creates(deep.as_slice(), schema.as_slice());
        let place = place_by(temporary, locked, base.place(schema.as_slice()));
        Ok(Scene {
            base,
            session,
            schema,
            kept,
            deep,
            place,
        })
    }

    // The table, where it is in the data.
    fn table(&self) -> Option<&Table>
        ensures { option_copied result ≡ scenes.table_in self.now.tables (scenes.place self.now) }
    {
        match self.place {
            Place::There(at) => self.base.table(at),
            _ => None,
        }
    }

    // The notes on its rows.
    fn notes(&self) -> &[Note]
        ensures notes { result.now ≡ scenes.notes self.now }
        ensures small { length result.now < 2 ^ 63 }
    {
        match self.place {
            Place::Temporary => self.deep.as_slice(),
            _ => self.kept.as_slice(),
        }
    }

    // Where the table is.
    pub(crate) fn place(&self) -> Place
        ensures { result ≡ scenes.place self.now }
    {
        self.place
    }

    // The text of a row.
    pub(crate) fn seen(&self, id: u64) -> Option<&Bytes>
        ensures { option_copied result ≡ scenes.seen self.now id }
    {
        match last_note(self.notes(), self.schema.as_slice(), id) {
            None => row_at(self.table(), id),
            Some(note) => put_text(note),
        }
    }

    // The greatest id of a row, 0 where there is none.
    pub(crate) fn greatest_id(&self) -> u64
        ensures { result ≡ scenes.greatest_id self.now }
    {
        let most = greatest_row(self.table());
        greatest_put(self.schema.as_slice(), most, self.notes())
    }

    // Whether writes are kept.
    pub(crate) fn keeps(&self) -> bool
        ensures { result ≡ scenes.keeps self.now }
    {
        !self.session.tx.as_slice().is_empty() || is_off(&self.session.settings)
    }

    // Whether the session has a temporary table of the schema.
    pub(crate) fn has_temporary(&self) -> bool
        ensures { result ≡ list_any (creates self.now.schema) (scenes.deep_notes self.now) }
    {
        creates(self.deep.as_slice(), self.schema.as_slice())
    }

    // Whether another session holds the lock on the table of the data.
    pub(crate) fn is_locked(&self, alloc: Global) -> Result<bool, OutOfMemory>
        ensures { IfOk result (λ locked. locked ≡ is_locked self.now.tables self.now.locks self.now.schema) }
    {
        is_locked(
            alloc,
            self.base,
            &self.session.locks,
            self.schema.as_slice(),
        )
    }

    // Whether the session holds the lock of this name.
    pub(crate) fn takes(&self, name: &[u8]) -> bool
        ensures { result ≡ list_any (takes name.now) (scenes.deep_notes self.now) }
    {
        self.deep.as_slice().iter().any(|note| matches!(note.kind, NoteKind::Held)
            && note.key.as_slice() == name)
    }

    // The note that gives a variable its value.
    pub(crate) fn named(&self, name: &[u8]) -> Option<&Note>
        ensures { option_copied result ≡ find (names name.now) (reverse (scenes.deep_notes self.now)) }
    {
        self.deep.as_slice().iter().rev().find(|note| matches!(note.kind, NoteKind::Named)
            && note.key.as_slice() == name)
    }

    // How many rows the session sees.
    pub(crate) fn row_count(&self) -> u64
        ensures { result ≡ scenes.row_count self.now }
    {
        let table = self.table();
        let there = count_rows(table);
        let added = added(table, self.schema.as_slice(), self.notes());
        let taken = taken(table, self.schema.as_slice(), self.notes());
        (there as u64 + added as u64).saturating_sub(taken as u64)
    }
}
