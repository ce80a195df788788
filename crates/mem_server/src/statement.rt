// What statements do.
ghost use Rattle.std.specs.Prelude.{◌≡◌, ◌∷◌, [], ◌++◌, IfOk, OnOk, Some, codes, decimal, option_copied};
ghost use Rattle.session_vars.specs.Slots.{slot_named};
ghost use Rattle.session_vars.specs.Texts as texts;
ghost use Rattle.mem_rule.specs.Notes.{note_bytes, text_bytes};
ghost use Rattle.mem_rule.specs.Scenes as scenes;
ghost use Rattle.mem_rule.specs.Steps.{cell, change, commit, create, create_temporary, does, frees, get_lock, goes_on_with, insert, insert_at, lock_by, on_table, plain_note, row_note, rows_do, select, show, show_id, shown_by, stays, table_fault, unlock, variable, variable_by, warning_by, warnings};

use crate::column::names;
use crate::did::{commit, goes_on_with, plain_note, put_freed, put_plain, refuse, row_note, write};
use crate::note::{behind, put_text};
use crate::scene::{Scene, named_lock, table_lock};
use itoa::Buffer;
use mem_rule::{Answer, Did, Fault, Form, Note, NoteKind, Place, Said};
use mx_base::{Bytes, OutOfMemory};
use session_vars::{Slot, SlotValue};
use std::alloc::Global;

// Rows.

fn insert_at(
    alloc: Global,
    c: &Scene,
    id: u64,
    text: &[u8],
    did: &mut Did,
) -> Result<(), OutOfMemory>
    requires { did.old ≡ stays c.now (Answer.Done 0 0) }
    ensures { OnOk result (did.new ≡ insert_at c.now id text.now) }
{
    if c.seen(id).is_some() {
        refuse(did, Fault::Duplicate);
        return Ok(());
    }
    let note = row_note(alloc, NoteKind::Put, c.schema.as_slice(), id, text)?;
    write(alloc, c, note, 1, id, did)
}

fn insert(alloc: Global, c: &Scene, text: &[u8], did: &mut Did) -> Result<(), OutOfMemory>
    requires { did.old ≡ stays c.now (Answer.Done 0 0) }
    ensures { OnOk result (did.new ≡ insert c.now text.now) }
{
    let most = c.greatest_id();
    if most == u64::MAX {
        refuse(did, Fault::Duplicate);
        return Ok(());
    }
    let note = row_note(alloc, NoteKind::Put, c.schema.as_slice(), most + 1, text)?;
    write(alloc, c, note, 1, most + 1, did)?;
    did.last_id = most + 1;
    Ok(())
}

// UPDATE and DELETE.
fn change(
    alloc: Global,
    kind: NoteKind,
    c: &Scene,
    id: u64,
    text: &[u8],
    did: &mut Did,
) -> Result<(), OutOfMemory>
    requires { did.old ≡ stays c.now (Answer.Done 0 0) }
    ensures { OnOk result (did.new ≡ change kind c.now id text.now) }
{
    if c.seen(id).is_none() {
        return Ok(());
    }
    let note = row_note(alloc, kind, c.schema.as_slice(), id, text)?;
    write(alloc, c, note, 1, 0, did)
}

// What is shown.

// A text behind its length.
fn text_bytes(alloc: Global, text: &[u8]) -> Result<Bytes, OutOfMemory>
    ensures { IfOk result (λ out. out ≡ text_bytes text.now) }
{
    let mut out = Vec::new(alloc);
    put_text(&mut out, text)?;
    Ok(Bytes::from_vec(out))
}

fn show(alloc: Global, column: &[u8], row: Option<Bytes>, did: &mut Did) -> Result<(), OutOfMemory>
    ensures { OnOk result (did.new ≡ record did.old { answer = Answer.Shown (column.now ∷ []) row }) }
{
    let columns = names(alloc, &[column])?;
    did.answer = Answer::Shown { columns, row };
    Ok(())
}

fn cell(alloc: Global, text: Option<&Bytes>) -> Result<Option<Bytes>, OutOfMemory>
    ensures { IfOk result (λ out. out ≡ cell (option_copied text.entry)) }
{
    match text {
        None => Ok(None),
        Some(text) => Ok(Some(text_bytes(alloc, text.as_slice())?)),
    }
}

fn select(alloc: Global, c: &Scene, id: u64, did: &mut Did) -> Result<(), OutOfMemory>
    requires { did.old ≡ stays c.now (Answer.Done 0 0) }
    ensures { OnOk result (did.new ≡ select c.now id) }
{
    let row = cell(alloc, c.seen(id))?;
    show(alloc, b"v", row, did)
}

fn show_number(alloc: Global, column: &[u8], n: u64, did: &mut Did) -> Result<(), OutOfMemory>
    ensures { OnOk result (did.new ≡ record did.old { answer = Answer.Shown (column.now ∷ []) (Some (text_bytes (decimal n))) }) }
{
    let mut buffer = Buffer::new();
    let row = text_bytes(alloc, buffer.format(n).as_bytes())?;
    show(alloc, column, Some(row), did)
}

// The insert id.
fn show_id(alloc: Global, c: &Scene, did: &mut Did) -> Result<(), OutOfMemory>
    requires { did.old ≡ stays c.now (Answer.Done 0 0) }
    ensures { OnOk result (did.new ≡ show_id c.now) }
{
    show_number(alloc, b"LAST_INSERT_ID()", c.session.last_id, did)
}

fn value_text(value: &SlotValue) -> &[u8]
    ensures { result.now ≡ texts.value_text value.now }
{
    match value {
        SlotValue::Default => b"DEFAULT",
        SlotValue::Text(text) => text.as_slice(),
    }
}

fn setting(alloc: Global, c: &Scene, name: &[u8], did: &mut Did) -> Result<(), OutOfMemory>
    requires { did.old ≡ stays c.now (Answer.Done 0 0) }
    ensures { OnOk result (did.new ≡ shown_by (slot_named name.now) c.now name.now) }
{
    let Some(slot) = Slot::named(name) else {
        refuse(did, Fault::Syntax);
        return Ok(());
    };
    let row = text_bytes(alloc, value_text(c.session.settings.value(slot)))?;
    show(alloc, name, Some(row), did)
}

fn variable_by(alloc: Global, note: Option<&Note>) -> Result<Bytes, OutOfMemory>
    ensures { IfOk result (λ row. row ≡ variable_by (option_copied note.entry)) }
{
    match note {
        None => Bytes::from_slice(alloc, &[251]),
        Some(note) => text_bytes(alloc, note.text.as_slice()),
    }
}

fn variable(alloc: Global, c: &Scene, name: &[u8], did: &mut Did) -> Result<(), OutOfMemory>
    requires { did.old ≡ stays c.now (Answer.Done 0 0) }
    ensures { OnOk result (did.new ≡ variable c.now name.now) }
{
    let row = variable_by(alloc, c.named(name))?;
    show(alloc, name, Some(row), did)
}

fn warning_row(alloc: Global, code: u64, message: &[u8]) -> Result<Bytes, OutOfMemory>
    ensures { IfOk result (λ row. row ≡ text_bytes (codes "Error") ++ (text_bytes (decimal code) ++ text_bytes message.now)) }
{
    let mut buffer = Buffer::new();
    let mut row = Vec::new(alloc);
    put_text(&mut row, b"Error")?;
    put_text(&mut row, buffer.format(code).as_bytes())?;
    put_text(&mut row, message)?;
    Ok(Bytes::from_vec(row))
}

fn warning_by(alloc: Global, diag: &[u8]) -> Result<Option<Bytes>, OutOfMemory>
    ensures { IfOk result (λ row. row ≡ warning_by diag.now) }
{
    match diag {
        [low, high, message @ ..] => {
            Ok(Some(warning_row(alloc, *low as u64 + 256 * *high as u64, message)?))
        }
        _ => Ok(None),
    }
}

fn warnings(alloc: Global, c: &Scene, did: &mut Did) -> Result<(), OutOfMemory>
    requires { did.old ≡ stays c.now (Answer.Done 0 0) }
    ensures { OnOk result (did.new ≡ warnings c.now) }
{
    let row = warning_by(alloc, c.session.diag.as_slice())?;
    let columns = names(alloc, &[b"Level", b"Code", b"Message"])?;
    did.answer = Answer::Shown { columns, row };
    Ok(())
}

// Transactions, tables and variables.

fn begin(alloc: Global, c: &Scene, did: &mut Did) -> Result<(), OutOfMemory>
    requires { did.old ≡ stays c.now (Answer.Done 0 0) }
    ensures { OnOk result (did.new ≡ commit c.now (note_bytes (plain_note NoteKind.Begun []))) }
{
    commit(alloc, c, did)?;
    let note = Note {
        kind: NoteKind::Begun,
        key: Bytes::new(alloc),
        id: 0,
        text: Bytes::new(alloc),
    };
    did.tx = behind(alloc, b"", &note)?;
    Ok(())
}

fn create(alloc: Global, c: &Scene, did: &mut Did) -> Result<(), OutOfMemory>
    requires { did.old ≡ stays c.now (Answer.Done 0 0) }
    ensures { OnOk result (did.new ≡ create c.now) }
{
    if c.is_locked(alloc)? {
        refuse(did, Fault::Locked);
        return Ok(());
    }
    commit(alloc, c, did)?;
    put_plain(
        alloc,
        &mut did.writes,
        NoteKind::Created,
        c.schema.as_slice(),
    )
}

fn create_temporary(alloc: Global, c: &Scene, did: &mut Did) -> Result<(), OutOfMemory>
    requires { did.old ≡ stays c.now (Answer.Done 0 0) }
    ensures { OnOk result (did.new ≡ create_temporary c.now) }
{
    if c.has_temporary() {
        return Ok(());
    }
    let note = plain_note(alloc, NoteKind::Created, c.schema.as_slice())?;
    goes_on_with(alloc, c, &note, did)
}

fn set_variable(
    alloc: Global,
    c: &Scene,
    name: &[u8],
    text: &[u8],
    did: &mut Did,
) -> Result<(), OutOfMemory>
    requires { did.old ≡ stays c.now (Answer.Done 0 0) }
    ensures { OnOk result (did.new ≡ goes_on_with c.now (c.now.deep ++ note_bytes (row_note NoteKind.Named name.now 0 text.now))) }
{
    let note = row_note(alloc, NoteKind::Named, name, 0, text)?;
    goes_on_with(alloc, c, &note, did)
}

// Locks.

fn takes_table(alloc: Global, c: &Scene, did: &mut Did) -> Result<(), OutOfMemory>
    requires { did.old ≡ stays c.now (Answer.Done 0 0) }
    ensures { OnOk result (did.new ≡ record (commit c.now []) { writes = (scenes.kept c.now ++ frees c.now.locks) ++ plain_note NoteKind.Held (scenes.table_lock c.now.schema) ∷ []; locks = scenes.table_lock c.now.schema }) }
{
    commit(alloc, c, did)?;
    put_freed(alloc, &mut did.writes, &c.session.locks)?;
    did.locks = table_lock(alloc, c.schema.as_slice())?;
    put_plain(alloc, &mut did.writes, NoteKind::Held, did.locks.as_slice())
}

fn lock_table(alloc: Global, c: &Scene, did: &mut Did) -> Result<(), OutOfMemory>
    requires { did.old ≡ stays c.now (Answer.Done 0 0) }
    ensures { OnOk result (did.new ≡ lock_by (scenes.place c.now) c.now) }
{
    match c.place() {
        Place::There(_) => takes_table(alloc, c, did),
        _ => commit(alloc, c, did),
    }
}

fn unlock(alloc: Global, c: &Scene, did: &mut Did) -> Result<(), OutOfMemory>
    requires { did.old ≡ stays c.now (Answer.Done 0 0) }
    ensures { OnOk result (did.new ≡ unlock c.now) }
{
    did.locks = Bytes::new(alloc);
    put_freed(alloc, &mut did.writes, &c.session.locks)
}

// The digit that tells whether the session has a lock by name.
fn show_lock(alloc: Global, digit: u8, did: &mut Did) -> Result<(), OutOfMemory>
    ensures { OnOk result (did.new ≡ record did.old { answer = Answer.Shown (codes "GET_LOCK" ∷ []) (Some (1 ∷ digit ∷ [])) }) }
{
    let row = Bytes::from_slice(alloc, &[1, digit])?;
    show(alloc, b"GET_LOCK", Some(row), did)
}

fn takes_lock(alloc: Global, c: &Scene, lock: &Bytes, did: &mut Did) -> Result<(), OutOfMemory>
    requires { did.old ≡ stays c.now (Answer.Done 0 0) }
    ensures { OnOk result (did.new ≡ record (show c.now (codes "GET_LOCK") (Some (1 ∷ 49 ∷ []))) { writes = plain_note NoteKind.Held lock.now ∷ []; deep = c.now.deep ++ note_bytes (plain_note NoteKind.Held lock.now) }) }
{
    let note = plain_note(alloc, NoteKind::Held, lock.as_slice())?;
    goes_on_with(alloc, c, &note, did)?;
    did.writes.push(note)?;
    show_lock(alloc, b'1', did)
}

fn get_lock(alloc: Global, c: &Scene, name: &[u8], did: &mut Did) -> Result<(), OutOfMemory>
    requires { did.old ≡ stays c.now (Answer.Done 0 0) }
    ensures { OnOk result (did.new ≡ get_lock c.now name.now) }
{
    let lock = named_lock(alloc, name)?;
    if c.takes(lock.as_slice()) {
        return show_lock(alloc, b'1', did);
    }
    if c.base.holds(&lock) {
        return show_lock(alloc, b'0', did);
    }
    takes_lock(alloc, c, &lock, did)
}

// Why a statement on the table is refused, where it is.
pub(crate) fn table_fault(c: &Scene) -> Option<Fault>
    ensures { result ≡ table_fault (scenes.place c.now) }
{
    match c.place() {
        Place::Absent => Some(Fault::NoTable),
        Place::Locked => Some(Fault::Locked),
        _ => None,
    }
}

// A statement on rows of the table.
fn on_table(alloc: Global, c: &Scene, said: &Said, did: &mut Did) -> Result<(), OutOfMemory>
    requires { did.old ≡ stays c.now (Answer.Done 0 0) }
    ensures { OnOk result (did.new ≡ on_table (scenes.place c.now) c.now (rows_do said.now.form said.now c.now)) }
{
    if let Some(fault) = table_fault(c) {
        refuse(did, fault);
        return Ok(());
    }
    match said.form {
        Form::InsertAt => insert_at(alloc, c, said.id, said.text.as_slice(), did),
        Form::Insert => insert(alloc, c, said.text.as_slice(), did),
        Form::Select => select(alloc, c, said.id, did),
        Form::Update => change(alloc, NoteKind::Put, c, said.id, said.text.as_slice(), did),
        Form::Delete => change(alloc, NoteKind::Removed, c, said.id, b"", did),
        Form::Count => show_number(alloc, b"COUNT(*)", c.row_count(), did),
        _ => lock_table(alloc, c, did),
    }
}

// What a statement does.
pub(crate) fn does(alloc: Global, said: &Said, c: &Scene, did: &mut Did) -> Result<(), OutOfMemory>
    requires { did.old ≡ stays c.now (Answer.Done 0 0) }
    ensures { OnOk result (did.new ≡ does said.now.form said.now c.now) }
{
    match said.form {
        Form::CreateTable => create(alloc, c, did),
        Form::CreateTemporary => create_temporary(alloc, c, did),
        Form::Begin => begin(alloc, c, did),
        Form::Commit => commit(alloc, c, did),
        Form::Rollback => {
            did.tx = Bytes::new(alloc);
            Ok(())
        }
        Form::Setting => setting(alloc, c, said.name.as_slice(), did),
        Form::SetVariable => {
            set_variable(alloc, c, said.name.as_slice(), said.text.as_slice(), did)
        }
        Form::Variable => variable(alloc, c, said.name.as_slice(), did),
        Form::SetId => {
            did.last_id = said.id;
            Ok(())
        }
        Form::Id => show_id(alloc, c, did),
        Form::Lock => get_lock(alloc, c, said.name.as_slice(), did),
        Form::UnlockTables => unlock(alloc, c, did),
        Form::Warnings => warnings(alloc, c, did),
        Form::Do => Ok(()),
        _ => on_table(alloc, c, said, did),
    }
}
