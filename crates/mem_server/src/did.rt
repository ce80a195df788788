// What statements leave in data and session.
ghost use Rattle.std.specs.Prelude.{◌≡◌, ◌∷◌, [], ◌++◌, IfOk, OnOk};
ghost use Rattle.mem_rule.specs.Notes.{note_bytes};
ghost use Rattle.mem_rule.specs.Scenes as scenes;
ghost use Rattle.mem_rule.specs.Steps.{frees, plain_note, row_note, stays, write};

use crate::note::{behind, notes_of};
use crate::scene::Scene;
use mem_rule::{Answer, Did, Fault, Note, NoteKind, Notes, Place};
use mx_base::{Bytes, OutOfMemory};
use server_rule::Session;
use std::alloc::Global;

pub(crate) fn copy(alloc: Global, bytes: &Bytes) -> Result<Bytes, OutOfMemory>
    ensures { IfOk result (λ copy. copy ≡ bytes.now) }
{
    Bytes::from_slice(alloc, bytes.as_slice())
}

// Notes.

pub(crate) fn plain_note(alloc: Global, kind: NoteKind, key: &[u8]) -> Result<Note, OutOfMemory>
    ensures { IfOk result (λ note. note ≡ plain_note kind key.now) }
{
    Ok(Note {
        kind,
        key: Bytes::from_slice(alloc, key)?,
        id: 0,
        text: Bytes::new(alloc),
    })
}

pub(crate) fn row_note(
    alloc: Global,
    kind: NoteKind,
    key: &[u8],
    id: u64,
    text: &[u8],
) -> Result<Note, OutOfMemory>
    ensures { IfOk result (λ note. note ≡ row_note kind key.now id text.now) }
{
    let key = Bytes::from_slice(alloc, key)?;
    let text = Bytes::from_slice(alloc, text)?;
    Ok(Note {
        kind,
        key,
        id,
        text,
    })
}

pub(crate) fn put_plain(
    alloc: Global,
    out: &mut Notes,
    kind: NoteKind,
    key: &[u8],
) -> Result<(), OutOfMemory>
    ensures { OnOk result (out.new ≡ out.old ++ plain_note kind key.now ∷ []) }
{
    out.push(plain_note(alloc, kind, key)?)
}

// The lock on a table is free again.
pub(crate) fn put_freed(alloc: Global, out: &mut Notes, locks: &Bytes) -> Result<(), OutOfMemory>
    ensures { OnOk result (out.new ≡ out.old ++ frees locks.now) }
{
    if locks.as_slice().is_empty() {
        return Ok(());
    }
    put_plain(alloc, out, NoteKind::Freed, locks.as_slice())
}

// Answers.

pub(crate) fn done(rows: u64, id: u64) -> Answer
    ensures { result ≡ Answer.Done rows id }
{
    Answer::Done { rows, id }
}

// It is refused.
pub(crate) fn refuse(did: &mut Did, fault: Fault)
    ensures { did.new ≡ record did.old { answer = Answer.Refused fault } }
{
    did.answer = Answer::Refused { fault };
}

// What is left.

// Nothing but that it is done.
pub(crate) fn goes_on(alloc: Global, session: &Session) -> Result<Did, OutOfMemory>
    ensures { IfOk result (λ did. did ≡ record { writes = []; tx = session.now.tx; locks = session.now.locks; deep = session.now.deep; last_id = session.now.last_id; answer = Answer.Done 0 0 }) }
{
    let tx = copy(alloc, &session.tx)?;
    let locks = copy(alloc, &session.locks)?;
    let deep = copy(alloc, &session.deep)?;
    Ok(Did {
        writes: Notes::new(alloc),
        tx,
        locks,
        deep,
        last_id: session.last_id,
        answer: done(0, 0),
    })
}

// What is kept reaches the data, and no transaction is left.
pub(crate) fn commit(alloc: Global, c: &Scene, did: &mut Did) -> Result<(), OutOfMemory>
    ensures { OnOk result (did.new ≡ record did.old { writes = scenes.kept c.now; tx = [] }) }
{
    did.writes = notes_of(alloc, c.session.tx.as_slice())?;
    did.tx = Bytes::new(alloc);
    Ok(())
}

// What is left in the session has this note more.
pub(crate) fn goes_on_with(
    alloc: Global,
    c: &Scene,
    note: &Note,
    did: &mut Did,
) -> Result<(), OutOfMemory>
    ensures { OnOk result (did.new ≡ record did.old { deep = c.now.deep ++ note_bytes note.now }) }
{
    did.deep = behind(alloc, c.session.deep.as_slice(), note)?;
    Ok(())
}

// So has the transaction.
fn keeps(alloc: Global, c: &Scene, note: &Note, did: &mut Did) -> Result<(), OutOfMemory>
    ensures { OnOk result (did.new ≡ record did.old { tx = c.now.tx ++ note_bytes note.now }) }
{
    did.tx = behind(alloc, c.session.tx.as_slice(), note)?;
    Ok(())
}

// A write, to the temporary table, into the transaction, or to the data.
pub(crate) fn write(
    alloc: Global,
    c: &Scene,
    note: Note,
    rows: u64,
    id: u64,
    did: &mut Did,
) -> Result<(), OutOfMemory>
    requires { did.old ≡ stays c.now (Answer.Done 0 0) }
    ensures { OnOk result (did.new ≡ write c.now note (Answer.Done rows id)) }
{
    did.answer = done(rows, id);
    match c.place() {
        Place::Temporary => goes_on_with(alloc, c, &note, did),
        Place::There(_) if c.keeps() => keeps(alloc, c, &note, did),
        Place::There(_) => did.writes.push(note),
        _ => Ok(()),
    }
}
