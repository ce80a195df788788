// Notes as bytes: what a session keeps.
ghost use Rattle.std.specs.Prelude.{◌≡◌, ◌++◌, IfOk, OnOk};
ghost use Rattle.std.specs.List.{list_any};
ghost use Rattle.mem_rule.specs.Notes.{code_of, is_row, kind_coded, note_at, note_bytes, notes_of, text_at, text_bytes};
ghost use Rattle.mem_rule.specs.Scenes.{is_put_kind};

use mem_rule::{Note, NoteKind, Notes};
use mx_base::{Bytes, Field, OutOfMemory, get_lenenc, get_u8, put_lenenc};
use std::alloc::Global;

fn code(kind: NoteKind) -> u8
    ensures { result ≡ code_of kind }
{
    match kind {
        NoteKind::Begun => 2,
        NoteKind::Put => 3,
        NoteKind::Removed => 4,
        NoteKind::Created => 5,
        NoteKind::Held => 6,
        NoteKind::Freed => 7,
        NoteKind::Named => 8,
    }
}

fn coded(code: u8) -> Option<NoteKind>
    ensures { result ≡ kind_coded code }
{
    match code {
        2 => Some(NoteKind::Begun),
        3 => Some(NoteKind::Put),
        4 => Some(NoteKind::Removed),
        5 => Some(NoteKind::Created),
        6 => Some(NoteKind::Held),
        7 => Some(NoteKind::Freed),
        8 => Some(NoteKind::Named),
        _ => None,
    }
}

// Appends a text behind its length.
pub(crate) fn put_text(out: &mut Vec<u8>, text: &[u8]) -> Result<(), OutOfMemory>
    ensures { OnOk result (out.new.items ≡ out.old.items ++ text_bytes text.now) }
{
    put_lenenc(out, text.len() as u64)?;
    out.extend_from_slice(text)?;
    Ok(())
}

// The text of so many bytes at a place, and the place behind it.
pub(crate) fn text_at(
    alloc: Global,
    bytes: &[u8],
    at: usize,
) -> Result<Option<(Bytes, usize)>, OutOfMemory>
    ensures { IfOk result (λ got. got ≡ text_at at bytes.now) }
{
    let Field::Value { n, next } = get_lenenc(bytes, at) else {
        return Ok(None);
    };
    let left = bytes.len().saturating_sub(next);
    if n > left as u64 {
        return Ok(None);
    }
    let end = next + n as usize;
    Ok(Some((Bytes::from_slice(alloc, &bytes[next..end])?, end)))
}

// The note at a place, and the place behind it.
fn note_at(alloc: Global, bytes: &[u8], at: usize) -> Result<Option<(Note, usize)>, OutOfMemory>
    ensures { IfOk result (λ got. got ≡ note_at at bytes.now) }
{
    let Some(code) = get_u8(bytes, at) else {
        return Ok(None);
    };
    let Some(kind) = coded(code) else {
        return Ok(None);
    };
    let Field::Value { n: id, next } = get_lenenc(bytes, at + 1) else {
        return Ok(None);
    };
    let Some((key, next)) = text_at(alloc, bytes, next)? else {
        return Ok(None);
    };
    let Some((text, next)) = text_at(alloc, bytes, next)? else {
        return Ok(None);
    };
    Ok(Some((
        Note {
            kind,
            key,
            id,
            text,
        },
        next,
    )))
}

// These bytes and behind them the note.
pub(crate) fn behind(alloc: Global, bytes: &[u8], note: &Note) -> Result<Bytes, OutOfMemory>
    ensures { IfOk result (λ out. out ≡ bytes.now ++ note_bytes note.now) }
{
    let mut out = bytes.to_vec(alloc)?;
    out.push(code(note.kind))?;
    put_lenenc(&mut out, note.id)?;
    put_text(&mut out, note.key.as_slice())?;
    put_text(&mut out, note.text.as_slice())?;
    Ok(Bytes::from_vec(out))
}

// The notes that stand in these bytes.
pub(crate) fn notes_of(alloc: Global, bytes: &[u8]) -> Result<Notes, OutOfMemory>
    ensures { IfOk result (λ notes. notes ≡ notes_of bytes.now) }
{
    let mut notes = Notes::new(alloc);
    let mut at = 0;
    let mut left = bytes.len();
    while left > 0 {
        match note_at(alloc, bytes, at)? {
            None => return Ok(notes),
            Some((note, next)) => {
                notes.push(note)?;
                at = next;
                left -= 1;
            }
        }
    }
    Ok(notes)
}

// Whether a note puts a row.
pub(crate) fn puts(note: &Note) -> bool
    ensures { result ≡ is_put_kind note.now.kind }
{
    matches!(note.kind, NoteKind::Put)
}

// Whether a note says what became of this row.
pub(crate) fn is_row(note: &Note, schema: &[u8], id: u64) -> bool
    ensures { result ≡ is_row schema.now id note.now }
{
    matches!(note.kind, NoteKind::Put | NoteKind::Removed)
        && note.id == id
        && note.key.as_slice() == schema
}

// Whether one of these notes does.
pub(crate) fn has_row(notes: &[Note], schema: &[u8], id: u64) -> bool
    ensures { result ≡ list_any (is_row schema.now id) notes.now }
{
    notes.iter().any(|note| is_row(note, schema, id))
}
