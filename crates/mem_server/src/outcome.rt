// What commands do to their sessions. All that takes memory comes first, so that OutOfMemory changes nothing.
ghost use Rattle.std.specs.Prelude.{◌≡◌, ◌++◌, ◌∷◌, [], IfOk, OnOk, OnErr, filter, map};
ghost use Rattle.session_vars.specs.Settings.{applied};
ghost use Rattle.mem_rule.specs.Answers.{diag_of, ok_payload, payloads_of, status};
ghost use Rattle.mem_rule.specs.Commands.{chooses, diag_behind, ends, fails, freed, holds_lock, ran_by, tracks};
ghost use Rattle.mem_rule.specs.Notes.{notes_of};
ghost use Rattle.mem_rule.specs.Steps.{frees};

use crate::answer::{diag, lone, ok_reply, payloads, status};
use crate::did::{copy, put_freed, put_plain};
use crate::fault::{err_payload, fault_bytes};
use crate::note::notes_of;
use crate::scene::is_off;
use mem_rule::{Answer, Did, Fault, Form, Note, NoteKind, Notes};
use mx_base::{Bytes, OutOfMemory};
use server_rule::{ReplyList, Session};
use session_vars::{Change, Settings};
use std::alloc::Global;

// What is done to the data, as notes; and the payloads of the reply.
#[derive(Drop)]
pub(crate) struct Outcome {
    pub(crate) writes: Notes,
    pub(crate) reply: ReplyList,
}

pub(crate) fn fails(alloc: Global, fault: Fault, s: &mut Session) -> Result<Outcome, OutOfMemory>
    ensures ok { IfOk result (λ out. fails fault s.old ≡ record { writes = out.writes; session = s.new; reply = out.reply }) }
    ensures err { OnErr result (s.new ≡ s.old) }
{
    let diag = fault_bytes(alloc, fault)?;
    let reply = lone(alloc, err_payload(alloc, fault)?)?;
    s.diag = diag;
    Ok(Outcome {
        writes: Notes::new(alloc),
        reply,
    })
}

// INIT_DB and USE.
pub(crate) fn chooses(alloc: Global, schema: &[u8], s: &mut Session) -> Result<Outcome, OutOfMemory>
    ensures ok { IfOk result (λ out. chooses schema.now s.old ≡ record { writes = out.writes; session = s.new; reply = out.reply }) }
    ensures err { OnErr result (s.new ≡ s.old) }
{
    let schema = Bytes::from_slice(alloc, schema)?;
    let reply = ok_reply(alloc, status(&s.tx, &s.settings), 0, 0)?;
    s.schema = schema;
    s.diag = Bytes::new(alloc);
    Ok(Outcome {
        writes: Notes::new(alloc),
        reply,
    })
}

fn applied(settings: &Settings, changes: &[Change]) -> Result<Settings, OutOfMemory>
    ensures { IfOk result (λ new. new ≡ applied settings.now changes.now) }
{
    let mut new = settings.copy()?;
    new.apply(changes)?;
    Ok(new)
}

// The outcome of settings that turn autocommit on, which commits first.
fn committed(alloc: Global, tx: &Bytes) -> Result<Outcome, OutOfMemory>
    ensures { IfOk result (λ out. (out.writes ≡ notes_of tx.now) × (out.reply ≡ ok_payload 2 0 0 ∷ [])) }
{
    let writes = notes_of(alloc, tx.as_slice())?;
    let reply = ok_reply(alloc, 2, 0, 0)?;
    Ok(Outcome { writes, reply })
}

// That of all others.
fn settled(alloc: Global, tx: &Bytes, settings: &Settings) -> Result<Outcome, OutOfMemory>
    ensures { IfOk result (λ out. (out.writes ≡ []) × (out.reply ≡ ok_payload (status tx.now settings.now) 0 0 ∷ [])) }
{
    let reply = ok_reply(alloc, status(tx, settings), 0, 0)?;
    Ok(Outcome {
        writes: Notes::new(alloc),
        reply,
    })
}

// A SET of tracked settings.
pub(crate) fn tracks(
    alloc: Global,
    changes: &[Change],
    s: &mut Session,
) -> Result<Outcome, OutOfMemory>
    ensures ok { IfOk result (λ out. tracks changes.now s.old ≡ record { writes = out.writes; session = s.new; reply = out.reply }) }
    ensures err { OnErr result (s.new ≡ s.old) }
{
    let settings = applied(&s.settings, changes)?;
    if is_off(&s.settings) && !is_off(&settings) {
        let out = committed(alloc, &s.tx)?;
        s.tx = Bytes::new(alloc);
        s.settings = settings;
        s.diag = Bytes::new(alloc);
        return Ok(out);
    }
    let out = settled(alloc, &s.tx, &settings)?;
    s.settings = settings;
    s.diag = Bytes::new(alloc);
    Ok(out)
}

// What a statement leaves to be shown.
fn diag_behind(
    alloc: Global,
    form: Form,
    old: &Bytes,
    answer: &Answer,
) -> Result<Bytes, OutOfMemory>
    ensures { IfOk result (λ new. new ≡ diag_behind form old.now (diag_of answer.now)) }
{
    match form {
        Form::Warnings => copy(alloc, old),
        _ => diag(alloc, answer),
    }
}

// What a statement that did this leaves to be shown, and its reply.
fn told(
    alloc: Global,
    is_binary: bool,
    form: Form,
    s: &Session,
    did: &Did,
) -> Result<(Bytes, ReplyList), OutOfMemory>
    ensures { IfOk result (λ got. (got.0 ≡ diag_behind form s.now.diag (diag_of did.now.answer)) × (got.1 ≡ payloads_of is_binary (status did.now.tx s.now.settings) did.now.answer)) }
{
    let diag = diag_behind(alloc, form, &s.diag, &did.answer)?;
    let reply = payloads(alloc, is_binary, status(&did.tx, &s.settings), &did.answer)?;
    Ok((diag, reply))
}

// What a statement did.
pub(crate) fn ran_by(
    alloc: Global,
    is_binary: bool,
    form: Form,
    s: &mut Session,
    did: Did,
) -> Result<Outcome, OutOfMemory>
    ensures ok { IfOk result (λ out. ran_by is_binary form s.old did ≡ record { writes = out.writes; session = s.new; reply = out.reply }) }
    ensures err { OnErr result (s.new ≡ s.old) }
{
    let (diag, reply) = told(alloc, is_binary, form, s, &did)?;
    s.tx = did.tx;
    s.locks = did.locks;
    s.deep = did.deep;
    s.last_id = did.last_id;
    s.diag = diag;
    Ok(Outcome {
        writes: did.writes,
        reply,
    })
}

// The locks that notes hold are free again.
fn put_all_freed(alloc: Global, out: &mut Notes, notes: &[Note]) -> Result<(), OutOfMemory>
    ensures { OnOk result (out.new ≡ out.old ++ map freed (filter holds_lock notes.now)) }
{
    for note in notes {
        if matches!(note.kind, NoteKind::Held) {
            put_plain(alloc, out, NoteKind::Freed, note.key.as_slice())?;
        }
    }
    Ok(())
}

// The locks of a session are free again.
fn all_freed(alloc: Global, s: &Session) -> Result<Notes, OutOfMemory>
    ensures { IfOk result (λ notes. notes ≡ frees s.now.locks ++ map freed (filter holds_lock (notes_of s.now.deep))) }
{
    let deep = notes_of(alloc, s.deep.as_slice())?;
    let mut writes = Notes::new(alloc);
    put_freed(alloc, &mut writes, &s.locks)?;
    put_all_freed(alloc, &mut writes, deep.as_slice())?;
    Ok(writes)
}

// The end of a session.
pub(crate) fn ends(alloc: Global, s: &mut Session, reply: ReplyList) -> Result<Outcome, OutOfMemory>
    ensures ok { IfOk result (λ out. ends s.old reply ≡ record { writes = out.writes; session = s.new; reply = out.reply }) }
    ensures err { OnErr result (s.new ≡ s.old) }
{
    let writes = all_freed(alloc, s)?;
    let settings = Settings::defaults(alloc)?;
    s.settings = settings;
    s.tx = Bytes::new(alloc);
    s.locks = Bytes::new(alloc);
    s.deep = Bytes::new(alloc);
    s.last_id = 0;
    s.diag = Bytes::new(alloc);
    Ok(Outcome { writes, reply })
}
