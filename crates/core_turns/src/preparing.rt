// A client's text is to be prepared, or what it prepared is executed.
ghost use Rattle.std.specs.Prelude.{◌≡◌, IfOk, OnOk, Some};
ghost use Rattle.pin_classifier.specs.Classes.{class_of};
ghost use Rattle.core_tables.specs.Tables.{tables_of};
ghost use Rattle.core_tables.specs.Taking.{IsUpOr, bare_work};
ghost use Rattle.core_tables.specs.declared.client.Client.{Client};
ghost use Rattle.core_texts.specs.Texts.{AreMore, key_at};
ghost use Rattle.core_turns.specs.Preparing.{IsDueToPrepare, IsDueToRun, IsRunKey, stays_in};
ghost use Rattle.marked_tables.specs.Goes.{GoesOn};

use crate::judged::Named;
use client_desk::{Body, Work};
use core_tables::Tables;
use core_texts::{Texts, copy_of};
use link_state::{Command, Form};
use marked_tables::MarkedTables;
use message_judge::Prepared;
use mx_base::{Bytes, ClientNo, Hostgroup, OutOfMemory};
use pin_classifier::Class;
use session_state::Place;
use session_vars::Settings;
use std::alloc::Global;

// A statement that becomes due, of which nothing is spelt yet.
fn work_of(
    ordinal: u64,
    hostgroup: Hostgroup,
    since_ms: u64,
    multiplex: Option<bool>,
    key: u64,
    command: Command,
    form: Form,
) -> Work
    ensures { result ≡ bare_work ordinal hostgroup since_ms multiplex key command form }
{
    let marks = form.marks();
    Work {
        ordinal,
        hostgroup,
        since_ms,
        anew: true,
        multiplex,
        key,
        command,
        marks,
        form: Some(form),
        body: Body::Away,
        sent: false,
    }
}

// The number of a text at the place where its client stands.
#[tactic(auto, unfolding(core_tables::specs::Tables::tables_of))]
fn key_of(
    tables: &Tables,
    texts: &mut Texts,
    alloc: Global,
    client: ClientNo,
    text: &Bytes,
    class: &Class,
) -> Result<u64, OutOfMemory>
    requires up { IsUpOr ((tables_of tables.now).clients client) }
    requires class { class.now ≡ class_of text.now }
    ensures key { IfOk result (λ key. (row : Client) → (tables_of tables.now).clients client ≡ Some row
        → key_at texts.new key ≡ Some (record { text = text.now; place = row.desk.seat.place })) }
    ensures more { OnOk result (AreMore texts.old texts.new) }
{
    let Some(row) = tables.clients.get(&client.0) else {
        unreachable!()
    };
    let class = copy_of(alloc, class)?;
    texts.take(&row.desk.seat.place, text.as_slice(), class)
}

/// It goes to a server in this hostgroup to be prepared, and a statement becomes due.
pub(crate) fn becomes_prepared(
    marked: &mut MarkedTables,
    texts: &mut Texts,
    alloc: Global,
    client: ClientNo,
    ordinal: u64,
    flag: u16,
    hostgroup: Hostgroup,
    text: &Bytes,
    multiplex: Option<bool>,
    class: Class,
    clock: u64,
) -> Result<(), OutOfMemory>
    requires up { IsUpOr ((tables_of marked.old.tables).clients client) }
    requires class { class ≡ class_of text.now }
    ensures is { OnOk result (IsDueToPrepare ordinal flag clock hostgroup text.now multiplex class client texts.new
        (tables_of marked.old.tables) (tables_of marked.new.tables)) }
    ensures goes { OnOk result (GoesOn marked.old marked.new) }
    ensures more { OnOk result (AreMore texts.old texts.new) }
{
    let key = key_of(&marked.tables, texts, alloc, client, text, &class)?;
    let work = work_of(
        ordinal,
        hostgroup,
        clock,
        multiplex,
        key,
        Command::Prepare,
        Form::Prepare(class),
    );
    let is_due = marked.due_as(client, flag, Some(text.as_slice()), work)?;
    if is_due { Ok(()) } else { Err(OutOfMemory) }
}

// The schema in which a client stands.
#[tactic(auto, unfolding(core_tables::specs::Tables::tables_of))]
fn schema_of(tables: &Tables, client: ClientNo) -> &[u8]
    requires { IsUpOr ((tables_of tables.now).clients client) }
    ensures { (row : Client) → (tables_of tables.now).clients client ≡ Some row → result.now ≡ row.desk.seat.place.schema }
{
    match tables.clients.get(&client.0) {
        Some(row) => row.desk.seat.place.schema.as_slice(),
        None => &[],
    }
}

// Whether what was prepared in this schema is executed in it by a client that stands in the other: else one of them is none, and no
// step leads a link out of its schema.
fn stays_in(prepared: &[u8], stands: &[u8]) -> bool
    ensures { result ≡ stays_in prepared.now stands.now }
{
    match (prepared, stands) {
        ([], []) => true,
        ([], [_, ..]) => false,
        ([_, ..], []) => false,
        ([_, ..], [_, ..]) => true,
    }
}

fn place_in(alloc: Global, schema: &[u8], settings: &Settings) -> Result<Place, OutOfMemory>
    ensures { IfOk result (λ place. place ≡ record { schema = schema.now; settings = settings.now }) }
{
    Ok(Place {
        schema: Bytes::from_slice(alloc, schema)?,
        settings: settings.copy()?,
    })
}

// The number by which an execute goes: that of its preparation, or of the same text where its client stands, with the settings of the
// preparation.
fn run_key(
    tables: &Tables,
    texts: &mut Texts,
    alloc: Global,
    client: ClientNo,
    key: u64,
    prepared: &Prepared,
) -> Result<u64, OutOfMemory>
    requires up { IsUpOr ((tables_of tables.now).clients client) }
    requires class { prepared.now.class ≡ class_of prepared.now.text }
    ensures key { IfOk result (λ found. (row : Client) → (tables_of tables.now).clients client ≡ Some row
        → IsRunKey texts.new key prepared.now row.desk.seat.place.schema found) }
    ensures more { OnOk result (AreMore texts.old texts.new) }
{
    let stands = schema_of(tables, client);
    if stays_in(prepared.place.schema.as_slice(), stands) {
        return Ok(key);
    }
    let place = place_in(alloc, stands, &prepared.place.settings)?;
    let class = copy_of(alloc, &prepared.class)?;
    texts.take(&place, prepared.text.as_slice(), class)
}

/// It goes to a server in this hostgroup to be executed, and a statement becomes due.
pub(crate) fn becomes_run(
    marked: &mut MarkedTables,
    texts: &mut Texts,
    alloc: Global,
    client: ClientNo,
    ordinal: u64,
    flag: u16,
    hostgroup: Hostgroup,
    multiplex: Option<bool>,
    named: Named,
    clock: u64,
) -> Result<(), OutOfMemory>
    requires up { IsUpOr ((tables_of marked.old.tables).clients client) }
    requires class { named.prepared.class ≡ class_of named.prepared.text }
    ensures is { OnOk result (IsDueToRun ordinal flag clock hostgroup multiplex named.key named.prepared client texts.new
        (tables_of marked.old.tables) (tables_of marked.new.tables)) }
    ensures goes { OnOk result (GoesOn marked.old marked.new) }
    ensures more { OnOk result (AreMore texts.old texts.new) }
{
    let Named { key, prepared } = named;
    let key = run_key(&marked.tables, texts, alloc, client, key, &prepared)?;
    let work = work_of(
        ordinal,
        hostgroup,
        clock,
        multiplex,
        key,
        Command::Execute,
        Form::Text(prepared.class),
    );
    let is_due = marked.run(client, flag, work)?;
    if is_due { Ok(()) } else { Err(OutOfMemory) }
}
