// Statements of a load.
ghost use Rattle.std.specs.Prelude.{◌≡◌, ◌∷◌, IfOk};
ghost use Rattle.generated_load.specs.Kinds.{insert_text, is_begun_behind, kind_of, query, select_text, set_text, takes_id, text_of, turn_text, update_text};

use mx_base::{Bytes, OutOfMemory};
use std::alloc::Global;

/// COM_QUERY (client/server protocol, "COM_QUERY").
const COM_QUERY: u8 = 0x03;

/// What a statement does.
#[derive(Clone, Copy)]
pub(crate) enum Kind {
    Insert,
    Select,
    Set,
    Update,
    /// It begins a transaction, or commits it.
    Turn,
}

/// The kind of a number below 8.
pub(crate) fn kind_of(number: u64) -> Kind
    ensures { result ≡ kind_of number }
{
    match number {
        0 => Kind::Insert,
        5 => Kind::Set,
        6 => Kind::Update,
        7 => Kind::Turn,
        _ => Kind::Select,
    }
}

impl Kind {
    /// Whether the statement names a row.
    pub fn takes_id(self) -> bool
        ensures { result ≡ takes_id self }
    {
        match self {
            Kind::Select => true,
            Kind::Update => true,
            Kind::Insert => false,
            Kind::Set => false,
            Kind::Turn => false,
        }
    }
}

// The payload of a statement.
fn query(alloc: Global, text: &[u8]) -> Result<Bytes, OutOfMemory>
    ensures { IfOk result (λ payload. payload ≡ query text.now) }
{
    let mut payload = Bytes::new(alloc);
    payload.append(&[COM_QUERY])?;
    payload.append(text)?;
    Ok(payload)
}

#[tactic(auto, unfolding(crate::specs::Kinds::insert_text))]
fn insert(alloc: Global, statement: u64) -> Result<Bytes, OutOfMemory>
    ensures { IfOk result (λ payload. payload ≡ query (insert_text statement)) }
{
    let text = format!(in alloc; "INSERT INTO t (v) VALUES ('x{statement}')")?;
    query(alloc, text.as_bytes())
}

#[tactic(auto, unfolding(crate::specs::Kinds::select_text))]
fn select(alloc: Global, id: u64) -> Result<Bytes, OutOfMemory>
    ensures { IfOk result (λ payload. payload ≡ query (select_text id)) }
{
    let text = format!(in alloc; "SELECT v FROM t WHERE id = {id}")?;
    query(alloc, text.as_bytes())
}

#[tactic(auto, unfolding(crate::specs::Kinds::update_text))]
fn update(alloc: Global, statement: u64, id: u64) -> Result<Bytes, OutOfMemory>
    ensures { IfOk result (λ payload. payload ≡ query (update_text statement id)) }
{
    let text = format!(in alloc; "UPDATE t SET v = 'y{statement}' WHERE id = {id}")?;
    query(alloc, text.as_bytes())
}

fn set_text(statement: u64) -> &'static [u8]
    ensures { result.now ≡ set_text statement }
{
    if statement % 2 == 0 {
        b"SET sql_mode = 'STRICT_TRANS_TABLES'"
    } else {
        b"SET sql_mode = DEFAULT"
    }
}

fn turn_text(begun: bool) -> &'static [u8]
    ensures { result.now ≡ turn_text begun }
{
    if begun { b"COMMIT" } else { b"BEGIN" }
}

/// The payload of a statement of this kind and place, of a client that has begun a transaction or not.
pub(crate) fn command_of(
    alloc: Global,
    kind: Kind,
    statement: u64,
    id: u64,
    begun: bool,
) -> Result<Bytes, OutOfMemory>
    ensures { IfOk result (λ payload. payload ≡ query (text_of kind statement id begun)) }
{
    match kind {
        Kind::Insert => insert(alloc, statement),
        Kind::Select => select(alloc, id),
        Kind::Set => query(alloc, set_text(statement)),
        Kind::Update => update(alloc, statement, id),
        Kind::Turn => query(alloc, turn_text(begun)),
    }
}

/// Whether a transaction is begun behind it, where one was or not.
pub(crate) fn is_begun_behind(kind: Kind, begun: bool) -> bool
    ensures { result ≡ is_begun_behind kind begun }
{
    match kind {
        Kind::Turn => !begun,
        Kind::Insert | Kind::Select | Kind::Set | Kind::Update => begun,
    }
}
