// Notes: what a session keeps, and what is done to the data, one after the other.
use mx_base::{Bytes, Items};

/// What a note says.
#[derive(Clone, Copy)]
pub enum NoteKind {
    /// A transaction began.
    Begun,
    /// A row has this text.
    Put,
    /// A row is gone.
    Removed,
    /// A table is there.
    Created,
    /// A lock is held.
    Held,
    /// A lock is free.
    Freed,
    /// A user variable has this value.
    Named,
}

/// One thing that a session keeps, or that is done to the data. The key is the schema of a table, the name of a lock or
/// that of a user variable.
#[derive(Drop)]
pub struct Note {
    pub kind: NoteKind,
    pub key: Bytes,
    pub id: u64,
    pub text: Bytes,
}

/// Notes in order.
pub type Notes = Items<Note>;
