// What a statement answers.
use mx_base::{Bytes, Items};

/// Why a statement is refused.
#[derive(Clone, Copy)]
pub enum Fault {
    /// The table isn't there.
    NoTable,
    /// A row with this id is there.
    Duplicate,
    /// Another session holds the lock on the table.
    Locked,
    /// It is no statement that the server knows.
    Syntax,
}

/// What a statement answers.
#[derive(Drop)]
pub enum Answer {
    /// How many rows it wrote or removed, and its insert id.
    Done {
        rows: u64,
        id: u64,
    },
    /// The names of columns, and a row where there is one: its cells as length-encoded texts.
    Shown {
        columns: Items<Bytes>,
        row: Option<Bytes>,
    },
    /// It is refused.
    Refused {
        fault: Fault,
    },
}
