// The fields at the head of a payload that isn't a definition or a row.
ghost use Rattle.std.specs.Prelude.{◌≡◌};
ghost use Rattle.reply_track.specs.Payloads.{size_behind};
ghost use Rattle.reply_track.specs.Steps.{after_eof};

use crate::due::{Behind, Next, after_result, behind_end};
use crate::reply::rows_end;

/// What an EOF ends.
#[derive(Clone, Copy)]
pub(crate) enum Eof {
    Definitions { behind: Behind },
    Rows,
    Fields,
}

/// A field of one byte that decides what follows it.
#[derive(Clone, Copy)]
pub(crate) enum Cell {
    /// The first byte of the affected rows of an OK.
    RowsFirst,
    /// The first byte of its last insert id.
    InsertFirst,
    /// The '#' of an ERR.
    ErrMark {
        code: u16,
    },
    /// A high byte of a column count, and how many follow it.
    CountZero {
        count: u16,
        zeros: u8,
    },
    /// The zero byte in the answer to a prepare.
    Filler {
        number: u32,
        columns: u16,
        params: u16,
    },
}

/// A number of several bytes.
#[derive(Clone, Copy)]
pub(crate) enum Number {
    /// The affected rows of an OK.
    Rows,
    /// Its last insert id, in so many bytes.
    Insert {
        size: u8,
    },
    /// Its status flags and warnings.
    Flags {
        insert_id: u64,
    },
    /// The error code of an ERR.
    Code,
    /// The warnings and status flags of an EOF.
    Eof {
        eof: Eof,
    },
    /// The two low bytes of a column count, and how many follow them.
    Count {
        zeros: u8,
    },
    /// The number of the prepared statement.
    Statement,
    /// How many columns and parameters it has.
    Shape {
        number: u32,
    },
    /// The warnings of the answer to a prepare.
    Warnings {
        number: u32,
        columns: u16,
        params: u16,
    },
}

/// How many bytes a length-encoded number has behind this first one; None where that begins none.
pub(crate) fn size_behind(byte: u8) -> Option<u8>
    ensures { result ≡ size_behind byte }
{
    match byte {
        0xFB => None,
        0xFC => Some(2),
        0xFD => Some(3),
        0xFE => Some(8),
        0xFF => None,
        _ => Some(0),
    }
}

/// What follows an EOF.
pub(crate) fn after_eof(eof: Eof, flags: u16, warnings: u16) -> Next
    ensures { result ≡ after_eof eof flags warnings }
{
    match eof {
        Eof::Definitions { behind } => behind_end(behind),
        Eof::Rows => after_result(flags, rows_end(flags, warnings)),
        Eof::Fields => Next::Ends(rows_end(flags, warnings)),
    }
}
