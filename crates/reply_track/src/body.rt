// A payload, byte by byte.
ghost use Rattle.std.specs.Prelude.{◌≡◌};
ghost use Rattle.reply_track.specs.Steps.{opened, eof_of, opened_by, result_opened, taken, cell_taken, rows_taken, insert_taken, count_taken, number_taken, number_read, insert_scaled, number_of};

use crate::due::{Behind, Due, Next, Prepared, after_plain, after_prepared, after_result};
use crate::head::{Cell, Eof, Number, after_eof, size_behind};
use crate::reply::{err_end, ok_end};

/// What the bytes of a payload have shown.
#[derive(Clone, Copy)]
pub(crate) enum Body {
    /// None came yet.
    Due(Due),
    /// This byte is next.
    Cell(Cell),
    /// So many bytes of this number are next; those before them stand at the top of `value`.
    Number {
        number: Number,
        left: u8,
        value: u64,
    },
    /// Whatever bytes follow, this is behind them.
    Rest(Next),
}

// A number of which no byte came yet.
fn number_of(number: Number, size: u8) -> Body
    ensures { result ≡ number_of number size }
{
    Body::Number {
        number,
        left: size,
        value: 0,
    }
}

/// The payload behind its next byte, where `left` bytes of its packet are left, this one among them; None where
/// no payload goes on so.
pub(crate) fn taken(body: Body, left: u32, byte: u8) -> Option<Body>
    ensures { result ≡ taken body left byte }
{
    match body {
        Body::Due(due) => opened(due, left, byte),
        Body::Cell(cell) => cell_taken(cell, left, byte),
        Body::Number {
            number,
            left,
            value,
        } => number_taken(
            number,
            left,
            value / 256 + byte as u64 * 0x100_0000_0000_0000,
        ),
        Body::Rest(next) => Some(Body::Rest(next)),
    }
}

// A payload of this length behind its first byte.
fn opened(due: Due, length: u32, byte: u8) -> Option<Body>
    ensures { result ≡ opened due length byte }
{
    if byte == 0xFF {
        match due {
            Due::Result | Due::Answer | Due::Listing | Due::Row if 9 <= length => {
                Some(number_of(Number::Code, 2))
            }
            _ => None,
        }
    } else if byte == 0xFE && 5 <= length && length <= 8 {
        let eof = eof_of(due)?;
        Some(number_of(Number::Eof { eof }, 4))
    } else {
        opened_by(due, length, byte)
    }
}

// What an EOF ends here, None where none may stand here.
fn eof_of(due: Due) -> Option<Eof>
    ensures { result ≡ eof_of due }
{
    match due {
        Due::End { behind } => Some(Eof::Definitions { behind }),
        Due::Row => Some(Eof::Rows),
        Due::Listing => Some(Eof::Fields),
        Due::Field => Some(Eof::Fields),
        Due::Result => None,
        Due::Answer => None,
        Due::Definition { .. } => None,
    }
}

// A payload that is neither an ERR nor an EOF.
fn opened_by(due: Due, length: u32, byte: u8) -> Option<Body>
    ensures { result ≡ opened_by due length byte }
{
    match due {
        Due::Result => result_opened(length, byte),
        Due::Answer => {
            if byte == 0 && length == 12 {
                Some(number_of(Number::Statement, 4))
            } else {
                None
            }
        }
        _ => {
            let due = after_plain(due)?;
            Some(Body::Rest(Next::Goes(due)))
        }
    }
}

// The OK or the column count that begins a result.
fn result_opened(length: u32, byte: u8) -> Option<Body>
    ensures { result ≡ result_opened length byte }
{
    match (byte, length) {
        (0, 7..) => Some(Body::Cell(Cell::RowsFirst)),
        (1..=0xFA, 1) => Some(count_taken(byte as u16, 0)),
        (0xFC, 3) => Some(number_of(Number::Count { zeros: 0 }, 2)),
        (0xFD, 4) => Some(number_of(Number::Count { zeros: 1 }, 2)),
        (0xFE, 9) => Some(number_of(Number::Count { zeros: 6 }, 2)),
        _ => None,
    }
}

fn cell_taken(cell: Cell, left: u32, byte: u8) -> Option<Body>
    ensures { result ≡ cell_taken cell left byte }
{
    match cell {
        Cell::RowsFirst => rows_taken(left, byte),
        Cell::InsertFirst => insert_taken(left, byte),
        Cell::ErrMark { code } => {
            (byte == b'#').then_some(Body::Rest(Next::Ends(err_end(code))))
        }
        Cell::CountZero { count, zeros } => { (byte == 0).then_some(count_taken(count, zeros)) }
        Cell::Filler {
            number,
            columns,
            params,
        } => (byte == 0).then_some(number_of(
            Number::Warnings {
                number,
                columns,
                params,
            },
            2,
        )),
    }
}

// The first byte of the affected rows.
fn rows_taken(left: u32, byte: u8) -> Option<Body>
    ensures { result ≡ rows_taken left byte }
{
    let size = size_behind(byte)?;
    if left < size as u32 + 6 {
        None
    } else if size == 0 {
        Some(Body::Cell(Cell::InsertFirst))
    } else {
        Some(number_of(Number::Rows, size))
    }
}

// The first byte of the last insert id.
fn insert_taken(left: u32, byte: u8) -> Option<Body>
    ensures { result ≡ insert_taken left byte }
{
    let size = size_behind(byte)?;
    if left < size as u32 + 5 {
        None
    } else if size == 0 {
        let insert_id = byte as u64;
        Some(number_of(Number::Flags { insert_id }, 4))
    } else {
        Some(number_of(Number::Insert { size }, size))
    }
}

// The low bytes of a column count, behind which so many zeros are due.
fn count_taken(count: u16, zeros: u8) -> Body
    ensures { result ≡ count_taken count zeros }
{
    if zeros == 0 {
        Body::Rest(Next::Goes(Due::Definition {
            left: count,
            behind: Behind::Rows,
        }))
    } else {
        Body::Cell(Cell::CountZero {
            count,
            zeros: zeros - 1,
        })
    }
}

// A number, `left` of whose bytes were left before its last one came.
fn number_taken(number: Number, left: u8, value: u64) -> Option<Body>
    ensures { result ≡ number_taken number left value }
{
    if left <= 1 {
        number_read(number, value)
    } else {
        Some(Body::Number {
            number,
            left: left - 1,
            value,
        })
    }
}

// A number whose bytes stand at the top of `value`.
fn number_read(number: Number, value: u64) -> Option<Body>
    ensures { result ≡ number_read number value }
{
    let two = (value / 0x1_0000_0000_0000) as u16;
    let four = (value / 0x1_0000_0000) as u32;
    let low = (four % 65_536) as u16;
    let high = (four / 65_536) as u16;
    match number {
        Number::Rows => Some(Body::Cell(Cell::InsertFirst)),
        Number::Insert { size } => {
            let insert_id = insert_scaled(size, value);
            Some(number_of(Number::Flags { insert_id }, 4))
        }
        Number::Flags { insert_id } => Some(Body::Rest(after_result(
            low,
            ok_end(low, high, insert_id),
        ))),
        Number::Code => Some(Body::Cell(Cell::ErrMark { code: two })),
        Number::Eof { eof } => Some(Body::Rest(after_eof(eof, high, low))),
        Number::Count { zeros } => { (two != 0).then_some(count_taken(two, zeros)) }
        Number::Statement => { Some(number_of(Number::Shape { number: four }, 4)) }
        Number::Shape { number } => Some(Body::Cell(Cell::Filler {
            number,
            columns: low,
            params: high,
        })),
        Number::Warnings {
            number,
            columns,
            params,
        } => Some(Body::Rest(after_prepared(
            columns,
            Prepared {
                number,
                params,
                warnings: two,
            },
        ))),
    }
}

// The number of 2, 3 or 8 bytes at the top of `value`.
fn insert_scaled(size: u8, value: u64) -> u64
    ensures { result ≡ insert_scaled size value }
{
    match size {
        2 => value / 0x1_0000_0000_0000,
        3 => value / 0x100_0000_0000,
        _ => value,
    }
}
