// What payload is due in a reply.
ghost use Rattle.std.specs.Prelude.{◌≡◌};
ghost use Rattle.reply_track.specs.Steps.{first_due, after_plain, behind_end, prepared_end, after_prepared, after_result, takes_low, takes_length};

use crate::reply::{EndKind, ReplyEnd, ReplyKind};

/// Another result follows this one (client/server protocol, "SERVER_STATUS_flags_enum").
const MORE_RESULTS_EXISTS: u16 = 0x0008;

/// The first payload of the answer to a prepare.
#[derive(Clone, Copy)]
pub(crate) struct Prepared {
    pub number: u32,
    pub params: u16,
    pub warnings: u16,
}

/// What stands behind definitions and their EOF.
#[derive(Clone, Copy)]
pub(crate) enum Behind {
    Rows,
    /// So many definitions of columns, and the end.
    Columns { columns: u16, prepared: Prepared },
}

/// The payload that is due.
#[derive(Clone, Copy)]
pub(crate) enum Due {
    /// The first one of a result.
    Result,
    /// The first one of the answer to a prepare.
    Answer,
    /// The first one of a field list.
    Listing,
    /// A definition: the first of so many.
    Definition { left: u16, behind: Behind },
    /// The EOF behind definitions.
    End { behind: Behind },
    /// A row, or what ends the rows.
    Row,
    /// A definition of a field list, or what ends them.
    Field,
}

/// What a payload is followed by.
#[derive(Clone, Copy)]
pub(crate) enum Next {
    Goes(Due),
    Ends(ReplyEnd),
}

pub(crate) fn first_due(kind: ReplyKind) -> Due
    ensures { result ≡ first_due kind }
{
    match kind {
        ReplyKind::Command => Due::Result,
        ReplyKind::Prepare => Due::Answer,
        ReplyKind::Fields => Due::Listing,
    }
}

/// What is due behind a definition or a row, None where neither may stand here.
pub(crate) fn after_plain(due: Due) -> Option<Due>
    ensures { result ≡ after_plain due }
{
    match due {
        Due::Definition { left, behind } => Some(if left <= 1 {
            Due::End { behind }
        } else {
            Due::Definition {
                left: left - 1,
                behind,
            }
        }),
        Due::Row => Some(Due::Row),
        Due::Listing => Some(Due::Field),
        Due::Field => Some(Due::Field),
        Due::Result => None,
        Due::Answer => None,
        Due::End { .. } => None,
    }
}

/// What follows the EOF behind definitions.
pub(crate) fn behind_end(behind: Behind) -> Next
    ensures { result ≡ behind_end behind }
{
    match behind {
        Behind::Rows => Next::Goes(Due::Row),
        Behind::Columns { columns, prepared } => {
            if columns == 0 {
                Next::Ends(prepared_end(prepared))
            } else {
                Next::Goes(Due::Definition {
                    left: columns,
                    behind: Behind::Columns {
                        columns: 0,
                        prepared,
                    },
                })
            }
        }
    }
}

fn prepared_end(prepared: Prepared) -> ReplyEnd
    ensures { result ≡ prepared_end prepared }
{
    ReplyEnd {
        kind: EndKind::Prepared,
        flags: None,
        warnings: prepared.warnings,
        insert_id: 0,
        code: 0,
        server_number: prepared.number,
        params: prepared.params,
    }
}

/// What follows the first payload of the answer to a prepare.
pub(crate) fn after_prepared(columns: u16, prepared: Prepared) -> Next
    ensures { result ≡ after_prepared columns prepared }
{
    let behind = Behind::Columns { columns, prepared };
    if prepared.params == 0 {
        behind_end(behind)
    } else {
        Next::Goes(Due::Definition {
            left: prepared.params,
            behind,
        })
    }
}

/// What follows a result that ended so.
pub(crate) fn after_result(flags: u16, end: ReplyEnd) -> Next
    ensures { result ≡ after_result flags end }
{
    if flags & MORE_RESULTS_EXISTS == 0 {
        Next::Ends(end)
    } else {
        Next::Goes(Due::Result)
    }
}

/// Whether a payload that is due may have a length with these low bytes.
pub(crate) fn takes_low(due: Due, low: u16) -> bool
    ensures { result ≡ takes_low due low }
{
    match due {
        Due::End { .. } => 5 <= low && low <= 8,
        _ => true,
    }
}

/// Whether a payload that is due may have this length.
pub(crate) fn takes_length(due: Due, length: u32) -> bool
    ensures { result ≡ takes_length due length }
{
    match due {
        Due::Result => { length == 1 || length == 3 || length == 4 || 7 <= length }
        Due::Answer => 9 <= length,
        Due::End { .. } => 5 <= length && length <= 8,
        _ => true,
    }
}
