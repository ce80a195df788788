// How a reply ended, as a case writes it.
use check_lines::Answer;
use session_state::{EndKind, ReplyEnd};

// SERVER_STATUS_AUTOCOMMIT alone, as an idle session shows.
const IDLE: u16 = 2;

// The kind by its name.
fn kind_named(answer: &mut Answer, name: &str) -> EndKind {
    match name {
        "ok" => EndKind::Ok,
        "err" => EndKind::Err,
        "rows" => EndKind::Rows,
        "prepared" => EndKind::Prepared,
        _ => {
            answer.bad();
            EndKind::Ok
        }
    }
}

// The flags of an idle session, where the kind has any.
fn flags_of(kind: EndKind) -> Option<u16> {
    if kind == EndKind::Ok || kind == EndKind::Rows {
        Some(IDLE)
    } else {
        None
    }
}

/// `ok`, `rows`, `err` or `prepared`, and behind it `+tx` for a transaction, `+manual` for autocommit that is off,
/// `+manualtx` for both, `+warning`, `+id` for an insert id.
pub(crate) fn reply_end(answer: &mut Answer, text: &str) -> ReplyEnd {
    let (name, marks) = text.split_once('+').unwrap_or((text, ""));
    let kind = kind_named(answer, name);
    let mut end = ReplyEnd {
        kind,
        flags: flags_of(kind),
        warnings: 0,
        insert_id: 0,
        code: 0,
        server_number: 0,
        params: 0,
    };
    for mark in marks.split('+') {
        set_mark(answer, &mut end, mark);
    }
    end
}

fn set_mark(answer: &mut Answer, end: &mut ReplyEnd, mark: &str) {
    match mark {
        "" => {}
        "tx" => end.flags = Some(IDLE + 1),
        "manual" => end.flags = Some(0),
        "manualtx" => end.flags = Some(1),
        "warning" => end.warnings = 1,
        "id" => end.insert_id = 1,
        _ => answer.bad(),
    }
}
