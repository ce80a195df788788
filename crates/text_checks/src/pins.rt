// The reasons for which a session keeps its link, reply by reply.
use crate::answered::reply_end;
use crate::show::push_those;
use check_lines::{Answer, Fields};
use mx_base::OutOfMemory;
use pin_classifier::{Class, classify};
use session_state::{
    EndKind, Pin, ReplyEnd, insert_id_after, insert_id_prepared, is_pinned, needs_reset, pin_after,
    reads_own,
};

// What is left in a session.
#[derive(Clone, Copy)]
struct Left {
    pin: Pin,
    id: Option<u64>,
    // The last statement was refused, as it reads what another client's may have left.
    refused: bool,
}

// Appends the names of the reasons, and what follows from them.
fn push_left(answer: &mut Answer, left: Left) {
    let pin = left.pin;
    let start = answer.len();
    let names = [
        (left.refused, "9106"),
        (!is_pinned(pin), "none"),
        (pin.deep, "deep"),
        (pin.locks, "locks"),
        (pin.next_tx, "next_tx"),
        (pin.tx, "tx"),
        (pin.after_err, "after_err"),
        (pin.uncommitted, "uncommitted"),
        (pin.diag, "diag"),
        (pin.rule, "rule"),
        (needs_reset(pin), "needs reset"),
        (left.id.is_none(), "id unknown"),
    ];
    push_those(answer, start, &names);
}

fn id_after(known: Option<u64>, class: &Class, end: &ReplyEnd) -> Option<u64> {
    if end.kind == EndKind::Prepared {
        insert_id_prepared(known, class, end)
    } else {
        insert_id_after(known, class, false, end)
    }
}

// The rules' word on whether links are shared, where they have one.
fn multiplex_of(word: &str) -> Option<bool> {
    match word {
        "" => None,
        "shared" => Some(true),
        _ => Some(false),
    }
}

// A step is how the reply ended, a blank, and the statement. `/shared` or `/kept` behind the first is the rules' word.
fn step(answer: &mut Answer, left: Left, text: &str) -> Left {
    let Some((ended, statement)) = text.split_once(' ') else {
        answer.bad();
        return left;
    };
    let (ended, word) = ended.split_once('/').unwrap_or((ended, ""));
    let multiplex = multiplex_of(word);
    let end = reply_end(answer, ended);
    match classify(answer.alloc(), statement.as_bytes()) {
        Ok(class) if !reads_own(left.pin, &class) => Left {
            refused: true,
            ..left
        },
        Ok(class) => Left {
            refused: false,
            pin: pin_after(left.pin, &class, multiplex, &end),
            id: id_after(left.id, &class, &end),
        },
        Err(OutOfMemory) => {
            answer.refused();
            left
        }
    }
}

// What is left in a fresh session.
fn fresh() -> Left {
    Left {
        pin: Pin {
            deep: false,
            locks: false,
            next_tx: false,
            tx: false,
            after_err: false,
            uncommitted: false,
            diag: false,
            own_diag: false,
            own_found: false,
            rule: false,
        },
        id: Some(0),
        refused: false,
    }
}

/// `pins <step> | <step> ..`: what is left in a fresh session after each of these steps.
pub(crate) fn pins(fields: &mut Fields<'_>) {
    let steps = fields.rest_text();
    push_pins(&mut fields.answer, steps);
}

fn push_pins(answer: &mut Answer, steps: &str) {
    let mut left = fresh();
    for text in steps.split(" | ") {
        left = step(answer, left, text);
        answer.separate(0, " | ");
        push_left(answer, left);
    }
}
