// What goes to a link next.
use check_lines::{Answer, Fields};
use mx_base::{Bytes, OutOfMemory};
use session_state::{Place, Told};
use session_vars::{SetShape, Settings, Slot, read_set};
use state_replay::{Step, after, next_step, preparation_step};
use std::alloc::Global;

// A link was told this many times what to do, at most.
const MOST_STEPS: u32 = 8;

// Settings of a client whose collation is utf8mb4_general_ci, behind a SET statement; `-` is none.
fn settings_behind(alloc: Global, statement: &str) -> Result<Settings, OutOfMemory> {
    let mut settings = Settings::for_collation(alloc, 45)?;
    if let SetShape::Tracked(changes) = read_set(alloc, statement.as_bytes())? {
        settings.apply(changes.as_slice())?;
    }
    Ok(settings)
}

fn place(alloc: Global, schema: &str, statement: &str) -> Result<Place, OutOfMemory> {
    let schema = Bytes::from_slice(
        alloc,
        if schema == "-" {
            b""
        } else {
            schema.as_bytes()
        },
    )?;
    let settings = settings_behind(alloc, statement)?;
    Ok(Place { schema, settings })
}

// What a link was told: `new` is a link of which no schema is known, with settings as at its login.
fn told(alloc: Global, schema: &str, statement: &str) -> Result<Told, OutOfMemory> {
    if schema == "new" {
        let settings = Settings::defaults(alloc)?;
        return Ok(Told {
            schema: None,
            settings,
        });
    }
    let Place { schema, settings } = place(alloc, schema, statement)?;
    Ok(Told {
        schema: Some(schema),
        settings,
    })
}

fn push_bytes(answer: &mut Answer, bytes: &[u8]) {
    match str::from_utf8(bytes) {
        Ok(text) => answer.text(text),
        Err(_) => answer.bytes(bytes),
    }
}

fn push_step(answer: &mut Answer, step: &Step) {
    match step {
        Step::InitDb(schema) => {
            answer.text("INIT_DB ");
            push_bytes(answer, schema.as_slice());
        }
        Step::SetText(text) => push_bytes(answer, text.as_slice()),
        Step::SetId(id) => {
            answer.text("SET SESSION last_insert_id = ");
            answer.display(*id);
        }
        Step::Prepare => answer.text("prepare"),
        Step::Statement => answer.text("statement"),
    }
}

// The next part of a line, up to a `|`.
fn part<'a>(rest: &mut &'a str) -> &'a str {
    let whole: &'a str = rest;
    match whole.split_once('|') {
        Some((first, behind)) => {
            *rest = behind;
            first
        }
        None => {
            *rest = "";
            whole
        }
    }
}

fn number(answer: &mut Answer, text: &str) -> Option<u64> {
    if text == "-" {
        None
    } else {
        Some(answer.parsed(text))
    }
}

/// `next <told schema>|<told SET>|<schema>|<SET>|<known id>|<wanted id>`: what goes to the link, each step answered OK, up to the
/// statement. A schema `new` is a link after its login; `-` is none.
pub(crate) fn next(fields: &mut Fields<'_>) {
    let mut rest = fields.rest_text();
    let alloc = fields.answer.alloc();
    let told = told(alloc, part(&mut rest), part(&mut rest));
    let place = place(alloc, part(&mut rest), part(&mut rest));
    let known = number(&mut fields.answer, part(&mut rest));
    let wanted = number(&mut fields.answer, part(&mut rest));
    match (told, place) {
        (Ok(mut told), Ok(place)) => {
            let done = push_steps(&mut fields.answer, &mut told, &place, known, wanted);
            fields.answer.done(done);
        }
        _ => fields.answer.refused(),
    }
}

fn push_steps(
    answer: &mut Answer,
    told: &mut Told,
    place: &Place,
    mut known: Option<u64>,
    wanted: Option<u64>,
) -> Result<(), OutOfMemory> {
    let alloc = answer.alloc();
    for _ in 0..MOST_STEPS {
        if !place.settings.value(Slot::Names).is_text() {
            answer.bad();
            return Ok(());
        }
        let step = next_step(alloc, told, place, known, wanted)?;
        push_step(answer, &step);
        if let Step::SetId(id) = step {
            known = Some(id);
        }
        if let Step::Statement = step {
            return Ok(());
        }
        answer.text(", ");
        after(alloc, told, &step)?;
    }
    Ok(())
}

/// `prepare <told schema>|<told SET>|<schema>|<SET>`: what goes to the link, each step answered OK, up to the preparation.
pub(crate) fn prepare(fields: &mut Fields<'_>) {
    let mut rest = fields.rest_text();
    let alloc = fields.answer.alloc();
    let told = told(alloc, part(&mut rest), part(&mut rest));
    let place = place(alloc, part(&mut rest), part(&mut rest));
    match (told, place) {
        (Ok(mut told), Ok(place)) => {
            let done = push_preparation(&mut fields.answer, &mut told, &place);
            fields.answer.done(done);
        }
        _ => fields.answer.refused(),
    }
}

fn push_preparation(
    answer: &mut Answer,
    told: &mut Told,
    place: &Place,
) -> Result<(), OutOfMemory> {
    let alloc = answer.alloc();
    for _ in 0..MOST_STEPS {
        if !place.settings.value(Slot::Names).is_text() {
            answer.bad();
            return Ok(());
        }
        let step = preparation_step(alloc, told, place)?;
        push_step(answer, &step);
        if let Step::Prepare = step {
            return Ok(());
        }
        answer.text(", ");
        after(alloc, told, &step)?;
    }
    Ok(())
}
