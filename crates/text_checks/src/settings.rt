// SET statements, settings and the statements that lead from some to others.
use crate::show::{or_none, push_bytes};
use check_lines::{Answer, Fields};
use mx_base::{Bytes, OutOfMemory};
use session_vars::{
    Change, Changes, SetShape, SetTexts, Settings, Slot, SlotValue, can_be_set, difference,
    read_set, set_texts,
};

/// `collation <number>`: the settings of a client that logs in with it.
pub(crate) fn collation(fields: &mut Fields<'_>) {
    let number = fields.number();
    match Settings::for_collation(fields.answer.alloc(), number) {
        Ok(settings) => push_settings(&mut fields.answer, &settings),
        Err(OutOfMemory) => fields.answer.refused(),
    }
}

/// `set <statement>`: a SET statement by its shape, and its changes where it is tracked.
pub(crate) fn set(fields: &mut Fields<'_>) {
    let statement = fields.rest_bytes();
    match read_set(fields.answer.alloc(), &statement) {
        Ok(shape) => push_shape(&mut fields.answer, &shape),
        Err(OutOfMemory) => fields.answer.refused(),
    }
}

fn push_shape(answer: &mut Answer, shape: &SetShape) {
    answer.text(shape_name(shape));
    if let SetShape::Tracked(changes) = shape {
        push_changes(answer, changes.as_slice());
    }
}

pub(crate) fn shape_name(shape: &SetShape) -> &'static str {
    match shape {
        SetShape::Tracked(_) => "tracked",
        SetShape::Global => "global",
        SetShape::NextTransaction => "next transaction",
        SetShape::Other => "other",
        SetShape::NotSet => "not set",
    }
}

fn push_changes(answer: &mut Answer, changes: &[Change]) {
    answer.text(": ");
    let start = answer.len();
    for change in changes {
        answer.separate(start, ", ");
        push_value(answer, change.slot, &change.value);
    }
}

// Settings but for those at their default.
pub(crate) fn push_settings(answer: &mut Answer, settings: &Settings) {
    let start = answer.len();
    for slot in Slot::ALL {
        let value = settings.value(slot);
        if value.is_text() {
            answer.separate(start, ", ");
            push_value(answer, slot, value);
        }
    }
    or_none(answer, start, "defaults");
}

// Appends `name = value`.
fn push_value(answer: &mut Answer, slot: Slot, value: &SlotValue) {
    push_bytes(answer, slot.name());
    answer.text(" = ");
    match value {
        SlotValue::Default => answer.text("DEFAULT"),
        SlotValue::Text(value) => push_bytes(answer, value.as_slice()),
    }
}

// Changes as a case writes them: `name = value`, with `; ` between them.
fn changes_of(answer: &mut Answer, text: &str) -> Changes {
    let mut changes = Changes::new(answer.alloc());
    if !text.is_empty() {
        for part in text.split("; ") {
            add_change(answer, &mut changes, part);
        }
    }
    changes
}

fn add_change(answer: &mut Answer, changes: &mut Changes, text: &str) {
    let (name, value) = text.split_once(" = ").unwrap_or(("", ""));
    match slot_named(name) {
        Some(slot) => {
            let value = value_of(answer, value);
            let adds = false;
            answer.done(changes.push(Change { slot, value, adds }));
        }
        None => answer.bad(),
    }
}

fn slot_named(name: &str) -> Option<Slot> {
    if name == "names" {
        Some(Slot::Names)
    } else {
        Slot::named(name.as_bytes())
    }
}

fn value_of(answer: &mut Answer, text: &str) -> SlotValue {
    if text == "DEFAULT" {
        SlotValue::Default
    } else {
        SlotValue::Text(Bytes::from_vec(answer.spelled(text)))
    }
}

/// `texts <changes>`: the statements that make changes.
pub(crate) fn texts(fields: &mut Fields<'_>) {
    let text = fields.rest_text();
    let changes = changes_of(&mut fields.answer, text);
    match texts_of(&mut fields.answer, changes.as_slice()) {
        Some(texts) => push_texts(&mut fields.answer, &texts),
        None => fields.answer.text("can't be set"),
    }
}

// The statements that make changes, none where they can't be set.
fn texts_of(answer: &mut Answer, changes: &[Change]) -> Option<SetTexts> {
    if !can_be_set(changes) {
        return None;
    }
    match set_texts(answer.alloc(), changes) {
        Ok(texts) => Some(texts),
        Err(OutOfMemory) => {
            answer.refused();
            None
        }
    }
}

fn push_texts(answer: &mut Answer, texts: &SetTexts) {
    push_statement(answer, &texts.names);
    answer.text(" | ");
    push_statement(answer, &texts.session);
}

fn push_statement(answer: &mut Answer, text: &Option<Bytes>) {
    match text {
        Some(text) => push_bytes(answer, text.as_slice()),
        None => answer.text("-"),
    }
}

// Settings as a case writes them: `fresh`, or the number of a collation and then changes. None where that is a fault.
fn settings_of(answer: &mut Answer, text: &str) -> Option<Settings> {
    if text == "fresh" {
        return kept(answer, Settings::defaults(answer.alloc()));
    }
    let (number, changes) = text.split_once("; ").unwrap_or((text, ""));
    let changes = changes_of(answer, changes);
    let mut settings = collation_named(answer, number)?;
    apply(answer, &mut settings, changes.as_slice());
    Some(settings)
}

// The settings of a client that logs in with the collation of this number.
fn collation_named(answer: &mut Answer, number: &str) -> Option<Settings> {
    match number.parse() {
        Ok(number) => kept(answer, Settings::for_collation(answer.alloc(), number)),
        Err(_) => {
            answer.bad();
            None
        }
    }
}

// Settings, none where memory was refused.
fn kept(answer: &mut Answer, settings: Result<Settings, OutOfMemory>) -> Option<Settings> {
    match settings {
        Ok(settings) => Some(settings),
        Err(OutOfMemory) => {
            answer.refused();
            None
        }
    }
}

/// Makes changes.
pub(crate) fn apply(answer: &mut Answer, settings: &mut Settings, changes: &[Change]) {
    answer.done(settings.apply(changes));
}

/// `bring <settings> -> <settings>`: the statements that lead from settings to others, and whether they do once they are read.
pub(crate) fn bring(fields: &mut Fields<'_>) {
    let (from, to) = fields.rest_text().split_once(" -> ").unwrap_or(("", ""));
    if let Some(to) = settings_of(&mut fields.answer, to) {
        bring_to(&mut fields.answer, from, &to);
    }
}

fn bring_to(answer: &mut Answer, from: &str, to: &Settings) {
    if let Some(mut held) = settings_of(answer, from) {
        lead(answer, &mut held, to);
    }
}

// The statements that lead from settings to others, where `Names` is wanted as a text.
fn leading(answer: &mut Answer, from: &Settings, to: &Settings) -> Option<SetTexts> {
    if !to.value(Slot::Names).is_text() {
        return None;
    }
    match difference(answer.alloc(), from, to) {
        Ok(changes) => texts_of(answer, changes.as_slice()),
        Err(OutOfMemory) => {
            answer.refused();
            None
        }
    }
}

fn lead(answer: &mut Answer, held: &mut Settings, to: &Settings) {
    match leading(answer, held, to) {
        Some(texts) => {
            push_texts(answer, &texts);
            hear(answer, held, &texts.names);
            hear(answer, held, &texts.session);
            push_same(answer, held, to);
        }
        None => answer.text("names have to be wanted"),
    }
}

// Reads a statement and makes its changes.
fn hear(answer: &mut Answer, settings: &mut Settings, statement: &Option<Bytes>) {
    if let Some(statement) = statement {
        hear_statement(answer, settings, statement.as_slice());
    }
}

fn hear_statement(answer: &mut Answer, settings: &mut Settings, statement: &[u8]) {
    match read_set(answer.alloc(), statement) {
        Ok(SetShape::Tracked(changes)) => apply(answer, settings, changes.as_slice()),
        Ok(_) => {}
        Err(OutOfMemory) => answer.refused(),
    }
}

fn push_same(answer: &mut Answer, a: &Settings, b: &Settings) {
    let mut is_same = true;
    for slot in Slot::ALL {
        is_same = is_same && same_value(a.value(slot), b.value(slot));
    }
    answer.text(if is_same { " | same" } else { " | other" });
}

fn same_value(a: &SlotValue, b: &SlotValue) -> bool {
    match (a, b) {
        (SlotValue::Default, SlotValue::Default) => true,
        (SlotValue::Text(a), SlotValue::Text(b)) => a.as_slice() == b.as_slice(),
        _ => false,
    }
}
