// Classes of statements.
use crate::settings::{apply, push_settings, shape_name};
use crate::show::{push_bytes, push_those};
use check_lines::{Answer, Fields};
use mx_base::OutOfMemory;
use pin_classifier::{Class, Locking, Shape, classify};
use session_vars::{SetShape, Settings};

/// `class <statement>`: its class by its name in reports, what of it holds, and the statement's shape where that matters.
pub(crate) fn class(fields: &mut Fields<'_>) {
    let statement = fields.rest_bytes();
    match classify(fields.answer.alloc(), &statement) {
        Ok(class) => push_class(&mut fields.answer, &class),
        Err(OutOfMemory) => fields.answer.refused(),
    }
}

fn push_class(answer: &mut Answer, class: &Class) {
    answer.display(class.name());
    if let Some(refusal) = class.refusal {
        answer.text(", ");
        answer.display(refusal.code());
    }
    push_flags(answer, class);
    push_shape(answer, &class.shape);
}

fn push_flags(answer: &mut Answer, class: &Class) {
    let (takes, frees) = match class.locks {
        Locking::Takes => (true, false),
        Locking::Frees => (false, true),
        Locking::None => (false, false),
    };
    let flags = [
        (class.deep, "deep"),
        (class.outlasts_reset, "outlasts a reset"),
        (takes, "takes locks"),
        (frees, "frees locks"),
        (class.next_tx, "next transaction"),
        (class.savepoint, "savepoint"),
        (class.marks_id, "marks id"),
        (class.sets_id, "sets id"),
        (class.reads_id, "reads id"),
        (class.reads_diag, "reads diagnostics"),
        (class.calc_rows, "counts rows"),
    ];
    push_those(answer, 0, &flags);
}

/// `behind <statement>`: what may stand behind it and of what stood before it, and what else it does to what is open.
pub(crate) fn behind(fields: &mut Fields<'_>) {
    let statement = fields.rest_bytes();
    match classify(fields.answer.alloc(), &statement) {
        Ok(class) => push_behind(&mut fields.answer, &class),
        Err(OutOfMemory) => fields.answer.refused(),
    }
}

fn push_behind(answer: &mut Answer, class: &Class) {
    let start = answer.len();
    let flags = [
        (class.reads_diag, "reads diagnostics"),
        (class.reads_found, "reads found rows"),
        (class.keeps_diag, "keeps diagnostics"),
        (!class.keeps_diag, "leaves diagnostics"),
        (class.keeps_found, "keeps found rows"),
        (!class.keeps_found, "leaves found rows"),
        (class.ends_tx, "ends a transaction"),
    ];
    push_those(answer, start, &flags);
}

fn push_shape(answer: &mut Answer, shape: &Shape) {
    match shape {
        Shape::ConnectionId => answer.text(", connection id"),
        Shape::Use(schema) => {
            answer.text(", use ");
            push_bytes(answer, schema.as_slice());
        }
        Shape::Set(shape) => {
            answer.text(", set ");
            answer.text(shape_name(shape));
        }
        Shape::Other => {}
    }
}

/// `opening <collation> | <statement> | <statement> ..`: the names of the classes of what a client says that logged in with the
/// collation of this number, and the settings that this leaves it.
pub(crate) fn opening(fields: &mut Fields<'_>) {
    let collation = fields.number();
    let _bar = fields.text();
    let statements = fields.rest_text();
    match Settings::for_collation(fields.answer.alloc(), collation) {
        Ok(mut settings) => hear_all(&mut fields.answer, &mut settings, statements),
        Err(OutOfMemory) => fields.answer.refused(),
    }
}

fn hear_all(answer: &mut Answer, settings: &mut Settings, statements: &str) {
    for statement in statements.split(" | ") {
        answer.separate(0, " ");
        hear(answer, settings, statement);
    }
    answer.text(": ");
    push_settings(answer, settings);
}

// Appends the name of a statement's class, and makes its changes.
fn hear(answer: &mut Answer, settings: &mut Settings, statement: &str) {
    match classify(answer.alloc(), statement.as_bytes()) {
        Ok(class) => hear_class(answer, settings, &class),
        Err(OutOfMemory) => answer.refused(),
    }
}

fn hear_class(answer: &mut Answer, settings: &mut Settings, class: &Class) {
    answer.text(class.name().as_str());
    if let Shape::Set(SetShape::Tracked(changes)) = &class.shape {
        apply(answer, settings, changes.as_slice());
    }
}
