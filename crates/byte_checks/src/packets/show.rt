// What an answer shows of a value: parts, with `; ` between them.
use check_lines::Answer;
use mx_base::{Bytes, OutOfMemory};
use std::{fmt, str};

/// A value whose fields are shown.
pub trait Shows {
    fn show(&self, answer: &mut Answer);
}

/// The fields of a value that is read, or its fault.
pub fn shown<T: Shows + Drop, E: fmt::Debug + Drop>(answer: &mut Answer, read: Result<T, E>) {
    match read {
        Ok(value) => value.show(answer),
        Err(fault) => answer.debug(fault),
    }
}

/// A part that is to follow.
pub fn part(answer: &mut Answer) {
    answer.separate(0, "; ");
}

/// A value by its Debug.
pub fn debug<D: fmt::Debug + Drop>(answer: &mut Answer, value: D) {
    part(answer);
    answer.debug(value);
}

/// A word.
pub fn word(answer: &mut Answer, text: &str) {
    part(answer);
    answer.text(text);
}

/// Bytes.
pub fn bytes(answer: &mut Answer, bytes: &[u8]) {
    part(answer);
    answer.bytes(bytes);
}

/// Bytes to which more were appended, unless memory was refused.
pub fn appended(answer: &mut Answer, done: Result<(), OutOfMemory>, bytes: &[u8]) {
    answer.done(done);
    answer.bytes(bytes);
}

/// Bytes behind a sequence id, unless memory was refused.
pub fn with_id(answer: &mut Answer, id: Result<u8, OutOfMemory>, bytes: &[u8]) {
    match id {
        Ok(id) => number(answer, id),
        Err(OutOfMemory) => answer.refused(),
    }
    answer.bytes(bytes);
}

/// A number, and a blank.
pub fn number<N: fmt::Display + Drop>(answer: &mut Answer, number: N) {
    answer.display(number);
    answer.text(" ");
}

/// Bytes as a field of a case spells them: as text where they are one without blanks, else behind `hex:`.
pub fn spell(answer: &mut Answer, bytes: &[u8]) {
    match word_of(bytes) {
        Some(text) => answer.text(text),
        None => {
            answer.text("hex:");
            answer.digits(bytes);
        }
    }
}

// The text that bytes are, where it has no blank.
fn word_of(bytes: &[u8]) -> Option<&str> {
    if !bytes.is_empty() && bytes.iter().all(|b| b.is_ascii_graphic()) {
        str::from_utf8(bytes).ok()
    } else {
        None
    }
}

/// The same behind a blank.
pub fn spell_next(answer: &mut Answer, bytes: &[u8]) {
    answer.text(" ");
    spell(answer, bytes);
}

/// The same, and `none` where there are no bytes.
pub fn spell_or_none(answer: &mut Answer, bytes: &Option<Bytes>) {
    match bytes {
        Some(bytes) => spell_next(answer, bytes.as_slice()),
        None => answer.text(" none"),
    }
}
