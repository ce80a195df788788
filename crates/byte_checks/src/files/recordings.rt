// Recordings.
use crate::files::words::lines;
use check_lines::Fields;
use recording::read_recording;

/// `recording <lines>`: how many entries the lines have, or their first fault.
pub(crate) fn recording(fields: &mut Fields<'_>) {
    let text = lines(fields);
    match read_recording(fields.answer.alloc(), &text) {
        Ok(entries) => fields.answer.debug(entries.len()),
        Err(refusal) => fields.answer.debug(refusal),
    }
}

/// `entries <lines>`: the entries of the lines, or their first fault.
pub(crate) fn entries(fields: &mut Fields<'_>) {
    let text = lines(fields);
    let entries = read_recording(fields.answer.alloc(), &text);
    fields.answer.debug(entries);
}
