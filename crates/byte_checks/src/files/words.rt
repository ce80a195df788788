// What the fields of a case spell.
use check_lines::{Answer, Fields};
use mx_base::Bytes;

/// The lines that the rest of a case spells.
pub(crate) fn lines(fields: &mut Fields<'_>) -> Vec<u8> {
    let text = fields.rest_text();
    lines_of(&mut fields.answer, text)
}

/// The lines that a text spells: `\n` is a line feed and `\t` a tab; or the bytes behind `hex:`.
pub(crate) fn lines_of(answer: &mut Answer, text: &str) -> Vec<u8> {
    let text = answer.replaced(text, "\\n", "\n");
    let text = answer.replaced(&text, "\\t", "\t");
    answer.spelled(&text)
}

/// Bytes as text, where they are one.
pub(crate) fn text_of(bytes: &Bytes) -> &str {
    std::str::from_utf8(bytes.as_slice()).unwrap_or("no text")
}
