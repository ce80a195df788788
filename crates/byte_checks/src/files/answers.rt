// Answers to the parts of a case, one after the other.
use check_lines::{Case, Fields};

/// What answers a part, which is a case of its own: a name, and fields.
pub(crate) trait Answering {
    fn answer(&mut self, fields: &mut Fields<'_>);
}

/// Answers the parts of a text that stand between such marks, each with an ending.
pub(crate) fn answer_all<'a, A: Answering>(
    fields: &mut Fields<'a>,
    answering: &mut A,
    parts: &'a str,
    mark: &str,
    ending: &str,
) {
    for part in parts.split(mark) {
        fields.case = Case::of(part);
        answering.answer(fields);
        fields.answer.text(ending);
    }
}
