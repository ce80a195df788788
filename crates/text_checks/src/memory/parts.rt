// The parts of a case.
use check_lines::{Case, Fields};

/// What answers a part, which is a case of its own: a name, and fields.
pub trait Answering {
    fn answer(&mut self, fields: &mut Fields<'_>);
}

/// Answers the parts of a text. ` | ` stands between two parts, and between two answers.
pub fn follow<'a, A: Answering>(fields: &mut Fields<'a>, answering: &mut A, text: &'a str) {
    for part in text.split(" | ") {
        fields.answer.separate(0, " | ");
        fields.case = Case::of(part);
        answering.answer(fields);
    }
}
