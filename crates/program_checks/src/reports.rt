// Runs that report on lines.
use crate::given::{Given, recording_of};
use crate::runs::run_bare;
use check_lines::{Answer, Fields};
use std::thread::Threads;

/// `report <word> .. => <line> | <line> ..` runs these words over a wire to which nobody comes, and the file `recording` has these lines.
/// A line feed stands behind each line, but where the last ends with `|`.
pub fn report<R: Threads + Sync>(rt: &R, fields: &mut Fields<'_>) {
    let case = fields.rest_text();
    let (words, lines) = case.split_once(" => ").unwrap_or((case, ""));
    let lines = recording_of(&mut fields.answer, lines);
    report_by(rt, &mut fields.answer, words, &lines);
}

fn report_by<'a, R: Threads + Sync>(
    rt: &R,
    answer: &mut Answer,
    words: &'a str,
    recording: &'a str,
) {
    let given = Given::of([words, "", ""], recording);
    run_bare(rt, answer, given, false);
}
