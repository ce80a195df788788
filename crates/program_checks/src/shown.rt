// What is shown of a run's log.
use crate::fronts::{calls_in, is_front, written_to};
use crate::runs::push_lines;
use crate::tables::add;
use check_lines::Answer;
use mx_wire::Entry;
use recording::transcript;

/// A run in which no call fails: how many calls that can fail are made, and what each of so many clients is written.
#[derive(Drop)]
pub struct Whole {
    pub clients: usize,
    pub calls: u64,
    pub written: Vec<Vec<u8>>,
}

/// What is shown of a run: the transcript of its log, behind its outcome; nothing, but it is kept; or `same`
/// where each client was written a front of what it is where no call fails.
#[derive(Drop)]
pub enum View<'a> {
    Transcript { between: &'a str, blank: &'a str },
    Keeps(&'a mut Whole),
    Fronts(&'a Whole),
}

impl View<'_> {
    /// Whether it is the first.
    pub fn is_transcript(&self) -> bool {
        matches!(self, View::Transcript { .. })
    }
}

fn push_transcript(answer: &mut Answer, log: &[Entry], blank: &str) {
    match transcript(answer.alloc(), log) {
        Ok(text) => push_lines(answer, blank, text.as_slice()),
        Err(_) => answer.refused(),
    }
}

fn keep(answer: &mut Answer, log: &[Entry], whole: &mut Whole) {
    whole.calls = calls_in(log);
    for client in 0..whole.clients {
        let written = written_to(answer, log, client);
        add(answer, &mut whole.written, written.bytes);
    }
}

fn are_fronts(answer: &mut Answer, log: &[Entry], whole: &Whole) -> bool {
    let mut are_fronts = true;
    for (client, due) in whole.written.iter().enumerate() {
        let written = written_to(answer, log, client);
        are_fronts = are_fronts && is_front(due, &written.bytes);
    }
    are_fronts
}

fn push_fronts(answer: &mut Answer, status: u8, log: &[Entry], whole: &Whole) {
    if are_fronts(answer, log, whole) && (status == 0 || status == 6) {
        answer.text("same");
    }
}

/// Shows that of a run.
pub fn show(answer: &mut Answer, status: u8, log: Option<&[Entry]>, view: View<'_>) {
    let Some(log) = log else {
        return answer.refused();
    };
    match view {
        View::Transcript { between, blank } => {
            answer.text(between);
            push_transcript(answer, log, blank);
        }
        View::Keeps(whole) => keep(answer, log, whole),
        View::Fronts(whole) => push_fronts(answer, status, log, whole),
    }
}
