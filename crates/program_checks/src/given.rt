// What a run is given beside its wire.
use crate::configs::{
    BAD_LIST, LOAD_LINKS, NO_SERVER, ONE_LINK, ONE_LOAD_LINK, ONE_RULE, ONE_SERVER, PROXY,
    TWO_CLIENTS, TWO_GROUPS, TWO_LINKS, TWO_LOAD_LINKS, UNEVEN, UNKNOWN_KEYS, UNKNOWN_RULE_KEY,
};
use crate::names::spelled;
use crate::tables::add;
use check_lines::Answer;
use mx_base::Bytes;

/// What a run is given: the words of its command line, as texts of one, several or none; its recording; and the number of the call of the
/// files, and of the sink, that fails, where it isn't 0; and
/// whether its outcome is shown.
#[derive(Clone, Copy)]
pub struct Given<'a> {
    pub words: [&'a str; 3],
    pub recording: &'a str,
    pub read: u64,
    pub put: u64,
    pub is_shown: bool,
}

impl<'a> Given<'a> {
    /// These words and this recording, where no call fails.
    pub fn of(words: [&'a str; 3], recording: &'a str) -> Self {
        Given {
            words,
            recording,
            read: 0,
            put: 0,
            is_shown: true,
        }
    }
}

// The lines of a recording, joined by ` | `, and what stands behind them: a line feed, but where the last line ends with `|`.
fn ended(lines: &str) -> (&str, &str) {
    match lines.strip_suffix(" |") {
        Some(cut) => (cut, ""),
        None if lines.is_empty() => ("", ""),
        None => (lines, "\n"),
    }
}

/// The recording of a case, lines that are joined by ` | `.
pub fn recording_of(answer: &mut Answer, lines: &str) -> String {
    let (lines, end) = ended(lines);
    let mut text = spelled(answer, lines);
    if text.push_str(end).is_err() {
        answer.refused();
    }
    text
}

// Adds the words of a text.
fn add_words(answer: &mut Answer, words: &mut Vec<String>, text: &str) {
    for word in text.split_whitespace() {
        match String::from_str(answer.alloc(), word) {
            Ok(word) => add(answer, words, word),
            Err(_) => answer.refused(),
        }
    }
}

/// The words of a command line.
pub fn words_of(answer: &mut Answer, texts: [&str; 3]) -> Vec<String> {
    let mut words = Vec::new(answer.alloc());
    for text in texts {
        add_words(answer, &mut words, text);
    }
    words
}

/// Two texts, one behind the other.
pub fn joined(answer: &mut Answer, front: &str, rest: &str) -> Bytes {
    let mut text = Bytes::from_vec(answer.spelled(front));
    answer.done(text.append(rest.as_bytes()));
    text
}

// Adds a file of this name and text.
fn add_file(
    answer: &mut Answer,
    files: &mut Vec<(Bytes, Bytes)>,
    name: &str,
    front: &str,
    rest: &str,
) {
    let name = joined(answer, name, "");
    let text = joined(answer, front, rest);
    add(answer, files, (name, text));
}

/// The files of a run: the configurations, one of no bytes, and the recording.
pub fn files_of(answer: &mut Answer, recording: &str) -> Vec<(Bytes, Bytes)> {
    let mut files = Vec::new(answer.alloc());
    add_file(answer, &mut files, "one_server", PROXY, ONE_SERVER);
    add_file(answer, &mut files, "one_link", PROXY, ONE_LINK);
    add_file(answer, &mut files, "two_links", PROXY, TWO_LINKS);
    add_file(answer, &mut files, "two_groups", PROXY, TWO_GROUPS);
    add_file(answer, &mut files, "uneven", PROXY, UNEVEN);
    add_file(answer, &mut files, "one_rule", PROXY, ONE_RULE);
    add_file(answer, &mut files, "no_server", PROXY, NO_SERVER);
    add_file(answer, &mut files, "two_clients", PROXY, TWO_CLIENTS);
    add_file(answer, &mut files, "unknown_keys", PROXY, UNKNOWN_KEYS);
    add_file(answer, &mut files, "rules", PROXY, UNKNOWN_RULE_KEY);
    add_file(answer, &mut files, "bad_list", PROXY, BAD_LIST);
    add_file(answer, &mut files, "one_load_link", PROXY, ONE_LOAD_LINK);
    add_file(answer, &mut files, "two_load_links", PROXY, TWO_LOAD_LINKS);
    add_file(answer, &mut files, "load_links", PROXY, LOAD_LINKS);
    add_file(answer, &mut files, "empty", "", "");
    add_file(answer, &mut files, "recording", "", recording);
    files
}

fn call_of(answer: &mut Answer, number: &str) -> u64 {
    match number.parse() {
        Ok(call) => call,
        Err(_) => {
            if number != "-" {
                answer.bad();
            }
            0
        }
    }
}

/// The calls that fail: this one, and those of a text, numbers with commas between them, or `-`. No call has the number 0.
pub fn failing_of(answer: &mut Answer, call: u64, others: &str) -> Vec<u64> {
    let mut failing = Vec::new(answer.alloc());
    add(answer, &mut failing, call);
    for number in others.split(',') {
        let call = call_of(answer, number);
        add(answer, &mut failing, call);
    }
    failing
}
