// Runs over files, a wire and a sink in memory.
ghost use Rattle.std.specs.Prelude.{◌≡◌, [], Some};
ghost use Rattle.mx_wire.specs.Log.{Log};

use crate::bare_wire::BareWire;
use crate::given::{Given, failing_of, files_of, recording_of, words_of};
use check_lines::{Answer, Fields};
use mem_wire::{MemFiles, MemSink};
use mx_wire::Wire;
use proxy_run::{Status, run};
use std::str;
use std::thread::Threads;

/// The recording of a run that isn't about recordings: a client comes.
const COMES: &str = "at 0\naccept c1 traffic 0102030405060708090a0b0c0d0e0f1011121314\n";

/// A run over a wire that has told nothing: its status. Where that is asked for, the status is shown, and the lines that it printed.
pub fn run_given<R: Threads + Sync, W: Wire>(
    rt: &R,
    answer: &mut Answer,
    given: Given<'_>,
    wire: &mut W,
) -> u8
    requires { (log : Log) → W.told wire.old ≡ Some log → log ≡ [] }
{
    let alloc = answer.alloc();
    let words = words_of(answer, given.words);
    let files = files_of(answer, given.recording);
    let mut files = MemFiles::new(alloc, files, failing_of(answer, given.read, "-"));
    let mut sink = MemSink::new(alloc, failing_of(answer, given.put, "-"));
    let Status(status) = run(rt, alloc, &words, &mut files, wire, &mut sink);
    if given.is_shown {
        push_outcome(answer, status, sink.bytes());
    }
    status
}

/// Lines behind a blank, and a ` |` in place of the last line feed; nothing where there are no lines.
pub fn push_lines(answer: &mut Answer, blank: &str, lines: &[u8]) {
    match str::from_utf8(lines) {
        Ok(lines) => {
            if let Some(lines) = lines.strip_suffix('\n') {
                answer.text(blank);
                answer.text(lines);
                answer.text(" |");
            }
        }
        Err(_) => answer.bad(),
    }
}

fn push_outcome(answer: &mut Answer, status: u8, printed: &[u8]) {
    answer.display(status);
    push_lines(answer, " ", printed);
}

/// The outcome over a wire to which nobody comes, whose ports are taken or not.
pub fn run_bare<R: Threads + Sync>(rt: &R, answer: &mut Answer, given: Given<'_>, are_taken: bool) {
    let mut wire = BareWire::without_clients(are_taken);
    let _ = run_given(rt, answer, given, &mut wire);
}

/// `replay <configuration> <line> | <line> ..` replays the recording of these lines, in which names stand for their digits. A line
/// feed stands behind each line, but where the last ends with `|`.
pub fn replay<R: Threads + Sync>(rt: &R, fields: &mut Fields<'_>) {
    let config = fields.text();
    let lines = fields.rest_text();
    let recording = recording_of(&mut fields.answer, lines);
    replay_by(rt, &mut fields.answer, config, &recording);
}

fn replay_by<'a, R: Threads + Sync>(
    rt: &R,
    answer: &mut Answer,
    config: &'a str,
    recording: &'a str,
) {
    let given = Given::of(["replay", config, "recording"], recording);
    run_bare(rt, answer, given, false);
}

/// `run <read> <put> <word> <word> ..` runs these words over a wire to which nobody comes. The files are the configurations, `empty` and
/// `recording`; their call of the number `<read>` fails, and the sink's of the number `<put>`, where it isn't 0. `taken` is the same over
/// a wire whose ports are taken.
pub fn words<R: Threads + Sync>(rt: &R, fields: &mut Fields<'_>, are_taken: bool) {
    let given = Given {
        read: fields.number(),
        put: fields.number(),
        words: [fields.rest_text(), "", ""],
        recording: COMES,
        is_shown: true,
    };
    run_bare(rt, &mut fields.answer, given, are_taken);
}
