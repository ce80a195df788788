// Runs over a wire that plays a recording.
ghost use Rattle.std.specs.Prelude.{◌≡◌, [], Some};
ghost use Rattle.recording.specs.Playable.{IsPlayable};

use crate::given::{Given, recording_of};
use crate::runs::run_given;
use crate::shown::{View, show};
use check_lines::{Answer, Fields};
use mem_wire::Tape;
use recording::{RecordEntry, read_recording};
use std::thread::Threads;

/// `serve <configuration> <line> | <line> ..` serves over a wire that plays the recording of these lines, as `replay` has them. Behind
/// what was printed and a `/` stands the transcript of that wire.
pub fn serve<R: Threads + Sync>(rt: &R, fields: &mut Fields<'_>) {
    let config = fields.text();
    let view = View::Transcript {
        between: " / ",
        blank: "",
    };
    play(rt, fields, config, view);
}

fn play<R: Threads + Sync>(rt: &R, fields: &mut Fields<'_>, config: &str, view: View<'_>) {
    let lines = fields.rest_text();
    let answer = &mut fields.answer;
    let recording = recording_of(answer, lines);
    match read_recording(answer.alloc(), recording.as_bytes()) {
        Ok(entries) => play_entries(rt, answer, entries, config, view),
        Err(_) => answer.bad(),
    }
}

fn play_entries<R: Threads + Sync>(
    rt: &R,
    answer: &mut Answer,
    entries: Vec<RecordEntry>,
    config: &str,
    view: View<'_>,
)
    requires { IsPlayable entries.items }
{
    let mut tape = Tape::new(answer.alloc(), entries);
    play_on(rt, answer, &mut tape, config, view);
}

fn play_on<R: Threads + Sync>(
    rt: &R,
    answer: &mut Answer,
    tape: &mut Tape,
    config: &str,
    view: View<'_>,
)
    requires { tape.old.told ≡ Some [] }
{
    let mut given = Given::of(["serve", config, ""], "");
    given.is_shown = view.is_transcript();
    let status = run_given(rt, answer, given, tape);
    show(answer, status, tape.log(), view);
}
