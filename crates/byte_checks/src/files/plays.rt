// Plays of a recording.
ghost use Rattle.recording.specs.Playable.{IsPlayable};

use crate::files::answers::answer_all;
use crate::files::words::lines_of;
use check_lines::Fields;
use mem_wire::Tape;
use recording::{RecordEntry, read_recording};

/// `play <call>; <call>; .. / <lines>`: what a tape of these lines answers to each call, and the log that it tells then.
pub(crate) fn play(fields: &mut Fields<'_>) {
    let (calls, text) = fields.rest_text().split_once(" / ").unwrap_or(("", ""));
    let text = lines_of(&mut fields.answer, text);
    match read_recording(fields.answer.alloc(), &text) {
        Ok(entries) => play_entries(fields, entries, calls),
        Err(_) => fields.answer.bad(),
    }
}

fn play_entries<'a>(fields: &mut Fields<'a>, entries: Vec<RecordEntry>, calls: &'a str)
    requires { IsPlayable entries.items }
{
    let mut tape = Tape::new(fields.answer.alloc(), entries);
    answer_all(fields, &mut tape, calls, "; ", "; ");
    fields.answer.debug(tape.log());
}
