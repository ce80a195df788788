// What is to be written to a client.
use check_lines::{Answer, Fields};
use client_buffer::Outgoing;
use mx_base::OutOfMemory;

/// `buffer <step> ..`: a buffer that is led through the steps `answer=<piece>` and `push=<bytes>`, which are answered by how many
/// bytes are left then, `last=<error>`, `taken=<count>` and `look`, which shows the bytes and whether they are below the mark.
pub fn run(fields: &mut Fields<'_>) {
    let steps = fields.rest_text();
    match Outgoing::new(fields.answer.alloc()) {
        Ok(mut outgoing) => {
            for step in steps.split(' ') {
                let (call, argument) = step.split_once('=').unwrap_or((step, ""));
                answer_step(&mut fields.answer, &mut outgoing, call, argument);
            }
        }
        Err(OutOfMemory) => fields.answer.refused(),
    }
}

fn answer_step(answer: &mut Answer, outgoing: &mut Outgoing, call: &str, argument: &str) {
    match call {
        "answer" => {
            let piece = answer.spelled(argument);
            if outgoing.is_below_mark() && piece.len() <= 65_536 {
                answer.done(outgoing.answer(&piece));
                count(answer, outgoing);
            } else {
                answer.separate(0, "; ");
                answer.text("wait");
            }
        }
        "push" => {
            let more = answer.spelled(argument);
            answer.done(outgoing.push(&more));
            count(answer, outgoing);
        }
        "taken" => {
            let n = answer.parsed(argument);
            if n <= outgoing.as_slice().len() {
                outgoing.taken(n);
                count(answer, outgoing);
            } else {
                answer.bad();
            }
        }
        "look" => {
            answer.separate(0, "; ");
            answer.debug(outgoing.is_below_mark());
            answer.text(" ");
            answer.bytes(outgoing.as_slice());
        }
        _ => answer.bad(),
    }
}

// How many bytes are left.
fn count(answer: &mut Answer, outgoing: &Outgoing) {
    answer.separate(0, "; ");
    answer.display(outgoing.as_slice().len());
}
