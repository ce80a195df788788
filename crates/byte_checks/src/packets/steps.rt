// A value that is led from step to step.
use check_lines::{Answer, Fields};
use mx_base::OutOfMemory;

/// A value that is led from step to step, as a connection is.
pub trait Steps {
    /// Answers a step: a call with its argument, which is empty where the step has none, and the bytes that the argument spells.
    fn step(&mut self, answer: &mut Answer, call: &str, argument: &str, bytes: &mut [u8]);
}

/// Takes the steps that a case has left, each `<call>` or `<call>=<argument>`.
pub fn take_steps<S: Steps + Drop>(fields: &mut Fields<'_>, begun: Result<S, OutOfMemory>) {
    let steps = fields.rest_text();
    match begun {
        Ok(mut value) => answer_steps(&mut fields.answer, steps, &mut value),
        Err(OutOfMemory) => fields.answer.refused(),
    }
}

// Answers the steps.
fn answer_steps<S: Steps>(answer: &mut Answer, steps: &str, value: &mut S) {
    for step in steps.split(' ') {
        let (call, argument) = step.split_once('=').unwrap_or((step, ""));
        let mut bytes = answer.spelled(argument);
        value.step(answer, call, argument, &mut bytes);
    }
}
