// What an answer makes of the session that asked.
ghost use Rattle.std.specs.Prelude.{◌≡◌};
ghost use Rattle.session_state.specs.Pins.{no_pin};
ghost use Rattle.client_desk.specs.Answers.{class_in, erred, heard, pin_for, plain_class};
ghost use Rattle.session_state.specs.Pins as pins;

use crate::session::Session;
use link_state::{Asking, Form, Purpose, hear_id};
use pin_classifier::{Class, Locking, Shape};
use session_state::{Pin, ReplyEnd, is_pinned, pin_after};

// The class of what has no text.
fn plain_class(deep: bool, marks: bool) -> Class
    ensures { result ≡ plain_class deep marks }
{
    Class {
        deep,
        locks: Locking::None,
        next_tx: false,
        savepoint: false,
        ends_tx: false,
        outlasts_reset: false,
        marks_id: marks,
        sets_id: false,
        reads_id: false,
        reads_diag: deep,
        reads_found: deep,
        keeps_diag: true,
        keeps_found: true,
        calc_rows: false,
        refusal: None,
        shape: Shape::Other,
    }
}

// Behind a statement of this form.
fn pin_stated(pin: Pin, form: &Form, multiplex: Option<bool>, end: &ReplyEnd) -> Pin
    ensures { result ≡ pins.pin_after (class_in form.now) multiplex end.now pin }
{
    match form {
        Form::Text(class) => pin_after(pin, class, multiplex, end),
        Form::Prepare(class) => pin_after(pin, class, multiplex, end),
        Form::Fields => pin_after(pin, &plain_class(false, false), multiplex, end),
        Form::SetId(_) => pin_after(pin, &plain_class(false, true), multiplex, end),
        Form::ReadId => pin_after(pin, &plain_class(false, true), multiplex, end),
        Form::Reset => pin_after(pin, &plain_class(true, true), multiplex, end),
    }
}

fn erred(pin: Pin, end: &ReplyEnd) -> Pin
    ensures { result ≡ erred end.now pin }
{
    Pin {
        after_err: pin.after_err || end.is_err(),
        ..pin
    }
}

// Behind the answer to what was asked for this purpose.
fn pin_for(pin: Pin, asking: &Asking, multiplex: Option<bool>, end: &ReplyEnd) -> Pin
    ensures { result ≡ pin_for asking.now.purpose asking.now.form multiplex end.now pin }
{
    match asking.purpose {
        Purpose::Statement { .. } => pin_stated(pin, &asking.form, multiplex, end),
        Purpose::Prep { .. } => { if is_pinned(pin) { erred(pin, end) } else { pin } }
        Purpose::Sync { .. } => erred(pin, end),
        Purpose::End { .. } => Pin {
            deep: false,
            locks: false,
            next_tx: false,
            tx: false,
            after_err: false,
            uncommitted: false,
            diag: false,
            own_diag: false,
            own_found: false,
            rule: false,
        },
        _ => pin,
    }
}

impl Session {
    /// The answer to what was asked for it ended so, with this one number where it asked for one. Takes no memory.
    pub fn heard(
        self,
        asking: &Asking,
        multiplex: Option<bool>,
        end: &ReplyEnd,
        number: Option<u64>,
    ) -> Self
        ensures { result ≡ heard asking.now multiplex end.now number self }
    {
        Session {
            pin: pin_for(self.pin, asking, multiplex, end),
            id: hear_id(self.id, asking, end, number),
            ..self
        }
    }
}
