// What an answer makes of the session that asked.
ghost use Rattle.std.specs.Prelude.{◌≡◌};
ghost use Rattle.session_state.specs.Pins.{no_pin, pin_after};
ghost use Rattle.link_state.specs.Behind.{erred, pin_for};
ghost use Rattle.link_state.specs.Classes.{class_in};

use crate::asking::{Asking, Form, Purpose};
use crate::classes::plain_class;
use session_state::{Pin, ReplyEnd, is_pinned, pin_after};

// Behind a statement of this form.
fn pin_stated(pin: Pin, form: &Form, multiplex: Option<bool>, end: &ReplyEnd) -> Pin
    ensures { result ≡ pin_after (class_in form.now) multiplex end.now pin }
{
    match form {
        Form::Text(class) => pin_after(pin, class, multiplex, end),
        Form::Prepare(class) => pin_after(pin, class, multiplex, end),
        Form::Fields => pin_after(pin, &plain_class(false, false), multiplex, end),
        Form::SetId(_) | Form::ReadId => pin_after(pin, &plain_class(false, true), multiplex, end),
        Form::Reset => pin_after(pin, &plain_class(true, true), multiplex, end),
    }
}

fn erred(pin: Pin, end: &ReplyEnd) -> Pin
    ensures { result ≡ erred end.now pin }
{
    Pin {
        after_err: pin.after_err || end.is_err(),
        ..pin
    }
}

fn no_pin() -> Pin
    ensures { result ≡ no_pin }
{
    Pin {
        deep: false,
        locks: false,
        next_tx: false,
        tx: false,
        after_err: false,
        uncommitted: false,
        diag: false,
        own_diag: false,
        own_found: false,
        rule: false,
    }
}

/// Why a session keeps its link behind the answer to what was asked for it, which ended so; `multiplex` is the rules' word on sharing the
/// link, where they have one on its statement. Takes no memory.
pub fn pin_behind(pin: Pin, asking: &Asking, multiplex: Option<bool>, end: &ReplyEnd) -> Pin
    ensures { result ≡ pin_for asking.now.purpose asking.now.form multiplex end.now pin }
{
    match asking.purpose {
        Purpose::Statement { .. } => pin_stated(pin, &asking.form, multiplex, end),
        Purpose::Prep { .. } => { if is_pinned(pin) { erred(pin, end) } else { pin } }
        Purpose::Sync { .. } => erred(pin, end),
        Purpose::End { .. } => no_pin(),
        _ => pin,
    }
}
