// What an answer makes of what is kept beside the link.
ghost use Rattle.std.specs.Prelude.{◌≡◌};
ghost use Rattle.served_link.specs.Notes.{is_amiss, left_behind, left_heard, noted, refuses};

use crate::row::{LeftSession, Row};
use link_state::{Asking, Purpose, hear_id, pin_behind};
use session_state::ReplyEnd;

// An answer that isn't as it should be: one to a step in an OK or an ERR, to a reset in an OK, and to the question for an insert id one
// number.
fn is_amiss(purpose: Purpose, end: &ReplyEnd, number: Option<u64>) -> bool
    ensures { result ≡ is_amiss purpose end.now number }
{
    match purpose {
        Purpose::Statement { .. } => false,
        Purpose::Prep { .. } => false,
        Purpose::Sync { .. } => !(end.is_ok() || end.is_err()),
        Purpose::Own => !(end.is_ok() || end.is_err()),
        Purpose::End { .. } => !end.is_ok(),
        Purpose::Capture { .. } => !(!end.is_err() && number.is_some()),
    }
}

// An ERR to a step of nobody's, or to a preparation on the way.
fn refuses(purpose: Purpose, end: &ReplyEnd) -> bool
    ensures { result ≡ refuses purpose end.now }
{
    match purpose {
        Purpose::Own => end.is_err(),
        Purpose::Prep { .. } => end.is_err(),
        _ => false,
    }
}

impl LeftSession {
    // What was asked for it is answered.
    fn behind(
        self,
        asking: &Asking,
        multiplex: Option<bool>,
        end: &ReplyEnd,
        number: Option<u64>,
    ) -> Self
        ensures { result ≡ left_behind asking.now multiplex end.now number self }
    {
        if let Purpose::Own = asking.purpose {
            return self;
        }
        LeftSession {
            pin: pin_behind(self.pin, asking, multiplex, end),
            id: hear_id(self.id, asking, end, number),
            lasting: self.lasting,
        }
    }
}

impl Row {
    /// The answer to what was asked ended so, with this one number where it asked for one. Takes no memory.
    pub(crate) fn note(&mut self, asking: &Asking, end: &ReplyEnd, number: Option<u64>)
        ensures { self.new ≡ noted asking.now end.now number self.old }
    {
        self.amiss = is_amiss(asking.purpose, end, number);
        self.refused = refuses(asking.purpose, end);
        if let Some(left) = self.left {
            self.left = Some(left.behind(asking, self.multiplex, end, number));
        }
    }
}
