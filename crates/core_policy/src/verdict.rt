// What follows of what was heard or lost.

use core_service::Failure;
use mx_base::ClientNo;

/// A client whose statement is given up, and why.
#[derive(Clone, Copy)]
pub struct GiveUp {
    pub client: ClientNo,
    pub why: Failure,
}

/// What follows of what was heard or lost on a link to a server: whose statement is given up, and who is to end.
#[derive(Clone, Copy)]
pub struct Verdict {
    pub given: Option<GiveUp>,
    pub ends: Option<ClientNo>,
}

impl Verdict {
    /// Nothing.
    pub fn none() -> Self {
        Verdict {
            given: None,
            ends: None,
        }
    }

    /// A statement is given up, if one is.
    pub fn gives(given: Option<GiveUp>) -> Self {
        Verdict { given, ends: None }
    }

    /// A client is to end.
    pub fn ends(client: ClientNo) -> Self {
        Verdict {
            given: None,
            ends: Some(client),
        }
    }

    /// That, and the other where it says more.
    pub fn and(self, other: Verdict) -> Self {
        Verdict {
            given: self.given.or(other.given),
            ends: self.ends.or(other.ends),
        }
    }
}
