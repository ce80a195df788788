// When a link is given back.
ghost use Rattle.std.specs.Prelude.{◌≡◌};
ghost use Rattle.link_state.specs.Dones.{is_done_by, is_quiet, is_settled};

use crate::state::{Carried, LinkState, Stage};
use crate::wish::Session;
use session_state::{is_pinned, needs_reset};

fn is_settled(session: Session) -> bool
    ensures { result ≡ is_settled session }
{
    !is_pinned(session.pin) && session.id.is_some()
}

/// Whether a link on which nothing stands is given back that carries this session: the session needs no reset, and it was left, or it is
/// unpinned with a known insert id and its statement is answered, where it was only lent because the router gave that up. Takes no memory.
pub fn is_done_by(carries: Carried, session: Session, given_up: bool) -> bool
    ensures { result ≡ is_done_by carries session given_up }
{
    match carries {
        Carried::Nobody => false,
        Carried::Lent(_) => {
            !needs_reset(session.pin) && ((is_settled(session) && given_up) || !session.present)
        }
        Carried::Joined(_) => {
            !needs_reset(session.pin) && (is_settled(session) || !session.present)
        }
    }
}

impl LinkState {
    /// Whether nothing stands there. Takes no memory.
    pub fn is_quiet(&self) -> bool
        ensures { result ≡ is_quiet self.now.stage }
    {
        match &self.stage {
            Stage::Quiet => true,
            _ => false,
        }
    }
}
