// Whether something may begin on a link, and whether it is to be given back.
ghost use Rattle.std.specs.Prelude.{◌≡◌};
ghost use Rattle.lent_link.specs.Rests.{is_done, is_resetting, is_written, may_begin};

use crate::link::{LentLink, Step};
use link_state::{Session, is_done_by};

fn is_resetting(step: Step) -> bool
    ensures { result ≡ is_resetting step }
{
    match step {
        Step::Resets(_) => true,
        _ => false,
    }
}

impl LentLink {
    // No command is written in part.
    fn is_written(&self) -> bool
        ensures { result ≡ is_written self.now }
    {
        if self.next.is_some() {
            return true;
        }
        match &self.writing {
            Some(writing) => writing.is_whole(),
            None => true,
        }
    }

    /// Whether something may begin there: the router is logged in, one command stands there at a time, none is written in part, and a
    /// STMT_RESET is answered first. Takes no memory.
    pub fn may_begin(&self) -> bool
        ensures { result ≡ may_begin self.now }
    {
        self.is_in() && self.state.is_quiet() && self.is_written() && !is_resetting(self.step)
    }

    /// Whether the link is to be given back that carries this session; `given_up` says whether the router answered itself what it was lent
    /// for. Takes no memory.
    pub fn is_done(&self, session: Session, given_up: bool) -> bool
        ensures { result ≡ is_done self.now session given_up }
    {
        self.is_in()
            && self.state.is_quiet()
            && !is_resetting(self.step)
            && is_done_by(self.state.carries, session, given_up)
    }
}
