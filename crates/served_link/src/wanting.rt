// What goes to a link next.
ghost use Rattle.std.specs.Prelude.{◌≡◌, IsTrue, IfOk};
ghost use Rattle.session_vars.specs.Settings.{is_text, value_at};
ghost use Rattle.link_state.specs.Wants.{wish_by};
ghost use Rattle.served_link.specs.Wants.{session_of, task_for};

use crate::row::Row;
use link_state::{Session, Task, Wanted, Wish, task_of};
use mx_base::OutOfMemory;
use session_state::Place;
use session_vars::Slot;
use std::alloc::Global;

impl Row {
    /// The session that it carries: where its client left that, as it is kept here, and else this one. Takes no memory.
    pub fn session(&self, at_desk: Session) -> Session
        ensures { result ≡ session_of self.now at_desk }
    {
        match self.left {
            None => at_desk,
            Some(left) => Session {
                present: false,
                pin: left.pin,
                id: left.id,
                lasting: left.lasting,
            },
        }
    }

    /// What the link is for at the moment. Takes no memory.
    pub fn task(&self, at_desk: Session) -> Task
        ensures { result ≡ task_for self.now at_desk }
    {
        task_of(self.link.state.carries, self.session(at_desk))
    }

    /// What goes there next for a statement at this place; `of_key` is the place of the text that it executes. SET NAMES can't take names
    /// back, so places have them as texts.
    pub fn wish(
        &self,
        alloc: Global,
        wanted: Wanted,
        place: &Place,
        of_key: &Place,
    ) -> Result<Wish, OutOfMemory>
        requires names { IsTrue (is_text (value_at place.now.settings Slot.Names)) }
        requires of_key { IsTrue (is_text (value_at of_key.now.settings Slot.Names)) }
        ensures { IfOk result (λ wish. wish ≡ wish_by self.now.link.state wanted place.now of_key.now self.now.long) }
    {
        self.link
            .state
            .wish(alloc, wanted, place, of_key, self.long.as_slice())
    }
}
