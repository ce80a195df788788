// A desk's statement is answered.
ghost use Rattle.std.specs.Prelude.{◌≡◌, OnOk};
ghost use Rattle.client_desk.specs.Desks.{done, gave_up, heard_in, moved_by};

use crate::desk::Desk;
use link_state::{Asking, Form};
use mx_base::{Bytes, Hostgroup, OutOfMemory};
use session_state::ReplyEnd;
use std::alloc::Global;

impl Desk {
    /// The answer to what was asked for the hostgroup's session ended so, with this one number where it asked for one; `multiplex` is what a
    /// rule says of sharing the link, of a statement. Takes no memory.
    pub fn heard(
        &mut self,
        hostgroup: Hostgroup,
        asking: &Asking,
        multiplex: Option<bool>,
        end: &ReplyEnd,
        number: Option<u64>,
    )
        ensures { self.new ≡ heard_in hostgroup asking.now multiplex end.now number self.old }
    {
        let session = self.session(hostgroup);
        self.sessions
            .put(session.heard(asking, multiplex, end, number));
    }

    /// The statement was answered, OK or not, which may move the client.
    pub fn moves(&mut self, alloc: Global, form: &Form, ok: bool) -> Result<(), OutOfMemory>
        ensures { OnOk result (self.new ≡ record self.old { seat = moved_by form.now ok self.old.seat }) }
    {
        match form {
            Form::Text(class) => self.seat.moves(alloc, class, ok),
            _ => Ok(()),
        }
    }

    /// The reply to the statement is whole, and the client's. Takes no memory.
    pub fn done(&mut self)
        ensures { self.new ≡ done self.old }
    {
        self.seat.reply();
        self.work = None;
    }

    /// The router answers the statement itself, by this error.
    pub fn gave_up(&mut self, alloc: Global, payload: &[u8]) -> Result<(), OutOfMemory>
        ensures { OnOk result (self.new ≡ gave_up payload.now self.old) }
    {
        let payload = Bytes::from_slice(alloc, payload)?;
        self.seat.answer(alloc, &[payload])?;
        self.work = None;
        Ok(())
    }
}
