// A client's link is closed that ended, and what was closed is forgotten.
ghost use Rattle.std.specs.Prelude.{◌≡◌, None, true};
ghost use Rattle.marked_tables.specs.Goes.{GoesOn};
ghost use Rattle.shared_core.specs.Parts.{ForgetsBy, MayPart, is_homeless};
ghost use Rattle.shared_core.specs.Says.{IsAskedFor};
ghost use Rattle.shared_core.specs.Stands.{ActsSo, Forgets, IsClosed, shown, without_client, without_link};
ghost use Rattle.std.specs.List.{list_all};

use crate::router::Router;
use crate::rows::{is_ended, may_leave};
use client_desk::Session;
use core_tables::Client;
use mx_base::{ClientNo, LinkId};
use ready_loop::Act;

// Whether no link carries one of these sessions.
fn are_homeless(sessions: &[Session]) -> bool
    ensures { result ≡ list_all is_homeless sessions.now }
{
    sessions.iter().all(|session| session.home.is_none())
}

// Whether its link may be closed: it ended, no link carries a session of it, and there are lives for it to leave them once more.
fn may_part(row: &Client) -> bool
    ensures { result ≡ true → MayPart row.now }
{
    if !is_ended(row) {
        return false;
    }
    if are_homeless(row.desk.sessions.as_slice()) {
        may_leave(&row.desk)
    } else {
        false
    }
}

impl Router {
    /// The link of a client is closed, where that may part.
    #[tactic(auto, using(crate::proofs::Acting::still_acts, marked_tables::proofs::Going::still_goes))]
    pub(crate) fn closes_client(&mut self, client: ClientNo, link: LinkId) -> Option<Act>
        requires closed { IsClosed (shown self.old) }
        requires unasked { self.old.asked ≡ None }
        ensures acts { ActsSo self.old self.new result }
        ensures goes { GoesOn self.old.marked self.new.marked }
        ensures asked { IsAskedFor self.new.asked result }
    {
        router_laws::entering::leaves_again_router();
        router_laws::quiet::marks_router();
        router_laws::quiet::quiets_router();
        router_laws::routers::client_writes_router();
        router_laws::routers::parts_router();
        router_laws::routers::routers_are_linked();
        let on = self.marked.client_on(link)?;
        if on.0 != client.0 {
            return None;
        }
        let row = self.marked.client(client)?;
        if !may_part(row) {
            return None;
        }
        self.leaving = Some(client);
        Some(Act::Close { link })
    }

    /// What was closed by the last act is forgotten. Takes no memory.
    pub(crate) fn forget_closed(&mut self)
        ensures forgets { Forgets self.old self.new }
        ensures goes { GoesOn self.old.marked self.new.marked }
    {
        self.forget_leaving();
        self.forget_closing();
    }

    // The client is whose link was.
    fn forget_leaving(&mut self)
        ensures forgets { ForgetsBy (without_client self.old.leaving) self.old self.new }
        ensures client { self.new.leaving ≡ None }
        ensures link { self.new.closing ≡ self.old.closing }
    {
        if let Some(client) = std::mem::replace(&mut self.leaving, None) {
            let _note = self.marked.forget_client(client);
            self.policy.forget_client(client);
        }
    }

    // The link to a server is that was.
    fn forget_closing(&mut self)
        ensures forgets { ForgetsBy (without_link self.old.closing) self.old self.new }
        ensures client { self.new.leaving ≡ self.old.leaving }
        ensures link { self.new.closing ≡ None }
    {
        if let Some(link) = std::mem::replace(&mut self.closing, None) {
            self.loses(link);
            self.marked.forget_link(link);
            self.policy.forget_link(link);
        }
    }
}
