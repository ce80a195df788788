// What is asked for.
ghost use Rattle.std.specs.Prelude.{◌≡◌, false, None, not, Some, true};
ghost use Rattle.core_laws.specs.clients.Going.{is_going};
ghost use Rattle.core_tables.specs.Parting.{name_in};
ghost use Rattle.marked_tables.specs.Goes.{GoesOn};
ghost use Rattle.mx_base.specs.declared.names.ClientNo.{ClientNo};
ghost use Rattle.mx_base.specs.declared.names.LinkId.{LinkId};
ghost use Rattle.router_laws.specs.links.Closes.{IsUnawaited, MaySayFarewell};
ghost use Rattle.router_laws.specs.links.Loses.{GoesWithIt};
ghost use Rattle.session_state.specs.declared.names.SessionName.{SessionName};
ghost use Rattle.shared_core.specs.Says.{IsAskedFor};
ghost use Rattle.shared_core.specs.Stands.{ActsSo, IsClosed, is_roomy, shown, tables};

use crate::router::Router;
use crate::rows::{is_farewell, is_going, name_in, present_on, waits_for_capture, works_in};
use core_policy::Asks;
use core_tables::Server;
use link_state::Carried;
use mx_base::LinkId;
use ready_loop::Act;
use session_state::SessionName;

impl Router {
    /// The next act. Takes no memory.
    pub(crate) fn act(&mut self) -> Option<Act>
        requires closed { IsClosed (shown self.old) }
        requires unasked { self.old.asked ≡ None }
        ensures acts { ActsSo self.old self.new result }
        ensures goes { GoesOn self.old.marked self.new.marked }
        ensures asked { IsAskedFor self.new.asked result }
    {
        'asked: for _ in 0..u64::MAX {
            let asks = self.policy.asks(&self.marked.tables)?;
            let act = self.asks_for(asks);
            if act.is_some() {
                return act;
            }
        }
        None
    }

    fn asks_for(&mut self, asks: Asks) -> Option<Act>
        requires closed { IsClosed (shown self.old) }
        requires unasked { self.old.asked ≡ None }
        ensures acts { ActsSo self.old self.new result }
        ensures goes { GoesOn self.old.marked self.new.marked }
        ensures asked { IsAskedFor self.new.asked result }
    {
        match asks {
            Asks::Parts { client, link } => self.closes_client(client, link),
            Asks::Closes { link } => self.closes(link),
            Asks::Opens(asked) => {
                self.asked = Some(asked);
                Some(Act::Open {
                    server: asked.server,
                    address: asked.address,
                })
            }
        }
    }

    // A link to a server is closed, where no statement is in work in the session that goes with it. One on which something else than a farewell
    // might be said is lost first.
    fn closes(&mut self, link: LinkId) -> Option<Act>
        requires closed { IsClosed (shown self.old) }
        requires unasked { self.old.asked ≡ None }
        ensures acts { ActsSo self.old self.new result }
        ensures goes { GoesOn self.old.marked self.new.marked }
        ensures asked { IsAskedFor self.new.asked result }
    {
        router_laws::links::closes_router();
        router_laws::links::farewells_router();
        router_laws::links::lost_closes_router();
        router_laws::routers::routers_are_linked();
        let server = self.marked.server(link)?;
        let says_farewell = self.says_farewell(server);
        if !self.may_close(link) {
            self.policy.holds(link);
            return None;
        }
        self.calls_waiting(link);
        self.closing = Some(link);
        if says_farewell {
            return Some(Act::Close { link });
        }
        self.loses(link);
        Some(Act::Close { link })
    }

    // Whether no statement is in work in the present session that goes with a link, and there is a life for the next.
    fn may_close(&self, link: LinkId) -> bool
        ensures { result ≡ true → GoesWithIt link (λ c. false) (tables self.now) }
    {
        match present_on(&self.marked.tables, link) {
            Some(name) => {
                name.life < 18446744073709551615 && !works_in(&self.marked.tables, name)
            }
            None => true,
        }
    }

    // Whoever waits for a capture in that session is called at the next wake.
    fn calls_waiting(&mut self, link: LinkId)
        ensures unawaited { IsUnawaited link (is_roomy self.new.roomy) (tables self.old) }
        ensures kept { (c : ClientNo) → is_roomy self.old.roomy c ≡ true → is_roomy self.new.roomy c ≡ true }
        ensures same { self.new ≡ record self.old { roomy = self.new.roomy } }
    {
        let Some(name) = present_on(&self.marked.tables, link) else {
            return;
        };
        if let Some(row) = self.marked.client(name.client) {
            if waits_for_capture(row) {
                self.roomy.add(name.client);
            }
        }
    }

    // Whether nothing or a QUIT stands next there, and it carries no session of a client that goes on.
    fn says_farewell(&self, server: &Server) -> bool
        ensures { result ≡ true → (link : LinkId) → (tables self.now).links link ≡ Some server.now
            → MaySayFarewell link (λ (c : ClientNo). not (is_going ((tables self.now).clients c))) (tables self.now) }
    {
        is_farewell(&server.row.link.next) && self.is_over(server.row.link.state.carries)
    }

    fn is_over(&self, carries: Carried) -> bool
        ensures { result ≡ true → (name : SessionName) → name_in carries ≡ Some name
            → not (is_going ((tables self.now).clients name.client)) ≡ true }
    {
        match name_in(carries) {
            Some(name) => !is_going(self.marked.client(name.client)),
            None => true,
        }
    }
}
