// Bytes were written.
ghost use Rattle.std.specs.Prelude.{◌≡◌, ◌≤◌, Some, IsSome, length, take};
ghost use Rattle.core_service.specs.declared.service.Service.{Service};
ghost use Rattle.mx_base.specs.Sent.{MayTake, Sent};
ghost use Rattle.marked_tables.specs.Goes.{sends_on};
ghost use Rattle.core_tables.specs.Arrivals.{due_in, written_to};
ghost use Rattle.core_tables.specs.Tables.{IsSame};
ghost use Rattle.mx_wire.specs.declared.entry.Entry.TheVariants as entry;
ghost use Rattle.shared_core.specs.Rooms.{IsRoomyAfter, goes_roomy};
ghost use Rattle.shared_core.specs.Stands.{Carries, Moves, SettlesSo, tables, work_of};

use crate::router::Router;
use crate::rows::is_going;
use link_state::Purpose;
use mx_base::{ClientNo, LinkId};
use session_state::SessionName;

// The session to which a link was lent by what began.
fn went_for(began: Purpose) -> Option<SessionName> {
    match began {
        Purpose::Statement { name, .. } => Some(name),
        Purpose::Prep { name, .. } => Some(name),
        _ => None,
    }
}

impl Router {
    /// So many bytes were written on a link. Takes no memory.
    pub(crate) fn wrote(&mut self, link: LinkId, n: usize)
        requires { MayTake (sends_on self.old.marked link) n }
        ensures carries { (service : Service) (sent : Sent) → sends_on self.old.marked link ≡ Some sent → Carries service (entry.Wrote link sent.tag (take n sent.bytes)) self.old self.new }
        ensures moves { Moves self.old self.new }
    {
        router_laws::routers::client_writes_router();
        if self.marked.server(link).is_some() {
            self.wrote_on(link, n);
            return;
        }
        if let Some(client) = self.marked.client_on(link) {
            self.wrote_to(client, n);
        }
    }

    // One that has room again, and goes on, is called at the next wake.
    fn wrote_to(&mut self, client: ClientNo, n: usize)
        requires { n ≤ length (due_in ((tables self.old).clients client)) }
        ensures is { IsSame (tables self.new) (written_to client n (tables self.old)) }
        ensures roomy { IsRoomyAfter client n self.old self.new }
        ensures came { self.new.came ≡ self.old.came }
        ensures texts { self.new.texts ≡ self.old.texts }
        ensures work { work_of self.new ≡ work_of self.old }
        ensures moves { Moves self.old self.new }
    {
        let was_full = !self.marked.has_room_at(client);
        self.marked.wrote_to(client, n);
        if was_full && self.is_roomy(client) {
            self.roomy.add(client);
        }
        self.changed(client);
    }

    // Whether a client goes on, and has room.
    fn is_roomy(&self, client: ClientNo) -> bool
        ensures { result ≡ goes_roomy ((tables self.now).clients client) }
    {
        is_going(self.marked.client(client)) && self.marked.has_room_at(client)
    }

    // What is to be written there begins with the first byte. A statement that went out, or whose text did to be prepared, waits no more.
    fn wrote_on(&mut self, link: LinkId, n: usize)
        requires may { MayTake (sends_on self.old.marked link) n }
        requires there { IsSome ((tables self.old).links link) }
        ensures carries { (service : Service) (sent : Sent) → sends_on self.old.marked link ≡ Some sent → Carries service (entry.Wrote link sent.tag (take n sent.bytes)) self.old self.new }
        ensures moves { Moves self.old self.new }
    {
        router_laws::links::writes_router();
        router_laws::wakes::settling_stands();
        let began = self.marked.wrote_on(link, n, self.came.clock);
        self.went_out(link, began);
    }

    // Of the client whose statement began, or its preparation, no link is readied any more. Nothing is heard of a STMT_CLOSE: what is behind
    // it goes there at once.
    fn went_out(&mut self, link: LinkId, began: Option<Purpose>)
        ensures settles { SettlesSo self.old self.new }
        ensures moves { Moves self.old self.new }
    {
        let Some(began) = began else {
            self.policy.look_at(link);
            return;
        };
        if let Some(name) = went_for(began) {
            self.leaves_readied(name.client);
            self.changed(name.client);
        }
    }

    // No link is readied for a client any more.
    fn leaves_readied(&mut self, client: ClientNo)
        ensures settles { SettlesSo self.old self.new }
        ensures moves { Moves self.old self.new }
    {
        let Some(row) = self.marked.client(client) else {
            return;
        };
        let Some(link) = row.note.readied else {
            return;
        };
        self.marked.unready(link, client);
    }
}
