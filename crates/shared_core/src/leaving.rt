// Clients' links break.
ghost use Rattle.std.specs.Prelude.{◌≡◌, OnOk, Some, true};
ghost use Rattle.core_texts.specs.Texts.{HasBegun};
ghost use Rattle.core_tables.specs.Tables.{Tabled};
ghost use Rattle.core_tables.specs.declared.client.Client.{Client};
ghost use Rattle.mx_base.specs.declared.names.ClientNo.{ClientNo};
ghost use Rattle.mx_base.specs.declared.names.LinkId.{LinkId};
ghost use Rattle.router_laws.specs.clients.Leaves.{LeavesAgain};
ghost use Rattle.shared_core.specs.Clients.{HasLeftAtOnce, HasLeftGoing, LeavesBy};
ghost use Rattle.shared_core.specs.Follows.{Keeps, KeepsBut, made_by};
ghost use Rattle.shared_core.specs.Rows.{HasLives};
ghost use Rattle.shared_core.specs.Stands.{IsSettled, Loses, Moves, tables};

use crate::router::Router;
use crate::rows::{is_at_rest, is_ended, may_leave};
use core_service::Service;
use core_tables::Client;
use mx_base::{ClientNo, LinkId, OutOfMemory};

/// How a client's link is lost.
#[derive(Clone, Copy)]
pub(crate) enum Leaving {
    /// It isn't there.
    Gone,
    /// It had ended.
    Again,
    /// It has a statement in work, or isn't logged in.
    AtOnce,
    /// Its messages may be taken up once more.
    GoingOn,
}

// By its row.
fn leaves_by(row: &Client) -> Leaving
    ensures { (c : ClientNo) (t : Tabled) → t.clients c ≡ Some row.now → LeavesBy result c t }
{
    if is_ended(row) {
        Leaving::Again
    } else if is_at_rest(row) {
        Leaving::GoingOn
    } else {
        Leaving::AtOnce
    }
}

impl Router {
    /// A client's link is lost: it leaves its sessions, and ends, behind what it may take up with its settings as it began. The link closes once it
    /// was told all, a write there fails, or it had its time.
    pub(crate) fn client_lost(
        &mut self,
        service: &Service,
        link: LinkId,
        client: ClientNo,
    ) -> Result<(), OutOfMemory>
        requires { HasBegun self.old.texts }
        ensures loses { OnOk result ((tables self.old).numbers link ≡ Some client → IsSettled self.old → Loses service.now link self.old self.new) }
        ensures moves { OnOk result (Moves self.old self.new) }
    {
        router_laws::entering::leaves_again_router();
        router_laws::entering::leaves_at_once_router();
        router_laws::entering::leaves_going_router();
        router_laws::routers::routers_are_linked();
        match self.leaving(client) {
            Leaving::Gone => Ok(()),
            Leaving::Again => self.leaves_again(client),
            Leaving::AtOnce => self.leaves_at_once(client),
            Leaving::GoingOn => self.leaves_going(service, client),
        }
    }

    fn leaving(&self, client: ClientNo) -> Leaving
        ensures { LeavesBy result client (tables self.now) }
    {
        match self.marked.client(client) {
            Some(row) => leaves_by(row),
            None => Leaving::Gone,
        }
    }

    // There are lives for it to leave its sessions twice, unless it left 2^64 of them.
    fn has_lives(&self, client: ClientNo) -> bool
        ensures { result ≡ true → (row : Client) → (tables self.now).clients client ≡ Some row → HasLives row.desk }
    {
        match self.marked.client(client) {
            Some(row) => may_leave(&row.desk),
            None => true,
        }
    }

    // One that had ended leaves once more.
    fn leaves_again(&mut self, client: ClientNo) -> Result<(), OutOfMemory>
        requires { LeavesBy Leaving.Again client (tables self.old) }
        ensures leaves { OnOk result ((link : LinkId) → (tables self.old).numbers link ≡ Some client
            → LeavesAgain link client (tables self.old) (tables self.new)) }
        ensures keeps { OnOk result (Keeps self.old self.new) }
    {
        if self.has_lives(client) {
            self.marked.leave(client);
            self.policy.parts(client);
            Ok(())
        } else {
            Err(OutOfMemory)
        }
    }

    // One that waits for an answer, or isn't logged in.
    fn leaves_at_once(&mut self, client: ClientNo) -> Result<(), OutOfMemory>
        requires { LeavesBy Leaving.AtOnce client (tables self.old) }
        ensures leaves { OnOk result ((link : LinkId) → (tables self.old).numbers link ≡ Some client
            → HasLeftAtOnce link client (tables self.old) (tables self.new)) }
        ensures keeps { OnOk result (Keeps self.old self.new) }
    {
        let homes = self.homes_of(&[client])?;
        self.ends(client)?;
        self.free_all(homes.as_slice());
        self.ends(client)?;
        Ok(())
    }

    // One whose messages may be taken up once more.
    fn leaves_going(&mut self, service: &Service, client: ClientNo) -> Result<(), OutOfMemory>
        requires { LeavesBy Leaving.GoingOn client (tables self.old) }
        ensures leaves { OnOk result ((link : LinkId) → (tables self.old).numbers link ≡ Some client
            → HasLeftGoing service.now (made_by service.now self.old self.new) link client (tables self.old) (tables self.new)) }
        ensures keeps { OnOk result (KeepsBut self.old self.new) }
    {
        if self.has_lives(client) {
            let homes = self.homes_of(&[client])?;
            self.marked.begin_again(client)?;
            self.free_all(homes.as_slice());
            self.goes_on(service, client, true)?;
            Ok(())
        } else {
            Err(OutOfMemory)
        }
    }
}
