// Links break.
ghost use Rattle.std.specs.Prelude.{◌≡◌, IfOk, IsSome, OnOk};
ghost use Rattle.core_texts.specs.Texts.{HasBegun};
ghost use Rattle.core_tables.specs.Parting.{lost_in};
ghost use Rattle.core_tables.specs.Tables.{IsSame};
ghost use Rattle.shared_core.specs.Follows.{Keeps, KeepsBut, made_by};
ghost use Rattle.shared_core.specs.Losses.{EndsWith, HasLost, HasLostEnded, IsHeldBy, MayLose, is_given};
ghost use Rattle.shared_core.specs.Stands.{IsSettled, Loses, Moves, tables};

use crate::router::Router;
use crate::rows::{present_on, works_in};
use core_policy::GiveUp;
use core_service::Service;
use mx_base::{ClientNo, LinkId, OutOfMemory};
use session_state::SessionName;

fn is_given(given: Option<GiveUp>, client: ClientNo) -> bool
    ensures { result ≡ is_given given client }
{
    match given {
        Some(up) => up.client.0 == client.0,
        None => false,
    }
}

impl Router {
    /// A read of a link ended, or a call on it failed.
    pub(crate) fn lost(&mut self, service: &Service, link: LinkId) -> Result<(), OutOfMemory>
        requires { HasBegun self.old.texts }
        ensures loses { OnOk result (IsSettled self.old → Loses service.now link self.old self.new) }
        ensures moves { OnOk result (Moves self.old self.new) }
    {
        if self.marked.server(link).is_some() {
            return self.server_lost(service, link);
        }
        match self.marked.client_on(link) {
            Some(client) => self.client_lost(service, link, client),
            None => Ok(()),
        }
    }

    // A link to a server is lost, and with it the present session that it carries: the statement there is given up, or its client ends.
    fn server_lost(&mut self, service: &Service, link: LinkId) -> Result<(), OutOfMemory>
        requires { HasBegun self.old.texts }
        ensures loses { OnOk result (IsSome ((tables self.old).links link) → IsSettled self.old → Loses service.now link self.old self.new) }
        ensures moves { OnOk result (Moves self.old self.new) }
    {
        router_laws::links::loses_router();
        router_laws::links::loses_ended_router();
        let name = self.marked.carried(link);
        let verdict = self
            .policy
            .loses(&self.marked.tables, link, self.came.clock)?;
        let given = self.may_give_with(link, name, verdict.given);
        let ended = self.ends_with(link, given)?;
        match ended {
            Some(client) => self.loses_ended(link, client),
            None => self.loses_going(service, link, name, given, verdict.ends),
        }
    }

    // The client that ends with the session that goes with a link: a statement is in work there that isn't given up.
    fn ends_with(
        &self,
        link: LinkId,
        given: Option<GiveUp>,
    ) -> Result<Option<ClientNo>, OutOfMemory>
        ensures { IfOk result (λ client. EndsWith link given client (tables self.now)) }
    {
        let Some(name) = present_on(&self.marked.tables, link) else {
            return Ok(None);
        };
        if name.life == u64::MAX {
            return Err(OutOfMemory);
        }
        if is_given(given, name.client) {
            return Ok(None);
        }
        if works_in(&self.marked.tables, name) {
            Ok(Some(name.client))
        } else {
            Ok(None)
        }
    }

    // It does; and links are given back that carried its other sessions.
    fn loses_ended(&mut self, link: LinkId, client: ClientNo) -> Result<(), OutOfMemory>
        ensures loses { OnOk result (IsHeldBy link client (tables self.old)
            → HasLostEnded link client (tables self.old) (tables self.new)) }
        ensures keeps { OnOk result (Keeps self.old self.new) }
    {
        self.loses(link);
        let homes = self.homes_of(&[client])?;
        self.ends(client)?;
        self.free_all(homes.as_slice());
        Ok(())
    }

    // What is given up is, and the client goes on whose session the link carried, or whose statement was given up.
    fn loses_going(
        &mut self,
        service: &Service,
        link: LinkId,
        name: Option<SessionName>,
        given: Option<GiveUp>,
        ends: Option<ClientNo>,
    ) -> Result<(), OutOfMemory>
        ensures loses { OnOk result (MayLose link name given (tables self.old)
            → HasLost service.now (made_by service.now self.old self.new) link (tables self.old) (tables self.new)) }
        ensures keeps { OnOk result (KeepsBut self.old self.new) }
    {
        self.loses(link);
        self.gives(given)?;
        self.call(service, name, given, ends)
    }

    /// A link to a server is lost, and with it the present session that it carries. Takes no memory.
    pub(crate) fn loses(&mut self, link: LinkId)
        ensures is { IsSame (tables self.new) (lost_in link (tables self.old)) }
        ensures keeps { Keeps self.old self.new }
        ensures texts { self.new.texts ≡ self.old.texts }
    {
        let name = self.marked.carried(link);
        self.marked.lose(link);
        self.policy.look_at(link);
        self.changed_of(name);
    }
}
