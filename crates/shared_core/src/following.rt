// Clients go on, are ended, and links are given back that carried their sessions.
ghost use Rattle.std.specs.Prelude.{◌≡◌, All, IfOk, OnOk, false, true, ℕ};
ghost use Rattle.core_laws.specs.clients.Follows.{LeavesThere};
ghost use Rattle.core_laws.specs.clients.Going.{is_going};
ghost use Rattle.core_laws.specs.clients.Turns.{Rests, Waits};
ghost use Rattle.core_tables.specs.Parting.{freed_in};
ghost use Rattle.core_tables.specs.Tables.{IsSame};
ghost use Rattle.core_turns.specs.Turned.{HasGoneOn, RuledTurns, halt_of};
ghost use Rattle.core_laws.specs.entry.Freeing.{all_freed};
ghost use Rattle.shared_core.specs.Follows.{AreAllHomes, AreRising, HasFollowed, HasGone, HasParted, HaveFollowed, HaveGone, IsOut, IsRested, Keeps, KeepsBut, MayEnd, RestsBehind, is_of, known_in, known_more, made_by, ruling_in};
ghost use Rattle.shared_core.specs.Stands.{Chooses, tables};
ghost use Rattle.router_laws.specs.decisions.Partings.{IsOusted, IsUnknown};
ghost use Rattle.router_laws.specs.wakes.Calling.{AreHomesOf, IsThere};

use crate::router::Router;
use crate::rows::{is_going, is_logging_in, may_leave};
use core_service::Service;
use core_turns::{Stop, Went, take_turns};
use mx_base::{ClientNo, LinkId, OutOfMemory};
use session_state::SessionName;
use std::collections::BTreeSet;

impl Router {
    /// A client takes up what it can; then it is ended, if it is to, or if it sent or announced too much for all that is kept; and links are
    /// given back that carried its sessions.
    pub(crate) fn follow(
        &mut self,
        service: &Service,
        client: ClientNo,
        ends: bool,
    ) -> Result<(), OutOfMemory>
        ensures follows { OnOk result (is_going ((tables self.old).clients client) ≡ true
            → HasFollowed service.now (made_by service.now self.old self.new) client ends (tables self.old) (tables self.new)) }
        ensures keeps { OnOk result (KeepsBut self.old self.new) }
    {
        let homes = self.homes_of(&[client])?;
        self.goes_on(service, client, ends)?;
        self.free_all(homes.as_slice());
        Ok(())
    }

    /// Clients do, one after the other, and those of these numbers end that may; then links are given back that carried their sessions.
    pub(crate) fn follow_all(
        &mut self,
        service: &Service,
        clients: &[ClientNo],
        ending: &BTreeSet<u64>,
    ) -> Result<(), OutOfMemory>
        ensures follow { OnOk result (AreRising clients.now
            → All (λ c. IsThere (tables self.old) c) clients.now
            → HaveFollowed service.now (made_by service.now self.old self.new)
            (IsOut ending.now self.old.came.administrator (tables self.old)) clients.now (tables self.old) (tables self.new)) }
        ensures keeps { OnOk result (KeepsBut self.old self.new) }
    {
        let homes = self.homes_of(clients)?;
        self.all_go_on(service, clients, ending)?;
        self.free_all(homes.as_slice());
        Ok(())
    }

    // The others stay as they are while one goes on.
    fn all_go_on(
        &mut self,
        service: &Service,
        clients: &[ClientNo],
        ending: &BTreeSet<u64>,
    ) -> Result<(), OutOfMemory>
        ensures go { OnOk result (AreRising clients.now
            → All (λ c. IsThere (tables self.old) c) clients.now
            → HaveGone service.now (made_by service.now self.old self.new)
            (IsOut ending.now self.old.came.administrator (tables self.old)) clients.now (tables self.old) (tables self.new)) }
        ensures keeps { OnOk result (KeepsBut self.old self.new) }
    {
        for client in clients {
            let ends = self.is_out(ending, *client);
            self.goes_on(service, *client, ends)?;
        }
        Ok(())
    }

    // Whether it is ended without a word: it is one of these, and it may be.
    fn is_out(&self, ending: &BTreeSet<u64>, client: ClientNo) -> bool
        ensures { result ≡ true → IsOut ending.now self.now.came.administrator (tables self.now) client }
    {
        ending.contains(&client.0) && self.is_ousted(client)
    }

    // An administrator came, or it isn't logged in.
    fn is_ousted(&self, client: ClientNo) -> bool
        ensures { result ≡ true → IsOusted self.now.came.administrator (tables self.now) client }
    {
        if self.came.administrator {
            true
        } else {
            self.is_unknown(client)
        }
    }

    // Whether it is there, and isn't logged in.
    fn is_unknown(&self, client: ClientNo) -> bool
        ensures { result ≡ true → IsUnknown (tables self.now) client }
    {
        match self.marked.client(client) {
            Some(row) => is_logging_in(row),
            None => false,
        }
    }

    /// Whether a client is there, and goes on.
    pub(crate) fn is_there(&self, client: ClientNo) -> bool
        ensures { result ≡ is_going ((tables self.now).clients client) }
    {
        is_going(self.marked.client(client))
    }

    /// Its turns, and its end behind them.
    pub(crate) fn goes_on(
        &mut self,
        service: &Service,
        client: ClientNo,
        ends: bool,
    ) -> Result<(), OutOfMemory>
        ensures goes { OnOk result (is_going ((tables self.old).clients client) ≡ true
            → HasGone service.now (made_by service.now self.old self.new) client ends (tables self.old) (tables self.new)) }
        ensures keeps { OnOk result (KeepsBut self.old self.new) }
    {
        let took = self.takes_turns(service, client)?;
        match took {
            Some(went) => {
                self.parts(service, client, went.stop, ends)?;
                Ok(())
            }
            None => Ok(()),
        }
    }

    // Its messages are taken up, as many as can be; and the policy is told what came of that.
    fn takes_turns(
        &mut self,
        service: &Service,
        client: ClientNo,
    ) -> Result<Option<Went>, OutOfMemory>
        ensures is { IfOk result (λ went. HasGoneOn RuledTurns went (ruling_in service.now (made_by service.now self.old self.new)) service.now.setup
            service.now.default_schema client (tables self.old) (tables self.new)) }
        ensures keeps { OnOk result (KeepsBut self.old self.new) }
    {
        let went = self.takes_up(service, client)?;
        self.took(client, &went)?;
        Ok(went)
    }

    // An administrator is shown what the router tells of itself.
    fn takes_up(&mut self, service: &Service, client: ClientNo) -> Result<Option<Went>, OutOfMemory>
        ensures is { IfOk result (λ went. HasGoneOn RuledTurns went (ruling_in service.now (made_by service.now self.old self.new)) service.now.setup
            service.now.default_schema client (tables self.old) (tables self.new)) }
        ensures keeps { OnOk result (KeepsBut self.old self.new) }
    {
        let shown = self
            .policy
            .shown_to(&self.marked.tables, client, self.came.clock)?;
        let running = self.policy.board.running(&shown);
        let took = take_turns(
            &mut self.marked,
            &mut self.texts,
            &mut self.admin,
            &running,
            service,
            &mut self.policy.servers,
            self.came.clock,
            self.alloc,
            client,
        )?;
        Ok(took)
    }

    // What is behind them, as its turns stopped: the policy is told of it before.
    fn parts(
        &mut self,
        service: &Service,
        client: ClientNo,
        stop: Stop,
        ends: bool,
    ) -> Result<(), OutOfMemory>
        ensures parts { OnOk result (RestsBehind (halt_of stop) client (tables self.old)
            → HasParted service.now.buffer_budget client ends (halt_of stop) (tables self.old) (tables self.new)) }
        ensures keeps { OnOk result (Keeps self.old self.new) }
    {
        self.changed(client);
        self.stops(service, client, stop, ends)?;
        Ok(())
    }

    // It is ended, unless it ended by its turns: without a word, if it is to end. One of which nothing is up is measured.
    fn stops(
        &mut self,
        service: &Service,
        client: ClientNo,
        stop: Stop,
        ends: bool,
    ) -> Result<(), OutOfMemory>
        ensures parts { OnOk result (RestsBehind (halt_of stop) client (tables self.old)
            → HasParted service.now.buffer_budget client ends (halt_of stop) (tables self.old) (tables self.new)) }
        ensures keeps { OnOk result (Keeps self.old self.new) }
    {
        match stop {
            Stop::Waits => {
                self.waits(client, ends)?;
                Ok(())
            }
            Stop::Rests => {
                self.rests(service, client, ends)?;
                Ok(())
            }
            Stop::Ends => Ok(()),
            Stop::Quits { .. } => Ok(()),
        }
    }

    fn waits(&mut self, client: ClientNo, ends: bool) -> Result<(), OutOfMemory>
        ensures parts { OnOk result ((budget : ℕ) → HasParted budget client ends Waits (tables self.old) (tables self.new)) }
        ensures keeps { OnOk result (Keeps self.old self.new) }
    {
        if ends { self.ends(client) } else { Ok(()) }
    }

    fn rests(&mut self, service: &Service, client: ClientNo, ends: bool) -> Result<(), OutOfMemory>
        ensures parts { OnOk result (IsRested client (tables self.old)
            → HasParted service.now.buffer_budget client ends Rests (tables self.old) (tables self.new)) }
        ensures keeps { OnOk result (Keeps self.old self.new) }
    {
        if ends {
            self.ends(client)
        } else {
            self.measures(service, client)
        }
    }

    // What it sent and announced may be too much for all that is kept.
    fn measures(&mut self, service: &Service, client: ClientNo) -> Result<(), OutOfMemory>
        ensures parts { OnOk result (IsRested client (tables self.old)
            → HasParted service.now.buffer_budget client false Rests (tables self.old) (tables self.new)) }
        ensures keeps { OnOk result (Keeps self.old self.new) }
    {
        match self.policy.last_word(&self.marked.tables, service, client) {
            Some(why) => self.tells_full(service, client, why),
            None => Ok(()),
        }
    }

    /// It ends.
    pub(crate) fn ends(&mut self, client: ClientNo) -> Result<(), OutOfMemory>
        ensures ends { OnOk result (LeavesThere client (tables self.old) (tables self.new)) }
        ensures keeps { OnOk result (Keeps self.old self.new) }
    {
        if self.may_end(client) {
            self.marked.end(client);
            self.changed(client);
            Ok(())
        } else {
            Err(OutOfMemory)
        }
    }

    fn may_end(&self, client: ClientNo) -> bool
        ensures { result ≡ true → MayEnd client (tables self.now) }
    {
        match self.marked.client(client) {
            Some(row) => may_leave(&row.desk),
            None => false,
        }
    }

    /// The links to servers that carry sessions of these clients, in rising order.
    pub(crate) fn homes_of(&self, clients: &[ClientNo]) -> Result<Vec<LinkId>, OutOfMemory>
        ensures { IfOk result (λ homes. AreHomesOf (is_of clients.now) homes.items (tables self.now)) }
    {
        let homes = self.all_homes_of(clients)?;
        let known = self.known_of(homes.as_slice())?;
        Ok(known)
    }

    // Those of them that are links to servers.
    fn known_of(&self, links: &[LinkId]) -> Result<Vec<LinkId>, OutOfMemory>
        ensures { IfOk result (λ known. known.items ≡ known_in (tables self.now) links.now) }
    {
        let mut known = Vec::new(self.alloc);
        for link in links {
            self.keep_known(&mut known, *link)?;
        }
        Ok(known)
    }

    fn keep_known(&self, known: &mut Vec<LinkId>, home: LinkId) -> Result<(), OutOfMemory>
        ensures { OnOk result (known.new.items ≡ known_more (tables self.now) home known.old.items) }
    {
        match self.marked.server(home) {
            Some(_) => {
                known.push(home)?;
                Ok(())
            }
            None => Ok(()),
        }
    }

    // All links that do.
    fn all_homes_of(&self, clients: &[ClientNo]) -> Result<Vec<LinkId>, OutOfMemory>
        ensures { IfOk result (λ homes. AreAllHomes clients.now homes.items (tables self.now)) }
    {
        let mut homes = Vec::new(self.alloc);
        for client in clients {
            self.marked.add_homes(*client, &mut homes)?;
        }
        Ok(homes)
    }

    /// Those of these links are given back that are done with their sessions. Takes no memory.
    pub(crate) fn free_all(&mut self, links: &[LinkId])
        ensures is { IsSame (tables self.new) (all_freed links.now (tables self.old)) }
        ensures keeps { Keeps self.old self.new }
    {
        for link in links {
            self.free(*link);
        }
    }

    /// A link is given back, if it is done with its session. Takes no memory.
    pub(crate) fn free(&mut self, link: LinkId)
        ensures is { IsSame (tables self.new) (freed_in link (tables self.old)) }
        ensures keeps { Keeps self.old self.new }
    {
        let name = self.marked.carried(link);
        let _ = self.marked.free_if_done(link);
        self.policy.look_at(link);
        self.changed_of(name);
    }

    /// The policy is told that something changed of the client of a session. Takes no memory.
    pub(crate) fn changed_of(&mut self, name: Option<SessionName>)
        ensures { Chooses self.old self.new }
    {
        if let Some(name) = name {
            self.changed(name.client);
        }
    }
}
