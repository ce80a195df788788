// Statements are given up.
ghost use Rattle.std.specs.Prelude.{◌≡◌, IfSome, OnOk, Option, is_some, true};
ghost use Rattle.core_laws.specs.clients.Going.{GivenUp};
ghost use Rattle.core_promises.specs.Causes.{IsLateCause};
ghost use Rattle.core_service.specs.Failures.{payload_of};
ghost use Rattle.core_texts.specs.Texts.{noted_at};
ghost use Rattle.router_laws.specs.decisions.Noted.{WasNoted};
ghost use Rattle.router_laws.specs.links.Loses.{IsGivenUpWith};
ghost use Rattle.router_laws.specs.reading.Givings.{MayBeGivenUp};
ghost use Rattle.shared_core.specs.Follows.{HasAnswered, HasCalled, HasGiven, IsFor, Keeps, KeepsBut, MayBeGiven, MayBeGivenWith, called_by, made_by, told_client, up_client};
ghost use Rattle.shared_core.specs.Causes.{is_heard, is_late, is_lost, is_noted, is_refused};
ghost use Rattle.shared_core.specs.Stands.{tables};
ghost use Rattle.shared_core.specs.Wakes.{IsWaiting};

use crate::router::Router;
use crate::rows::{is_aside, is_aside_with, is_lent_no_other};
use core_policy::GiveUp;
use core_service::{Failure, Service, payload_of};
use mx_base::{ClientNo, LinkId, OutOfMemory};
use session_state::SessionName;

// Whether a client is ended without a word that goes on for a link: one whose session the link carries, where it is this one.
fn is_last(name: Option<SessionName>, ends: Option<ClientNo>, client: ClientNo) -> bool
    ensures { result ≡ true → is_some name ≡ true }
{
    match (name, ends) {
        (Some(_), Some(last)) => last.0 == client.0,
        _ => false,
    }
}

// Whether this moment is noted.
fn is_noted(noted: Option<u64>, since_ms: u64) -> bool
    ensures { result ≡ is_noted noted since_ms }
{
    match noted {
        Some(noted_ms) => noted_ms == since_ms,
        None => false,
    }
}

// Whether a statement may be given up for it as bytes come on a link, which carries a session of its client, or doesn't.
fn is_heard(carried: bool, why: Failure) -> bool
    ensures { result ≡ is_heard carried why }
{
    match why {
        Failure::StepRefused { .. } | Failure::Refused => true,
        Failure::BadBytes { .. } => carried,
        _ => false,
    }
}

// And as the link is lost.
fn is_lost(carried: bool, why: Failure) -> bool
    ensures { result ≡ is_lost carried why }
{
    match why {
        Failure::LinkLost => carried,
        Failure::Refused => true,
        _ => false,
    }
}

// And at a wake, where an administrator came, or none did, and it is noted since when the statement waits, or isn't.
fn is_late(wait_ms: u64, now_ms: u64, came: bool, noted: Option<u64>, why: Failure) -> bool
    ensures { result ≡ is_late wait_ms now_ms came noted why }
{
    match why {
        Failure::NoConnection {
            since_ms,
            now_ms: told_ms,
        } => told_ms == now_ms
            && (since_ms <= now_ms && (wait_ms <= now_ms - since_ms && is_noted(noted, since_ms))),
        Failure::BadBytes { place } => place == 0,
        Failure::ShuttingDown => came,
        _ => false,
    }
}

// And where a link couldn't be opened.
fn is_refused(why: Failure) -> bool
    ensures { result ≡ is_refused why }
{
    match why {
        Failure::Refused => true,
        _ => false,
    }
}

impl Router {
    /// A client's statement in work is given up: the router answers it itself.
    pub(crate) fn gives_up(&mut self, client: ClientNo, why: Failure) -> Result<(), OutOfMemory>
        ensures answers { OnOk result (HasAnswered client why (tables self.old) (tables self.new)) }
        ensures keeps { OnOk result (Keeps self.old self.new) }
    {
        let payload = payload_of(self.alloc, why)?;
        self.marked.give_up(client, payload.as_slice())?;
        self.policy.fails(client, why, self.came.clock);
        self.changed(client);
        Ok(())
    }

    /// So it is, if one is.
    pub(crate) fn gives(&mut self, given: Option<GiveUp>) -> Result<(), OutOfMemory>
        ensures gives { OnOk result (HasGiven given (tables self.old) (tables self.new)) }
        ensures keeps { OnOk result (Keeps self.old self.new) }
    {
        match given {
            Some(up) => {
                self.gives_up(up.client, up.why)?;
                Ok(())
            }
            None => Ok(()),
        }
    }

    // It is of the client whose session a link carries, if it carries one, and else of one that goes on.
    fn is_for(&self, name: Option<SessionName>, client: ClientNo) -> bool
        ensures { result ≡ true → IsFor name client (tables self.now) }
    {
        match name {
            Some(name) => client.0 == name.client.0,
            None => self.is_there(client),
        }
    }

    // It wasn't sent, or the link broke to which it was; and no other link than this one is lent to its session.
    fn is_aside(&self, link: LinkId, client: ClientNo) -> bool
        ensures { result ≡ true → MayBeGivenUp link client (tables self.now) }
    {
        if is_lent_no_other(&self.marked.tables, link, client) {
            is_aside(&self.marked.tables, client)
        } else {
            false
        }
    }

    // It wasn't sent, or it was to this link; and no other is lent to its session.
    fn is_aside_with(&self, link: LinkId, client: ClientNo) -> bool
        ensures { result ≡ true → IsGivenUpWith link client (tables self.now) }
    {
        if is_lent_no_other(&self.marked.tables, link, client) {
            is_aside_with(&self.marked.tables, link, client)
        } else {
            false
        }
    }

    /// What may be given up of a statement by what was heard on a link that carries this session.
    pub(crate) fn may_give(
        &self,
        link: LinkId,
        name: Option<SessionName>,
        given: Option<GiveUp>,
    ) -> Option<GiveUp>
        ensures { IfSome result (λ up. MayBeGiven link name up (tables self.now)) }
    {
        let up = given?;
        if !self.is_for(name, up.client) {
            return None;
        }
        if !is_heard(name.is_some(), up.why) {
            return None;
        }
        if self.is_aside(link, up.client) {
            Some(up)
        } else {
            None
        }
    }

    /// And as a link is lost.
    pub(crate) fn may_give_with(
        &self,
        link: LinkId,
        name: Option<SessionName>,
        given: Option<GiveUp>,
    ) -> Option<GiveUp>
        ensures { IfSome result (λ up. MayBeGivenWith link name up (tables self.now)) }
    {
        let up = given?;
        if !self.is_for(name, up.client) {
            return None;
        }
        if !is_lost(name.is_some(), up.why) {
            return None;
        }
        if self.is_aside_with(link, up.client) {
            Some(up)
        } else {
            None
        }
    }

    // The client whose session a link carries, if it goes on, or else the one whose statement was given up.
    fn called_by(&self, name: Option<SessionName>, given: Option<GiveUp>) -> Option<ClientNo>
        ensures { result ≡ called_by name (up_client given) (tables self.now) }
    {
        match name {
            Some(name) => {
                if self.is_there(name.client) {
                    Some(name.client)
                } else {
                    None
                }
            }
            None => match given {
                Some(up) => Some(up.client),
                None => None,
            },
        }
    }

    /// What may be given up at a wake.
    pub(crate) fn may_be_late(&self, wait_ms: u64, now_ms: u64, came: bool, up: GiveUp) -> bool
        ensures late { result ≡ true → IsLateCause wait_ms now_ms came (WasNoted (noted_at self.now.texts) (tables self.now) up.client) (payload_of up.why) }
        ensures waits { result ≡ true → IsWaiting up.client (tables self.now) }
    {
        let noted = self.noted_since(up.client);
        if is_late(wait_ms, now_ms, came, noted, up.why) {
            self.is_waiting(up.client)
        } else {
            false
        }
    }

    /// And where a link couldn't be opened.
    pub(crate) fn may_be_refused(&self, up: GiveUp) -> bool
        ensures refused { result ≡ true → is_refused up.why ≡ true }
        ensures waits { result ≡ true → IsWaiting up.client (tables self.now) }
    {
        is_refused(up.why) && self.is_waiting(up.client)
    }

    /// Whoever an entry of a link to a server calls goes on.
    pub(crate) fn call(
        &mut self,
        service: &Service,
        name: Option<SessionName>,
        given: Option<GiveUp>,
        ends: Option<ClientNo>,
    ) -> Result<(), OutOfMemory>
        ensures calls { OnOk result ((told : Option GivenUp) → told_client told ≡ up_client given
            → IfSome given (λ up. IsFor name up.client (tables self.old))
            → HasCalled service.now (made_by service.now self.old self.new) name told (tables self.old) (tables self.new)) }
        ensures keeps { OnOk result (KeepsBut self.old self.new) }
    {
        match self.called_by(name, given) {
            Some(client) => {
                let last = is_last(name, ends, client);
                self.follow(service, client, last)?;
                Ok(())
            }
            None => Ok(()),
        }
    }
}
