// Links to servers are opened, or can't be.
ghost use Rattle.std.specs.Prelude.{◌≡◌, OnOk, Some};
ghost use Rattle.core_texts.specs.Texts.{HasBegun};
ghost use Rattle.core_policy.specs.declared.asks.Asked.{Asked};
ghost use Rattle.mx_base.specs.declared.names.Address.{Address};
ghost use Rattle.mx_wire.specs.declared.entry.Entry.TheVariants as entry;
ghost use Rattle.shared_core.specs.Follows.{Keeps, KeepsBut, made_by};
ghost use Rattle.shared_core.specs.Links.{HasOpened};
ghost use Rattle.shared_core.specs.Stands.{Carries, IsSettled, Moves, tables};
ghost use Rattle.shared_core.specs.Wakes.{HasFailed};

use crate::router::Router;
use crate::texts::text_of;
use core_policy::{Asked, GiveUp};
use core_service::Service;
use mx_base::{Bytes, LinkId, OutOfMemory, ServerId};
use served_link::Opening;
use std::collections::BTreeSet;

impl Router {
    /// The link was opened that was asked for.
    pub(crate) fn opened(&mut self, service: &Service, link: LinkId) -> Result<(), OutOfMemory>
        ensures carries { OnOk result ((asked : Asked) → self.old.asked ≡ Some asked → Carries service.now (entry.Opened asked.server asked.address link) self.old self.new) }
        ensures moves { OnOk result (Moves self.old self.new) }
    {
        router_laws::links::opens_router();
        match std::mem::replace(&mut self.asked, None) {
            Some(asked) => self.opens(service, link, asked),
            None => Ok(()),
        }
    }

    fn opens(&mut self, service: &Service, link: LinkId, asked: Asked) -> Result<(), OutOfMemory>
        ensures opens { OnOk result (HasOpened link asked.server (tables self.old) (tables self.new)) }
        ensures keeps { OnOk result (Keeps self.old self.new) }
    {
        self.policy.opened(asked, link, self.came.clock)?;
        let login = self.policy.login(asked);
        let opening = Opening {
            server: asked.server,
            ..login.opening
        };
        let user = Bytes::from_slice(self.alloc, login.user)?;
        self.marked.open(
            link,
            0,
            opening,
            text_of(login.user),
            service.password(&user),
            login.found_rows,
            self.came.clock,
        )
    }

    /// No link could be opened: a statement is given up that waited for it, if one is, and its client goes on.
    pub(crate) fn open_failed(
        &mut self,
        service: &Service,
        server: ServerId,
    ) -> Result<(), OutOfMemory>
        requires { HasBegun self.old.texts }
        ensures carries { OnOk result ((address : Address) → IsSettled self.old → Carries service.now (entry.OpenFailed server address) self.old self.new) }
        ensures moves { OnOk result (Moves self.old self.new) }
    {
        router_laws::wakes::fails_router();
        let asked = std::mem::replace(&mut self.asked, None);
        let verdict = self
            .policy
            .open_failed(&self.marked.tables, asked, server, self.came.clock)?;
        self.fails(service, verdict.given)
    }

    // A statement that waited for it is given up, if one is, and its client goes on.
    fn fails(&mut self, service: &Service, given: Option<GiveUp>) -> Result<(), OutOfMemory>
        ensures fails { OnOk result (HasFailed service.now (made_by service.now self.old self.new) (tables self.old) (tables self.new)) }
        ensures keeps { OnOk result (KeepsBut self.old self.new) }
    {
        match given {
            Some(up) => self.refuses(service, up),
            None => Ok(()),
        }
    }

    fn refuses(&mut self, service: &Service, up: GiveUp) -> Result<(), OutOfMemory>
        ensures fails { OnOk result (HasFailed service.now (made_by service.now self.old self.new) (tables self.old) (tables self.new)) }
        ensures keeps { OnOk result (KeepsBut self.old self.new) }
    {
        if self.may_be_refused(up) {
            self.gives_up(up.client, up.why)?;
            let nobody = BTreeSet::new(self.alloc);
            self.follow_all(service, &[up.client], &nobody)?;
            Ok(())
        } else {
            Ok(())
        }
    }
}
