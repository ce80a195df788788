// Bytes come on links to servers.
ghost use Rattle.std.specs.Prelude.{◌≡◌, IsSome, OnOk, true};
ghost use Rattle.core_texts.specs.Texts.{HasBegun};
ghost use Rattle.marked_tables.specs.Goes.{reads_on};
ghost use Rattle.mx_base.specs.Fields.{AreBytes};
ghost use Rattle.mx_wire.specs.declared.entry.Entry.TheVariants as entry;
ghost use Rattle.shared_core.specs.Follows.{KeepsBut};
ghost use Rattle.shared_core.specs.Hears.{HasHeard};
ghost use Rattle.shared_core.specs.Stands.{Carries, IsSettled, Moves, tables};

use crate::router::Router;
use core_service::Service;
use mx_base::{LinkId, OutOfMemory};

impl Router {
    /// Bytes came on a link to a server.
    pub(crate) fn server_says(
        &mut self,
        service: &Service,
        link: LinkId,
        bytes: &mut [u8],
    ) -> Result<(), OutOfMemory>
        requires { HasBegun self.old.texts }
        ensures carries { OnOk result (IsSome ((tables self.old).links link) → reads_on self.old.marked link ≡ true
            → IsSettled self.old → Carries service.now (entry.Got link bytes.old) self.old self.new) }
        ensures moves { OnOk result (Moves self.old self.new) }
    {
        router_laws::reading::hears_router();
        self.hears(service, link, bytes)
    }

    // What they break is given up; then the link is given back, if it is done; and the client goes on whose session it carried, or whose
    // statement was given up.
    fn hears(
        &mut self,
        service: &Service,
        link: LinkId,
        bytes: &mut [u8],
    ) -> Result<(), OutOfMemory>
        ensures hears { OnOk result (IsSome ((tables self.old).links link) → reads_on self.old.marked link ≡ true
            → HasHeard service.now link bytes.old self.old self.new) }
        ensures keeps { OnOk result (KeepsBut self.old self.new) }
        ensures bytes { AreBytes bytes.old }
    {
        router_laws::reading::hears_so();
        let name = self.marked.carried(link);
        let cut = self.marked.says(link).is_some();
        let said = self.marked.server_says(link, bytes, self.came.clock)?;
        self.keeps(link, said)?;
        let verdict = self.policy.heard(
            &self.marked.tables,
            link,
            name,
            said,
            cut,
            self.came.clock,
        )?;
        let given = self.may_give(link, name, verdict.given);
        self.gives(given)?;
        self.free(link);
        self.call(service, name, given, verdict.ends)
    }
}
