// The core closes links to servers behind what was offered there, or where they were lost before.
ghost use Rattle.std.specs.Prelude.{◌≡◌, ◌++◌, [], ◌∷◌, Bool, List, Option, false, not, ℕ};
ghost use Rattle.mx_base.specs.Sent as offers;
ghost use Rattle.mx_wire.specs.Log.{AreMarks, Log};
ghost use Rattle.mx_wire.specs.Tells.{MayFollow};
ghost use Rattle.mx_wire.specs.declared.entry.Entry.{Entry};
ghost use Rattle.mx_wire.specs.declared.entry.Entry.TheVariants.{Closed};
ghost use Rattle.core_service.specs.declared.service.Service.{Service};
ghost use Rattle.core_texts.specs.declared.texts.Texts.{Texts};
ghost use Rattle.private_model.specs.Names.{ClientNo, LinkId};
ghost use Rattle.core_tables.specs.Parting.{lost_in, unlinked};
ghost use Rattle.core_tables.specs.Tables.{IsSame, Tabled};
ghost use Rattle.core_laws.specs.clients.Going.{is_going};
ghost use Rattle.core_promises.specs.Administers.{Administered};
ghost use Rattle.router_laws.specs.decisions.Routers.{IsRouter};
ghost use Rattle.core_laws.specs.entry.Cores.{with_entry};
ghost use Rattle.ready_loop.specs.Machine.{IsFarewell};
ghost use Rattle.router_laws.specs.links.Closes.{IsLentThere, MayClose, MaySayFarewell};

use crate::links::losing::loses_router;
use crate::links::routers::{closes_router, writes_router};

/// Before a link is closed one write is offered there, and marks may be made: it is forgotten then as it would have been at once.
pub fn farewells_router()
    ensures { (service : Service) (texts : Texts) (admin : Administered) (log marks : Log) (e : Entry) (t : Tabled) (roomy room : ClientNo → Bool) (l : LinkId)
        (lent : Option offers.Sent) → IsRouter service texts admin log t roomy → AreMarks marks
        → ((c : ClientNo) → room c ≡ false → roomy c ≡ false) → MayClose l room t
        → MaySayFarewell l (λ (c : ClientNo). not (is_going (t.clients c))) t → IsLentThere l lent t → IsFarewell lent l e
        → MayFollow log e → MayFollow (log ++ e ∷ [] ++ marks) (Closed l)
        → IsRouter service texts admin (log ++ e ∷ [] ++ marks ++ Closed l ∷ []) (unlinked l (lost_in l t)) room }
{
    crate::quiet::marks_router();
    crate::quiet::quiets_router();
    writes_router();
    loses_router();
    closes_router();
}

/// One that was lost by the core's own wish, of which nothing is told before.
pub fn lost_closes_router()
    ensures { (service : Service) (texts : Texts) (admin : Administered) (log : Log) (t x : Tabled) (roomy room : ClientNo → Bool) (l : LinkId)
        → IsRouter service texts admin log t roomy → ((c : ClientNo) → room c ≡ false → roomy c ≡ false) → MayClose l room t
        → IsSame x (lost_in l t) → MayFollow log (Closed l)
        → IsRouter service texts admin (with_entry log (Closed l)) (unlinked l (lost_in l x)) room }
{
    closes_router();
}
