// A client's link is lost.
ghost use Rattle.std.specs.Prelude.{◌≡◌, All, Bool, List, ℕ};
ghost use Rattle.mx_base.specs.declared.names.LinkId.{LinkId};
ghost use Rattle.mx_wire.specs.Log.{Log};
ghost use Rattle.mx_wire.specs.Tells.{MayFollow};
ghost use Rattle.mx_wire.specs.declared.entry.Entry.{Entry};
ghost use Rattle.core_service.specs.Serves.{rules_in};
ghost use Rattle.core_service.specs.declared.service.Service.{Service};
ghost use Rattle.core_texts.specs.Texts.{key_at};
ghost use Rattle.core_texts.specs.declared.texts.Texts.{Texts};
ghost use Rattle.private_model.specs.Names.{ClientNo};
ghost use Rattle.core_tables.specs.Tables.{Tabled};
ghost use Rattle.core_laws.specs.entry.Cores.{with_entry};
ghost use Rattle.core_laws.specs.clients.Follows.{Parting};
ghost use Rattle.core_laws.specs.clients.Turns.{Choice, Halt};
ghost use Rattle.router_laws.specs.clients.Leaves.{IsLossOf, LeavesAgain, LeavesAtOnce, LeavesGoing};
ghost use Rattle.core_promises.specs.Ruled.{AreRuled, ruling_of};
ghost use Rattle.router_laws.specs.decisions.Held.{AreHeldSince};
ghost use Rattle.router_laws.specs.decisions.Speaks.{IsOurs, IsPartingOurs};
ghost use Rattle.core_promises.specs.Administers.{Administered};
ghost use Rattle.router_laws.specs.decisions.Routers.{IsRouter};
ghost use Rattle.router_laws.specs.entering.Rooms.{OthersLack};

/// It had ended, and leaves again.
pub fn leaves_again_router()
    ensures { (service : Service) (texts : Texts) (admin : Administered) (log : Log) (e : Entry) (t now : Tabled) (roomy : ClientNo → Bool) (link : LinkId) (c : ClientNo)
        → IsRouter service texts admin log t roomy → MayFollow log e → IsLossOf link e → LeavesAgain link c t now
        → IsRouter service texts admin (with_entry log e) now roomy }
{
    crate::clients::leaves_again();
}

/// It ends at once.
pub fn leaves_at_once_router()
    ensures { (service : Service) (texts : Texts) (admin : Administered) (log : Log) (e : Entry) (t now : Tabled) (roomy room : ClientNo → Bool) (link : LinkId)
        (c : ClientNo) (links : List LinkId) → IsRouter service texts admin log t roomy → MayFollow log e → IsLossOf link e
        → LeavesAtOnce link links c roomy t now → OthersLack c roomy room → IsRouter service texts admin (with_entry log e) now room }
{
    crate::clients::leaves_at_once();
}

/// It begins anew, goes on, and is ended.
pub fn leaves_going_router()
    ensures { (service : Service) (texts : Texts) (admin is : Administered) (log : Log) (e : Entry) (t now : Tabled) (roomy room : ClientNo → Bool) (link : LinkId)
        (c : ClientNo) (links : List LinkId) (ordinal : ℕ) (choices : List Choice) (halt : Halt) (parting : Parting)
        → (router : IsRouter service texts admin log t roomy) → MayFollow log e → IsLossOf link e
        → (so : LeavesGoing service.setup service.default_schema link links ordinal choices halt parting c t now)
        → All (IsOurs (rules_in service) texts c) choices → IsPartingOurs parting → OthersLack c roomy room
        → AreRuled (ruling_of service texts.since (key_at texts) admin is) choices halt service.setup service.default_schema c so.between so.follows.turned so.follows.turns
        → AreHeldSince texts service.default_schema router.core.decided log
        → admin.rules ≡ rules_in service → IsRouter service texts is (with_entry log e) now room }
{
    crate::clients::leaves_going();
    core_laws::clients::told_stands();
}
