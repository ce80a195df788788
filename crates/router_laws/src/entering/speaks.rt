// Bytes come on a client's link.
ghost use Rattle.std.specs.Prelude.{◌≡◌, All, Bool, List, ℕ};
ghost use Rattle.mx_base.specs.declared.names.LinkId.{LinkId};
ghost use Rattle.mx_wire.specs.Log.{Log};
ghost use Rattle.mx_wire.specs.Tells.{MayFollow};
ghost use Rattle.mx_wire.specs.declared.entry.Entry.TheVariants.{Got};
ghost use Rattle.core_service.specs.Serves.{rules_in};
ghost use Rattle.core_service.specs.declared.service.Service.{Service};
ghost use Rattle.core_texts.specs.Texts.{key_at};
ghost use Rattle.core_texts.specs.declared.texts.Texts.{Texts};
ghost use Rattle.private_model.specs.Names.{ClientNo};
ghost use Rattle.core_tables.specs.Tables.{Tabled};
ghost use Rattle.core_laws.specs.entry.Cores.{with_entry};
ghost use Rattle.core_laws.specs.clients.Follows.{Parting};
ghost use Rattle.core_laws.specs.clients.Turns.{Choice, Halt};
ghost use Rattle.router_laws.specs.clients.Speaks.{SpeaksSo};
ghost use Rattle.core_promises.specs.Ruled.{AreRuled, ruling_of};
ghost use Rattle.router_laws.specs.decisions.Partings.{IsPartedFor};
ghost use Rattle.router_laws.specs.decisions.Held.{AreHeldSince};
ghost use Rattle.router_laws.specs.decisions.Speaks.{IsOurs, IsPartingOurs};
ghost use Rattle.core_promises.specs.Administers.{Administered};
ghost use Rattle.router_laws.specs.decisions.Routers.{IsRouter};
ghost use Rattle.router_laws.specs.entering.Rooms.{OthersLack};

/// It goes on, and may end; it has no room to wait for behind that.
pub fn speaks_router()
    ensures { (service : Service) (texts : Texts) (admin is : Administered) (log : Log) (t now : Tabled) (roomy room : ClientNo → Bool) (link : LinkId) (bytes : List ℕ)
        (c : ClientNo) (ordinal : ℕ) (choices : List Choice) (halt : Halt) (parting : Parting) (links : List LinkId)
        → (router : IsRouter service texts admin log t roomy) → MayFollow log (Got link bytes)
        → (so : SpeaksSo service.setup service.default_schema link bytes c ordinal choices halt parting links t now)
        → All (IsOurs (rules_in service) texts c) choices → IsPartingOurs parting → IsPartedFor service.buffer_budget ⊥ parting
        → OthersLack c roomy room
        → AreRuled (ruling_of service texts.since (key_at texts) admin is) choices halt service.setup service.default_schema c so.heard so.follows.turned so.follows.turns
        → AreHeldSince texts service.default_schema router.core.decided log
        → admin.rules ≡ rules_in service → IsRouter service texts is (with_entry log (Got link bytes)) now room }
{
    crate::clients::speaks_go();
    core_laws::clients::told_stands();
}
