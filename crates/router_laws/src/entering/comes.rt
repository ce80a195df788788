// A client comes.
ghost use Rattle.std.specs.Prelude.{◌≡◌, ◌+◌, Bool, List, length, ℕ};
ghost use Rattle.mx_base.specs.declared.names.LinkId.{LinkId};
ghost use Rattle.mx_base.specs.declared.names.Port.{Port};
ghost use Rattle.mx_wire.specs.Log.{Log, accepted_links};
ghost use Rattle.mx_wire.specs.Tells.{MayFollow};
ghost use Rattle.mx_wire.specs.declared.entry.Entry.TheVariants.{Accepted};
ghost use Rattle.core_service.specs.declared.service.Service.{Service};
ghost use Rattle.core_texts.specs.declared.texts.Texts.{Texts};
ghost use Rattle.private_model.specs.Names.{ClientNo};
ghost use Rattle.core_tables.specs.Tables.{Tabled};
ghost use Rattle.core_laws.specs.entry.Cores.{with_entry};
ghost use Rattle.router_laws.specs.clients.Comes.{ComesSo, Served, TurnedAway};
ghost use Rattle.core_promises.specs.Administers.{Administered};
ghost use Rattle.router_laws.specs.decisions.Routers.{IsRouter};

/// It is served.
pub fn comes_router()
    ensures { (service : Service) (texts : Texts) (admin : Administered) (log : Log) (t now : Tabled) (roomy : ClientNo → Bool) (port : Port) (link : LinkId)
        (salt : List ℕ) (c : ClientNo) → IsRouter service texts admin log t roomy → MayFollow log (Accepted port link salt)
        → c.0 ≡ length (accepted_links log) + 1 → ComesSo Served service.setup port link salt c t now
        → IsRouter service texts admin (with_entry log (Accepted port link salt)) now roomy }
{
    crate::clients::comes_go();
}

/// It is turned away, and ends at once.
pub fn turned_away_router()
    ensures { (service : Service) (texts : Texts) (admin : Administered) (log : Log) (t now : Tabled) (roomy : ClientNo → Bool) (port : Port) (link : LinkId)
        (salt : List ℕ) (c : ClientNo) → IsRouter service texts admin log t roomy → MayFollow log (Accepted port link salt)
        → c.0 ≡ length (accepted_links log) + 1 → ComesSo TurnedAway service.setup port link salt c t now
        → IsRouter service texts admin (with_entry log (Accepted port link salt)) now roomy }
{
    crate::clients::turned_away_go();
}
