// A router goes on with entries of clients' links by which nobody is called.
ghost use Rattle.std.specs.Prelude.{Bool, List, ℕ};
ghost use Rattle.mx_base.specs.declared.names.LinkId.{LinkId};
ghost use Rattle.mx_base.specs.declared.tag.Tag.{Tag};
ghost use Rattle.mx_wire.specs.Log.{Log};
ghost use Rattle.mx_wire.specs.Tells.{MayFollow};
ghost use Rattle.mx_wire.specs.declared.entry.Entry.TheVariants.{Closed, Wrote};
ghost use Rattle.core_service.specs.declared.service.Service.{Service};
ghost use Rattle.core_texts.specs.declared.texts.Texts.{Texts};
ghost use Rattle.private_model.specs.Names.{ClientNo};
ghost use Rattle.core_tables.specs.Tables.{Tabled};
ghost use Rattle.core_laws.specs.entry.Cores.{with_entry};
ghost use Rattle.router_laws.specs.clients.Parts.{PartsSo};
ghost use Rattle.router_laws.specs.clients.Writes.{WroteSo};
ghost use Rattle.core_promises.specs.Administers.{Administered};
ghost use Rattle.router_laws.specs.decisions.Routers.{IsRouter};

/// Bytes that are due to a client are written.
pub fn client_writes_router()
    ensures { (service : Service) (texts : Texts) (admin : Administered) (log : Log) (t now : Tabled) (roomy room : ClientNo → Bool) (link : LinkId) (tag : Tag)
        (bytes : List ℕ) (count : ℕ) (c : ClientNo) → IsRouter service texts admin log t roomy → MayFollow log (Wrote link tag bytes)
        → WroteSo link bytes count c roomy room t now → IsRouter service texts admin (with_entry log (Wrote link tag bytes)) now room }
{
    crate::clients::client_writes_go();
}

/// A client's link is closed, which ended.
pub fn parts_router()
    ensures { (service : Service) (texts : Texts) (admin : Administered) (log : Log) (t now : Tabled) (roomy : ClientNo → Bool) (link : LinkId) (c : ClientNo)
        → IsRouter service texts admin log t roomy → MayFollow log (Closed link) → PartsSo link c t now
        → IsRouter service texts admin (with_entry log (Closed link)) now roomy }
{
    crate::clients::parts_go();
}
