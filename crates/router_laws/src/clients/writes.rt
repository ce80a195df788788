// Bytes are written to a client, and its link is closed.
ghost use Rattle.std.specs.Prelude.{Bool, List, length, ℕ};
ghost use Rattle.mx_base.specs.declared.names.ClientNo.{ClientNo};
ghost use Rattle.mx_base.specs.declared.names.LinkId.{LinkId};
ghost use Rattle.mx_base.specs.declared.tag.Tag.{Tag};
ghost use Rattle.mx_wire.specs.Log.{Log};
ghost use Rattle.mx_wire.specs.declared.entry.Entry.TheVariants.{Closed, Wrote};
ghost use Rattle.client_session.specs.Setups.{Setup as Service};
ghost use Rattle.private_model.specs.View.{Setup};
ghost use Rattle.link_laws.specs.Stands.{Codes};
ghost use Rattle.log_story.specs.Plan.{Plan};
ghost use Rattle.tale_world.specs.Decided.{Decided};
ghost use Rattle.core_tables.specs.Tables.{Tabled};
ghost use Rattle.core_laws.specs.entry.Cores.{GoesOn};
ghost use Rattle.core_laws.specs.entry.Tells.{ground};
ghost use Rattle.router_laws.specs.clients.Parts.{PartsSo};
ghost use Rattle.router_laws.specs.clients.Plans.{FitsThen, IsDecided, nobody, over_by};
ghost use Rattle.router_laws.specs.clients.Writes.{WroteSo};

/// Bytes are written to a client, which may have room again.
pub fn client_writes_go()
    ensures { (service : Service) (default : List ℕ) (setup : Setup) (codes : Codes) (plan : Plan) (log : Log) (old new : Decided) (t now : Tabled)
        (roomy room : ClientNo → Bool) (link : LinkId) (tag : Tag) (bytes : List ℕ) (count : ℕ) (c : ClientNo)
        → FitsThen new.keys setup codes plan default log (Wrote link tag bytes)
        → IsDecided (ground setup codes plan old log) nobody (over_by new)
        → WroteSo link bytes count c roomy room t now
        → GoesOn service setup codes plan log (Wrote link tag bytes) old new t now roomy room }
{
    core_laws::entry::counts_alone();
    core_laws::entry::writes_to_clients_rest();
    core_laws::parting::freed_stands();
    core_laws::arrival::clients_get();
}

/// A client's link is closed, which ended.
pub fn parts_go()
    ensures { (service : Service) (default : List ℕ) (setup : Setup) (codes : Codes) (plan : Plan) (log : Log) (old new : Decided) (t now : Tabled)
        (roomy : ClientNo → Bool) (link : LinkId) (c : ClientNo)
        → FitsThen new.keys setup codes plan default log (Closed link)
        → IsDecided (ground setup codes plan old log) nobody (over_by new) → PartsSo link c t now
        → GoesOn service setup codes plan log (Closed link) old new t now roomy roomy }
{
    core_laws::parting::lawful_homes();
    core_laws::parting::clients_stay();
    core_laws::parting::servers_stay();
    core_laws::parting::freed_stands();
    core_laws::arrival::clients_are_forgotten();
    core_laws::entry::counts_alone();
}
