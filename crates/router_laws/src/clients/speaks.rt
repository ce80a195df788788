// Bytes come on a client's link.
ghost use Rattle.std.specs.Prelude.{◌≡◌, ℕ, Bool, List, false};
ghost use Rattle.mx_base.specs.declared.names.ClientNo.{ClientNo};
ghost use Rattle.mx_base.specs.declared.names.LinkId.{LinkId};
ghost use Rattle.mx_wire.specs.Log.{Log};
ghost use Rattle.mx_wire.specs.declared.entry.Entry.TheVariants.{Got};
ghost use Rattle.client_session.specs.Setups.{Setup as Service};
ghost use Rattle.private_model.specs.Story.{is_client};
ghost use Rattle.private_model.specs.View.{Setup};
ghost use Rattle.link_laws.specs.Stands.{Codes};
ghost use Rattle.log_story.specs.Plan.{Plan};
ghost use Rattle.tale_world.specs.Decided.{Decided};
ghost use Rattle.core_tables.specs.Tables.{Tabled};
ghost use Rattle.core_laws.specs.entry.Safe.{IsSafe};
ghost use Rattle.core_laws.specs.entry.Tells.{ground};
ghost use Rattle.core_laws.specs.clients.Follows.{Parting};
ghost use Rattle.core_laws.specs.clients.Turns.{Choice, Halt};
ghost use Rattle.router_laws.specs.clients.Finds.{GoesFinding};
ghost use Rattle.router_laws.specs.clients.Plans.{FitsThen, PlansTurns, over_by};
ghost use Rattle.router_laws.specs.clients.Speaks.{SpeaksSo};

/// Bytes come on the link of a client that goes on: its messages are taken up, and it may end. It has no room to wait for behind that.
pub fn speaks_go()
    ensures { (service : Service) (default : List ℕ) (setup : Setup) (codes : Codes) (plan : Plan) (log : Log) (old new : Decided) (t now : Tabled)
        (roomy room : ClientNo → Bool) (link : LinkId) (bytes : List ℕ) (c : ClientNo) (ordinal : ℕ) (choices : List Choice) (halt : Halt)
        (parting : Parting) (links : List LinkId) → FitsThen new.keys setup codes plan default log (Got link bytes) → IsSafe setup plan log
        → PlansTurns service (ground setup codes plan old log) log c ordinal choices halt parting (over_by new)
        → (so : SpeaksSo service default link bytes c ordinal choices halt parting links t now)
        → ((other : ClientNo) → is_client c other ≡ false → room other ≡ false → roomy other ≡ false)
        → GoesFinding service default setup codes plan log (Got link bytes) old new t now roomy room c ordinal choices halt
        so.heard so.follows.turned so.follows.turns }
{
    core_laws::arrival::clients_speak();
    core_laws::entry::counts_alone();
    core_laws::entry::counts_rest();
    core_laws::entry::entries_of_a_speaker();
    core_laws::clients::follows_rest();
    core_laws::clients::follows_find();
}
