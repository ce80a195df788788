// The core closes links to servers.
ghost use Rattle.std.specs.Prelude.{◌≡◌, Bool, false};
ghost use Rattle.mx_wire.specs.Log.{Log};
ghost use Rattle.mx_wire.specs.declared.entry.Entry.TheVariants.{Closed};
ghost use Rattle.client_session.specs.Setups.{Setup as Service};
ghost use Rattle.private_model.specs.Names.{ClientNo, LinkId};
ghost use Rattle.private_model.specs.View.{Setup};
ghost use Rattle.link_laws.specs.Stands.{Codes};
ghost use Rattle.log_story.specs.Headline.{tale_of};
ghost use Rattle.log_story.specs.Plan.{Plan};
ghost use Rattle.log_story.specs.Telling.{tale_step};
ghost use Rattle.tale_world.specs.Decided.{Decided};
ghost use Rattle.core_tables.specs.Tables.{Tabled};
ghost use Rattle.core_stands.specs.Stands.{Rests};
ghost use Rattle.core_laws.specs.entry.Cores.{GoesOn};
ghost use Rattle.core_laws.specs.entry.Tells.{ground};
ghost use Rattle.router_laws.specs.clients.Plans.{IsDecided, nobody, over_by};
ghost use Rattle.router_laws.specs.links.Closes.{ClosesSo};

/// A link to a server is closed, and forgotten: a client that waits for a capture of the session that goes with it is called at the next wake.
pub fn closes_go()
    ensures goes { (service : Service) (setup : Setup) (codes : Codes) (plan : Plan) (log : Log) (old new : Decided) (t now : Tabled)
        (roomy room : ClientNo → Bool) (l : LinkId) → IsDecided (ground setup codes plan old log) nobody (over_by new)
        → ((c : ClientNo) → room c ≡ false → roomy c ≡ false) → ClosesSo l room t now
        → GoesOn service setup codes plan log (Closed l) old new t now roomy room }
    ensures clients { (service : Service) (setup : Setup) (codes : Codes) (plan : Plan) (log : Log) (old new : Decided) (t now : Tabled)
        (roomy room : ClientNo → Bool) (l : LinkId) → IsDecided (ground setup codes plan old log) nobody (over_by new)
        → ((c : ClientNo) → room c ≡ false → roomy c ≡ false) → ClosesSo l room t now → Rests service (ground setup codes plan old log) t roomy
        → (tale_step setup plan (tale_of setup plan log) (Closed l)).clients ≡ (tale_of setup plan log).clients }
{
    core_laws::parting::freed_stands();
    core_laws::parting::same_stands();
    core_laws::parting::lost_stands();
    core_laws::parting::forgotten_stands();
}
