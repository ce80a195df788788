// What is the same at each entry, whatever its kind.
ghost use Rattle.std.specs.Prelude.{All, Bool, ◌⊎◌};
ghost use Rattle.mx_wire.specs.Log.{Log};
ghost use Rattle.mx_wire.specs.declared.entry.Entry.{Entry};
ghost use Rattle.client_session.specs.Setups.{Setup as Service};
ghost use Rattle.private_model.specs.Names.{ClientNo};
ghost use Rattle.private_model.specs.View.{Setup};
ghost use Rattle.link_laws.specs.Stands.{Codes};
ghost use Rattle.log_story.specs.Plan.{Plan};
ghost use Rattle.log_story.specs.Tale.{Client, Tale};
ghost use Rattle.log_story.specs.Telling.{tale_step};
ghost use Rattle.step_laws.specs.Seats.{AreCounted, numbers};
ghost use Rattle.tale_world.specs.Decided.{Decided};
ghost use Rattle.core_tables.specs.Tables.{Tabled};
ghost use Rattle.core_laws.specs.entry.Cores.{GoesOn};
ghost use Rattle.core_laws.specs.entry.Tells.{ground};
ghost use Rattle.router_laws.specs.clients.Behind.{IsEntered};
ghost use Rattle.router_laws.specs.clients.Continues.{HasCome, IsThere, WasThere};
ghost use Rattle.router_laws.specs.clients.Plans.{IsDecided, over_by};

/// Whatever the entry, each client that was there is there behind it, with more of it read and taken up; and each that is there was, or came.
pub fn clients_continue()
    ensures there { (setup : Setup) (plan : Plan) (tale : Tale) (e : Entry) → AreCounted 1 (numbers tale)
        → All (IsThere plan tale e (tale_step setup plan tale e)) tale.clients }
    ensures were { (setup : Setup) (plan : Plan) (tale : Tale) (e : Entry) → AreCounted 1 (numbers tale)
        → All (λ (client : Client). WasThere plan tale e client ⊎ HasCome tale e client) (tale_step setup plan tale e).clients }
{}

/// A core goes on with an entry of no link to a server, behind which its tables rest.
pub fn entries_go_on()
    ensures { (service : Service) (setup : Setup) (codes : Codes) (plan : Plan) (log : Log) (e : Entry) (old new : Decided) (t now : Tabled)
        (roomy room whose : ClientNo → Bool) → IsDecided (ground setup codes plan old log) whose (over_by new)
        → IsEntered service (ground setup codes plan old log) log e whose (over_by new) t now roomy room
        → GoesOn service setup codes plan log e old new t now roomy room }
{}
