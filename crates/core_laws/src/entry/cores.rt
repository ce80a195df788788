// A core goes on with an entry.
ghost use Rattle.std.specs.Prelude.{◌≡◌, All, Bool, List, [], false, length, true, ℕ};
ghost use Rattle.mx_wire.specs.Log.{Log};
ghost use Rattle.mx_wire.specs.declared.entry.Entry.{Entry};
ghost use Rattle.client_session.specs.Setups.{Setup as Service};
ghost use Rattle.private_model.specs.Names.{ClientNo};
ghost use Rattle.private_model.specs.Lawful.{IsLawful};
ghost use Rattle.private_model.specs.Story.{Story};
ghost use Rattle.private_model.specs.View.{Setup};
ghost use Rattle.link_laws.specs.Stands.{Codes};
ghost use Rattle.log_story.specs.Headline.{tale_of};
ghost use Rattle.log_story.specs.Plan.{Plan};
ghost use Rattle.log_story.specs.Said.{IsSaidLog, SaysSo};
ghost use Rattle.log_story.specs.Tale.{Client, Tale};
ghost use Rattle.step_laws.specs.Seats.{AreCounted, IsSeated, numbers};
ghost use Rattle.tale_world.specs.Decided.{Decided};
ghost use Rattle.tale_world.specs.Tested.{has_broken};
ghost use Rattle.core_tables.specs.Tables.{Tabled, no_tables};
ghost use Rattle.core_stands.specs.Grounds.{Ground};
ghost use Rattle.core_stands.specs.Stands.{Stands};
ghost use Rattle.core_laws.specs.entry.Cores.{GoesOnBy, IsSafely, with_entry};
ghost use Rattle.core_laws.specs.entry.Dues.{AreSilent, AreWrittenTo, IsWrittenBy, WritesTo};
ghost use Rattle.core_laws.specs.entry.Entries.{KeepsSeats};
ghost use Rattle.core_laws.specs.entry.Grows.{IsHeardMore, IsMoreBy};
ghost use Rattle.core_laws.specs.entry.Safe.{IsSafe};
ghost use Rattle.core_laws.specs.entry.Tells.{AreOpen, IsCore, ground};

/// Where others stand as they stood, and each of these as itself, of which more was read, so do all.
pub fn all_are_heard()
    ensures { (whose : ClientNo → Bool) (old new : Tale) → AreCounted 1 (numbers old) → KeepsSeats whose old new
        → ((client : Client) → IsSeated old client → whose client.number ≡ true → IsHeardMore new client)
        → All (λ (client : Client). IsHeardMore new client) old.clients }
{}

/// A core goes on with an entry, by what is decided more, where its tables and its log do by each setup and plan.
pub fn cores_go_on()
    ensures { (service : Service) (default : List ℕ) (log : Log) (e : Entry) (t now : Tabled) (roomy room : ClientNo → Bool) (new : Decided)
        → (core : IsCore service default log t roomy) → IsMoreBy (length log) core.decided new
        → GoesOnBy service default log e core.decided new t now roomy room → AreOpen (with_entry log e) now
        → IsCore service default (with_entry log e) now room }
{}

/// Empty tables are a core's of the empty log.
pub fn first_core()
    ensures { (service : Service) (default : List ℕ) (roomy : ClientNo → Bool) → IsCore service default [] no_tables roomy }
{
    core_stands::first_stands();
}

/// In a lawful story no rule of sending is broken; and a safe log says what there is to say at its end.
pub fn lawful_unbroken()
    ensures lawful { (setup : Setup) (story : Story) → IsLawful setup story → has_broken story ≡ false }
    ensures says { (setup : Setup) (plan : Plan) (log : Log) → IsSaidLog setup plan log → SaysSo setup plan (tale_of setup plan log) }
{}

/// A safe log goes on safely with an entry behind which the tables stand, that passed its test, whose links are silent or spoken to, and behind
/// which what was written is due.
pub fn logs_go_on()
    ensures { (service : Service) (setup : Setup) (codes : Codes) (plan : Plan) (d : Decided) (log : Log) (e : Entry) (t : Tabled)
        → IsSafe setup plan log → IsSafely setup plan log e t → Stands service (ground setup codes plan d (with_entry log e)) t
        → AreSilent (ground setup codes plan d (with_entry log e))
        → AreWrittenTo (ground setup codes plan d (with_entry log e)) (with_entry log e) → IsSafe setup plan (with_entry log e) }
{}

/// What is written to a client that has a row is what stands first in what is to be written to it; to all others nothing is.
pub fn writes_go_on()
    ensures { (g : Ground) (log : Log) (e : Entry) → AreWrittenTo g log
        → ((client : Client) → IsSeated g.tale client → IsWrittenBy g e client) → WritesTo g log e }
{}
