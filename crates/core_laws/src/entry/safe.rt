// What a safe log promises, and how it goes on.
ghost use Rattle.std.specs.Prelude.{Bool, List, [], false, length, ℕ, ◌++◌, ◌∷◌, ◌≡◌};
ghost use Rattle.mx_wire.specs.Log.{Log};
ghost use Rattle.mx_wire.specs.Moments.{AtEachMoment};
ghost use Rattle.mx_wire.specs.declared.entry.Entry.{Entry};
ghost use Rattle.client_session.specs.Setups.{Setup as Service};
ghost use Rattle.server_rule.specs.Laws.{IsTame};
ghost use Rattle.server_rule.specs.Servers.{Step, Tests};
ghost use Rattle.private_model.specs.Honest.{IsAccepted};
ghost use Rattle.private_model.specs.Names.{ClientNo};
ghost use Rattle.private_model.specs.View.{Setup};
ghost use Rattle.run_laws.specs.Tells.{TellsBytes};
ghost use Rattle.link_laws.specs.Stands.{Codes};
ghost use Rattle.log_story.specs.Assumed.{AreHonest};
ghost use Rattle.log_story.specs.Headline.{HasPrivateBytes, WritesDue, WritesPrivate, tale_of};
ghost use Rattle.log_story.specs.Plan.{Plan};
ghost use Rattle.log_story.specs.Said.{ClosesFirst, SaysSo};
ghost use Rattle.log_story.specs.Telling.{story_of};
ghost use Rattle.tale_world.specs.Tested.{Passes, has_broken};
ghost use Rattle.core_tables.specs.Tables.{Tabled};
ghost use Rattle.core_laws.specs.entry.Safe.{IsSafe};
ghost use Rattle.core_laws.specs.entry.Tells.{Fits, IsCore, IsOf};

use log_story::{private_bytes, written_is_private};
use tale_world::lawful_by_tests;

/// Where servers are tame and honest, a safe log has private bytes, and at each moment the router has written to each client without a last
/// word a front of what its private world owes it.
pub fn safe_is_private()
    ensures read { (setup : Setup) (plan : Plan) (tests : Tests) (server : Step) (log : Log) → IsTame setup.reads tests server
        → IsAccepted setup tests → IsSafe setup plan log → AreHonest setup plan server log → HasPrivateBytes setup plan server log }
    ensures written { (setup : Setup) (plan : Plan) (tests : Tests) (server : Step) (log : Log) → IsTame setup.reads tests server
        → IsAccepted setup tests → IsSafe setup plan log → AreHonest setup plan server log
        → AtEachMoment (WritesPrivate setup plan server) log }
{
    lawful_by_tests();
    private_bytes();
    written_is_private();
}

/// So it is of the log of a core, by each plan that has what it decided.
pub fn core_is_private()
    ensures { (service : Service) (default : List ℕ) (log : Log) (t : Tabled) (roomy : ClientNo → Bool)
        → (core : IsCore service default log t roomy) → (setup : Setup) (codes : Codes) (plan : Plan) (tests : Tests) (server : Step)
        → IsOf core.decided (length log) plan → Fits core.decided.keys setup codes plan default (tale_of setup plan log)
        → IsTame setup.reads tests server → IsAccepted setup tests → AreHonest setup plan server log
        → HasPrivateBytes setup plan server log × AtEachMoment (WritesPrivate setup plan server) log }
{
    safe_is_private();
}

/// A safe log goes on safely with an entry that passes its test and breaks nothing, behind which what was said is what there is to say, and
/// what was written is due.
pub fn safe_goes_on()
    ensures { (setup : Setup) (plan : Plan) (log : Log) (e : Entry) → IsSafe setup plan log
        → Passes setup plan (tale_of setup plan log) e
        → has_broken (story_of setup plan (log ++ e ∷ [])) ≡ false
        → TellsBytes (tale_of setup plan (log ++ e ∷ []))
        → ClosesFirst setup (tale_of setup plan log) e
        → SaysSo setup plan (tale_of setup plan (log ++ e ∷ []))
        → WritesDue setup plan (log ++ e ∷ [])
        → IsSafe setup plan (log ++ e ∷ []) }
{}
