//! From a log to a story: what the bytes between the router, its clients and its servers tell, and what is promised of them.
#![tactic(auto)]

ghost use Rattle.std.specs.Prelude.{◌≡◌, ◌≤◌, ℕ, true, List, Option, Some, None};
ghost use Rattle.mx_base.specs.declared.names.LinkId.{LinkId};
ghost use Rattle.mx_wire.specs.Log.{Log};
ghost use Rattle.packet_frame.specs.Packets.{Framed};
ghost use Rattle.private_model.specs.Commands.{runs};
ghost use Rattle.private_model.specs.Honest.{IsAccepted, IsHonest};
ghost use Rattle.private_model.specs.Lawful.{IsLawful, MayFree};
ghost use Rattle.private_model.specs.Names.{SessionName};
ghost use Rattle.private_model.specs.Story.{Due, message_of};
ghost use Rattle.private_model.specs.View.{Setup};
ghost use Rattle.server_rule.specs.Laws.{IsTame};
ghost use Rattle.server_rule.specs.Servers.{Step, Tests};
ghost use Rattle.log_story.specs.Clients.{next_taken, waits_for_capture};
ghost use Rattle.mx_wire.specs.Moments.{AtEachMoment};
ghost use Rattle.log_story.specs.Assumed.{AreHonest};
ghost use Rattle.log_story.specs.Headline.{HasPrivateBytes, WritesDue, WritesPrivate};
ghost use Rattle.log_story.specs.Honest.{IsHonestLog};
ghost use Rattle.log_story.specs.Said.{IsSaidLog};
ghost use Rattle.log_story.specs.Owed.{unwritten};
ghost use Rattle.log_story.specs.Plan.{Plan, own_at};
ghost use Rattle.log_story.specs.Servers.{due_in, is_done};
ghost use Rattle.log_story.specs.Tale.{Client, Tale, link_in, view_of};
ghost use Rattle.log_story.specs.Telling.{story_of};

use private_model::private_world;

/// Where the bytes of a log are honest, so is its story: each reply that is cut from the bytes is the answer of the run.
pub fn honest_story()
    ensures { (setup : Setup) (plan : Plan) (server : Step) (log : Log) → IsHonestLog setup plan server log
        → IsHonest setup (runs server) (story_of setup plan log) }
{}

/// What the router writes on links to servers, and what is assumed of servers, are together that the log is honest.
pub fn honest_log()
    ensures { (setup : Setup) (plan : Plan) (server : Step) (log : Log) → IsSaidLog setup plan log → AreHonest setup plan server log
        → IsHonestLog setup plan server log }
{}

/// Where servers are tame, a log is honest and its story is lawful, each reply that is read is the private one, byte by byte as
/// far as it is read, and so is what each client is due by it.
pub fn honest_bytes()
    ensures { (setup : Setup) (plan : Plan) (tests : Tests) (server : Step) (log : Log) → IsTame setup.reads tests server → IsAccepted setup tests
        → IsLawful setup (story_of setup plan log) → IsHonestLog setup plan server log → HasPrivateBytes setup plan server log }
{
    private_world();
}

/// So it is where the router writes what its questions are, and servers are tame and honest.
pub fn private_bytes()
    ensures { (setup : Setup) (plan : Plan) (tests : Tests) (server : Step) (log : Log) → IsTame setup.reads tests server → IsAccepted setup tests
        → IsLawful setup (story_of setup plan log) → IsSaidLog setup plan log → AreHonest setup plan server log
        → HasPrivateBytes setup plan server log }
{
    honest_log();
    honest_bytes();
}

/// And where at each moment it has written to each client a front of what it is due by the replies that were read, it has at each
/// moment written to each client without a last word a front of what its private world owes it.
pub fn written_is_private()
    ensures { (setup : Setup) (plan : Plan) (tests : Tests) (server : Step) (log : Log) → IsTame setup.reads tests server → IsAccepted setup tests
        → IsLawful setup (story_of setup plan log) → IsSaidLog setup plan log → AreHonest setup plan server log
        → AtEachMoment (WritesDue setup plan) log → AtEachMoment (WritesPrivate setup plan server) log }
{
    private_bytes();
}

/// While too many bytes for a client are unwritten, no message of it is taken up.
pub fn messages_wait()
    ensures { (setup : Setup) (plan : Plan) (client : Client) (message : Option Framed) (tale : Tale)
        → plan.room ≤ unwritten (view_of setup tale).replies plan tale.moment client → next_taken setup plan client message tale ≡ None }
{}

/// While the insert id of a client's session is to be asked for, no message of it is taken up.
pub fn captures_come_first()
    ensures { (setup : Setup) (plan : Plan) (client : Client) (message : Option Framed) (tale : Tale)
        → waits_for_capture (view_of setup tale) plan client ≡ true → next_taken setup plan client message tale ≡ None }
{}

/// A statement that the router gave up isn't due any more: a byte of it is a breach.
pub fn given_up_is_not_due()
    ensures { (plan : Plan) (moment ordinal : ℕ) (n : SessionName) (due : Due) (answer : List (List ℕ)) → own_at plan moment (message_of n due) ≡ Some answer
        → due_in plan moment ordinal n (Some due) ≡ None }
{}

/// A link that is told to be given back is one that the rules of sending let go.
pub fn given_back_lawfully()
    ensures { (setup : Setup) (plan : Plan) (tale : Tale) (link : LinkId)
        → is_done plan tale.moment (view_of setup tale) (tale.wires link) (link_in setup tale link) ≡ true
        → MayFree (view_of setup tale) (link_in setup tale link) }
{}
