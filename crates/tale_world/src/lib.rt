//! The router's world as the tale of its log: what it decides is a plan that grows, and its story is lawful where each question
//! passes a test as it begins.
#![tactic(auto)]

ghost use Rattle.std.specs.Prelude.{◌≡◌, ◌<◌, ◌+◌, ℕ, Bool, true, false, is_some, fold, Option, Some, None};
ghost use Rattle.mx_base.specs.declared.names.ClientNo.{ClientNo};
ghost use Rattle.mx_base.specs.declared.names.LinkId.{LinkId};
ghost use Rattle.mx_wire.specs.Log.{Log};
ghost use Rattle.mx_wire.specs.Tells.{IsNew};
ghost use Rattle.mx_wire.specs.declared.entry.Entry.{Entry};
ghost use Rattle.server_rule.specs.Laws.{IsTame};
ghost use Rattle.server_rule.specs.Servers.{Step, Tests};
ghost use Rattle.private_model.specs.Honest.{IsAccepted};
ghost use Rattle.log_story.specs.Headline.{HasPrivateBytes};
ghost use Rattle.private_model.specs.Commands.{Number};
ghost use Rattle.private_model.specs.Names.{Hostgroup, ServerId, SessionName};
ghost use Rattle.private_model.specs.Story.{Due, Key, Own, Question, Statement, Story};
ghost use Rattle.tale_world.specs.Stands.{StandsFor, first_core};
ghost use Rattle.log_story.specs.Honest.{IsHonestLog};
ghost use Rattle.log_story.specs.Owed.{due_until};
ghost use Rattle.tale_world.specs.Policy.{Rest, Texts, Wanted, free, next_lend, next_open, numbered, opening, question_for, unsent};
ghost use Rattle.tale_world.specs.Served.{AreLent, AreServed, IsReady, SameFor};
ghost use Rattle.client_session.specs.Setups.{Setup as Service};
ghost use Rattle.private_model.specs.Lawful.{IsLawful};
ghost use Rattle.private_model.specs.View.{Held, Link, Setup, View, view_after};
ghost use Rattle.log_story.specs.Plan.{Closes, Plan, Resets};
ghost use Rattle.log_story.specs.Tale.{Client, Tale, first_tale, is_to_server, link_in, view_of};
ghost use Rattle.log_story.specs.Servers.{is_done, is_quiet, stepped};
ghost use Rattle.log_story.specs.Telling.{story_of, tale_step};
ghost use Rattle.tale_world.specs.Decided.{Agrees, plan_of};
ghost use Rattle.tale_world.specs.Deciding.{Deciding};
ghost use Rattle.tale_world.specs.Tests.{may_begin_question, may_tell};
ghost use Rattle.tale_world.specs.Wishes.{Sends, Standing, before_question, wish_for};
ghost use Rattle.tale_world.specs.Waits.{AreRead, IsFor, IsWaiting};
ghost use Rattle.tale_world.specs.Tested.{IsTested, IsTestedBy, has_broken};
ghost use Rattle.tale_world.specs.ByPlan.{AgreesUntil};
ghost use Rattle.tale_world.specs.Unborn.{AreUnborn};
ghost use Rattle.tale_world.specs.World.{first_world, world_after};

use log_story::honest_bytes;

/// However the router decides: each plan that has what was decided tells the tale of its world.
pub fn decided_tale<X>()
    ensures { (setup : Setup) (by : Deciding X) (service : Service) (room : ℕ) (more : X) (log : Log)
        (plan : Plan)
        → Agrees (world_after setup by service room more log).decided
        (world_after setup by service room more log).tale.moment plan
        → fold (tale_step setup plan) first_tale log
        ≡ (world_after setup by service room more log).tale }
{}

/// So does the plan that was decided: it is the router's own story that its log tells.
pub fn own_story<X>()
    ensures { (setup : Setup) (by : Deciding X) (service : Service) (room : ℕ) (more : X) (log : Log)
        → story_of setup (plan_of (world_after setup by service room more log).decided) log
        ≡ (world_after setup by service room more log).tale.story }
{}

/// Two plans that agree until a moment tell the same tale until then. No client is ended before the first entry.
pub fn same_tale()
    ensures { (setup : Setup) (plan other : Plan) (log : Log)
        → ((c : ClientNo) (at : ℕ) → plan.ends c ≡ Some at → 0 < at)
        → AgreesUntil setup plan log other
        → fold (tale_step setup plan) first_tale log ≡ fold (tale_step setup other) first_tale log }
{}

/// Where each entry that begins a question passes the test by what was decided, links are new, and each message that goes to a server asks
/// it for something, the router's own story is lawful.
pub fn lawful_router<X>()
    ensures { (setup : Setup) (by : Deciding X) (service : Service) (room : ℕ) (more : X) (log : Log)
        → IsTestedBy setup by (first_world service room more) log
        → has_broken (story_of setup (plan_of (world_after setup by service room more log).decided) log)
        ≡ false
        → IsLawful setup (story_of setup
        (plan_of (world_after setup by service room more log).decided) log) }
{}

/// So it is private: where servers are tame and its log is honest, each client's bytes are those of sessions of its own.
pub fn private_router<X>()
    ensures { (setup : Setup) (by : Deciding X) (service : Service) (room : ℕ) (more : X) (log : Log)
        (tests : Tests) (server : Step)
        → IsTame setup.reads tests server → IsAccepted setup tests
        → IsTestedBy setup by (first_world service room more) log
        → has_broken (story_of setup (plan_of (world_after setup by service room more log).decided) log)
        ≡ false
        → IsHonestLog setup (plan_of (world_after setup by service room more log).decided) server log
        → HasPrivateBytes setup (plan_of
        (world_after setup by service room more log).decided) server log }
{
    honest_bytes();
}

/// A link that no entry of a log names is none of its tale: so links that are new, as wires promise, are new here.
pub fn new_links()
    ensures { (setup : Setup) (plan : Plan) (log : Log) (link : LinkId) → IsNew link log
        → is_to_server (fold (tale_step setup plan) first_tale log) link ≡ false }
{}

/// A log of which each entry that begins a question passes the test at that moment, whose links are new, and whose messages to servers ask
/// for something, has a lawful story.
pub fn lawful_by_tests()
    ensures { (setup : Setup) (plan : Plan) (log : Log) → IsTested setup plan log
        → has_broken (story_of setup plan log) ≡ false
        → IsLawful setup (story_of setup plan log) }
{}

/// At the end of an entry no link is to be given back: so an entry has to look only at links that it touches.
pub fn links_rest()
    ensures { (setup : Setup) (plan : Plan) (tale : Tale) (e : Entry) (link : LinkId)
        → is_to_server (tale_step setup plan tale e) link ≡ true
        → is_done plan (tale_step setup plan tale e).moment
        (view_of setup (tale_step setup plan tale e)) ((tale_step setup plan tale e).wires link)
        (link_in setup (tale_step setup plan tale e) link) ≡ false }
{}

/// No session that is to come is touched, whatever the log and the plan: so a client that leaves begins with fresh ones.
pub fn sessions_to_come()
    ensures { (setup : Setup) (plan : Plan) (log : Log)
        → AreUnborn (view_of setup (fold (tale_step setup plan) first_tale log)) }
{}

/// Empty tables stand for the first world.
pub fn first_stands<X>()
    ensures { (setup : Setup) (same : Key → Key → Bool) (service : Service) (room : ℕ) (more : X)
        → StandsFor setup same (first_core more) (first_world service room more) }
{}

/// What is due by what was decided to the messages that were taken up is due by each plan that agrees, where what those messages look up
/// was decided.
pub fn due_so_far()
    ensures { (client : Client) (view : View) (moment : ℕ) (plan other : Plan)
        → SameFor client view moment plan other
        → due_until view.replies plan moment client ≡ due_until view.replies other moment client }
{}

/// A link is opened only where fewer links are free or opening than statements wait.
pub fn opens_few()
    ensures { (rest : Rest) (pick : Hostgroup → Option ServerId) (wanted : Wanted)
        → next_open rest pick rest.waiters ≡ Some wanted
        → free rest wanted.key + opening rest wanted.key < unsent rest wanted.key }
{}

/// Where nothing more is opened or lent, each statement that waits has as many links that are free or opening as wait, or its hostgroup
/// has no room; and a link is readied for it, or none of its key is free for it.
pub fn rests_served()
    ensures opened { (rest : Rest) (pick : Hostgroup → Option ServerId)
        → next_open rest pick rest.waiters ≡ None → AreServed rest pick rest.waiters }
    ensures lent { (rest : Rest) (is_served : SessionName → Bool)
        → next_lend rest is_served rest.waiters ≡ None → AreLent rest is_served rest.waiters }
{}

/// The statement goes to a link once no step is left: then the link was told its place, its text is prepared there, and the insert id is
/// the session's where the text is marked.
pub fn readied_so()
    ensures { (texts : Texts) (fits : ℕ → Option Number) (setup : Setup) (n m : SessionName)
        (due other : Due) (link : Link) (held : Held)
        → is_some (numbered held.id fits) ≡ true
        → question_for texts fits setup n due Own link held ≡ Statement m other
        → IsReady setup due link held.id }
{}

/// What goes to a link that is readied for a statement passes the test, be it a step, the preparation or the statement.
pub fn readied_passes()
    ensures { (texts : Texts) (fits : ℕ → Option Number) (setup : Setup) (view : View) (n : SessionName)
        (due : Due) (link : Link)
        → AreRead setup texts due link.told → IsWaiting setup fits view n due → IsFor setup view n link
        → may_begin_question setup view link
        (question_for texts fits setup n due Own link (view.held n)) ≡ true }
{}

/// What the router says for itself before a question, be it that a prepared statement is closed or that one is reset, passes the test
/// on each link where nothing stands; and where it has nothing to say, the question goes.
pub fn wishes_pass()
    ensures closed { (setup : Setup) (story : Story) (link : LinkId) (number : ℕ)
        → is_quiet ((view_after setup story).links link).stage ≡ true
        → may_tell setup (stepped link Own (Closes number)) story ≡ true }
    ensures reset { (setup : Setup) (story : Story) (link : LinkId) (number : ℕ)
        → may_tell setup (stepped link Own (Resets number)) story ≡ true }
    ensures sends { (link : Link) (standing : Standing) (question : Question)
        → before_question link standing question ≡ None
        → wish_for link standing question ≡ Sends question }
{}
