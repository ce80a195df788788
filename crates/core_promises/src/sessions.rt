// The core keeps its clients' sessions apart.
ghost use Rattle.std.specs.Prelude.{◌≡◌, Bool, List, None, Some};
ghost use Rattle.core_tables.specs.Tables.{Tabled};
ghost use Rattle.core_promises.specs.Sessions.{KeepsApart, Separates};
ghost use Rattle.core_promises.specs.Causes.{CausedBy};
ghost use Rattle.core_promises.specs.Endings.{EndedBy};
ghost use Rattle.core_promises.specs.Administered.{AdministersBy};
ghost use Rattle.core_promises.specs.Judges.{JudgesBy, rulebook_of};
ghost use Rattle.core_promises.specs.Waits.{AreDoneBy};
ghost use Rattle.own_words.specs.Own.{SpeaksOwn};
ghost use Rattle.tale_world.specs.Decided.{plan_of};
ghost use Rattle.core_laws.specs.entry.Tells.{IsCore};
ghost use Rattle.log_story.specs.Assumed.{AreHonest};
ghost use Rattle.log_story.specs.Headline.{WritesPrivate};
ghost use Rattle.log_story.specs.Plan.{Route};
ghost use Rattle.mx_wire.specs.Log.{Log};
ghost use Rattle.mx_wire.specs.Moments.{AllLawful, AtEachMoment};
ghost use Rattle.mx_wire.specs.Tells.{Fits};
ghost use Rattle.private_model.specs.Honest.{IsAccepted};
ghost use Rattle.private_model.specs.Names.{ClientNo, MessageName};
ghost use Rattle.query_rules.specs.declared.rule.Rule.{Rule};
ghost use Rattle.router_promises.specs.Router.{Router, service_of};
ghost use Rattle.router_promises.specs.Terms.{Terms, plan_in, setup_in};
ghost use Rattle.row_laws.specs.Readied.{AreClasses};
ghost use Rattle.server_rule.specs.Laws.{IsTame};
ghost use Rattle.server_rule.specs.Servers.{Step, Tests};

use log_story::written_is_private;

/// Where tables stand for a log of a wire, as a core by what a router serves, no message goes to two servers, what becomes of each is what the
/// verdict says by the rules in force, each administrator is answered by what is staged, what was decided to be said are the router's own words, what is given up has a cause, and so has the end of each client, and at each wait all was done but lending,
/// the router keeps its clients apart in that log.
pub fn cores_keep_apart()
    ensures { (router : Router) (log : Log) (t : Tabled) (roomy : ClientNo → Bool)
        → (core : IsCore (service_of router) router.proxy.default_schema log t roomy) → AreClasses router.reads
        → ((m : MessageName) (route : Route) → core.decided.routes m ≡ Some (Some route) → route.mirror ≡ None)
        → (rules : MessageName → List Rule) → AdministersBy rules router.proxy.default_schema core.decided router.rules log
        → JudgesBy (rulebook_of router) rules router.proxy.default_schema core.decided log → SpeaksOwn rules (plan_of core.decided)
        → CausedBy router.proxy.wait_ms router.proxy.default_schema core.decided log
        → EndedBy router.proxy.buffer_budget router.proxy.default_schema core.decided log
        → AreDoneBy router.proxy.default_schema core.decided log
        → AllLawful Fits log → Separates router log }
{}

/// Where servers are tame and answer honestly, what was written to each client of a router that keeps its clients apart, but for a last word
/// to it, is at each moment a front of what sessions of its own would have answered it.
pub fn apart_is_private()
    ensures { (terms : Terms) (tests : Tests) (server : Step) (log : Log)
        → IsTame terms.router.reads tests server
        → IsAccepted (setup_in terms) tests → KeepsApart terms log
        → AreHonest (setup_in terms) (plan_in terms) server log
        → AtEachMoment (WritesPrivate (setup_in terms) (plan_in terms) server) log }
{
    written_is_private();
}
