//! What the router with shared links promises of the log of its wire, and what follows from it.
#![tactic(auto)]

mod careless;
mod lasting;
mod misled;
mod refused;

ghost use Rattle.mx_wire.specs.Log.{Log};
ghost use Rattle.mx_wire.specs.Moments.{AtEachMoment};
ghost use Rattle.private_model.specs.Honest.{IsAccepted};
ghost use Rattle.server_rule.specs.Laws.{IsTame};
ghost use Rattle.server_rule.specs.Servers.{Step, Tests};
ghost use Rattle.log_story.specs.Assumed.{AreHonest};
ghost use Rattle.log_story.specs.Headline.{HasPrivateBytes, WritesPrivate};
ghost use Rattle.log_story.specs.Said.{IsSaidLog};
ghost use Rattle.router_promises.specs.Headline.{Keeps};
ghost use Rattle.router_promises.specs.Terms.{Terms, plan_in, setup_in};

pub use careless::{
    asks_in_another_hostgroup, captures_nothing, closes_a_statement_in_vain, cuts_a_client_off,
    goes_on_without_its_session, invents_a_loss, invents_a_refusal, invents_bad_bytes,
    keeps_too_many_bytes, lets_them_wait, opens_nothing, prepares_in_vain, refuses_two_for_a_step,
    resets_a_statement_in_vain, resets_what_lasts,
};
pub use lasting::{
    answers_late, charges_another, chooses_no_schema, drops_a_session, gives_a_place_away,
    keeps_a_broken_link, keeps_a_full_link, keeps_an_idle_link, lends_in_another_schema,
    parts_from_a_client, sleeps_too_long, wakes_for_nothing,
};
use log_story::{private_bytes, written_is_private};
pub use misled::{
    answers_without_cause, gives_back_what_is_held, ignores_the_rules, lends_what_is_held,
    lends_with_earlier_settings, reads_no_more, reads_what_others_left, refuses_too_soon,
    refuses_two_at_once, resets_nothing, sends_as_another, sends_twice, sends_what_it_refused,
    steps_without_change, tells_other_bytes, uses_a_spoilt_link, writes_other_bytes,
};
pub use refused::{
    answers_nobody, closes_for_nothing, logs_in_as_another, opens_one_too_many, opens_without_room,
    quits_for_nothing, waits_with_an_idle_link,
};

/// What the router writes on links to servers is what log_story asks for.
pub fn said_log()
    ensures { (terms : Terms) (log : Log) → Keeps terms log
        → IsSaidLog (setup_in terms) (plan_in terms) log }
{}

/// Where servers are tame and answer honestly, a log that keeps the promises has private bytes.
pub fn kept_is_private()
    ensures { (terms : Terms) (tests : Tests) (server : Step) (log : Log)
        → IsTame terms.router.reads tests server
        → IsAccepted (setup_in terms) tests → Keeps terms log
        → AreHonest (setup_in terms) (plan_in terms) server log
        → HasPrivateBytes (setup_in terms) (plan_in terms) server log }
{
    private_bytes();
    said_log();
}

/// So at each moment what was written to each client, but for a last word to it, is a front of what its private world owes it.
pub fn kept_is_written_privately()
    ensures { (terms : Terms) (tests : Tests) (server : Step) (log : Log)
        → IsTame terms.router.reads tests server
        → IsAccepted (setup_in terms) tests → Keeps terms log
        → AreHonest (setup_in terms) (plan_in terms) server log
        → AtEachMoment (WritesPrivate (setup_in terms) (plan_in terms) server) log }
{
    written_is_private();
    said_log();
}
