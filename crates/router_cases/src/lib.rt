//! A worked log that keeps what the router promises, computed.
#![tactic(auto)]

ghost use Rattle.std.specs.Prelude.{◌≡◌};
ghost use Rattle.mx_wire.specs.Moments.{AtEachMoment};
ghost use Rattle.router_promises.specs.Headline.{Promises};
ghost use Rattle.log_story.specs.Assumed.{AreHonest};
ghost use Rattle.log_story.specs.Headline.{WritesPrivate};
ghost use Rattle.router_promises.specs.Terms.{setup_in, tale_at};
ghost use Rattle.router_cases.specs.Worked.{Stored, log, nothing, plan, router, small, story, terms_with};
ghost use Rattle.router_promises.specs.Headline.{Keeps};
ghost use Rattle.router_cases.specs.Ended as ended;
ghost use Rattle.router_cases.specs.Executed as executed;

use promise_tests::kept_by_test;
use router_promises::kept_is_written_privately;
use small_server::laws_can_be_met;

/// The promises can be kept: this log keeps them all, whatever servers have stored. It tells this story.
pub fn can_be_kept()
    ensures story { (stored : Stored) → (tale_at (terms_with stored) log).story ≡ story }
    ensures promises { Promises router log }
{
    kept_by_test();
}

/// And a tame server answers it honestly; so at each moment what was written to its clients is private.
pub fn can_be_private()
    ensures honest { AreHonest (setup_in (terms_with nothing)) plan small log }
    ensures private { AtEachMoment (WritesPrivate (setup_in (terms_with nothing)) plan small) log }
{
    kept_by_test();
    kept_is_written_privately();
    laws_can_be_met();
}

/// Another log keeps them: a client quits in a transaction, its session is reset, and its link is closed as nobody needs it.
pub fn ends_are_kept()
    ensures story { (tale_at ended.terms ended.log).story ≡ ended.story }
    ensures keeps { Keeps ended.terms ended.log }
{
    kept_by_test();
}

/// A third log keeps them: a prepared statement is executed twice, with long data, and one that isn't prepared is refused.
pub fn executes_are_kept()
    ensures story { (tale_at executed.terms executed.log).story ≡ executed.story }
    ensures keeps { Keeps executed.terms executed.log }
{
    kept_by_test();
}
