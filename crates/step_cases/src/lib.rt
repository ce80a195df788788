//! Worked logs of steps: each keeps what the router promises, by the test.
#![tactic(auto)]

ghost use Rattle.router_promises.specs.Headline.{Keeps};
ghost use Rattle.step_cases.specs.Again as again;
ghost use Rattle.step_cases.specs.Evicted as evicted;
ghost use Rattle.step_cases.specs.Stepped as stepped;

use promise_tests::kept_by_test;

/// A link is closed to make room for one of another user.
pub fn evictions_are_kept()
    ensures { Keeps evicted.terms evicted.log }
{
    kept_by_test();
}

/// A prepared statement is closed on its link before its text is prepared again, and reset before it is executed without long data.
pub fn closes_are_kept()
    ensures { Keeps again.terms again.log }
{
    kept_by_test();
}

/// A text that a rule had prepared in another hostgroup is prepared in the transaction's, between two steps in that session.
pub fn steps_are_kept()
    ensures { Keeps stepped.terms stepped.log }
{
    kept_by_test();
}
