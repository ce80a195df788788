//! A test of a log: one that passes it keeps what the router promises.
#![tactic(auto)]

ghost use Rattle.mx_wire.specs.Log.{Log};
ghost use Rattle.promise_tests.specs.Tests.{IsRight};
ghost use Rattle.router_promises.specs.Headline.{Keeps};
ghost use Rattle.router_promises.specs.Terms.{Terms};

use tale_world::lawful_by_tests;

/// A log that passes the test keeps the promise.
pub fn kept_by_test()
    ensures { (terms : Terms) (log : Log) → IsRight terms log → Keeps terms log }
{
    lawful_by_tests();
}
