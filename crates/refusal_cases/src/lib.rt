//! Worked logs of refusals: each keeps what the router promises, by the test.
#![tactic(auto)]

ghost use Rattle.router_promises.specs.Headline.{Keeps};
ghost use Rattle.refusal_cases.specs.Refused.{full, full_log, late, late_log, nowhere, nowhere_log, refused, refused_log, spoilt, spoilt_log};

use promise_tests::kept_by_test;

/// No server of the hostgroup is ONLINE: 9100, at once.
pub fn nowhere_is_kept()
    ensures { Keeps nowhere nowhere_log }
{
    kept_by_test();
}

/// No link can be had, and the time for it is over: 9102, at the wake that the loop asked for.
pub fn late_is_kept()
    ensures { Keeps late late_log }
{
    kept_by_test();
}

/// A step on the way to the statement is refused: 9104, with the server's code, and the link closes.
pub fn refused_is_kept()
    ensures { Keeps refused refused_log }
{
    kept_by_test();
}

/// Bytes come that can't be a reply: 9110, with their place, and the link closes.
pub fn spoilt_is_kept()
    ensures { Keeps spoilt spoilt_log }
{
    kept_by_test();
}

/// Too many bytes of clients wait: 9112 is the last word to the client.
pub fn full_is_kept()
    ensures { Keeps full full_log }
{
    kept_by_test();
}
