// A log that keeps clients apart.
ghost use Rattle.std.specs.Prelude.{List, length};
ghost use Rattle.core_promises.specs.Asks.{CopiesNothing};
ghost use Rattle.core_promises.specs.Causes.{GivesUpSo};
ghost use Rattle.core_promises.specs.Endings.{EndsForCauses};
ghost use Rattle.core_promises.specs.Administered.{Administers, outcomes_at};
ghost use Rattle.private_model.specs.Names.{MessageName};
ghost use Rattle.query_rules.specs.declared.rule.Rule.{Rule};
ghost use Rattle.core_promises.specs.Judges.{JudgesSo};
ghost use Rattle.core_promises.specs.Sessions.{KeepsApart, Separates};
ghost use Rattle.core_promises.specs.Waits.{WaitsSo};
ghost use Rattle.mx_wire.specs.Log.{Log};
ghost use Rattle.mx_wire.specs.Moments.{AllLawful};
ghost use Rattle.own_words.specs.Own.{SpeaksOwn};
ghost use Rattle.router_cases.specs.Worked.{log, router};
ghost use Rattle.router_promises.specs.Headline.{Keeps};
ghost use Rattle.router_promises.specs.Terms.{Terms, plan_in, setup_in};

use promise_tests::kept_by_test;
use router_promises::said_log;

/// A log that keeps the whole promise keeps this one, where the router speaks its own words, gives up and ends clients for a cause, waits only with all done, and does with each message
/// what the verdict says that serves no prepared statements, and sends none to two servers.
pub fn kept_is_apart()
    ensures { (terms : Terms) (log : Log) → Keeps terms log
        → (rules : MessageName → List Rule) → Administers (outcomes_at rules (plan_in terms) (length log)) (setup_in terms) (plan_in terms) terms.router.rules log
        → SpeaksOwn rules (plan_in terms)
        → GivesUpSo terms log → EndsForCauses terms log → AllLawful (WaitsSo terms) log → JudgesSo terms rules log
        → CopiesNothing (plan_in terms) → KeepsApart terms log }
{
    said_log();
}

/// The promise can be kept: in this log two clients share the one link to a server, after one statement was given up.
pub fn can_be_kept_apart()
    ensures { Separates router log }
{
    kept_by_test();
    kept_is_apart();
}
