//! A worked log of a router of a configuration, read from its file, that reads texts as the router does.
#![tactic(auto)]

ghost use Rattle.std.specs.Prelude.{◌≡◌, ℕ, List, Bool, Ok};
ghost use Rattle.mx_config.specs.Reading.{reading_of};
ghost use Rattle.router_promises.specs.Headline.{Serves};
ghost use Rattle.served_cases.specs.File.{config, file};
ghost use Rattle.served_cases.specs.Served.{log};

use promise_tests::kept_by_test;

/// The file says this configuration, and a log serves it: a rule fires, and sends the statement to the other hostgroup.
pub fn can_be_served()
    ensures read { (is_pattern : List ℕ → Bool) → reading_of is_pattern file ≡ Ok config }
    ensures serves { Serves config log }
{
    kept_by_test();
}
