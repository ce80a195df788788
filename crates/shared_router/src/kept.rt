//! The whole promise.

ghost use Rattle.std.specs.Prelude.{◌≤◌};
ghost use Rattle.mx_wire.specs.Log.{Log};
ghost use Rattle.mx_wire.specs.Moments.{AllLawful};
ghost use Rattle.router_promises.specs.Headline.{Keeps};
ghost use Rattle.router_promises.specs.Terms.{AreWhoTheySay};
ghost use Rattle.shared_router.specs.Fixed.{Fixed, IsNumbered};
ghost use Rattle.shared_router.specs.Kept.{IsRest};
ghost use Rattle.shared_router.specs.Leads.{ReadsNothing, SpellsIds};
ghost use Rattle.shared_router.specs.Ours.{IsOurLog};
ghost use Rattle.shared_router.specs.Shared.{final_terms};
ghost use Rattle.shared_router.specs.Waited.{AsksSo};

use crate::clients::stay_who_they_say;
use crate::departing::ends_kept;
use crate::gives_up::{gives_up_for_a_cause, gives_up_one_for_a_step, leaves_few_waiting};
use crate::links::{
    closes_for_a_cause, opens_for_those_who_wait, sends_what_is_due, takes_steps_that_are_wanted,
};
use crate::replies::writes_answers_that_stay;
use crate::rests::{logs_in_whole, waits_when_calm};
use crate::waits::{
    asks_for_nothing, goes_on_unbroken, reads_all, rests_by_parts, serves_all_while_idle,
    tells_all, wakes_in_time, works_on_each_message, writes_what_it_begins,
};
use crate::words::says_what_it_spells;
use crate::{is_lawful, is_routed, is_routers, is_tagged};

/// A log of which each entry is the router's keeps the whole promise by what was decided in the end: where texts and places are numbered,
/// insert ids are spelt as they are, an empty text is no SET, statements may wait for a while, clients are who they say, where the loop waits
/// something is asked for what is due on each link on which nothing stands (`AsksForWhom`), and the rest of the promise holds (`IsRest`).
pub fn keeps()
    ensures { (fixed : Fixed) (log : Log) → IsNumbered fixed → SpellsIds fixed → ReadsNothing fixed.router.reads
        → 1 ≤ fixed.router.proxy.wait_ms → AreWhoTheySay (final_terms fixed log) log → IsOurLog fixed log → AllLawful (AsksSo fixed) log
        → IsRest (final_terms fixed log) log → Keeps (final_terms fixed log) log }
{
    stay_who_they_say();
    ends_kept();
    gives_up_for_a_cause();
    gives_up_one_for_a_step();
    leaves_few_waiting();
    closes_for_a_cause();
    opens_for_those_who_wait();
    sends_what_is_due();
    takes_steps_that_are_wanted();
    writes_answers_that_stay();
    logs_in_whole();
    waits_when_calm();
    asks_for_nothing();
    reads_all();
    rests_by_parts();
    tells_all();
    wakes_in_time();
    goes_on_unbroken();
    writes_what_it_begins();
    works_on_each_message();
    serves_all_while_idle();
    says_what_it_spells();
    is_lawful();
    is_routed();
    is_routers();
    is_tagged();
}
