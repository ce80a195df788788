// Statements that the router gives up.
ghost use Rattle.std.specs.Prelude.{◌≡◌, ◌≤◌, ℕ, List, None, true};
ghost use Rattle.hostgroups.specs.declared.server.Server.{Server};
ghost use Rattle.mx_wire.specs.Log.{Log};
ghost use Rattle.mx_wire.specs.Moments.{AllLawful};
ghost use Rattle.mx_wire.specs.declared.entry.Entry.TheVariants.{Woke};
ghost use Rattle.private_model.specs.Names.{MessageName};
ghost use Rattle.log_story.specs.Plan.{Route};
ghost use Rattle.shared_router.specs.Causes.{given_by};
ghost use Rattle.shared_router.specs.Fixed.{Fixed, IsNumbered};
ghost use Rattle.shared_router.specs.Given.{GivenUpSo, IsOverdue, RefusesOneSo};
ghost use Rattle.shared_router.specs.Kept.{LeavesFewSo};
ghost use Rattle.shared_router.specs.Known.{Known, present_by};
ghost use Rattle.shared_router.specs.Lends.{is_readied_for};
ghost use Rattle.shared_router.specs.Ours.{IsOurLog};
ghost use Rattle.shared_router.specs.Shared.{final_terms};
ghost use Rattle.shared_router.specs.Waited.{AsksSo};

use crate::departing::ends_right;
use crate::waits::works_on_what_is_wished;
use crate::{is_lawful, is_routed};

/// Each statement that is given up at an entry was in work, and has its cause, with the error that goes with it; who has one given up for want
/// of memory ends by it.
pub fn gives_up_for_a_cause()
    ensures { (fixed : Fixed) (log : Log) → IsNumbered fixed → IsOurLog fixed log → AllLawful (GivenUpSo (final_terms fixed log)) log }
{}

/// A step that a server refuses gives up one statement.
pub fn gives_up_one_for_a_step()
    ensures { (fixed : Fixed) (log : Log) → IsNumbered fixed → AllLawful (RefusesOneSo (final_terms fixed log)) log }
{}

/// At a wake, a statement that waited too long and isn't given up has a link that is readied for it.
pub fn spares_who_has_a_link()
    ensures { (k : Known) (servers : List Server) (until_ms now_ms : ℕ) (m : MessageName) (route : Route) → IsOverdue k now_ms m route
        → given_by k servers (Woke until_ms now_ms) m ≡ None
        → is_readied_for k.now.tale.links k.readied (present_by k m.client route.hostgroup) ≡ true }
{}

/// At a wake, of the statements of a key that waited too long no more are left waiting than links of it are idle or on their way to be lent: where
/// statements may wait for a while, and each link is asked for something that is readied, and on which nothing stands (`AsksForWhom`).
pub fn leaves_few_waiting()
    ensures { (fixed : Fixed) (log : Log) → IsNumbered fixed → IsOurLog fixed log → 1 ≤ fixed.router.proxy.wait_ms → AllLawful (AsksSo fixed) log
        → AllLawful (LeavesFewSo (final_terms fixed log)) log }
{
    is_lawful();
    is_routed();
    ends_right();
    works_on_what_is_wished();
}
