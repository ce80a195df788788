// Parts of the promise that the loop waits at rest, in its own words.
ghost use Rattle.std.specs.Prelude.{◌<◌, ◌≤◌};
ghost use Rattle.mx_base.specs.declared.names.LinkId.{LinkId};
ghost use Rattle.mx_wire.specs.Log.{Log};
ghost use Rattle.mx_wire.specs.Moments.{AllLawful, AtEachMoment};
ghost use Rattle.router_promises.specs.Due.{DueSo};
ghost use Rattle.router_promises.specs.Keys.{LinkKey, how_many, is_idle, is_stepping, waiting};
ghost use Rattle.router_promises.specs.Now.{Now};
ghost use Rattle.router_promises.specs.Rest.{IsAtRest, IsShared};
ghost use Rattle.router_promises.specs.Terms.{Terms};
ghost use Rattle.shared_router.specs.Fixed.{Fixed, IsNumbered};
ghost use Rattle.shared_router.specs.Ours.{IsOurLog};
ghost use Rattle.shared_router.specs.Rests.{HasEnough, IsCalm, SaysLogin};
ghost use Rattle.shared_router.specs.Shared.{final_terms};
ghost use Rattle.shared_router.specs.Waited.{AreDone, AreRead, AreTold, AreUnbroken, AreWhole, AreWorked, AskNothing, AsItWaits, AsksSo, ServesAll, WakesSo, WorksSo};

use crate::departing::ends_right;
use crate::rests::waits_when_calm;
use crate::words::executes_read_as_spelt;
use crate::{is_lawful, is_routed};

/// Where the loop waits, each open link was read dry, or may be left: it is that of a client that ended, or that has a message in work and
/// a mebibyte behind it; or it carries a client for whom a mebibyte is unwritten.
pub fn reads_all()
    ensures { (fixed : Fixed) (log : Log) → IsNumbered fixed → IsOurLog fixed log
        → AllLawful (AsItWaits AreRead (final_terms fixed log)) log }
{}

/// Where what is written to each client is a front of what it is due: where the loop waits, on each open link of a client all is written that
/// it is due, or the link takes no more; and where the client ended, the link takes no more.
pub fn tells_all()
    ensures { (fixed : Fixed) (log : Log) → IsNumbered fixed → IsOurLog fixed log → AtEachMoment (DueSo (final_terms fixed log)) log
        → AllLawful (AsItWaits AreTold (final_terms fixed log)) log }
{}

/// The loop asks to be woken at the first moment at which there is something to do.
pub fn wakes_in_time()
    ensures { (fixed : Fixed) (log : Log) → IsNumbered fixed → IsOurLog fixed log → AllLawful (WakesSo (final_terms fixed log)) log }
{}

/// Where the loop waits, no write failed on the open link of a client that goes on.
pub fn goes_on_unbroken()
    ensures { (fixed : Fixed) (log : Log) → IsNumbered fixed → IsOurLog fixed log → AllLawful (AsItWaits AreUnbroken (final_terms fixed log)) log }
{}

/// Where the loop waits, on each open link to a server that takes more, what began there is written whole.
pub fn writes_what_it_begins()
    ensures { (fixed : Fixed) (log : Log) → IsNumbered fixed → IsOurLog fixed log
        → AllLawful (AsItWaits AreWhole (final_terms fixed log)) log }
{
    executes_read_as_spelt();
}

/// Where the loop waits, on each open link to a server that takes more and where all is answered, no session that was left is to be ended, and no
/// insert id is to be asked for.
pub fn asks_for_nothing()
    ensures { (fixed : Fixed) (log : Log) → IsNumbered fixed → IsOurLog fixed log
        → AllLawful (AsItWaits AskNothing (final_terms fixed log)) log }
{}

/// Where the loop waits, a link that carries nobody and on which something is wished is at work: so one that is readied is on its way to be lent.
pub fn works_on_what_is_wished()
    ensures { (fixed : Fixed) (log : Log) → IsNumbered fixed → IsOurLog fixed log → AllLawful (WorksSo fixed) log }
{}

/// Where the loop waits, the last message of a client that was taken up is answered or in work: where something is
/// asked for what is due on each link on which nothing stands (`AsksForWhom`).
pub fn works_on_each_message()
    ensures { (fixed : Fixed) (log : Log) → IsNumbered fixed → IsOurLog fixed log → AllLawful (AsksSo fixed) log
        → AllLawful (AsItWaits AreWorked (final_terms fixed log)) log }
{
    is_lawful();
    is_routed();
    ends_right();
    writes_what_it_begins();
    waits_when_calm();
}

/// Where the loop waits and a link of a key is idle, no more statements wait for that key than links are on their way to be lent: where each link is
/// asked for something that is readied, and on which nothing stands (`AsksForWhom`).
pub fn serves_all_while_idle()
    ensures { (fixed : Fixed) (log : Log) → IsNumbered fixed → IsOurLog fixed log → AllLawful (AsksSo fixed) log
        → AllLawful (AsItWaits ServesAll (final_terms fixed log)) log }
{
    is_lawful();
    is_routed();
    ends_right();
    works_on_what_is_wished();
}

/// Where no more statements of a key wait than links are on their way to be lent, once a link of it is idle: where links are enough by the
/// count of those that are free or opening, or there is no room, they are enough by the promise's count.
pub fn shares_enough()
    ensures { (terms : Terms) (log : Log) (now : Now) (key : LinkKey) → HasEnough terms log now key
        → (0 < how_many is_idle terms log now key → waiting terms now key ≤ how_many is_stepping terms log now key)
        → IsShared terms log now key }
{}

/// These parts, with the two of `AreDone`, are the whole of rest.
pub fn rests_by_parts()
    ensures { (terms : Terms) (log : Log) (now : Now) → IsCalm terms log now → AreRead terms log now → AreTold terms log now
        → ((link : LinkId) → SaysLogin terms log now link) → AreUnbroken terms log now → AreWhole terms log now → AskNothing terms log now
        → AreDone terms log now → IsAtRest terms log now }
{}
