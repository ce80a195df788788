// What the router writes on its links.
ghost use Rattle.mx_wire.specs.Log.{Log};
ghost use Rattle.mx_wire.specs.Moments.{AtEachMoment};
ghost use Rattle.router_promises.specs.Headline.{SaysSo};
ghost use Rattle.shared_router.specs.Fixed.{Fixed, IsNumbered};
ghost use Rattle.shared_router.specs.Ours.{IsOurLog};
ghost use Rattle.shared_router.specs.Shared.{final_terms};
ghost use Rattle.shared_router.specs.Spelt.{RunsReadSo};

use crate::is_lawful;

/// Each execute that stands on a link to a server reads as it is spelt: as bytes of a statement with some number of parameters these are its own
/// arguments. It was judged whole, and what servers tell are bytes, so that what stands prepared there has a number of 32 bits.
pub fn executes_read_as_spelt()
    ensures { (fixed : Fixed) (log : Log) → IsNumbered fixed → IsOurLog fixed log
        → AtEachMoment (RunsReadSo (final_terms fixed log)) log }
{
    is_lawful();
}

/// At each moment what was written of a question on a link to a server, of a login, of a STMT_CLOSE or
/// a STMT_RESET and of the QUIT is a front of its one spelling.
pub fn says_what_it_spells()
    ensures { (fixed : Fixed) (log : Log) → IsNumbered fixed → IsOurLog fixed log
        → AtEachMoment (SaysSo (final_terms fixed log)) log }
{
    executes_read_as_spelt();
}
