// What stands next on links to servers.
ghost use Rattle.std.specs.Prelude.{◌≡◌, ℕ, false, List, Some};
ghost use Rattle.client_session.specs.Setups.{Setup as Service};
ghost use Rattle.private_model.specs.Commands.{Command};
ghost use Rattle.private_model.specs.Names.{LinkId, SessionName};
ghost use Rattle.link_state.specs.declared.asking.Purpose.{Purpose};
ghost use Rattle.link_state.specs.declared.wish.Wish.{Wish};
ghost use Rattle.link_state.specs.declared.wish.Wish.TheVariants as wishes;
ghost use Rattle.row_laws.specs.Readied.{AreClasses, IsStepFor, IsWished};
ghost use Rattle.client_desk.specs.Desks.{name_of};
ghost use Rattle.client_desk.specs.declared.work.Work.{Work};
ghost use Rattle.core_tables.specs.Beginning.{capture_begun, end_begun, next_back, quit_begun, step_begun, text_begun};
ghost use Rattle.core_tables.specs.Preparing.{prep_begun, run_begun};
ghost use Rattle.core_tables.specs.Tables.{IsSame, Tabled};
ghost use Rattle.core_tables.specs.declared.client.Client.{Client};
ghost use Rattle.core_tables.specs.declared.server.Server.{Server};
ghost use Rattle.core_stands.specs.Grounds.{AreNamed, Ground};
ghost use Rattle.core_stands.specs.Stands.{Stands};
ghost use Rattle.core_laws.specs.writing.Planned.{IsOpen, IsToPrepare};

use crate::parting::same_stands;
use desk_laws::taken_stands;
use row_laws::{
    ends_are_readied, others_are_spelt, preparations_are_readied, rows_take_back, rows_take_next,
    statements_are_readied, steps_are_readied,
};

/// A client's statement: its form and its packets go from the desk's work to the row. Keys go by code's numbers.
pub fn text_begins()
    ensures { (service : Service) (g : Ground) (t after : Tabled) (l : LinkId) (server : Server) (n : SessionName) (client : Client) (work : Work)
        → Stands service g t → IsOpen g t l server → t.clients n.client ≡ Some client → client.desk.work ≡ Some work
        → work.sent ≡ false → n ≡ name_of client.desk work.hostgroup → AreNamed g.codes → IsSame after (text_begun l n t)
        → Stands service g after }
{
    rows_take_next();
    statements_are_readied();
    taken_stands();
    same_stands();
}

/// A client's execute, where its text is prepared there: its form goes to the row, and its arguments are spelt there.
pub fn runs_begin()
    ensures { (service : Service) (g : Ground) (t after : Tabled) (l : LinkId) (server : Server) (n : SessionName) (client : Client) (work : Work)
        → Stands service g t → IsOpen g t l server → t.clients n.client ≡ Some client → client.desk.work ≡ Some work
        → work.sent ≡ false → n ≡ name_of client.desk work.hostgroup → AreNamed g.codes → IsSame after (run_begun l n t)
        → Stands service g after }
{
    rows_take_next();
    statements_are_readied();
    taken_stands();
    same_stands();
}

/// The text of a client's execute is prepared first: it is that of what is due, and the link was told its place.
pub fn preps_begin()
    ensures { (service : Service) (g : Ground) (t after : Tabled) (l : LinkId) (server : Server) (n : SessionName) (client : Client) (work : Work)
        (text : List ℕ) → Stands service g t → IsOpen g t l server → AreClasses g.setup.reads → t.clients n.client ≡ Some client
        → client.desk.work ≡ Some work → IsToPrepare g l n work.ordinal work.key text → IsSame after (prep_begun l n text t)
        → Stands service g after }
{
    rows_take_next();
    preparations_are_readied();
    same_stands();
}

/// A step to a schema, to settings or to an insert id, in a session or in nobody's.
pub fn step_begins()
    ensures { (service : Service) (g : Ground) (t after : Tabled) (l : LinkId) (server : Server) (purpose : Purpose) (wish : Wish)
        (command : Command) → Stands service g t → IsOpen g t l server → AreClasses g.setup.reads → IsStepFor purpose
        → IsWished wish command → IsSame after (step_begun l purpose wish t) → Stands service g after }
{
    rows_take_next();
    steps_are_readied();
    same_stands();
}

/// The question for a session's insert id, the end of a session, a STMT_CLOSE, a STMT_RESET, and the QUIT.
pub fn others_begin()
    ensures captures { (service : Service) (g : Ground) (t after : Tabled) (l : LinkId) (server : Server) (n : SessionName)
        → Stands service g t → IsOpen g t l server → IsSame after (capture_begun l n t) → Stands service g after }
    ensures ends { (service : Service) (g : Ground) (t after : Tabled) (l : LinkId) (server : Server) (n : SessionName)
        → Stands service g t → IsOpen g t l server → IsSame after (end_begun l n t) → Stands service g after }
    ensures closes { (service : Service) (g : Ground) (t after : Tabled) (l : LinkId) (server : Server) (purpose : Purpose) (number : ℕ)
        → Stands service g t → IsOpen g t l server → IsSame after (step_begun l purpose (wishes.Closes number) t) → Stands service g after }
    ensures resets { (service : Service) (g : Ground) (t after : Tabled) (l : LinkId) (server : Server) (purpose : Purpose) (number : ℕ)
        → Stands service g t → IsOpen g t l server → IsSame after (step_begun l purpose (wishes.Resets number) t) → Stands service g after }
    ensures quits { (service : Service) (g : Ground) (t after : Tabled) (l : LinkId) (server : Server)
        → Stands service g t → IsOpen g t l server → IsSame after (quit_begun l t) → Stands service g after }
{
    rows_take_next();
    ends_are_readied();
    others_are_spelt();
    same_stands();
}

/// What stands next is taken back: a statement's form and packets to the desk, where that has this work still.
pub fn next_is_taken_back()
    ensures { (service : Service) (g : Ground) (t after : Tabled) (l : LinkId) → Stands service g t → IsSame after (next_back l t)
        → Stands service g after }
{
    rows_take_back();
    taken_stands();
    same_stands();
}
