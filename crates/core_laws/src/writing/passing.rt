// Nothing begins that may not.
ghost use Rattle.std.specs.Prelude.{◌≡◌, ℕ, List, Some};
ghost use Rattle.mx_base.specs.Sent as offers;
ghost use Rattle.mx_wire.specs.declared.entry.Entry.TheVariants.{Wrote};
ghost use Rattle.client_session.specs.Setups.{Setup as Service};
ghost use Rattle.private_model.specs.Names.{LinkId};
ghost use Rattle.tale_world.specs.Tested.{Passes};
ghost use Rattle.core_tables.specs.Passing.{sends};
ghost use Rattle.core_tables.specs.Tables.{Tabled};
ghost use Rattle.core_tables.specs.declared.server.Server.{Server};
ghost use Rattle.core_stands.specs.Grounds.{Ground};
ghost use Rattle.core_stands.specs.Stands.{Stands};
ghost use Rattle.core_laws.specs.writing.Planned.{IsPlanned};

use row_laws::rows_may_begin;

/// What the tables lend of a link to a server passes the law's test, whichever of its bytes are written: a question that begins with them
/// may be sent.
pub fn passes_may_tell()
    ensures { (service : Service) (g : Ground) (t : Tabled) (l : LinkId) (server : Server) (offer : offers.Sent) (bytes : List ℕ)
        → Stands service g t → t.links l ≡ Some server → sends l t ≡ Some offer → IsPlanned server.row.link.next g l server.row
        → Passes g.setup g.plan g.tale (Wrote l offer.tag bytes) }
{
    rows_may_begin();
}
