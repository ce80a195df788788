// Bytes are written on a link to a server.
ghost use Rattle.std.specs.Prelude.{◌≡◌, ◌<◌, ◌≤◌, ℕ, length, take, Some};
ghost use Rattle.mx_base.specs.Sent as offers;
ghost use Rattle.mx_wire.specs.declared.entry.Entry.TheVariants.{Wrote};
ghost use Rattle.client_session.specs.Setups.{Setup as Service};
ghost use Rattle.private_model.specs.Names.{LinkId};
ghost use Rattle.log_story.specs.Telling.{told};
ghost use Rattle.core_tables.specs.Passing.{sends};
ghost use Rattle.core_tables.specs.Tables.{IsSame, Tabled};
ghost use Rattle.core_tables.specs.Writing.{wrote_on};
ghost use Rattle.core_tables.specs.declared.server.Server.{Server};
ghost use Rattle.core_stands.specs.Grounds.{Ground, on};
ghost use Rattle.core_stands.specs.Stands.{Stands};
ghost use Rattle.core_laws.specs.writing.Planned.{IsPlanned};

use crate::parting::{clients_at_stay, same_stands};
use desk_laws::{coming_stays, lent_stands, others_stay, outlasts_as_said, sent_stands};
use row_laws::{rows_begin, rows_may_begin, rows_say, rows_write_on};

/// Bytes of what the tables lend are written: in the login, of what began, or of what begins with them.
pub fn writes_stand()
    ensures { (service : Service) (g : Ground) (t after : Tabled) (l : LinkId) (server : Server) (offer : offers.Sent) (count now : ℕ)
        → Stands service g t → t.links l ≡ Some server → sends l t ≡ Some offer → IsPlanned server.row.link.next g l server.row
        → 0 < count → count ≤ length offer.bytes → IsSame after (wrote_on l count now t)
        → Stands service (on g (told g.setup g.plan g.tale (Wrote l offer.tag (take count offer.bytes)))) after }
{
    rows_may_begin();
    rows_say();
    rows_write_on();
    rows_begin();
    others_stay();
    coming_stays();
    clients_at_stay();
    sent_stands();
    lent_stands();
    outlasts_as_said();
    same_stands();
}
