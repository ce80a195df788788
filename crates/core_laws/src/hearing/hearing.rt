// Bytes are read on a link to a server.
ghost use Rattle.std.specs.Prelude.{◌≡◌, ◌<◌, ℕ, true, false, List, Some, length};
ghost use Rattle.mx_base.specs.Fields.{AreBytes};
ghost use Rattle.mx_wire.specs.declared.entry.Entry.TheVariants.{Got};
ghost use Rattle.client_session.specs.Setups.{Setup as Service};
ghost use Rattle.private_model.specs.Lawful.{IsLawful};
ghost use Rattle.private_model.specs.Names.{LinkId};
ghost use Rattle.log_story.specs.Tale.{is_to_server};
ghost use Rattle.log_story.specs.Telling.{told};
ghost use Rattle.core_tables.specs.Hearing.{IsHeardOn};
ghost use Rattle.core_tables.specs.Preparing.{IsKeptFor};
ghost use Rattle.core_tables.specs.Tables.{Tabled};
ghost use Rattle.core_tables.specs.declared.said.Said.{Said};
ghost use Rattle.core_tables.specs.declared.server.Server.{Server};
ghost use Rattle.core_stands.specs.Grounds.{AreNamed, Ground, on};
ghost use Rattle.core_stands.specs.Stands.{Stands};

use crate::parting::{
    carried_homes, clients_at_stay, lawful_homes, rows_of_others_stay, same_stands,
    statements_are_in_work,
};
use desk_laws::{answers_stand, coming_stays, homes_have_rows, parted_stays, steps_are_heard};
use reply_ends::numbers_are_read;
use row_laws::{rows_enter, rows_hear};

/// The tables stand for the tale behind them: in the login, of an answer, or of what nobody asked for. What an answer prepared is kept.
pub fn bytes_are_heard()
    ensures { (service : Service) (g : Ground) (t mid new : Tabled) (l : LinkId) (server : Server) (bytes : List ℕ) (now : ℕ) (result : Said)
        → Stands service g t → is_to_server g.tale l ≡ true → t.links l ≡ Some server → server.row.lost ≡ false
        → server.row.link.spoilt ≡ false → AreNamed g.codes → AreBytes bytes → 0 < length bytes
        → IsHeardOn server l bytes now result mid t → IsKeptFor result l mid new → IsLawful g.setup (told g.setup g.plan g.tale (Got l bytes)).story
        → Stands service (on g (told g.setup g.plan g.tale (Got l bytes))) new }
{
    steps_are_heard();
    answers_stand();
    parted_stays();
    coming_stays();
    homes_have_rows();
    clients_at_stay();
    carried_homes();
    lawful_homes();
    statements_are_in_work();
    rows_of_others_stay();
    same_stands();
    rows_enter();
    rows_hear();
    numbers_are_read();
}
