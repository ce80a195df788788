// A client speaks, is written to and is forgotten.
ghost use Rattle.std.specs.Prelude.{◌≡◌, ◌≤◌, ℕ, false, length, List, Some, None, true};
ghost use Rattle.mx_base.specs.declared.names.ClientNo.{ClientNo};
ghost use Rattle.mx_base.specs.declared.names.LinkId.{LinkId};
ghost use Rattle.mx_base.specs.declared.tag.Tag.{Tag};
ghost use Rattle.mx_wire.specs.declared.entry.Entry.TheVariants.{Got, Wrote};
ghost use Rattle.client_session.specs.Setups.{Setup as Service};
ghost use Rattle.log_story.specs.Tale.{is_to_server};
ghost use Rattle.log_story.specs.Telling.{told};
ghost use Rattle.client_seat.specs.Seats.{is_ended};
ghost use Rattle.core_stands.specs.Grounds.{Ground, freshened, on};
ghost use Rattle.core_stands.specs.Stands.{Stands};
ghost use Rattle.core_tables.specs.Arrivals.{forgotten, spoke, written_to};
ghost use Rattle.core_tables.specs.Tables.{IsSame, Tabled};
ghost use Rattle.core_tables.specs.declared.client.Client.{Client};

use crate::parting::{rows_of_others_stay, same_stands, statements_are_in_work};
use client_seat::seats_hear;

/// Bytes come of a client that goes on; or on a link that no row has, where nothing is kept of them.
pub fn clients_speak()
    ensures kept { (service : Service) (g : Ground) (t now : Tabled) (link : LinkId) (bytes : List ℕ) (c : ClientNo) (row : Client)
        → Stands service g t → t.numbers link ≡ Some c → t.clients c ≡ Some row → is_ended row.desk.seat.phase ≡ false
        → IsSame now (spoke c bytes t)
        → Stands service (freshened c (on g (told g.setup g.plan g.tale (Got link bytes)))) now }
    ensures lost { (service : Service) (g : Ground) (t : Tabled) (link : LinkId) (bytes : List ℕ)
        → Stands service g t → is_to_server g.tale link ≡ false → t.numbers link ≡ None
        → Stands service (on g (told g.setup g.plan g.tale (Got link bytes))) t }
{
    rows_of_others_stay();
    seats_hear();
    statements_are_in_work();
}

/// Bytes that were due to a client are written.
pub fn clients_get()
    ensures sent { (service : Service) (g : Ground) (t now : Tabled) (link : LinkId) (tag : Tag) (bytes : List ℕ) (c : ClientNo) (row : Client)
        → Stands service g t → t.numbers link ≡ Some c → t.clients c ≡ Some row → length bytes ≤ length row.desk.seat.outbox.due
        → IsSame now (written_to c (length bytes) t)
        → Stands service (on g (told g.setup g.plan g.tale (Wrote link tag bytes))) now }
    ensures lost { (service : Service) (g : Ground) (t : Tabled) (link : LinkId) (tag : Tag) (bytes : List ℕ)
        → Stands service g t → is_to_server g.tale link ≡ false → t.numbers link ≡ None
        → Stands service (on g (told g.setup g.plan g.tale (Wrote link tag bytes))) t }
{
    rows_of_others_stay();
    statements_are_in_work();
}

/// Of one that ended the row goes away.
pub fn clients_are_forgotten()
    ensures { (service : Service) (g : Ground) (t now : Tabled) (c : ClientNo) → Stands service g t → g.over c ≡ true
        → IsSame now (forgotten c t) → Stands service g now }
{
    rows_of_others_stay();
    same_stands();
    statements_are_in_work();
}
