// A client leaves its sessions.
ghost use Rattle.std.specs.Prelude.{◌≡◌, Some};
ghost use Rattle.client_session.specs.Setups.{Setup as Service};
ghost use Rattle.private_model.specs.Names.{ClientNo};
ghost use Rattle.private_model.specs.Story.{Left};
ghost use Rattle.log_story.specs.Tale as tales;
ghost use Rattle.log_story.specs.Tale.{tell};
ghost use Rattle.client_seat.specs.declared.seat.Seat.{Seat};
ghost use Rattle.step_laws.specs.Seats.{IsSeated};
ghost use Rattle.core_tables.specs.Parting.{left_in, with_seat};
ghost use Rattle.core_tables.specs.Tables.{IsSame, Tabled, client_changed};
ghost use Rattle.core_tables.specs.declared.client.Client.{Client};
ghost use Rattle.core_stands.specs.Grounds.{Ground, ending, on, view_on};
ghost use Rattle.core_stands.specs.Stands.{Stands};
ghost use Rattle.core_laws.specs.parting.Partings.{HasLives, IsAnew, IsEnding, IsLeaving};

use crate::parting::frames::clients_stay;

/// A client leaves its sessions: it begins anew, or it ends.
pub fn left_stands()
    ensures anew { (service : Service) (g : Ground) (t : Tabled) (client : tales.Client) (row : Client) (by : Seat → Seat) → Stands service g t
        → IsSeated g.tale client → t.clients client.number ≡ Some row
        → HasLives (view_on g) client.number
        → IsLeaving (on g (tell (Left client.number) g.tale)) client (by row.desk.seat)
        → IsAnew row.desk.seat (by row.desk.seat)
        → Stands service (on g (tell (Left client.number) g.tale)) (left_in client.number by t) }
    ensures ends { (service : Service) (g : Ground) (t : Tabled) (client : tales.Client) (row : Client) (by : Seat → Seat) → Stands service g t
        → IsSeated g.tale client → t.clients client.number ≡ Some row
        → HasLives (view_on g) client.number
        → IsLeaving (on g (tell (Left client.number) g.tale)) client (by row.desk.seat)
        → IsEnding (on g (tell (Left client.number) g.tale)) client (by row.desk.seat)
        → Stands service (ending client.number (on g (tell (Left client.number) g.tale))) (left_in client.number by t) }
{
    clients_stay();
    row_laws::others_are_spared();
    row_laws::rows_are_left();
    desk_laws::coming_stays();
    desk_laws::left_stands();
}

/// It leaves, and then its seat becomes another: that is to leave with that seat.
pub fn left_is_seated()
    ensures { (t : Tabled) (c : ClientNo) (by : Seat → Seat)
        → IsSame (client_changed c (with_seat by) (left_in c (λ seat. seat) t)) (left_in c by t) }
{}
