// A client comes.
ghost use Rattle.std.specs.Prelude.{◌≡◌, ℕ, suc, List, Some, None};
ghost use Rattle.mx_base.specs.declared.names.LinkId.{LinkId};
ghost use Rattle.mx_base.specs.declared.names.Port.{Port};
ghost use Rattle.client_session.specs.Setups.{Setup as Service};
ghost use Rattle.client_seat.specs.Seats.{new_seat, turned_away};
ghost use Rattle.core_stands.specs.Grounds.{Ground, ending};
ghost use Rattle.core_stands.specs.Stands.{Stands};
ghost use Rattle.core_tables.specs.Arrivals.{came};
ghost use Rattle.core_tables.specs.Tables.{IsSame, Tabled};
ghost use Rattle.core_tables.specs.declared.client.ClientNote.{ClientNote};
ghost use Rattle.core_laws.specs.arrival.Comes.{IsComing, accepted, away_word, newest};
ghost use Rattle.stmt_map.specs.declared.client.ClientStatements.{ClientStatements};
ghost use Rattle.client_seat.specs.Numbers.{number_in};

use crate::parting::{rows_of_others_stay, statements_are_in_work};

/// A client comes and is served: its greeting is due to it.
pub fn clients_come()
    ensures { (service : Service) (g : Ground) (t now : Tabled) (port : Port) (link : LinkId) (salt : List ℕ) (statements : ClientStatements)
        (note : ClientNote) → Stands service g t → IsComing g port link salt → ((number : ℕ) → number_in statements number ≡ None)
        → IsSame now (came (newest g port link salt).number link (new_seat link (newest g port link salt).number salt port service statements) note t)
        → Stands service (accepted port link salt g) now }
{
    rows_of_others_stay();
    statements_are_in_work();
}

/// It is turned away, by the plan that ends it with that word at this moment.
pub fn clients_are_turned_away()
    ensures { (service : Service) (g : Ground) (t now : Tabled) (port : Port) (link : LinkId) (salt : List ℕ) (statements : ClientStatements)
        (note : ClientNote) → Stands service g t → IsComing g port link salt
        → g.plan.words (newest g port link salt).number ≡ Some (away_word (suc g.tale.moment))
        → IsSame now (came (newest g port link salt).number link (turned_away link (newest g port link salt).number salt port statements) note t)
        → Stands service (ending (newest g port link salt).number (accepted port link salt g)) now }
{
    rows_of_others_stay();
    statements_are_in_work();
}
