// What a client says next is looked at.
ghost use Rattle.std.specs.Prelude.{◌≡◌, ℕ, List, Some, true};
ghost use Rattle.client_session.specs.Setups.{Setup as Service};
ghost use Rattle.log_story.specs.Clients.{waits_for_capture};
ghost use Rattle.log_story.specs.Tale as tales;
ghost use Rattle.step_laws.specs.Taken.{IsIdle};
ghost use Rattle.core_stands.specs.Grounds.{Ground, view_on};
ghost use Rattle.core_stands.specs.Stands.{Stands};
ghost use Rattle.core_tables.specs.Arrivals.{looked};
ghost use Rattle.core_tables.specs.Tables.{IsSame, Tabled};
ghost use Rattle.core_tables.specs.declared.client.Client.{Client};
ghost use Rattle.core_laws.specs.arrival.Looks.{IsLook, Looks};

use crate::parting::{rows_of_others_stay, statements_are_in_work};
use client_seat::{seats_hear, seats_log_in};

/// A client is looked at: nothing of it may be taken up, a message of its comes up, or it ends.
pub fn clients_look()
    ensures { (service : Service) (g : Ground) (t now : Tabled) (default : List ℕ) (client : tales.Client) (row : Client)
        → Stands service g t → IsLook g t default client row → IsSame now (looked service default client.number t)
        → Looks service g now default client row }
{
    rows_of_others_stay();
    seats_hear();
    seats_log_in();
    statements_are_in_work();
}

/// One that waits for a capture isn't looked at: nothing of it may be taken up.
pub fn waits_are_idle()
    ensures { (g : Ground) (client : tales.Client) → waits_for_capture (view_on g) g.plan client ≡ true
        → IsIdle g.setup g.plan g.tale client }
{}
