// A client's message that came up is taken up.
ghost use Rattle.std.specs.Prelude.{◌≡◌, ℕ, false, suc, true, List, None, Some};
ghost use Rattle.packet_frame.specs.Packets.{spellings};
ghost use Rattle.client_session.specs.Setups.{Setup as Service};
ghost use Rattle.private_model.specs.Commands.{Command};
ghost use Rattle.private_model.specs.Story.{Left};
ghost use Rattle.log_story.specs.Clients.{taken_by};
ghost use Rattle.log_story.specs.Plan.{Route, word_at};
ghost use Rattle.log_story.specs.Tale as tales;
ghost use Rattle.log_story.specs.Tale.{tell};
ghost use Rattle.step_laws.specs.Taken.{next_made};
ghost use Rattle.stmt_map.specs.declared.client.ClientStatements.{ClientStatements};
ghost use Rattle.client_seat.specs.Numbers.{AreNoted};
ghost use Rattle.client_desk.specs.declared.work.Work.{Work};
ghost use Rattle.core_tables.specs.Tables.{IsSame, Tabled, client_changed};
ghost use Rattle.core_tables.specs.Taking.{answers, begins_anew, goes, quits};
ghost use Rattle.core_tables.specs.declared.client.Client.{Client};
ghost use Rattle.core_stands.specs.Grounds.{Ground, ending, on, view_on};
ghost use Rattle.core_stands.specs.Stands.{Stands};
ghost use Rattle.core_laws.specs.parting.Partings.{HasLives};
ghost use Rattle.core_laws.specs.taking.Takes.{IsNumberedAs, IsSent, IsUpOf, is_reset, own_of, route_of, took};

use crate::parting::{clients_stay, left_stands, same_stands, servers_stay};
use desk_laws::{anew_stands, due_stands, seats_stand};

/// It is what the client's tale takes up next.
pub fn next_is_taken()
    ensures { (g : Ground) (t : Tabled) (client : tales.Client) (row : Client) → (is : IsUpOf g t client row)
        → next_made g.setup g.plan client g.tale
        ≡ Some (taken_by g.setup g.plan client (suc client.taken) is.up.message (route_of g client) g.tale) }
{}

/// The router answers it itself, and it is no COM_RESET_CONNECTION.
pub fn own_answers_stand()
    ensures { (service : Service) (g : Ground) (t other : Tabled) (client : tales.Client) (row : Client) → Stands service g t
        → (is : IsUpOf g t client row) (flag : ℕ) (payloads : List (List ℕ)) (packets : List ℕ) (statements : ClientStatements)
        → route_of g client ≡ None → own_of g client ≡ Some payloads → packets ≡ spellings row.desk.seat.first payloads
        → is_reset is.up.message ≡ false → AreNoted true is.up.message.payload row.desk.seat.statements statements
        → IsSame other (client_changed client.number (answers flag packets statements) t)
        → Stands service (on g (took g client is.up.message)) other }
{
    seats_stand();
    same_stands();
}

/// The router answers a COM_RESET_CONNECTION: the client leaves its sessions, and begins anew where it is.
pub fn resets_stand()
    ensures { (service : Service) (g : Ground) (t other : Tabled) (client : tales.Client) (row : Client) → Stands service g t
        → (is : IsUpOf g t client row) (flag : ℕ) (payloads : List (List ℕ)) (packets : List ℕ) (statements : ClientStatements)
        → route_of g client ≡ None → own_of g client ≡ Some payloads → packets ≡ spellings row.desk.seat.first payloads
        → is_reset is.up.message ≡ true → HasLives (view_on g) client.number
        → AreNoted true is.up.message.payload row.desk.seat.statements statements
        → IsSame other (begins_anew client.number flag packets statements t) → Stands service (on g (took g client is.up.message)) other }
{
    seats_stand();
    anew_stands();
    left_stands();
    same_stands();
}

/// A message that neither goes to a server nor is answered, as a COM_QUIT, is the last: the client ends behind it.
pub fn quits_stand()
    ensures { (service : Service) (g : Ground) (t other : Tabled) (client : tales.Client) (row : Client) → Stands service g t
        → (is : IsUpOf g t client row) (flag : ℕ) (statements : ClientStatements) → route_of g client ≡ None → own_of g client ≡ None
        → is_reset is.up.message ≡ false → HasLives (view_on g) client.number → word_at g.plan g.tale.moment client.number ≡ None
        → IsSame other (quits client.number flag statements t)
        → Stands service (ending client.number (on g (tell (Left client.number) (took g client is.up.message)))) other }
{
    seats_stand();
    left_stands();
    same_stands();
}

/// It goes to a server, and a statement becomes due.
pub fn dues_stand()
    ensures { (service : Service) (g : Ground) (t other : Tabled) (client : tales.Client) (row : Client) → Stands service g t
        → (is : IsUpOf g t client row) (flag : ℕ) (route : Route) (command : Command) (work : Work) (statements : ClientStatements)
        → IsSent g client is.up.message route command work → IsNumberedAs route work row.desk.seat.statements
        → AreNoted false is.up.message.payload row.desk.seat.statements statements
        → IsSame other (client_changed client.number (goes flag work statements) t)
        → Stands service (on g (took g client is.up.message)) other }
{
    seats_stand();
    due_stands();
    clients_stay();
    servers_stay();
    same_stands();
}
