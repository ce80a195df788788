// Where a message is taken up, what code promises is what the laws ask for.
ghost use Rattle.std.specs.Prelude.{◌≡◌, ◌++◌, ℕ, Bool, false, suc, true, [], List, None, Option, Some};
ghost use Rattle.mx_base.specs.declared.names.Hostgroup.{Hostgroup};
ghost use Rattle.packet_frame.specs.Packets.{Framed, spelling, spellings};
ghost use Rattle.client_session.specs.Setups.{Setup as Service};
ghost use Rattle.pin_classifier.specs.declared.class.Class.{Class};
ghost use Rattle.server_rule.specs.Classes.{Reads};
ghost use Rattle.private_model.specs.Commands.{Command, InitDb, class_of};
ghost use Rattle.private_model.specs.View.{Setup};
ghost use Rattle.log_story.specs.Executes.{requested};
ghost use Rattle.log_story.specs.Plan.{Route, text_payload};
ghost use Rattle.log_story.specs.Tale as tales;
ghost use Rattle.link_state.specs.declared.asking.Form.{Form};
ghost use Rattle.link_state.specs.declared.asking.Form.TheVariants.{Fields, Text};
ghost use Rattle.link_state.specs.declared.wish.Command.TheVariants.{Plain};
ghost use Rattle.link_laws.specs.Stands.{IsForm, IsRead};
ghost use Rattle.client_seat.specs.Requests.{Says, text_in};
ghost use Rattle.client_seat.specs.Stands.{Known};
ghost use Rattle.desk_laws.specs.Stands.{IsRequest, is_text, kind_of};
ghost use Rattle.core_tables.specs.Tables.{Tabled};
ghost use Rattle.core_tables.specs.Taking.{IsDue, IsTaken, answers, asked_of, found_of, text_work};
ghost use Rattle.core_tables.specs.declared.client.Client.{Client};
ghost use Rattle.core_stands.specs.Grounds.{Ground, on};
ghost use Rattle.core_stands.specs.Stands.{Stands};
ghost use Rattle.core_laws.specs.taking.Joins.{IsDecided, IsUnprepared, is_field_list, is_init_db, is_query, text_of, text_route};
ghost use Rattle.core_laws.specs.taking.Takes.{IsSent, IsUpOf, is_reset, own_of, route_of, took};

use crate::taking::taken::{dues_stand, own_answers_stand};
use client_seat::seats_prepare;

/// The work of a text, which is no STMT_PREPARE, is what its command asks for, by its form.
pub fn texts_are_requests()
    ensures { (reads : Reads) (form : Form) (command : Command) (ordinal since_ms : ℕ) (hostgroup : Hostgroup) (multiplex : Option Bool)
        (packets : List ℕ) → IsForm reads form command → (kind_of command ≡ Plain) × (is_text command ≡ true)
        → packets ≡ spelling 0 (text_payload command)
        → IsRequest reads ordinal 0 command multiplex (text_work ordinal hostgroup since_ms multiplex form packets) }
{}

/// What a client's message asks for, which neither prepares nor executes a statement, is what a story's message asks for.
pub fn texts_are_asked()
    ensures asked { (row : Client) (message : Framed) (text : Option (List ℕ)) (command : Command) → found_of row ≡ Some message
        → IsUnprepared message → asked_of row text ≡ Some (Says command) → text_in message.payload text ≡ Some (Says command) }
    ensures plain { (message : Framed) (text : Option (List ℕ)) (command : Command) → IsUnprepared message
        → text_in message.payload text ≡ Some (Says command) → (kind_of command ≡ Plain) × (is_text command ≡ true) }
    ensures requested { (x : Known) (setup : Setup) (client : tales.Client) (row : Client) (message : Framed) (route : Route)
        (command : Command) → found_of row ≡ Some message → IsUnprepared message → asked_of row route.text ≡ Some (Says command)
        → requested setup x.view x.plan client (suc client.taken) route message.payload
        ≡ Some (record { command = command; key = route.key }) }
{
    seats_prepare();
}

/// What the router answers itself, written where nothing was, is its payloads in packets whose ids go on from the message's.
pub fn own_answers_are_spelt()
    ensures { (row : Client) (before packets : List ℕ) (payloads : List (List ℕ)) → before ≡ []
        → packets ≡ before ++ spellings row.desk.seat.first payloads → packets ≡ spellings row.desk.seat.first payloads }
{}

/// A statement that became due is sent as its route says.
pub fn dues_are_sent()
    ensures { (g : Ground) (t other : Tabled) (client : tales.Client) (row : Client) → (is : IsUpOf g t client row)
        → (flag since_ms : ℕ) (hostgroup : Hostgroup) (text : Option (List ℕ)) (multiplex : Option Bool) (form : Form)
        → IsDecided g client is.up.message hostgroup text multiplex form
        → (due : IsDue flag text (text_work (suc client.taken) hostgroup since_ms multiplex form) client.number t other)
        → IsSent g client is.up.message (text_route hostgroup text multiplex) due.command
        (text_work (suc client.taken) hostgroup since_ms multiplex form (spelling 0 (text_payload due.command))) }
{}

/// The form of what is asked for: that of its text, as a class of it was read; that of a choice of a schema, which has the class of a USE; and
/// that of a question for a table's columns.
pub fn forms_are_asked()
    ensures query { (reads : Reads) (message : Framed) (text : Option (List ℕ)) (command : Command)
        → text_in message.payload text ≡ Some (Says command) → (class : Class) → is_query message ≡ true
        → IsRead reads class (text_of message text) → IsForm reads (Text class) command }
    ensures schema { (reads : Reads) (message : Framed) (text : Option (List ℕ)) (command : Command)
        → text_in message.payload text ≡ Some (Says command) → (class : Class) → is_init_db message ≡ true
        → class ≡ class_of reads (InitDb (text_of message text)) → IsForm reads (Text class) command }
    ensures fields { (reads : Reads) (message : Framed) (text : Option (List ℕ)) (command : Command)
        → text_in message.payload text ≡ Some (Says command) → is_field_list message ≡ true → IsForm reads Fields command }
{}

/// So the tables stand for the tale once a statement became due as it was decided.
pub fn decided_dues_stand()
    ensures { (service : Service) (g : Ground) (t other : Tabled) (client : tales.Client) (row : Client) → Stands service g t
        → (is : IsUpOf g t client row) (flag since_ms : ℕ) (hostgroup : Hostgroup) (text : Option (List ℕ)) (multiplex : Option Bool)
        (form : Form) → IsDecided g client is.up.message hostgroup text multiplex form
        → IsDue flag text (text_work (suc client.taken) hostgroup since_ms multiplex form) client.number t other
        → Stands service (on g (took g client is.up.message)) other }
{
    dues_are_sent();
    dues_stand();
}

/// And once the router answered it itself, in packets that were written so.
pub fn written_answers_stand()
    ensures { (service : Service) (g : Ground) (t other : Tabled) (client : tales.Client) (row : Client) → Stands service g t
        → (is : IsUpOf g t client row) (flag : ℕ) (payloads : List (List ℕ)) (before packets : List ℕ)
        → route_of g client ≡ None → own_of g client ≡ Some payloads → before ≡ []
        → packets ≡ before ++ spellings row.desk.seat.first payloads → is_reset is.up.message ≡ false
        → IsTaken true (answers flag packets) client.number t other → Stands service (on g (took g client is.up.message)) other }
{
    own_answers_are_spelt();
    own_answers_stand();
}
