// An answer is read.
ghost use Rattle.std.specs.Prelude.{◌≡◌, Bool, None, Option, Some};
ghost use Rattle.private_model.specs.Commands.{Reply, end_of, is_ok, is_prepare};
ghost use Rattle.private_model.specs.Names.{ClientNo, Hostgroup, LinkId, SessionName};
ghost use Rattle.private_model.specs.Story.{Due, Heard, Question, Statement, command_of};
ghost use Rattle.private_model.specs.View.{Answered, Setup, View, view_step};
ghost use Rattle.server_rule.specs.Replies.{one_number};
ghost use Rattle.client_seat.specs.declared.seat.Seat.{Seat};
ghost use Rattle.link_state.specs.declared.asking.Asking.{Asking};
ghost use Rattle.link_laws.specs.Stands.{Codes, IsAsking};
ghost use Rattle.client_desk.specs.Desks.{heard_in, moved_by, name_of};
ghost use Rattle.client_desk.specs.declared.desk.Desk.{Desk};
ghost use Rattle.desk_laws.specs.Spares.{IsAside, asked_for};
ghost use Rattle.desk_laws.specs.Stands.{HasRow, IsDesk};

/// To a question for a present session that is no statement.
pub fn steps_are_heard()
    ensures { (setup : Setup) (codes : Codes) (view : View) (c : ClientNo) (desk : Desk) → IsDesk setup.reads view c desk
        → (link : LinkId) (reply : Reply) (question : Question) (asking : Asking) (multiplex : Option Bool) (h : Hostgroup)
        → (view.links link).stage ≡ Answered question → IsAside question → asked_for question ≡ Some (name_of desk h)
        → IsAsking setup.reads codes asking question → reply.to_prepare ≡ is_prepare (command_of question) → HasRow desk.sessions h
        → IsDesk setup.reads (view_step setup view (Heard link reply)) c
        (heard_in h asking multiplex (end_of reply) (one_number reply.payloads) desk) }
{}

/// To the client's statement, which may move the client: with any seat that stands there.
pub fn answers_stand()
    ensures { (setup : Setup) (codes : Codes) (view : View) (c : ClientNo) (desk : Desk) → IsDesk setup.reads view c desk
        → (link : LinkId) (reply : Reply) (n : SessionName) (due : Due) (asking : Asking) (h : Hostgroup) (seat : Seat)
        → (view.links link).stage ≡ Answered (Statement n due) → n ≡ name_of desk h → seat.client.number ≡ desk.seat.client.number
        → seat.phase ≡ desk.seat.phase → seat.place ≡ (moved_by asking.form (is_ok reply) desk.seat).place
        → IsAsking setup.reads codes asking (Statement n due) → reply.to_prepare ≡ is_prepare due.command → HasRow desk.sessions h
        → IsDesk setup.reads (view_step setup view (Heard link reply)) c
        (record (heard_in h asking due.multiplex (end_of reply) (one_number reply.payloads) desk) { seat = seat; work = None }) }
{}
