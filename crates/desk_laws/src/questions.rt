// A statement becomes due and goes out.
ghost use Rattle.std.specs.Prelude.{◌≡◌, ℕ, Bool, false, List, Option, None, Some};
ghost use Rattle.private_model.specs.Commands.{Command, class_of};
ghost use Rattle.private_model.specs.Names.{ClientNo, Hostgroup, LinkId, SessionName};
ghost use Rattle.private_model.specs.Story.{BecameDue, Due, Prep, Sent, Statement};
ghost use Rattle.private_model.specs.View.{Setup, View, view_step};
ghost use Rattle.server_rule.specs.Classes.{Reads};
ghost use Rattle.link_state.specs.declared.asking.Form.{Form};
ghost use Rattle.link_laws.specs.Stands.{IsForm};
ghost use Rattle.client_desk.specs.Desks.{lent, name_of, sent, taken_on};
ghost use Rattle.client_desk.specs.Works.{outlasts};
ghost use Rattle.client_desk.specs.declared.desk.Desk.{Desk};
ghost use Rattle.client_desk.specs.declared.work.Work.{Work};
ghost use Rattle.desk_laws.specs.Stands.{HasRow, IsDesk, IsRequest, message_at};

/// A statement becomes due.
pub fn due_stands()
    ensures { (setup : Setup) (view : View) (c : ClientNo) (desk : Desk) → IsDesk setup.reads view c desk
        → (work : Work) (ordinal key : ℕ) (command : Command) (multiplex : Option Bool) → IsRequest setup.reads ordinal key command multiplex work
        → view.places c ≡ desk.seat.place → view.carriers (message_at c ordinal) ≡ None → view.replies (message_at c ordinal) ≡ None
        → IsDesk setup.reads (view_step setup view (BecameDue c work.hostgroup ordinal key command multiplex)) c (taken_on work desk) }
{}

/// A text is prepared on the way to it.
pub fn lent_stands()
    ensures { (setup : Setup) (view : View) (c : ClientNo) (desk : Desk) → IsDesk setup.reads view c desk
        → (link : LinkId) (h : Hostgroup) (n : SessionName) (key : ℕ) (text : List ℕ) → n ≡ name_of desk h → HasRow desk.sessions h
        → IsDesk setup.reads (view_step setup view (Sent link (Prep n key text))) c (lent h link desk) }
{}

/// It goes out itself.
pub fn sent_stands()
    ensures { (setup : Setup) (view : View) (c : ClientNo) (desk : Desk) → IsDesk setup.reads view c desk
        → (link : LinkId) (h : Hostgroup) (n : SessionName) (due : Due) (lasts : Bool) (work : Work) → n ≡ name_of desk h
        → lasts ≡ (class_of setup.reads due.command).outlasts_reset → desk.work ≡ Some work → work.hostgroup ≡ h → work.sent ≡ false
        → view.dues n ≡ Some due → IsDesk setup.reads (view_step setup view (Sent link (Statement n due))) c (sent h link lasts desk) }
{}

/// Whether a reset may not take back what a statement does is seen by its form.
pub fn outlasts_as_said()
    ensures { (reads : Reads) (form : Form) (command : Command) → IsForm reads form command
        → outlasts form ≡ (class_of reads command).outlasts_reset }
{}
