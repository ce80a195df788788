// A desk whose seat or work changes, while nothing of it happens in the story.
ghost use Rattle.std.specs.Prelude.{◌≡◌, ℕ, List, Option, Some, []};
ghost use Rattle.private_model.specs.Names.{ClientNo};
ghost use Rattle.private_model.specs.Story.{Due};
ghost use Rattle.private_model.specs.View.{View, present};
ghost use Rattle.server_rule.specs.Classes.{Reads};
ghost use Rattle.client_seat.specs.declared.seat.Seat.{Seat};
ghost use Rattle.link_state.specs.declared.asking.Form.{Form};
ghost use Rattle.link_laws.specs.Stands.{IsForm};
ghost use Rattle.client_desk.specs.Desks.{gave_up, new_desk};
ghost use Rattle.client_desk.specs.Works.{body_back, formless, given_back, without_packets};
ghost use Rattle.client_desk.specs.declared.desk.Desk.{Desk};
ghost use Rattle.client_desk.specs.declared.work.Work.{Work};
ghost use Rattle.desk_laws.specs.Stands.{AreSessions, IsBody, IsDesk, IsPlaced};

/// A client comes.
pub fn new_stands()
    ensures { (reads : Reads) (view : View) (c : ClientNo) (seat : Seat) → AreSessions view c 0 [] → seat.client.number ≡ c
        → IsPlaced seat.phase view c seat.place → IsDesk reads view c (new_desk seat) }
{}

/// Its seat is another one of its own, where it stands as before.
pub fn seats_stand()
    ensures { (reads : Reads) (view : View) (c : ClientNo) (desk : Desk) → IsDesk reads view c desk → (seat : Seat)
        → seat.client.number ≡ desk.seat.client.number → seat.place ≡ desk.seat.place → IsPlaced seat.phase view c seat.place
        → IsDesk reads view c (record desk { seat = seat }) }
{}

/// The router answers its statement itself.
pub fn given_up_stands()
    ensures { (reads : Reads) (view : View) (c : ClientNo) (desk : Desk) → IsDesk reads view c desk → (payload : List ℕ)
        → IsDesk reads view c (gave_up payload desk) }
{}

/// The form of its statement goes to a link, and so do its packets; and they come back, being those of what is due.
pub fn taken_stands()
    ensures form { (reads : Reads) (view : View) (c : ClientNo) (desk : Desk) → IsDesk reads view c desk → (work : Work)
        → desk.work ≡ Some work → IsDesk reads view c (record desk { work = Some (formless work) }) }
    ensures packets { (reads : Reads) (view : View) (c : ClientNo) (desk : Desk) → IsDesk reads view c desk → (work : Work)
        → desk.work ≡ Some work → IsDesk reads view c (record desk { work = Some (without_packets work) }) }
    ensures back { (reads : Reads) (view : View) (c : ClientNo) (desk : Desk) → IsDesk reads view c desk → (work : Work) (form : Form)
        (packets : Option (List ℕ)) → desk.work ≡ Some work
        → ((due : Due) → view.dues (present view c work.hostgroup) ≡ Some due → IsForm reads form due.command)
        → ((due : Due) → view.dues (present view c work.hostgroup) ≡ Some due → IsBody (body_back packets work.body) due.command)
        → IsDesk reads view c (record desk { work = Some (given_back form packets work) }) }
{}
