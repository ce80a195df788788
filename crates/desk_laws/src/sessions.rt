// Sessions begin, and their links are given back or lost.
ghost use Rattle.std.specs.Prelude.{◌≡◌, ◌<◌, ◌^◌, ℕ, suc, Some, []};
ghost use Rattle.private_model.specs.Names.{ClientNo, Hostgroup, LinkId};
ghost use Rattle.private_model.specs.Story.{Freed, Gone, Left};
ghost use Rattle.private_model.specs.View.{Setup, View, first_view, present, view_step};
ghost use Rattle.private_model.specs.View as views;
ghost use Rattle.server_rule.specs.Classes.{Reads};
ghost use Rattle.session_vars.specs.Settings.{collation_settings};
ghost use Rattle.client_seat.specs.Takings.{begun_anew};
ghost use Rattle.client_seat.specs.declared.seat.Seat.{Seat};
ghost use Rattle.client_desk.specs.Desks.{freed, gone, left, name_of, session_of};
ghost use Rattle.client_desk.specs.Sessions.{parted_of};
ghost use Rattle.client_desk.specs.declared.desk.Desk.{Desk};
ghost use Rattle.client_desk.specs.declared.session.Parted.{Parted};
ghost use Rattle.desk_laws.specs.Spares.{IsElsewhere};
ghost use Rattle.desk_laws.specs.Stands.{AreSessions, AreToCome, HasRow, IsDesk, IsParted, IsPlaced, held_of};

/// Before anything happens no client has a session in which something happened, and none of its messages was sent.
pub fn first_stands()
    ensures sessions { (setup : Setup) (c : ClientNo) → AreSessions (first_view setup) c 0 [] }
    ensures messages { (setup : Setup) (c : ClientNo) (from : ℕ) → AreToCome (first_view setup) c from }
{}

/// The name of a present session, and what is held of it.
pub fn present_stands()
    ensures name { (reads : Reads) (view : View) (c : ClientNo) (desk : Desk) → IsDesk reads view c desk → (h : Hostgroup)
        → present view c h ≡ name_of desk h }
    ensures held { (reads : Reads) (view : View) (c : ClientNo) (desk : Desk) → IsDesk reads view c desk → (h : Hostgroup)
        → view.held (present view c h) ≡ held_of (session_of desk h) }
    ensures lasting { (reads : Reads) (view : View) (c : ClientNo) (desk : Desk) → IsDesk reads view c desk → (h : Hostgroup)
        → view.lasting (present view c h) ≡ (session_of desk h).lasting }
{}

/// A session that a link carries has a row.
pub fn homes_have_rows()
    ensures { (reads : Reads) (view : View) (c : ClientNo) (desk : Desk) → IsDesk reads view c desk → (h : Hostgroup) (link : LinkId)
        → (view.held (name_of desk h)).home ≡ Some link → HasRow desk.sessions h }
{}

/// The link of a present session is given back.
pub fn freed_stands()
    ensures { (setup : Setup) (view : View) (c : ClientNo) (desk : Desk) → IsDesk setup.reads view c desk
        → (link : LinkId) (h : Hostgroup) → views.session_in (view.links link).carries ≡ Some (name_of desk h)
        → IsDesk setup.reads (view_step setup view (Freed link)) c (freed h desk) }
{}

/// The link of a present session is lost; what was in work there was given up.
pub fn gone_stands()
    ensures { (setup : Setup) (view : View) (c : ClientNo) (desk : Desk) → IsDesk setup.reads view c desk
        → (link : LinkId) (h : Hostgroup) → views.session_in (view.links link).carries ≡ Some (name_of desk h) → HasRow desk.sessions h
        → suc (view.lives c h) < 2 ^ 64 → IsElsewhere h desk.work → IsDesk setup.reads (view_step setup view (Gone link)) c (gone h desk) }
{}

/// The client leaves its sessions: with any seat that stands where it is then.
pub fn left_stands()
    ensures { (setup : Setup) (view : View) (c : ClientNo) (desk : Desk) → IsDesk setup.reads view c desk
        → (seat : Seat) → ((h : Hostgroup) → suc (view.lives c h) < 2 ^ 64) → seat.client.number ≡ desk.seat.client.number
        → IsPlaced seat.phase (view_step setup view (Left c)) c seat.place
        → IsDesk setup.reads (view_step setup view (Left c)) c (record (left desk) { seat = seat }) }
{}

/// Where a client stands that begins anew.
pub fn anew_stands()
    ensures { (setup : Setup) (view : View) (c : ClientNo) (seat : Seat) → view.places c ≡ seat.place
        → (setup.places c).settings ≡ collation_settings seat.collation
        → (view_step setup view (Left c)).places c ≡ (begun_anew seat).place }
{}

/// What is handed on of a session that is left stands for it.
pub fn parted_stands()
    ensures { (setup : Setup) (view : View) (c : ClientNo) (desk : Desk) → IsDesk setup.reads view c desk → (h : Hostgroup) (p : Parted)
        → parted_of (session_of desk h) ≡ Some p → IsParted (view_step setup view (Left c)) c p }
{}
