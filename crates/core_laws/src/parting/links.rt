// Links are lost, given back and forgotten.
ghost use Rattle.std.specs.Prelude.{◌≡◌, ℕ, List, Option, false, true};
ghost use Rattle.client_session.specs.Setups.{Setup as Service};
ghost use Rattle.private_model.specs.Names.{ClientNo, LinkId};
ghost use Rattle.private_model.specs.Story.{Gone, is_link_id};
ghost use Rattle.log_story.specs.Servers.{freed_if_done, is_done};
ghost use Rattle.log_story.specs.Tale.{counted, is_to_server, link_in, tell};
ghost use Rattle.core_tables.specs.Parting.{freed_in, given_up_in, is_done_in, lost_in, unlinked};
ghost use Rattle.core_tables.specs.Tables.{Tabled};
ghost use Rattle.core_stands.specs.Grounds.{Ground, on, view_on};
ghost use Rattle.core_stands.specs.Stands.{Stands};
ghost use Rattle.core_laws.specs.parting.Partings.{AreCounted, AreGivenUp, IsLosing};

use crate::parting::frames::clients_stay;

/// A link is lost, and the entry is counted: with it go its client's present session, and what was in work there.
pub fn lost_stands()
    ensures { (service : Service) (g : Ground) (t : Tabled) (l : LinkId) (given : ClientNo
        → Option (List ℕ)) → Stands service g t
        → IsLosing g t l given → AreGivenUp given (λ other. is_link_id other l) t → AreCounted g given
        → Stands service (on g (counted (tell (Gone l) g.tale))) (given_up_in given (lost_in l t)) }
{
    clients_stay();
    row_laws::others_are_spared();
    row_laws::rows_are_lost();
    desk_laws::given_up_stands();
    client_seat::seats_owe();
    desk_laws::parted_stays();
    desk_laws::coming_stays();
    desk_laws::homes_have_rows();
    desk_laws::gone_stands();
}

/// A link is given back where the test of the law says so, which is that of its row.
pub fn freed_stands()
    ensures test { (service : Service) (g : Ground) (t : Tabled) (l : LinkId) → Stands service g t
        → is_to_server g.tale l ≡ true
        → is_done g.plan g.tale.moment (view_on g) (g.tale.wires l) (link_in g.setup g.tale l)
        ≡ is_done_in l t }
    ensures stands { (service : Service) (g : Ground) (t : Tabled) (l : LinkId) → Stands service g t
        → is_to_server g.tale l ≡ true
        → Stands service (on g (freed_if_done g.setup g.plan g.tale l)) (freed_in l t) }
{
    clients_stay();
    row_laws::others_are_spared();
    row_laws::rows_are_freed();
    desk_laws::parted_stays();
    desk_laws::coming_stays();
    desk_laws::freed_stands();
    log_story::given_back_lawfully();
}

/// A link that was lost or closed is forgotten.
pub fn forgotten_stands()
    ensures { (service : Service) (g : Ground) (t : Tabled) (l : LinkId) → Stands service g t
        → (link_in g.setup g.tale l).usable ≡ false
        → Stands service g (unlinked l t) }
{}
