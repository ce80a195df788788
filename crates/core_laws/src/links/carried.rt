// Entries of a link to a server that carries a session.
ghost use Rattle.std.specs.Prelude.{◌≡◌, ◌||◌, All, Bool, List, false, suc, true};
ghost use Rattle.mx_wire.specs.declared.entry.Entry.{Entry};
ghost use Rattle.client_session.specs.Setups.{Setup as Service};
ghost use Rattle.private_model.specs.Names.{ClientNo, LinkId};
ghost use Rattle.log_story.specs.Clients.{client_goes_on};
ghost use Rattle.log_story.specs.Tale as tales;
ghost use Rattle.log_story.specs.Tale.{Tale};
ghost use Rattle.step_laws.specs.Seats.{is_its};
ghost use Rattle.step_laws.specs.Steps.{ended_now, ends_now, told_then};
ghost use Rattle.step_laws.specs.Taken.{IsIdle, is_called};
ghost use Rattle.core_tables.specs.Tables.{IsSame, Tabled};
ghost use Rattle.core_stands.specs.Grounds.{Ground, on, view_on};
ghost use Rattle.core_stands.specs.Stands.{Rests, Stands};
ghost use Rattle.core_laws.specs.entry.Entries.{AreCalmToo, AreSpared, TellsOf, behind};
ghost use Rattle.core_laws.specs.entry.Freeing.{all_freed};
ghost use Rattle.core_laws.specs.entry.Kinds.{IsOnLink};
ghost use Rattle.core_laws.specs.entry.Loops.{IsTaking};
ghost use Rattle.core_laws.specs.links.Parting.{first_freed, parted, parting_links};

/// The client whose session the link carries took up its messages, which is all that it takes up; and one that isn't called none.
pub fn carried_go_on()
    ensures called { (service : Service) (g : Ground) (t : Tabled) (e : Entry) (l : LinkId) (client last : tales.Client) (tale : Tale)
        → is_called g.plan (first_freed g e l).moment (view_on g) e client ≡ true → IsTaking service client (first_freed g e l) (on g tale) t last
        → IsIdle g.setup g.plan tale last → client_goes_on g.setup g.plan (view_on g) e (first_freed g e l) client ≡ tale }
    ensures passed { (g : Ground) (e : Entry) (l : LinkId) (client : tales.Client)
        → is_called g.plan (first_freed g e l).moment (view_on g) e client ≡ false
        → client_goes_on g.setup g.plan (view_on g) e (first_freed g e l) client ≡ first_freed g e l }
{
    crate::entry::messages_are_taken();
}

/// An entry of the link is of that client alone: once its messages are taken up, and it is ended or not, links that carry its sessions are
/// given back, and the tables rest.
pub fn carried_rest()
    ensures { (service : Service) (g : Ground) (t gone now : Tabled) (roomy room : ClientNo → Bool) (e : Entry) (l : LinkId)
        (client : tales.Client) (ended : List ClientNo) (over : ClientNo → Bool) (tale : Tale) → Rests service g t roomy → IsOnLink g e l client
        → ended_now g.plan (told_then g.setup g.plan g.tale e) ≡ ended → All (λ (c : ClientNo). is_its client c ≡ true) ended
        → TellsOf (is_its client) g.tale e → AreSpared (is_its client) g e
        → client_goes_on g.setup g.plan (view_on g) e (first_freed g e l) client ≡ tale
        → Stands service (parted g ended over tale) gone → ((c : ClientNo) → over c ≡ (g.over c || ends_now g.plan (suc g.tale.moment) c))
        → ((c : ClientNo) → is_its client c ≡ false → room c ≡ false → roomy c ≡ false) → AreCalmToo (is_its client) (parted g ended over tale) room
        → IsSame now (all_freed (parting_links g e l client) gone) → Rests service (behind g e over) now room }
{
    crate::entry::entries_of_a_link();
    crate::entry::entries_of_one();
    crate::entry::links_are_given_back();
    crate::parting::same_stands();
}
