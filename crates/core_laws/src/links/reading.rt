// Bytes are read on a link to a server that carries a session.
ghost use Rattle.std.specs.Prelude.{◌≡◌, ◌||◌, ℕ, All, Bool, List, false, suc, true};
ghost use Rattle.mx_wire.specs.declared.entry.Entry.TheVariants.{Got};
ghost use Rattle.client_session.specs.Setups.{Setup as Service};
ghost use Rattle.private_model.specs.Names.{ClientNo, LinkId};
ghost use Rattle.log_story.specs.Clients.{client_goes_on};
ghost use Rattle.log_story.specs.Tale as tales;
ghost use Rattle.log_story.specs.Tale.{Tale};
ghost use Rattle.step_laws.specs.Seats.{is_its};
ghost use Rattle.step_laws.specs.Steps.{ended_now, ends_now, told_then};
ghost use Rattle.core_tables.specs.Tables.{IsSame, Tabled};
ghost use Rattle.core_stands.specs.Grounds.{Ground, view_on};
ghost use Rattle.core_stands.specs.Stands.{Rests, Stands};
ghost use Rattle.core_laws.specs.entry.Entries.{AreCalmToo, AreSpared, TellsOf, behind};
ghost use Rattle.core_laws.specs.entry.Freeing.{all_freed};
ghost use Rattle.core_laws.specs.entry.Kinds.{IsOnLink};
ghost use Rattle.core_laws.specs.links.Parting.{first_freed, parted, parting_links};
ghost use Rattle.core_laws.specs.links.Reading.{IsReadFor};

use crate::links::carried::carried_rest;

/// The entry is of the client alone whose session the link carries: of the others nothing is told, and no other link may be given back as it
/// is told.
pub fn reads_are_of_one()
    ensures on_link { (service : Service) (g : Ground) (t : Tabled) (roomy : ClientNo → Bool) (l : LinkId) (bytes : List ℕ) (client : tales.Client)
        → Rests service g t roomy → IsReadFor g l client → IsOnLink g (Got l bytes) l client }
    ensures spared { (service : Service) (g : Ground) (t : Tabled) (roomy : ClientNo → Bool) (l : LinkId) (bytes : List ℕ) (client : tales.Client)
        → Rests service g t roomy → IsReadFor g l client → AreSpared (is_its client) g (Got l bytes) }
    ensures its { (service : Service) (g : Ground) (t : Tabled) (roomy : ClientNo → Bool) (l : LinkId) (bytes : List ℕ) (client : tales.Client)
        → Rests service g t roomy → IsReadFor g l client → TellsOf (is_its client) g.tale (Got l bytes) }
{
    crate::parting::lawful_homes();
}

/// So the tables rest behind it, once its messages are taken up and it is ended or not.
pub fn reads_rest()
    ensures { (service : Service) (g : Ground) (t gone now : Tabled) (roomy room : ClientNo → Bool) (l : LinkId) (bytes : List ℕ)
        (client : tales.Client) (ended : List ClientNo) (over : ClientNo → Bool) (tale : Tale) → Rests service g t roomy → IsReadFor g l client
        → ended_now g.plan (told_then g.setup g.plan g.tale (Got l bytes)) ≡ ended → All (λ (c : ClientNo). is_its client c ≡ true) ended
        → client_goes_on g.setup g.plan (view_on g) (Got l bytes) (first_freed g (Got l bytes) l) client ≡ tale
        → Stands service (parted g ended over tale) gone → ((c : ClientNo) → over c ≡ (g.over c || ends_now g.plan (suc g.tale.moment) c))
        → ((c : ClientNo) → is_its client c ≡ false → room c ≡ false → roomy c ≡ false) → AreCalmToo (is_its client) (parted g ended over tale) room
        → IsSame now (all_freed (parting_links g (Got l bytes) l client) gone) → Rests service (behind g (Got l bytes) over) now room }
{
    carried_rest();
    reads_are_of_one();
}
