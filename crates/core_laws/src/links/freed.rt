// An entry of a link to a server as it is told: it is counted, and the link is given back if it is done.
ghost use Rattle.std.specs.Prelude.{◌≡◌, ◌<◌, ℕ, List, Option, Some, false, length, true};
ghost use Rattle.mx_base.specs.Fields.{AreBytes};
ghost use Rattle.mx_wire.specs.declared.entry.Entry.TheVariants.{Closed, Ended, Got, ReadFailed, WriteFailed};
ghost use Rattle.client_session.specs.Setups.{Setup as Service};
ghost use Rattle.private_model.specs.Lawful.{IsLawful};
ghost use Rattle.private_model.specs.Names.{ClientNo, LinkId};
ghost use Rattle.private_model.specs.Story.{is_link_id};
ghost use Rattle.log_story.specs.Tale.{is_to_server};
ghost use Rattle.log_story.specs.Telling.{told};
ghost use Rattle.core_tables.specs.Hearing.{IsHeardOn};
ghost use Rattle.core_tables.specs.Preparing.{IsKeptFor};
ghost use Rattle.core_tables.specs.Parting.{freed_in, given_up_in, lost_in};
ghost use Rattle.core_tables.specs.Tables.{Tabled};
ghost use Rattle.core_tables.specs.declared.said.Said.{Said};
ghost use Rattle.core_tables.specs.declared.server.Server.{Server};
ghost use Rattle.core_stands.specs.Grounds.{AreNamed, Ground, on};
ghost use Rattle.core_stands.specs.Stands.{Stands};
ghost use Rattle.core_laws.specs.parting.Partings.{AreCounted, AreGivenUp, IsLosing};
ghost use Rattle.core_laws.specs.links.Parting.{first_freed};

/// Bytes are read there, what they prepared is kept, and what is in work is given up or not.
pub fn reads_stand()
    ensures { (service : Service) (g : Ground) (t mid heard : Tabled) (l : LinkId) (server : Server) (bytes : List ℕ) (now : ℕ) (result : Said)
        (given : ClientNo → Option (List ℕ)) → Stands service g t → is_to_server g.tale l ≡ true → t.links l ≡ Some server
        → server.row.lost ≡ false → server.row.link.spoilt ≡ false → AreNamed g.codes → AreBytes bytes → 0 < length bytes
        → IsHeardOn server l bytes now result mid t → IsKeptFor result l mid heard → IsLawful g.setup (told g.setup g.plan g.tale (Got l bytes)).story
        → AreGivenUp given (λ other. false) heard → AreCounted (on g (told g.setup g.plan g.tale (Got l bytes))) given
        → Stands service (on g (first_freed g (Got l bytes) l)) (freed_in l (given_up_in given heard)) }
{
    crate::hearing::bytes_are_heard();
    crate::parting::counted_stands();
    crate::parting::freed_stands();
}

/// The link is lost, or closed.
pub fn losses_stand()
    ensures ended { (service : Service) (g : Ground) (t : Tabled) (l : LinkId) (given : ClientNo → Option (List ℕ)) → Stands service g t
        → is_to_server g.tale l ≡ true → IsLosing g t l given → AreGivenUp given (λ other. is_link_id other l) t → AreCounted g given
        → Stands service (on g (first_freed g (Ended l) l)) (freed_in l (given_up_in given (lost_in l t))) }
    ensures unread { (service : Service) (g : Ground) (t : Tabled) (l : LinkId) (given : ClientNo → Option (List ℕ)) → Stands service g t
        → is_to_server g.tale l ≡ true → IsLosing g t l given → AreGivenUp given (λ other. is_link_id other l) t → AreCounted g given
        → Stands service (on g (first_freed g (ReadFailed l) l)) (freed_in l (given_up_in given (lost_in l t))) }
    ensures unwritten { (service : Service) (g : Ground) (t : Tabled) (l : LinkId) (given : ClientNo → Option (List ℕ)) → Stands service g t
        → is_to_server g.tale l ≡ true → IsLosing g t l given → AreGivenUp given (λ other. is_link_id other l) t → AreCounted g given
        → Stands service (on g (first_freed g (WriteFailed l) l)) (freed_in l (given_up_in given (lost_in l t))) }
    ensures closed { (service : Service) (g : Ground) (t : Tabled) (l : LinkId) (given : ClientNo → Option (List ℕ)) → Stands service g t
        → is_to_server g.tale l ≡ true → IsLosing g t l given → AreGivenUp given (λ other. is_link_id other l) t → AreCounted g given
        → Stands service (on g (first_freed g (Closed l) l)) (freed_in l (given_up_in given (lost_in l t))) }
{
    crate::parting::lost_stands();
    crate::parting::freed_stands();
}
