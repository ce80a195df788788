// Bytes come on a client's link.
ghost use Rattle.std.specs.Prelude.{◌≡◌, ℕ, Bool, List, true};
ghost use Rattle.mx_base.specs.declared.names.ClientNo.{ClientNo};
ghost use Rattle.mx_base.specs.declared.names.LinkId.{LinkId};
ghost use Rattle.mx_wire.specs.declared.entry.Entry.TheVariants.{Got};
ghost use Rattle.client_session.specs.Setups.{Setup as Service};
ghost use Rattle.log_story.specs.Tale as tales;
ghost use Rattle.core_tables.specs.Tables.{Tabled};
ghost use Rattle.core_stands.specs.Grounds.{Ground};
ghost use Rattle.core_stands.specs.Stands.{Rests};
ghost use Rattle.core_laws.specs.entry.Entries.{behind};
ghost use Rattle.core_laws.specs.clients.Speaks.{IsSpeech, SpeaksSo, goes_on};
ghost use Rattle.core_laws.specs.clients.Turns.{Choice, Halt};

use crate::clients::turns::turns_stand;

/// Bytes come on the link of a client that goes on, and goes on behind its turns.
pub fn speaks_rest()
    ensures { (service : Service) (default : List ℕ) (g : Ground) (t now : Tabled) (roomy : ClientNo → Bool) (link : LinkId) (bytes : List ℕ)
        (client : tales.Client) (choices : List Choice) (halt : Halt) (links : List LinkId) → Rests service g t roomy
        → IsSpeech default g link bytes client choices halt links → SpeaksSo service default link bytes client choices halt links t now
        → goes_on halt ≡ true → Rests service (behind g (Got link bytes) g.over) now roomy }
{
    crate::arrival::clients_speak();
    crate::entry::counts_alone();
    crate::entry::entries_of_a_speaker();
    crate::entry::links_are_given_back();
    crate::entry::entries_of_one();
    crate::parting::same_stands();
    turns_stand();
}
