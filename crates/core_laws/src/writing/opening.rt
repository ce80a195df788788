// Links to servers are opened, and servers run what stands there.
ghost use Rattle.std.specs.Prelude.{◌≡◌, All, ℕ, false, true};
ghost use Rattle.mx_base.specs.declared.names.Address.{Address};
ghost use Rattle.mx_wire.specs.declared.entry.Entry.TheVariants.{Drop, Exec, Opened};
ghost use Rattle.client_session.specs.Setups.{Setup as Service};
ghost use Rattle.private_model.specs.Names.{LinkId, ServerId};
ghost use Rattle.private_model.specs.Story.{is_link_id};
ghost use Rattle.private_model.specs.View.{no_link};
ghost use Rattle.log_story.specs.Tale as tales;
ghost use Rattle.log_story.specs.Tale.{is_to_server, link_in};
ghost use Rattle.log_story.specs.Telling.{told};
ghost use Rattle.served_link.specs.declared.row.Opening.{Opening};
ghost use Rattle.core_tables.specs.Tables.{IsSame, Tabled};
ghost use Rattle.core_tables.specs.Writing.{opened};
ghost use Rattle.core_stands.specs.Grounds.{Ground, on};
ghost use Rattle.core_stands.specs.Stands.{Stands};

use crate::parting::{clients_at_stay, same_stands};
use row_laws::{rows_open, rows_run_unseen};

/// A link to a server is opened, which is no client's link and was none to a server.
pub fn links_open()
    ensures { (service : Service) (g : Ground) (t after : Tabled) (server : ServerId) (address : Address) (l : LinkId) (slot : ℕ)
        (opening : Opening) (now : ℕ) → Stands service g t → is_to_server g.tale l ≡ false → link_in g.setup g.tale l ≡ no_link
        → All (λ (client : tales.Client). is_link_id client.link l ≡ false) g.tale.clients → opening.server ≡ server
        → IsSame after (opened l slot opening (g.plan.logins l) now t)
        → Stands service (on g (told g.setup g.plan g.tale (Opened server address l))) after }
{
    rows_open();
    same_stands();
}

/// A server runs what stands on a link, or ends the link behind a QUIT.
pub fn marks_stay()
    ensures runs { (service : Service) (g : Ground) (t : Tabled) (l : LinkId) → Stands service g t → is_to_server g.tale l ≡ true
        → Stands service (on g (told g.setup g.plan g.tale (Exec l))) t }
    ensures drops { (service : Service) (g : Ground) (t : Tabled) (l : LinkId) → Stands service g t
        → Stands service (on g (told g.setup g.plan g.tale (Drop l))) t }
{
    clients_at_stay();
    rows_run_unseen();
}
