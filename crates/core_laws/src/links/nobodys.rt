// Entries of links to servers by which no link is given back, and nobody is called.
ghost use Rattle.std.specs.Prelude.{◌≡◌, ◌<◌, ◌≤◌, ℕ, All, Bool, Some, false, length, take};
ghost use Rattle.mx_base.specs.Sent as offers;
ghost use Rattle.mx_base.specs.declared.names.Address.{Address};
ghost use Rattle.mx_wire.specs.declared.entry.Entry.TheVariants.{Opened, Wrote};
ghost use Rattle.client_session.specs.Setups.{Setup as Service};
ghost use Rattle.private_model.specs.Names.{ClientNo, LinkId, ServerId};
ghost use Rattle.private_model.specs.Story.{is_link_id};
ghost use Rattle.private_model.specs.View.{no_link};
ghost use Rattle.log_story.specs.Tale as tales;
ghost use Rattle.log_story.specs.Tale.{is_to_server, link_in};
ghost use Rattle.served_link.specs.declared.row.Opening.{Opening};
ghost use Rattle.core_tables.specs.Passing.{sends};
ghost use Rattle.core_tables.specs.Tables.{IsSame, Tabled};
ghost use Rattle.core_tables.specs.Writing.{opened, wrote_on};
ghost use Rattle.core_tables.specs.declared.server.Server.{Server};
ghost use Rattle.core_stands.specs.Grounds.{Ground};
ghost use Rattle.core_stands.specs.Stands.{Rests};
ghost use Rattle.core_laws.specs.writing.Planned.{IsPlanned};
ghost use Rattle.core_laws.specs.entry.Entries.{behind};
ghost use Rattle.core_laws.specs.entry.Kinds.{IsUneventful};

/// Bytes of what the tables lend are written on a link to a server. That isn't done behind it: something stands there then, or it stays as it
/// was.
pub fn writes_rest()
    ensures { (service : Service) (g : Ground) (t now : Tabled) (roomy : ClientNo → Bool) (l : LinkId) (server : Server) (offer : offers.Sent)
        (count moment : ℕ) → Rests service g t roomy → t.links l ≡ Some server → sends l t ≡ Some offer
        → IsPlanned server.row.link.next g l server.row → 0 < count → count ≤ length offer.bytes → IsUneventful g
        → IsSame now (wrote_on l count moment t)
        → Rests service (behind g (Wrote l offer.tag (take count offer.bytes)) g.over) now roomy }
{
    crate::entry::counts_alone();
    crate::parting::freed_stands();
    crate::parting::same_stands();
    row_laws::rows_may_begin();
    crate::writing::writes_stand();
}

/// A link to a server is opened, which was none and is no client's.
pub fn opens_rest()
    ensures { (service : Service) (g : Ground) (t now : Tabled) (roomy : ClientNo → Bool) (server : ServerId) (address : Address) (l : LinkId)
        (slot : ℕ) (opening : Opening) (moment : ℕ) → Rests service g t roomy → is_to_server g.tale l ≡ false
        → link_in g.setup g.tale l ≡ no_link → All (λ (client : tales.Client). is_link_id client.link l ≡ false) g.tale.clients
        → opening.server ≡ server → IsUneventful g → IsSame now (opened l slot opening (g.plan.logins l) moment t)
        → Rests service (behind g (Opened server address l) g.over) now roomy }
{
    crate::entry::counts_alone();
    crate::parting::freed_stands();
    crate::parting::same_stands();
    crate::writing::links_open();
}
