// What happens elsewhere, and what is changed elsewhere, leaves a client or the row of a link as it stands.
ghost use Rattle.std.specs.Prelude.{◌≡◌, ◌∷◌, None, Option, Some, false};
ghost use Rattle.mx_base.specs.declared.names.Hostgroup.{Hostgroup};
ghost use Rattle.client_session.specs.Setups.{Setup as Service};
ghost use Rattle.private_model.specs.Lawful.{IsLawful};
ghost use Rattle.private_model.specs.Names.{ClientNo, LinkId, SessionName};
ghost use Rattle.private_model.specs.Story.{Happening, Story};
ghost use Rattle.private_model.specs.View.{Setup, session_in, view_after};
ghost use Rattle.log_story.specs.Plan.{Plan};
ghost use Rattle.log_story.specs.Tale.{Tale, link_in, tell, view_of};
ghost use Rattle.log_story.specs.Tale as tales;
ghost use Rattle.link_laws.specs.Stands.{Codes};
ghost use Rattle.served_link.specs.declared.row.Row.{Row};
ghost use Rattle.client_desk.specs.Desks.{session_of};
ghost use Rattle.client_desk.specs.declared.work.Work.{Work};
ghost use Rattle.desk_laws.specs.Spares.{touches};
ghost use Rattle.desk_laws.specs.Stands.{name_at};
ghost use Rattle.row_laws.specs.Apart.{IsElsewhere};
ghost use Rattle.row_laws.specs.Rows.{IsRowIn};
ghost use Rattle.row_laws.specs.Whose.{name_in};
ghost use Rattle.core_tables.specs.Tables.{IsSame, Tabled};
ghost use Rattle.core_tables.specs.declared.client.Client.{Client};
ghost use Rattle.core_tables.specs.declared.server.Server.{Server};
ghost use Rattle.core_stands.specs.Clients.{IsClient, IsClientOr};
ghost use Rattle.core_stands.specs.Grounds.{Ground, on, view_on};
ghost use Rattle.core_stands.specs.Servers.{IsServer, IsServerOr, IsStandingAt};
ghost use Rattle.core_stands.specs.Stands.{IsAt, IsKnown, Stands};
ghost use Rattle.core_laws.specs.parting.Frames.{AreHomed, IsStated, Keeps, KeepsOr, SparesRow, SparesRowOr, client_at};

/// What happens to others leaves a client as it stands.
pub fn clients_stay()
    ensures { (g : Ground) (client : tales.Client) (row : Option Client) (e : Happening)
        → IsClientOr g client row
        → touches (view_on g) e client.number ≡ false → IsClientOr (on g (tell e g.tale)) client row }
{
    desk_laws::others_stay();
    desk_laws::coming_stays();
}

/// What happens elsewhere leaves the row of a link as it stands.
pub fn servers_stay()
    ensures row { (g : Ground) (t : Tabled) (l : LinkId) (row : Row) (e : Happening)
        → IsServer g t l row → IsElsewhere l e
        → SparesRow (view_on g) e row → IsLawful g.setup (e ∷ g.tale.story)
        → IsServer (on g (tell e g.tale)) t l row }
    ensures all { (g : Ground) (t : Tabled) (l : LinkId) (row : Option Server) (e : Happening)
        → IsServerOr g t l row → IsElsewhere l e
        → SparesRowOr (view_on g) e row → IsLawful g.setup (e ∷ g.tale.story)
        → IsServerOr (on g (tell e g.tale)) t l row }
{
    row_laws::others_are_spared();
}

/// The row of a link reads clients alone, and of them only those whose statement stands there or next.
pub fn rows_of_others_stay()
    ensures row { (g : Ground) (t other : Tabled) (l : LinkId) (row : Row) → IsServer g t l row
        → Keeps t other row → IsServer g other l row }
    ensures all { (g : Ground) (t other : Tabled) (l : LinkId) (row : Option Server)
        → IsServerOr g t l row → KeepsOr t other row
        → IsServerOr g other l row }
    ensures unread { (g : Ground) (t other : Tabled) (l : LinkId) (row : Option Server)
        → IsServerOr g t l row
        → ((c : ClientNo) → other.clients c ≡ t.clients c) → IsServerOr g other l row }
{}

/// What stands on a sound link for a present session is its client's statement in work.
pub fn statements_are_in_work()
    ensures { (g : Ground) (t : Tabled) (l : LinkId) (row : Row) (c : ClientNo) → IsServer g t l row
        → row.link.spoilt ≡ false → row.lost ≡ false
        → row.left ≡ None → client_at row.link.state.stage ≡ Some c
        → (client : Client) × (work : Work) × IsStated t c client work }
{}

/// Tables that are the same stand alike.
pub fn same_stands()
    ensures { (service : Service) (g : Ground) (t other : Tabled) → Stands service g t
        → IsSame other t → Stands service g other }
{}

/// All that a client has but its link's number is its own row: what happens to others, and other rows, leave it there.
pub fn clients_at_stay()
    ensures { (g : Ground) (t other : Tabled) (client : tales.Client) (e : Happening) → IsAt g t client
        → touches (view_on g) e client.number ≡ false
        → other.clients client.number ≡ t.clients client.number
        → other.numbers client.link ≡ t.numbers client.link → IsAt (on g (tell e g.tale)) other client }
{
    clients_stay();
}

/// A row is that of a client of the tale, which has that number alone.
pub fn clients_are_known()
    ensures { (service : Service) (g : Ground) (t : Tabled) (c : ClientNo) (row : Client)
        → Stands service g t → t.clients c ≡ Some row
        → (client : tales.Client) × IsKnown g c client × IsClient g client row }
{}

/// In a lawful story the session that a link carries has it as its home, and no other.
pub fn lawful_homes()
    ensures { (setup : Setup) (story : Story) → IsLawful setup story
        → AreHomed (view_after setup story).links (view_after setup story).held }
{}

/// And a statement that stands on a link was sent there, and isn't answered.
pub fn lawful_statements()
    ensures { (g : Ground) (l : LinkId) → IsLawful g.setup g.tale.story
        → IsStandingAt (link_in g.setup g.tale l).stage g l }
{}

/// A row carries whom its link carries; a client's session has the home that its desk says; and that link's row, which is there, carries it.
pub fn carried_homes()
    ensures row { (setup : Setup) (codes : Codes) (plan : Plan) (tale : Tale) (l : LinkId) (row : Row) → IsRowIn setup codes plan tale l row
        → session_in ((view_of setup tale).links l).carries ≡ name_in row.link.state.carries }
    ensures desk { (service : Service) (g : Ground) (t : Tabled) (c : ClientNo) (row : Client) (h : Hostgroup) → Stands service g t
        → t.clients c ≡ Some row
        → ((view_on g).held (name_at c h (session_of row.desk h).life)).home
        ≡ (session_of row.desk h).home }
    ensures there { (service : Service) (g : Ground) (t : Tabled) (c : ClientNo) (row : Client) (h : Hostgroup) (l : LinkId) → Stands service g t
        → t.clients c ≡ Some row → (session_of row.desk h).home ≡ Some l
        → session_in ((view_on g).links l).carries ≡ Some (name_at c h (session_of row.desk h).life) }
{}
