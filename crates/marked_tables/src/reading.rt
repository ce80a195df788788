// What is to be written, what is to be read, and what the tables hold.
ghost use Rattle.std.specs.Prelude.{◌≡◌, ◌<◌, IfNone, IsSome, false};
ghost use Rattle.std.specs.Option.{option_copied, option_map, option_map_or};
ghost use Rattle.mx_base.specs.Sent.{IsLent};
ghost use Rattle.mx_base.specs.declared.names.LinkId.{LinkId};
ghost use Rattle.client_seat.specs.Seats.{has_room};
ghost use Rattle.link_marks.specs.Marks.{is_known};
ghost use Rattle.ready_loop.specs.Changes.{TakesChange};
ghost use Rattle.core_says.specs.Says.{asks_for, begins_for, is_at, is_clients, is_free, is_named, is_sound, names, reads_client};
ghost use Rattle.core_tables.specs.Parting.{name_in};
ghost use Rattle.core_tables.specs.Tables.{tables_of};
ghost use Rattle.core_tables.specs.declared.client.Client.{Client};
ghost use Rattle.marked_tables.specs.Goes.{changed_on, reads_on, sends_on, unnamed_in};
ghost use Rattle.marked_tables.specs.Marking.{carried_at};

use crate::marked::MarkedTables;
use crate::rows::{carried_on, name_in};
use core_tables::{Client, Server};
use lent_link::Begins;
use link_state::Purpose;
use mx_base::{ClientNo, LinkId, Piece};
use served_link::Row;
use session_state::SessionName;

// The session at whose client's desk stands what is to begin on a link.
fn asks_for(purpose: Purpose) -> Option<SessionName>
    ensures { result ≡ asks_for purpose }
{
    match purpose {
        Purpose::Statement { name, .. } => Some(name),
        Purpose::Prep { name, .. } => Some(name),
        Purpose::Sync { name } => Some(name),
        Purpose::Own => None,
        Purpose::End { .. } => None,
        Purpose::Capture { name } => Some(name),
    }
}

fn begins_for(next: &Option<Begins>) -> Option<SessionName>
    ensures { result ≡ begins_for next.now }
{
    match next {
        Some(Begins::Asks(asking)) => asks_for(asking.purpose),
        _ => None,
    }
}

fn is_at(link: LinkId, at: Option<LinkId>) -> bool
    ensures { result ≡ is_at link at }
{
    match at {
        Some(other) => other.0 == link.0,
        None => false,
    }
}

// It can be used still.
fn is_sound(row: &Row) -> bool
    ensures { result ≡ is_sound row.now }
{
    !row.lost && !row.link.spoilt
}

// A client's row names a link: it is readied for it, or carries this session of it.
fn names(row: &Client, name: SessionName, link: LinkId) -> bool
    ensures { result ≡ names link name.hostgroup row.now }
{
    is_at(link, row.note.readied) || is_at(link, row.desk.session(name.hostgroup).home)
}

impl MarkedTables {
    /// The row of a client.
    #[tactic(auto, unfolding(core_tables::specs::Tables::tables_of))]
    pub fn client(&self, client: ClientNo) -> Option<&Client>
        ensures { option_copied result ≡ (tables_of self.now.tables).clients client }
    {
        self.tables.clients.get(&client.0)
    }

    /// The row of a link to a server.
    #[tactic(auto, unfolding(core_tables::specs::Tables::tables_of))]
    pub fn server(&self, link: LinkId) -> Option<&Server>
        ensures { option_copied result ≡ (tables_of self.now.tables).links link }
    {
        self.tables.links.get(&link.0)
    }

    /// Whose link that is, where it is a client's.
    #[tactic(auto, unfolding(core_tables::specs::Tables::tables_of))]
    pub fn client_on(&self, link: LinkId) -> Option<ClientNo>
        ensures { result ≡ (tables_of self.now.tables).numbers link }
    {
        self.tables.numbers.get(&link.0).copied()
    }

    /// A client's own link.
    #[tactic(auto, unfolding(core_tables::specs::Tables::tables_of))]
    pub fn own_link(&self, client: ClientNo) -> Option<LinkId>
        ensures { result ≡ option_map (λ (row : Client). row.desk.seat.link)
            ((tables_of self.now.tables).clients client) }
    {
        match self.tables.clients.get(&client.0) {
            Some(row) => Some(row.desk.seat.link),
            None => None,
        }
    }

    /// The session that a link carries.
    pub fn carried(&self, link: LinkId) -> Option<SessionName>
        ensures { result ≡ carried_at ((tables_of self.now.tables).links link) }
    {
        carried_on(&self.tables, link)
    }

    /// Whether a client is there, and there is room for more replies to it.
    #[tactic(auto, unfolding(core_tables::specs::Tables::tables_of))]
    pub fn has_room_at(&self, client: ClientNo) -> bool
        ensures { result ≡ option_map_or (λ (row : Client). has_room row.desk.seat)
            ((tables_of self.now.tables).clients client) false }
    {
        match self.tables.clients.get(&client.0) {
            Some(row) => row.desk.seat.has_room(),
            None => false,
        }
    }

    /// What is to be written on a link that is open. What begins by what is at a client's desk is written only where that client's row names
    /// the link.
    #[tactic(auto, unfolding(core_tables::specs::Tables::tables_of))]
    pub fn says(&self, link: LinkId) -> Option<Piece<'_>>
        ensures { IsLent result (sends_on self.now link) }
    {
        if !self.changed.knows(link) {
            return None;
        }
        match self.server(link) {
            Some(server) => {
                if is_sound(&server.row) && self.is_named(link, server) {
                    self.tables.sends(link)
                } else {
                    None
                }
            }
            None => {
                if self.is_clients(link) {
                    self.tables.sends(link)
                } else {
                    None
                }
            }
        }
    }

    // It is a client's own.
    #[tactic(auto, unfolding(core_tables::specs::Tables::tables_of))]
    fn is_clients(&self, link: LinkId) -> bool
        ensures { result
            ≡ is_clients (tables_of self.now.tables) link ((tables_of self.now.tables).numbers link) }
    {
        match self.tables.numbers.get(&link.0) {
            Some(client) => match self.client(*client) {
                Some(row) => row.desk.seat.link.0 == link.0,
                None => false,
            },
            None => false,
        }
    }

    #[tactic(auto, unfolding(core_tables::specs::Tables::tables_of))]
    fn is_named(&self, link: LinkId, server: &Server) -> bool
        ensures { result
            ≡ is_named (tables_of self.now.tables) link (begins_for server.now.row.link.next) }
    {
        match begins_for(&server.row.link.next) {
            Some(name) => match self.client(name.client) {
                Some(row) => names(row, name, link),
                None => false,
            },
            None => true,
        }
    }

    /// Whether a link that is open is to be read.
    #[tactic(auto, unfolding(core_tables::specs::Tables::tables_of))]
    pub fn hears_on(&self, link: LinkId) -> bool
        ensures { result ≡ reads_on self.now link }
    {
        if !self.changed.knows(link) {
            return false;
        }
        match self.server(link) {
            Some(server) => is_sound(&server.row) && self.is_free(link, server),
            None => self.hears_of(link),
        }
    }

    // The client whose present session it carries has room.
    #[tactic(auto, unfolding(core_tables::specs::Tables::tables_of))]
    fn is_free(&self, link: LinkId, server: &Server) -> bool
        ensures { result
            ≡ is_free (tables_of self.now.tables) link (name_in server.now.row.link.state.carries) }
    {
        match name_in(server.row.link.state.carries) {
            Some(name) => match self.client(name.client) {
                Some(row) => {
                    row.desk.seat.has_room() || !is_at(link, row.desk.session(name.hostgroup).home)
                }
                None => true,
            },
            None => true,
        }
    }

    #[tactic(auto, unfolding(core_tables::specs::Tables::tables_of))]
    fn hears_of(&self, link: LinkId) -> bool
        ensures { result
            ≡ reads_client (tables_of self.now.tables) link ((tables_of self.now.tables).numbers link) }
    {
        match self.tables.numbers.get(&link.0) {
            Some(client) => match self.client(*client) {
                Some(row) => row.desk.seat.link.0 == link.0 && row.desk.seat.wants_read(),
                None => false,
            },
            None => false,
        }
    }

    /// The next link on which there may be something new to write, or which may be read again. Takes no memory.
    pub fn next_changed(&mut self) -> Option<LinkId>
        ensures tables { self.new.tables ≡ self.old.tables }
        ensures known { (link : LinkId)
            → is_known self.new.changed link ≡ is_known self.old.changed link }
        ensures named { TakesChange changed_on self.old self.new result }
        ensures none { IfNone result ((link : LinkId) → changed_on self.old link ≡ false) }
        ensures fewer { IsSome result → unnamed_in self.new < unnamed_in self.old }
    {
        self.changed.next()
    }
}
