// What only the choice of the next act needs of clients and links is noted.
ghost use Rattle.core_tables.specs.Noting.{noted, readied, shelved};
ghost use Rattle.core_tables.specs.Tables.{IsSame, tables_of};

use crate::client::ClientNote;
use crate::tables::Tables;
use mx_base::{ClientNo, LinkId};

impl Tables {
    /// This is noted of a client. Takes no memory.
    #[tactic(auto, unfolding(crate::specs::Tables::tables_of))]
    pub fn note(&mut self, client: ClientNo, note: ClientNote)
        ensures { IsSame (tables_of self.new) (noted client note (tables_of self.old)) }
    {
        if let Some(row) = self.clients.get_mut(&client.0) {
            row.note = note;
        }
    }

    /// A link is readied for a client, or for nobody. Takes no memory.
    #[tactic(auto, unfolding(crate::specs::Tables::tables_of))]
    pub fn ready(&mut self, link: LinkId, client: Option<ClientNo>)
        ensures { IsSame (tables_of self.new) (readied link client (tables_of self.old)) }
    {
        if let Some(server) = self.links.get_mut(&link.0) {
            server.row.ready(client);
        }
    }

    /// Where a link may be lent is noted. Takes no memory.
    #[tactic(auto, unfolding(crate::specs::Tables::tables_of))]
    pub fn shelve(&mut self, link: LinkId, spot: Option<u32>)
        ensures { IsSame (tables_of self.new) (shelved link spot (tables_of self.old)) }
    {
        if let Some(server) = self.links.get_mut(&link.0) {
            server.spot = spot;
        }
    }
}
