// What only the choice of the next act needs of clients and links is noted.
ghost use Rattle.core_tables.specs.Noting.{noted, shelved};
ghost use Rattle.core_tables.specs.Tables.{IsSame, client_changed, tables_of};
ghost use Rattle.marked_tables.specs.Goes.{GoesOn};
ghost use Rattle.marked_tables.specs.Readying.{readied_for, unreadied, with_readied};

use crate::marked::MarkedTables;
use crate::touching::{mark_client, mark_link};
use core_says::mark_at;
use core_tables::ClientNote;
use mx_base::{ClientNo, LinkId};

impl MarkedTables {
    /// This is noted of a client. Takes no memory.
    pub fn note(&mut self, client: ClientNo, note: ClientNote)
        ensures is { IsSame (tables_of self.new.tables)
            (noted client note (tables_of self.old.tables)) }
        ensures goes { GoesOn self.old self.new }
    {
        mark_client(&self.tables, &mut self.changed, client);
        mark_at(&mut self.changed, note.readied);
        self.tables.note(client, note);
    }

    // The link that is readied for a client is noted of it.
    fn note_readied(&mut self, client: ClientNo, link: Option<LinkId>)
        ensures is { IsSame (tables_of self.new.tables)
            (client_changed client (with_readied link) (tables_of self.old.tables)) }
        ensures goes { GoesOn self.old self.new }
    {
        let Some(row) = self.client(client) else {
            return;
        };
        let note = ClientNote {
            readied: link,
            ..row.note
        };
        self.note(client, note);
    }

    /// A link is readied for a client. Takes no memory.
    pub fn ready(&mut self, link: LinkId, client: ClientNo)
        ensures is { IsSame (tables_of self.new.tables)
            (readied_for link client (tables_of self.old.tables)) }
        ensures goes { GoesOn self.old self.new }
    {
        mark_link(&mut self.changed, link);
        self.tables.ready(link, Some(client));
        self.note_readied(client, Some(link));
    }

    /// A link is readied for a client no more. Takes no memory.
    pub fn unready(&mut self, link: LinkId, client: ClientNo)
        ensures is { IsSame (tables_of self.new.tables)
            (unreadied link client (tables_of self.old.tables)) }
        ensures goes { GoesOn self.old self.new }
    {
        mark_link(&mut self.changed, link);
        self.tables.ready(link, None);
        self.note_readied(client, None);
    }

    /// Where a link may be lent is noted. Takes no memory.
    pub fn shelve(&mut self, link: LinkId, spot: Option<u32>)
        ensures is { IsSame (tables_of self.new.tables)
            (shelved link spot (tables_of self.old.tables)) }
        ensures goes { GoesOn self.old self.new }
    {
        mark_link(&mut self.changed, link);
        self.tables.shelve(link, spot);
    }
}
