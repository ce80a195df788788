// Clients and links to servers come, and are forgotten.
ghost use Rattle.std.specs.Prelude.{◌≡◌, OnOk};
ghost use Rattle.std.specs.Option.{option_map};
ghost use Rattle.handshake.specs.Spelling.{IsText};
ghost use Rattle.core_tables.specs.Arrivals.{came, forgotten};
ghost use Rattle.core_tables.specs.Parting.{unlinked};
ghost use Rattle.core_tables.specs.Tables.{IsSame, tables_of};
ghost use Rattle.core_tables.specs.Writing.{opened};
ghost use Rattle.core_tables.specs.declared.client.Client.{Client};
ghost use Rattle.marked_tables.specs.Goes.{GoesOn};

use crate::marked::MarkedTables;
use crate::touching::{leaves, mark_client};
use client_seat::Seat;
use core_says::mark_at;
use core_tables::ClientNote;
use mx_base::{ClientNo, LinkId, OutOfMemory};
use served_link::Opening;

impl MarkedTables {
    /// A client comes on a link, with this seat.
    pub fn come(
        &mut self,
        client: ClientNo,
        link: LinkId,
        seat: Seat,
        note: ClientNote,
    ) -> Result<(), OutOfMemory>
        ensures is { OnOk result (IsSame (tables_of self.new.tables)
            (came client link seat note (tables_of self.old.tables))) }
        ensures goes { OnOk result (GoesOn self.old self.new) }
    {
        mark_client(&self.tables, &mut self.changed, client);
        mark_at(&mut self.changed, Some(seat.link));
        mark_at(&mut self.changed, note.readied);
        self.changed.comes(link)?;
        self.tables.come(client, link, seat, note)
    }

    /// A client is no more, nor is its link; what was noted of it. Takes no memory.
    pub fn forget_client(&mut self, client: ClientNo) -> Option<ClientNote>
        ensures is { IsSame (tables_of self.new.tables) (forgotten client (tables_of self.old.tables)) }
        ensures note { result
            ≡ option_map (λ (row : Client). row.note) ((tables_of self.old.tables).clients client) }
        ensures goes { GoesOn self.old self.new }
    {
        let link = self.own_link(client)?;
        mark_client(&self.tables, &mut self.changed, client);
        let note = self.tables.forget_client(client);
        leaves(&self.tables, &mut self.changed, link);
        note
    }

    /// A link to a server was opened at this moment, on which the router logs in so. The user's name has no NUL.
    pub fn open(
        &mut self,
        link: LinkId,
        slot: u32,
        opening: Opening,
        user: &[u8],
        password: &[u8],
        found_rows: bool,
        now: u64,
    ) -> Result<(), OutOfMemory>
        requires { IsText user.now }
        ensures is { OnOk result (IsSame (tables_of self.new.tables)
            (opened link slot opening
            (record { user = user.now; password = password.now; found_rows = found_rows })
            now (tables_of self.old.tables))) }
        ensures goes { OnOk result (GoesOn self.old self.new) }
    {
        self.changed.comes(link)?;
        self.tables
            .open(link, slot, opening, user, password, found_rows, now)
    }

    /// A link that was lost or closed is forgotten. Takes no memory.
    pub fn forget_link(&mut self, link: LinkId)
        ensures is { IsSame (tables_of self.new.tables) (unlinked link (tables_of self.old.tables)) }
        ensures goes { GoesOn self.old self.new }
    {
        self.tables.forget(link);
        leaves(&self.tables, &mut self.changed, link);
    }
}
