// Clients speak, are looked at, are written to, are answered, and leave.
ghost use Rattle.std.specs.Prelude.{◌≡◌, ◌≤◌, length, IfOk, IsSome, OnOk};
ghost use Rattle.client_seat.specs.Seats.{ended};
ghost use Rattle.client_seat.specs.Takings.{begun_anew};
ghost use Rattle.core_tables.specs.Arrivals.{IsUpIn, due_in, looked, next_of, seated, spoke, written_to};
ghost use Rattle.core_tables.specs.Parting.{given_up, left_in};
ghost use Rattle.core_tables.specs.Tables.{IsSame, client_changed, tables_of};
ghost use Rattle.core_tables.specs.Wording.{IsTold};
ghost use Rattle.marked_tables.specs.Goes.{GoesOn};

use crate::marked::MarkedTables;
use crate::touching::mark_client;
use client_seat::Next;
use client_session::Setup;
use core_tables::Tables;
use mx_base::{ClientNo, OutOfMemory};
use session_vars::Settings;

// A client's settings are as they were behind its login.
#[tactic(auto, unfolding(core_tables::specs::Tables::tables_of))]
fn begin_seat(tables: &mut Tables, client: ClientNo) -> Result<(), OutOfMemory>
    ensures { OnOk result (IsSame (tables_of tables.new)
        (client_changed client (seated begun_anew) (tables_of tables.old))) }
{
    if let Some(row) = tables.clients.get_mut(&client.0) {
        let seat = &mut row.desk.seat;
        seat.place.settings = Settings::for_collation(tables.alloc, seat.collation)?;
    }
    Ok(())
}

impl MarkedTables {
    /// Bytes come of a client, and are kept unless it ended.
    pub fn client_says(&mut self, client: ClientNo, bytes: &[u8]) -> Result<(), OutOfMemory>
        ensures is { OnOk result (IsSame (tables_of self.new.tables)
            (spoke client bytes.now (tables_of self.old.tables))) }
        ensures goes { OnOk result (GoesOn self.old self.new) }
    {
        mark_client(&self.tables, &mut self.changed, client);
        self.tables.client_says(client, bytes)
    }

    /// What a client says next, where that is whole and may be taken up; who logs in is let in or denied by the setup, and stands in the
    /// schema that it names, or else in this one.
    pub fn look(
        &mut self,
        client: ClientNo,
        setup: &Setup,
        default_schema: &[u8],
    ) -> Result<Next, OutOfMemory>
        ensures is { OnOk result (IsSame (tables_of self.new.tables)
            (looked setup.now default_schema.now client (tables_of self.old.tables))) }
        ensures next { IfOk result (λ next. next
            ≡ next_of setup.now default_schema.now ((tables_of self.old.tables).clients client)) }
        ensures up { IfOk result (λ next. IsUpIn next ((tables_of self.new.tables).clients client)) }
        ensures goes { OnOk result (GoesOn self.old self.new) }
    {
        mark_client(&self.tables, &mut self.changed, client);
        self.tables.look(client, setup, default_schema)
    }

    /// So many of the bytes that are due to a client were written. Takes no memory.
    pub fn wrote_to(&mut self, client: ClientNo, n: usize)
        requires { n ≤ length (due_in ((tables_of self.old.tables).clients client)) }
        ensures is { IsSame (tables_of self.new.tables)
            (written_to client n (tables_of self.old.tables)) }
        ensures goes { GoesOn self.old self.new }
    {
        mark_client(&self.tables, &mut self.changed, client);
        self.tables.wrote_to(client, n);
    }

    /// The router answers a client's statement in work itself, by this payload.
    pub fn give_up(&mut self, client: ClientNo, payload: &[u8]) -> Result<(), OutOfMemory>
        ensures is { OnOk result (IsSame (tables_of self.new.tables)
            (given_up client payload.now (tables_of self.old.tables))) }
        ensures goes { OnOk result (GoesOn self.old self.new) }
    {
        mark_client(&self.tables, &mut self.changed, client);
        self.tables.give_up(client, payload)
    }

    /// A client leaves its sessions, and links that carry them keep what is known of them. Takes no memory.
    pub fn leave(&mut self, client: ClientNo)
        ensures is { IsSame (tables_of self.new.tables)
            (left_in client (λ seat. seat) (tables_of self.old.tables)) }
        ensures goes { GoesOn self.old self.new }
    {
        mark_client(&self.tables, &mut self.changed, client);
        self.tables.leave(client);
    }

    /// A client leaves its sessions, and stands with its settings as they were behind its login.
    pub fn begin_again(&mut self, client: ClientNo) -> Result<(), OutOfMemory>
        ensures is { OnOk result (IsSame (tables_of self.new.tables)
            (left_in client begun_anew (tables_of self.old.tables))) }
        ensures goes { OnOk result (GoesOn self.old self.new) }
    {
        mark_client(&self.tables, &mut self.changed, client);
        self.tables.leave(client);
        begin_seat(&mut self.tables, client)
    }

    /// A client ends: no more is read of it, and it leaves its sessions. Takes no memory.
    pub fn end(&mut self, client: ClientNo)
        ensures is { IsSame (tables_of self.new.tables)
            (left_in client ended (tables_of self.old.tables)) }
        ensures goes { GoesOn self.old self.new }
    {
        mark_client(&self.tables, &mut self.changed, client);
        self.tables.end(client);
    }

    /// This error is the last that a client is told; no more is read of it.
    pub fn last_word(&mut self, client: ClientNo, payload: &[u8]) -> Result<(), OutOfMemory>
        requires { IsSome ((tables_of self.old.tables).clients client) }
        ensures is { OnOk result (IsTold client payload.now
            (tables_of self.old.tables) (tables_of self.new.tables)) }
        ensures goes { OnOk result (GoesOn self.old self.new) }
    {
        mark_client(&self.tables, &mut self.changed, client);
        self.tables.last_word(client, payload)
    }
}
