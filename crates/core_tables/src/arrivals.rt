// Clients come, speak, are looked at, are written to, and are forgotten.
ghost use Rattle.std.specs.Prelude.{◌≡◌, ℕ, OnOk, Some, None, nat_eq, if◌then◌else◌};
ghost use Rattle.std.specs.HashMap.{get};

use crate::client::{Client, ClientNote};
use crate::tables::Tables;
use client_desk::Desk;
use client_seat::{Next, Seat};
use client_session::Setup;
use mx_base::{ClientNo, LinkId, OutOfMemory};
use std::collections::HashMap;

// A row is put into a table, whatever its rows are.
fn put<Row: Drop>(rows: &mut HashMap<u64, Row>, key: u64, row: Row) -> Result<(), OutOfMemory>
    ensures { OnOk result ((k : ℕ) → get nat_eq rows.new k ≡ if nat_eq key k then Some row else get nat_eq rows.old k) }
{
    rows.insert(key, row)?;
    Ok(())
}

// A row is no more.
fn take_out<Row: Drop>(rows: &mut HashMap<u64, Row>, key: u64)
    ensures { (k : ℕ) → get nat_eq rows.new k ≡ if nat_eq key k then None else get nat_eq rows.old k }
{
    let _ = rows.remove(&key);
}

impl Tables {
    ghost use Rattle.std.specs.Prelude.{◌≡◌, ◌≤◌, length, IfOk, OnOk};
    ghost use Rattle.std.specs.Option.{option_map};
    ghost use Rattle.core_tables.specs.Arrivals.{IsUpIn, came, due_in, forgotten, looked, next_of, spoke, written_to};
    ghost use Rattle.core_tables.specs.Tables.{IsSame, tables_of};
    ghost use Rattle.core_tables.specs.declared.client.Client.{Client};

    /// A client comes, with this seat. After OutOfMemory nothing is promised, here and below.
    #[tactic(auto, unfolding(crate::specs::Tables::tables_of))]
    pub fn come(
        &mut self,
        client: ClientNo,
        link: LinkId,
        seat: Seat,
        note: ClientNote,
    ) -> Result<(), OutOfMemory>
        ensures { OnOk result (IsSame (tables_of self.new) (came client link seat note (tables_of self.old))) }
    {
        let row = Client {
            desk: Desk::new(self.alloc, seat),
            went: None,
            note,
        };
        put(&mut self.clients, client.0, row)?;
        put(&mut self.numbers, link.0, client)
    }

    /// Bytes come of a client, and are kept unless it ended.
    #[tactic(auto, unfolding(crate::specs::Tables::tables_of))]
    pub fn client_says(&mut self, client: ClientNo, bytes: &[u8]) -> Result<(), OutOfMemory>
        ensures { OnOk result (IsSame (tables_of self.new) (spoke client bytes.now (tables_of self.old))) }
    {
        if let Some(row) = self.clients.get_mut(&client.0) {
            row.desk.seat.got(bytes)?;
        }
        Ok(())
    }

    /// What a client says next, where that is whole and may be taken up; who logs in is let in or denied by the setup, and stands in the
    /// schema that it names, or else in this one.
    #[tactic(auto, unfolding(crate::specs::Tables::tables_of))]
    pub fn look(
        &mut self,
        client: ClientNo,
        setup: &Setup,
        default_schema: &[u8],
    ) -> Result<Next, OutOfMemory>
        ensures is { OnOk result (IsSame (tables_of self.new) (looked setup.now default_schema.now client (tables_of self.old))) }
        ensures next { IfOk result (λ next. next ≡ next_of setup.now default_schema.now ((tables_of self.old).clients client)) }
        ensures up { IfOk result (λ next. IsUpIn next ((tables_of self.new).clients client)) }
    {
        match self.clients.get_mut(&client.0) {
            Some(row) => row.desk.seat.next(self.alloc, setup, default_schema),
            None => Ok(Next::Nothing),
        }
    }

    /// So many of the bytes that are due to a client were written. Takes no memory.
    #[tactic(auto, unfolding(crate::specs::Tables::tables_of))]
    pub fn wrote_to(&mut self, client: ClientNo, n: usize)
        requires { n ≤ length (due_in ((tables_of self.old).clients client)) }
        ensures { IsSame (tables_of self.new) (written_to client n (tables_of self.old)) }
    {
        if let Some(row) = self.clients.get_mut(&client.0) {
            row.desk.seat.wrote(n);
        }
    }

    /// A client is no more, and its link's number isn't; what was noted of it. Takes no memory.
    #[tactic(auto, unfolding(crate::specs::Tables::tables_of))]
    pub fn forget_client(&mut self, client: ClientNo) -> Option<ClientNote>
        ensures is { IsSame (tables_of self.new) (forgotten client (tables_of self.old)) }
        ensures note { result ≡ option_map (λ (row : Client). row.note) ((tables_of self.old).clients client) }
    {
        let row = self.clients.get(&client.0)?;
        let link = row.desk.seat.link;
        let note = row.note;
        take_out(&mut self.clients, client.0);
        take_out(&mut self.numbers, link.0);
        Some(note)
    }
}
