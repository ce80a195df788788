// What is prepared on links to servers, and for clients.
ghost use Rattle.std.specs.Prelude.{◌≡◌, ◌+◌, ◌<◌, OnOk, Some};
ghost use Rattle.stmt_map.specs.Client.{Changes, fresh};
ghost use Rattle.served_link.specs.Begins.{prepares};
ghost use Rattle.core_tables.specs.Arrivals.{seated};
ghost use Rattle.core_tables.specs.Beginning.{with_row};
ghost use Rattle.core_tables.specs.Preparing.{IsKept, IsKeptIn, has_parts, prep_begun, run_begun, run_stands, with_statements};
ghost use Rattle.core_tables.specs.Tables.{IsSame, tables_of};
ghost use Rattle.core_tables.specs.Writing.{client_lent, lent_to};

use crate::client::Client;
use crate::handing::first_number;
use crate::server::Server;
use crate::tables::Tables;
use client_desk::Body;
use link_state::{Form, spell_execute};
use mx_base::{ClientNo, Hostgroup, LinkId, OutOfMemory};
use served_link::Stated;
use session_state::SessionName;
use session_vars::LongPart;
use std::alloc::Global;
use stmt_map::{ClientStatements, LongData, Prepared, Statement};

fn has_parts(parts: &[LongPart]) -> bool
    ensures { result ≡ has_parts parts.now }
{
    match parts {
        [] => false,
        [_, ..] => true,
    }
}

impl Server {
    // A text is to be prepared next there.
    fn begin_prep(
        &mut self,
        alloc: Global,
        name: SessionName,
        ordinal: u64,
        key: u64,
        text: &[u8],
    ) -> Result<(), OutOfMemory>
        ensures { OnOk result (self.new ≡ with_row (prepares name ordinal key text.now) self.old) }
    {
        self.row.begin_prep(alloc, name, ordinal, key, text)
    }

    // An execute of what has this number there is to be written next, where its form and its arguments are at hand.
    fn runs(
        &mut self,
        alloc: Global,
        stated: Stated,
        there: u32,
        form: Option<Form>,
        body: &Body,
    ) -> Result<(), OutOfMemory>
        ensures { OnOk result (self.new ≡ with_row (run_stands stated there form body.now) self.old) }
    {
        let Some(form) = form else {
            return Ok(());
        };
        let Body::Run(args) = body else {
            return Ok(());
        };
        let packets = spell_execute(
            alloc,
            there,
            args.nulls.as_slice(),
            &args.types,
            args.values.as_slice(),
            &args.long,
        )?;
        let has_long = has_parts(&args.long);
        self.row
            .begin_run(alloc, stated, form, there, packets, has_long)
    }
}

impl Client {
    // The preparation of its text went out on this link.
    fn lend(&mut self, hostgroup: Hostgroup, link: LinkId)
        ensures { self.new ≡ client_lent hostgroup link self.old }
    {
        self.desk.lent(hostgroup, link);
    }

    // Its text was prepared.
    fn keep(&mut self, alloc: Global, prepared: Prepared) -> Result<(), OutOfMemory>
        ensures row { OnOk result (self.new ≡ seated (with_statements self.new.desk.seat.statements) self.old) }
        ensures kept { OnOk result (IsKeptIn prepared self.old.desk.seat.statements self.new.desk.seat.statements) }
    {
        keep_in(alloc, &mut self.desk.seat.statements, prepared)
    }
}

// What a client has prepared, and this.
fn keep_in(
    alloc: Global,
    statements: &mut ClientStatements,
    prepared: Prepared,
) -> Result<(), OutOfMemory>
    ensures { OnOk result (IsKeptIn prepared statements.old statements.new) }
{
    if statements.last < u32::MAX {
        keep_next(alloc, statements, prepared)
    } else {
        Ok(())
    }
}

fn keep_next(
    alloc: Global,
    statements: &mut ClientStatements,
    prepared: Prepared,
) -> Result<(), OutOfMemory>
    requires { statements.old.last < 4294967295 }
    ensures last { OnOk result (statements.new.last ≡ statements.old.last + 1) }
    ensures kept { OnOk result (Changes statements.old statements.new (statements.old.last + 1) (Some (fresh prepared))) }
{
    let number = statements.last + 1;
    let statement = Statement {
        prepared,
        types: None,
        long: LongData::new(alloc),
    };
    statements
        .statements
        .insert(number, statement)
        .map_err(|_| OutOfMemory)?;
    statements.last = number;
    Ok(())
}

impl Tables {
    /// The text of a client's execute is to be prepared next on a link, on the way to that execute.
    #[tactic(auto, unfolding(crate::specs::Tables::tables_of))]
    pub fn begin_prep(
        &mut self,
        link: LinkId,
        name: SessionName,
        text: &[u8],
    ) -> Result<(), OutOfMemory>
        ensures { OnOk result (IsSame (tables_of self.new) (prep_begun link name text.now (tables_of self.old))) }
    {
        let Some(client) = self.clients.get(&name.client.0) else {
            return Ok(());
        };
        let Some(work) = &client.desk.work else {
            return Ok(());
        };
        let ordinal = work.ordinal;
        let key = work.key;
        match self.links.get_mut(&link.0) {
            Some(server) => server.begin_prep(self.alloc, name, ordinal, key, text),
            None => Ok(()),
        }
    }

    /// A client's execute is to be written next on a link, where its text is prepared: its form goes there, and its arguments are spelt.
    #[tactic(auto, unfolding(crate::specs::Tables::tables_of))]
    pub fn begin_run(&mut self, link: LinkId, name: SessionName) -> Result<(), OutOfMemory>
        ensures { OnOk result (IsSame (tables_of self.new) (run_begun link name (tables_of self.old))) }
    {
        let Some(server) = self.links.get_mut(&link.0) else {
            return Ok(());
        };
        let Some(client) = self.clients.get_mut(&name.client.0) else {
            return Ok(());
        };
        let first = client.desk.seat.first;
        let statements = &client.desk.seat.statements;
        let Some(work) = &mut client.desk.work else {
            return Ok(());
        };
        let Some(there) = server.row.link.state.live.find(work.key) else {
            return Ok(());
        };
        let stated = Stated {
            name,
            ordinal: work.ordinal,
            key: work.key,
            multiplex: work.multiplex,
            first,
            number: first_number(work.command, statements),
        };
        let form = work.take_form();
        server.runs(self.alloc, stated, there, form, &work.body)
    }

    /// The preparation of a text went out on a link, which carries that session from now on. Takes no memory.
    #[tactic(auto, unfolding(crate::specs::Tables::tables_of))]
    pub fn lend(&mut self, link: LinkId, name: SessionName)
        ensures { IsSame (tables_of self.new) (lent_to link name (tables_of self.old)) }
    {
        if let Some(client) = self.clients.get_mut(&name.client.0) {
            client.lend(name.hostgroup, link);
        }
    }

    /// A client's text was prepared: it is kept under the number behind the client's last one, where there is such a number.
    #[tactic(auto, unfolding(crate::specs::Tables::tables_of))]
    pub fn keep(&mut self, client: ClientNo, prepared: Prepared) -> Result<(), OutOfMemory>
        ensures { OnOk result (IsKept prepared client (tables_of self.old) (tables_of self.new)) }
    {
        match self.clients.get_mut(&client.0) {
            Some(row) => row.keep(self.alloc, prepared),
            None => Ok(()),
        }
    }
}
