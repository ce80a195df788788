// What is prepared on links to servers, and for clients.
ghost use Rattle.std.specs.Prelude.{◌≡◌, true, IfOk, OnOk};
ghost use Rattle.std.specs.Option.{option_copied};
ghost use Rattle.core_tables.specs.Preparing.{IsKept, prep_begun, run_begun};
ghost use Rattle.core_tables.specs.Taking.{IsDue, IsRunDue, IsUpOr, with_args, with_packets};
ghost use Rattle.core_tables.specs.Tables.{IsSame, tables_of};
ghost use Rattle.core_tables.specs.Writing.{lent_to};
ghost use Rattle.marked_tables.specs.Goes.{GoesOn};

use crate::marked::MarkedTables;
use crate::touching::{mark_client, mark_link};
use client_desk::Work;
use mx_base::{ClientNo, LinkId, OutOfMemory};
use session_state::SessionName;
use stmt_map::Prepared;

impl MarkedTables {
    /// A client's message goes to a server, with this text in place of its own, and this statement becomes due, with the packets of what is
    /// asked for. False where it asks for nothing that is sent as a text: then nothing is promised.
    pub fn due_as(
        &mut self,
        client: ClientNo,
        flag: u16,
        text: Option<&[u8]>,
        work: Work,
    ) -> Result<bool, OutOfMemory>
        requires { IsUpOr ((tables_of self.old.tables).clients client) }
        ensures is { IfOk result (λ is_due. is_due ≡ true
            → IsDue flag (option_copied text.entry) (with_packets work) client
            (tables_of self.old.tables) (tables_of self.new.tables)) }
        ensures goes { IfOk result (λ is_due. is_due ≡ true → GoesOn self.old self.new) }
    {
        mark_client(&self.tables, &mut self.changed, client);
        self.tables.due_as(client, flag, text, work)
    }

    /// An execute goes to a server, and this statement becomes due, with its arguments. False where it executes nothing: then nothing is
    /// promised.
    pub fn run(&mut self, client: ClientNo, flag: u16, work: Work) -> Result<bool, OutOfMemory>
        requires { IsUpOr ((tables_of self.old.tables).clients client) }
        ensures is { IfOk result (λ is_due. is_due ≡ true
            → IsRunDue flag (with_args work) client
            (tables_of self.old.tables) (tables_of self.new.tables)) }
        ensures goes { IfOk result (λ is_due. is_due ≡ true → GoesOn self.old self.new) }
    {
        mark_client(&self.tables, &mut self.changed, client);
        self.tables.run(client, flag, work)
    }

    /// The text of a client's execute is to be prepared next on a link, on the way to that execute.
    pub fn begin_prep(
        &mut self,
        link: LinkId,
        name: SessionName,
        text: &[u8],
    ) -> Result<(), OutOfMemory>
        ensures is { OnOk result (IsSame (tables_of self.new.tables)
            (prep_begun link name text.now (tables_of self.old.tables))) }
        ensures goes { OnOk result (GoesOn self.old self.new) }
    {
        mark_link(&mut self.changed, link);
        self.tables.begin_prep(link, name, text)
    }

    /// A client's execute is to be written next on a link, where its text is prepared: its form goes there, and its arguments are spelt.
    pub fn begin_run(&mut self, link: LinkId, name: SessionName) -> Result<(), OutOfMemory>
        ensures is { OnOk result (IsSame (tables_of self.new.tables)
            (run_begun link name (tables_of self.old.tables))) }
        ensures goes { OnOk result (GoesOn self.old self.new) }
    {
        mark_link(&mut self.changed, link);
        mark_client(&self.tables, &mut self.changed, name.client);
        self.tables.begin_run(link, name)
    }

    /// The preparation of a text went out on a link, which carries that session from now on. Takes no memory.
    pub fn lend(&mut self, link: LinkId, name: SessionName)
        ensures is { IsSame (tables_of self.new.tables)
            (lent_to link name (tables_of self.old.tables)) }
        ensures goes { GoesOn self.old self.new }
    {
        mark_link(&mut self.changed, link);
        mark_client(&self.tables, &mut self.changed, name.client);
        self.tables.lend(link, name);
    }

    /// A client's text was prepared: it is kept under the number behind the client's last one, where there is such a number.
    pub fn keep(&mut self, client: ClientNo, prepared: Prepared) -> Result<(), OutOfMemory>
        ensures is { OnOk result (IsKept prepared client
            (tables_of self.old.tables) (tables_of self.new.tables)) }
        ensures goes { OnOk result (GoesOn self.old self.new) }
    {
        mark_client(&self.tables, &mut self.changed, client);
        self.tables.keep(client, prepared)
    }
}
