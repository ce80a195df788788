// A client's message that came up is taken up.
ghost use Rattle.std.specs.Prelude.{◌≡◌, true, IfOk, OnOk};
ghost use Rattle.std.specs.Option.{option_copied};
ghost use Rattle.core_tables.specs.Leaving.{BeginsAnew, Quits};
ghost use Rattle.core_tables.specs.Taking.{IsDue, IsTaken, IsUpOr, answers, passes, text_work};
ghost use Rattle.core_tables.specs.Tables.{tables_of};
ghost use Rattle.marked_tables.specs.Goes.{GoesOn};

use crate::marked::MarkedTables;
use crate::touching::mark_client;
use link_state::Form;
use mx_base::{ClientNo, Hostgroup, OutOfMemory};

impl MarkedTables {
    /// A client's message is behind, and goes to no server. Rules are tried first by this flag from now on.
    pub fn pass(&mut self, client: ClientNo, flag: u16) -> Result<(), OutOfMemory>
        requires { IsUpOr ((tables_of self.old.tables).clients client) }
        ensures is { OnOk result (IsTaken true (passes flag) client
            (tables_of self.old.tables) (tables_of self.new.tables)) }
        ensures goes { OnOk result (GoesOn self.old self.new) }
    {
        mark_client(&self.tables, &mut self.changed, client);
        self.tables.pass(client, flag)
    }

    /// The router answers it itself, in these packets, whose sequence ids go on from the message's.
    pub fn answer(&mut self, client: ClientNo, flag: u16, packets: &[u8]) -> Result<(), OutOfMemory>
        requires { IsUpOr ((tables_of self.old.tables).clients client) }
        ensures is { OnOk result (IsTaken true (answers flag packets.now) client
            (tables_of self.old.tables) (tables_of self.new.tables)) }
        ensures goes { OnOk result (GoesOn self.old self.new) }
    {
        mark_client(&self.tables, &mut self.changed, client);
        self.tables.answer(client, flag, packets)
    }

    /// It goes to a server in this hostgroup, with this text in place of its own, and a statement of this class becomes due. False where it asks
    /// for nothing that is sent as a text: then nothing is promised.
    pub fn due(
        &mut self,
        client: ClientNo,
        ordinal: u64,
        flag: u16,
        hostgroup: Hostgroup,
        text: Option<&[u8]>,
        multiplex: Option<bool>,
        form: Form,
        since_ms: u64,
    ) -> Result<bool, OutOfMemory>
        requires { IsUpOr ((tables_of self.old.tables).clients client) }
        ensures is { IfOk result (λ is_due. is_due ≡ true
            → IsDue flag (option_copied text.entry)
            (text_work ordinal hostgroup since_ms multiplex form) client
            (tables_of self.old.tables) (tables_of self.new.tables)) }
        ensures goes { IfOk result (λ is_due. is_due ≡ true → GoesOn self.old self.new) }
    {
        mark_client(&self.tables, &mut self.changed, client);
        self.tables.due(
            client, ordinal, flag, hostgroup, text, multiplex, form, since_ms,
        )
    }

    /// A client begins anew: it leaves its sessions, and the router answers its message itself, in these packets.
    pub fn begin_anew(
        &mut self,
        client: ClientNo,
        flag: u16,
        packets: &[u8],
    ) -> Result<(), OutOfMemory>
        requires { IsUpOr ((tables_of self.old.tables).clients client) }
        ensures is { OnOk result (BeginsAnew flag packets.now client
            (tables_of self.old.tables) (tables_of self.new.tables)) }
        ensures goes { OnOk result (GoesOn self.old self.new) }
    {
        mark_client(&self.tables, &mut self.changed, client);
        self.tables.begin_anew(client, flag, packets)
    }

    /// A client says that it ends: so it does, and its message is behind.
    pub fn quit(&mut self, client: ClientNo, flag: u16) -> Result<(), OutOfMemory>
        requires { IsUpOr ((tables_of self.old.tables).clients client) }
        ensures is { OnOk result (Quits flag client
            (tables_of self.old.tables) (tables_of self.new.tables)) }
        ensures goes { OnOk result (GoesOn self.old self.new) }
    {
        mark_client(&self.tables, &mut self.changed, client);
        self.tables.quit(client, flag)
    }
}
