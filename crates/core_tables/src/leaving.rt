// Clients end, begin anew, and say that they end.
ghost use Rattle.std.specs.Prelude.{◌≡◌, OnOk};
ghost use Rattle.client_seat.specs.Seats.{ended};
ghost use Rattle.core_tables.specs.Leaving.{BeginsAnew, Quits};
ghost use Rattle.core_tables.specs.Parting.{left_in};
ghost use Rattle.core_tables.specs.Tables.{IsSame, tables_of};
ghost use Rattle.core_tables.specs.Taking.{IsUpOr};

use crate::parting::part;
use crate::tables::Tables;
use mx_base::{ClientNo, OutOfMemory};

impl Tables {
    /// A client ends: no more is read of it, and it leaves its sessions. Takes no memory.
    #[tactic(auto, unfolding(crate::specs::Tables::tables_of))]
    pub fn end(&mut self, client: ClientNo)
        ensures { IsSame (tables_of self.new) (left_in client ended (tables_of self.old)) }
    {
        if let Some(row) = self.clients.get_mut(&client.0) {
            part(&mut self.links, row.desk.sessions.as_slice());
            row.desk.left();
            row.desk.seat.end();
        }
    }

    /// A client begins anew: it leaves its sessions, and the router answers its message itself, in these packets.
    pub fn begin_anew(
        &mut self,
        client: ClientNo,
        flag: u16,
        packets: &[u8],
    ) -> Result<(), OutOfMemory>
        requires { IsUpOr ((tables_of self.old).clients client) }
        ensures { OnOk result (BeginsAnew flag packets.now client (tables_of self.old) (tables_of self.new)) }
    {
        self.leave(client);
        self.answer(client, flag, packets)
    }

    /// A client says that it ends: so it does, and its message is behind.
    pub fn quit(&mut self, client: ClientNo, flag: u16) -> Result<(), OutOfMemory>
        requires { IsUpOr ((tables_of self.old).clients client) }
        ensures { OnOk result (Quits flag client (tables_of self.old) (tables_of self.new)) }
    {
        self.end(client);
        self.pass(client, flag)
    }
}
