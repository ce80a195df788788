// A client is told its last.
ghost use Rattle.std.specs.Prelude.{◌≡◌, IsSome, OnOk};
ghost use Rattle.client_seat.specs.Words.{with_word};
ghost use Rattle.core_tables.specs.Arrivals.{seated};
ghost use Rattle.core_tables.specs.Tables.{tables_of};
ghost use Rattle.core_tables.specs.Wording.{IsTold};

use crate::client::Client;
use crate::tables::Tables;
use mx_base::{ClientNo, OutOfMemory};
use std::alloc::Global;

impl Client {
    fn last_word(&mut self, alloc: Global, payload: &[u8]) -> Result<(), OutOfMemory>
        ensures { OnOk result (self.new ≡ seated (with_word payload.now self.new.desk.seat.client) self.old) }
    {
        self.desk.seat.last_word(alloc, payload)
    }
}

impl Tables {
    /// This error is the last that a client is told; no more is read of it.
    #[tactic(auto, unfolding(crate::specs::Tables::tables_of))]
    pub fn last_word(&mut self, client: ClientNo, payload: &[u8]) -> Result<(), OutOfMemory>
        requires { IsSome ((tables_of self.old).clients client) }
        ensures { OnOk result (IsTold client payload.now (tables_of self.old) (tables_of self.new)) }
    {
        match self.clients.get_mut(&client.0) {
            Some(row) => row.last_word(self.alloc, payload),
            None => Ok(()),
        }
    }
}
