// How many bytes of clients are kept.

use crate::clients::is_ended;
use crate::parts::ClientPart;
use crate::policy::Policy;
use core_service::{Failure, Service};
use core_tables::{Client, Tables};
use mx_base::ClientNo;

impl ClientPart {
    // How many of its bytes count is brought up to date; and how many are kept of all, where so many were.
    pub(crate) fn counts(&mut self, row: &Client, all: u64) -> u64 {
        let others = all.saturating_sub(self.counted);
        self.counted = if is_ended(row) {
            0
        } else {
            let seat = &row.desk.seat;
            seat.kept().saturating_add(seat.statements.long)
        };
        others.saturating_add(self.counted)
    }
}

impl Policy {
    /// The last word to a client that sent or announced too much for all that is kept. It is measured where nothing of it is in work.
    pub fn last_word(
        &self,
        tables: &Tables,
        service: &Service,
        client: ClientNo,
    ) -> Option<Failure> {
        let row = tables.clients.get(&client.0)?;
        let announced = row.desk.seat.lacking();
        let fits = self.kept.saturating_add(announced) <= service.buffer_budget;
        if is_ended(row) || !row.desk.seat.answered || fits {
            return None;
        }
        Some(Failure::BuffersFull {
            kept: self.kept,
            announced,
        })
    }
}
