// Clients that have to log in.

use crate::clients::is_ended;
use crate::policy::Policy;
use core_tables::Client;
use mx_base::OutOfMemory;
use std::collections::BTreeSet;

/// How long a client has for its login.
const LOGIN_MS: u64 = 10_000;

impl Policy {
    // One that is logged in, or ended, has no login to say.
    pub(crate) fn logs_in(&mut self, slot: u32, row: &Client) {
        if is_ended(row) || row.desk.seat.account().is_some() {
            self.todo.clients.logins.take(slot);
        }
    }

    /// Clients that are ended at this moment: those whose time for their login is over, the links of which are closed next, and those with
    /// sessions on links that aren't to be used at all. Each is named once.
    pub fn ending(&mut self, now: u64) -> Result<BTreeSet<u64>, OutOfMemory> {
        let mut ending = self.slow(now)?;
        self.ousted(&mut ending)?;
        Ok(ending)
    }

    fn slow(&mut self, now: u64) -> Result<BTreeSet<u64>, OutOfMemory> {
        let mut slow = BTreeSet::new(self.alloc);
        for _ in 0..u32::MAX {
            let Some(slot) = self.todo.clients.logins.oldest_of_all() else {
                return Ok(slow);
            };
            let since = self.todo.clients.logins.since(slot);
            if since.saturating_add(LOGIN_MS) > now {
                return Ok(slow);
            }
            self.todo.clients.logins.take(slot);
            if let Some(client) = self.client_at(slot) {
                self.todo.clients.parts.put(slot);
                slow.insert(client.0)?;
            }
        }
        Ok(slow)
    }

    /// The moment at which the first of them has no more time.
    pub(crate) fn first_slow(&self) -> u64 {
        match self.todo.clients.logins.oldest_of_all() {
            Some(slot) => self
                .todo
                .clients
                .logins
                .since(slot)
                .saturating_add(LOGIN_MS),
            None => u64::MAX,
        }
    }
}
