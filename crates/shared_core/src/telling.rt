// A client is told its last.
ghost use Rattle.std.specs.Prelude.{◌≡◌, IfSome, IsSome, OnOk, false, true, ℕ};
ghost use Rattle.core_laws.specs.clients.Turns.{Rests};
ghost use Rattle.core_service.specs.Failures.{payload_of};
ghost use Rattle.router_laws.specs.decisions.Partings.{IsFull};
ghost use Rattle.shared_core.specs.Follows.{HasParted, IsRested, Keeps};
ghost use Rattle.shared_core.specs.Stands.{tables};
ghost use Rattle.shared_core.specs.Telling.{HasLeftTold, HasTold, IsItStill, RestsAs, RestsThere, is_who};

use crate::router::Router;
use crate::rows::is_at_rest;
use core_service::{Failure, Service, payload_of};
use core_tables::Client;
use mx_base::{ClientNo, OutOfMemory};

/// Who a client is.
#[derive(Clone, Copy)]
pub(crate) struct Who {
    pub(crate) number: ClientNo,
    pub(crate) salt: [u8; 20],
}

// It is this one, with no more to say of its login.
fn is_who(row: &Client, who: &Who) -> bool
    ensures { result ≡ is_who who.now row.now.desk.seat.client }
{
    let client = &row.desk.seat.client;
    client.number().0 == who.number.0
        && (client.salt().as_slice() == who.salt.as_slice() && client.outgoing().len() == 0)
}

fn who_of(row: &Client) -> Who
    ensures number { result.number ≡ row.now.desk.seat.client.number }
    ensures salt { result.salt ≡ row.now.desk.seat.client.salt }
{
    Who {
        number: row.desk.seat.client.number(),
        salt: *row.desk.seat.client.salt(),
    }
}

// Who waits for nothing.
fn who_rests(row: &Client) -> Option<Who>
    ensures { IfSome result (λ who. RestsAs who row.now) }
{
    if is_at_rest(row) {
        Some(who_of(row))
    } else {
        None
    }
}

// Whether it says that too many bytes are kept.
fn is_full(budget: u64, why: Failure) -> bool
    ensures { result ≡ true → IsFull budget (payload_of why) }
{
    match why {
        Failure::BuffersFull { kept, announced } => budget < kept.saturating_add(announced),
        _ => false,
    }
}

impl Router {
    /// It is told so where too many bytes are kept.
    pub(crate) fn tells_full(
        &mut self,
        service: &Service,
        client: ClientNo,
        why: Failure,
    ) -> Result<(), OutOfMemory>
        ensures parts { OnOk result (IsRested client (tables self.old)
            → HasParted service.now.buffer_budget client false Rests (tables self.old) (tables self.new)) }
        ensures keeps { OnOk result (Keeps self.old self.new) }
    {
        if is_full(service.buffer_budget, why) {
            self.tells_last(client, why)
        } else {
            Ok(())
        }
    }

    // It is told its last, where it waits for nothing, and ends.
    fn tells_last(&mut self, client: ClientNo, why: Failure) -> Result<(), OutOfMemory>
        ensures parts { OnOk result ((budget : ℕ) → IsFull budget (payload_of why) → IsRested client (tables self.old)
            → HasParted budget client false Rests (tables self.old) (tables self.new)) }
        ensures keeps { OnOk result (Keeps self.old self.new) }
    {
        match self.rests_there(client) {
            Some(who) => self.says_last(client, &who, why),
            None => Ok(()),
        }
    }

    fn rests_there(&self, client: ClientNo) -> Option<Who>
        ensures { IfSome result (λ who. RestsThere who client (tables self.now)) }
    {
        match self.marked.client(client) {
            Some(row) => who_rests(row),
            None => None,
        }
    }

    fn is_still(&self, client: ClientNo, who: &Who) -> bool
        ensures { result ≡ true → IsItStill who.now client (tables self.now) }
    {
        match self.marked.client(client) {
            Some(row) => is_who(row, who),
            None => false,
        }
    }

    // It stays who it is.
    fn says_last(&mut self, client: ClientNo, who: &Who, why: Failure) -> Result<(), OutOfMemory>
        ensures told { OnOk result (RestsThere who.now client (tables self.old) → IsRested client (tables self.old)
            → HasLeftTold client why (tables self.old) (tables self.new)) }
        ensures keeps { OnOk result (Keeps self.old self.new) }
    {
        self.says(client, why)?;
        if self.is_still(client, who) {
            self.ends(client)
        } else {
            Err(OutOfMemory)
        }
    }

    fn says(&mut self, client: ClientNo, why: Failure) -> Result<(), OutOfMemory>
        ensures told { OnOk result (IsSome ((tables self.old).clients client)
            → HasTold client why (tables self.old) (tables self.new)) }
        ensures keeps { OnOk result (Keeps self.old self.new) }
    {
        let payload = payload_of(self.alloc, why)?;
        match self.marked.client(client) {
            Some(_) => {}
            None => return Ok(()),
        }
        self.marked.last_word(client, payload.as_slice())?;
        self.policy.fails(client, why, self.came.clock);
        Ok(())
    }
}
