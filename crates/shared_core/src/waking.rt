// The loop wakes.
ghost use Rattle.std.specs.Prelude.{◌≡◌, IfOk, OnOk, nat_eq, true, ℕ};
ghost use Rattle.std.specs.BTreeSet.{keys};
ghost use Rattle.std.specs.List.{list_any};
ghost use Rattle.core_texts.specs.Texts.{HasBegun, noted_at};
ghost use Rattle.mx_base.specs.declared.names.ClientNo.{ClientNo};
ghost use Rattle.mx_wire.specs.declared.entry.Entry.TheVariants as entry;
ghost use Rattle.core_laws.specs.clients.Going.{is_going};
ghost use Rattle.router_laws.specs.waits.Drained.{IsDrainedFor};
ghost use Rattle.shared_core.specs.Follows.{AreRising, Keeps, KeepsBut, made_by};
ghost use Rattle.shared_core.specs.Stands.{CarriesWhere, IsSettled, Moves, is_roomy, tables};
ghost use Rattle.shared_core.specs.Wakes.{AreCalled, HasWoken, HaveGivenUp, IsWaiting, going_in, going_more};

use crate::roomy::Roomy;
use crate::router::Router;
use crate::rows::is_unserved;
use core_policy::GiveUp;
use core_service::Service;
use mx_base::{ClientNo, OutOfMemory};
use std::collections::BTreeSet;

// They are called too.
fn call_all(numbers: &BTreeSet<u64>, called: &mut Roomy)
    ensures { (c : ClientNo) → is_roomy called.old c ≡ true → is_roomy called.new c ≡ true }
{
    for number in numbers.iter() {
        called.add(ClientNo(*number));
    }
}

impl Router {
    /// The loop woke at this moment. Statements that waited too long are given up; then their clients go on, and those that have room again, one
    /// after the other as they came. Those end whom the policy names.
    pub(crate) fn woke(&mut self, service: &Service, now_ms: u64) -> Result<(), OutOfMemory>
        requires { HasBegun self.old.texts }
        ensures carries { OnOk result ((until_ms : ℕ)
            → IsSettled self.old → CarriesWhere (IsDrainedFor (tables self.old)) service.now (entry.Woke until_ms now_ms) self.old self.new) }
        ensures moves { OnOk result (Moves self.old self.new) }
    {
        router_laws::wakes::wakes_router();
        self.came.clock = now_ms;
        let late = self.policy.woke(&self.marked.tables, service, now_ms)?;
        let ending = self.policy.ending(now_ms)?;
        let roomy = std::mem::replace(&mut self.roomy, Roomy::new(self.alloc));
        self.wakes(service, now_ms, late.as_slice(), &ending, roomy)
    }

    // Those have room again; who is called beside them goes on too.
    fn wakes(
        &mut self,
        service: &Service,
        now_ms: u64,
        late: &[GiveUp],
        ending: &BTreeSet<u64>,
        roomy: Roomy,
    ) -> Result<(), OutOfMemory>
        ensures wakes { OnOk result (HasWoken service.now (made_by service.now self.old self.new) now_ms self.old.came.administrator roomy (tables self.old) (tables self.new)) }
        ensures keeps { OnOk result (KeepsBut self.old self.new) }
    {
        let mut called = roomy;
        call_all(ending, &mut called);
        let came = self.came.administrator;
        self.gives_late(service.wait_ms, now_ms, came, late, &mut called)?;
        let clients = self.called_of(&called)?;
        self.follow_all(service, clients.as_slice(), ending)?;
        Ok(())
    }

    // Those of these statements are given up that weren't sent and waited long enough, and their clients are called.
    fn gives_late(
        &mut self,
        wait_ms: u64,
        now_ms: u64,
        came: bool,
        late: &[GiveUp],
        called: &mut Roomy,
    ) -> Result<(), OutOfMemory>
        ensures gives { OnOk result (HaveGivenUp wait_ms now_ms came (noted_at self.old.texts) called.old called.new (tables self.old) (tables self.new)) }
        ensures keeps { OnOk result (Keeps self.old self.new) }
    {
        for up in late {
            self.gives_one(wait_ms, now_ms, came, *up, called)?;
        }
        Ok(())
    }

    fn gives_one(
        &mut self,
        wait_ms: u64,
        now_ms: u64,
        came: bool,
        up: GiveUp,
        called: &mut Roomy,
    ) -> Result<(), OutOfMemory>
        ensures gives { OnOk result (HaveGivenUp wait_ms now_ms came (noted_at self.old.texts) called.old called.new (tables self.old) (tables self.new)) }
        ensures keeps { OnOk result (Keeps self.old self.new) }
    {
        if self.may_be_late(wait_ms, now_ms, came, up) {
            self.gives_up(up.client, up.why)?;
            called.add(up.client);
            Ok(())
        } else {
            Ok(())
        }
    }

    /// Whether a client goes on and has a statement in work that wasn't sent, and for which no link is lent.
    pub(crate) fn is_waiting(&self, client: ClientNo) -> bool
        ensures { result ≡ true → IsWaiting client (tables self.now) }
    {
        self.is_there(client) && is_unserved(&self.marked.tables, client)
    }

    // Those of them who are there and go on, as they came.
    fn called_of(&self, called: &Roomy) -> Result<Vec<ClientNo>, OutOfMemory>
        ensures { IfOk result (λ clients. AreCalled called.now clients.items (tables self.now)) }
    {
        if called.all {
            let numbers = self.all_numbers()?;
            let everyone = self.those_going(&numbers)?;
            Ok(everyone)
        } else {
            let some = self.those_going(&called.some)?;
            Ok(some)
        }
    }

    // The numbers of all that there are.
    #[tactic(auto, unfolding(core_tables::specs::Tables::tables_of))]
    fn all_numbers(&self) -> Result<BTreeSet<u64>, OutOfMemory>
        ensures { IfOk result (λ numbers. (c : ClientNo) → is_going ((tables self.now).clients c) ≡ true
            → list_any (nat_eq c.0) (keys numbers) ≡ true) }
    {
        let mut numbers = BTreeSet::new(self.alloc);
        for number in self.marked.tables.clients.keys() {
            numbers.insert(*number)?;
        }
        Ok(numbers)
    }

    // Those of these numbers who go on.
    fn those_going(&self, numbers: &BTreeSet<u64>) -> Result<Vec<ClientNo>, OutOfMemory>
        ensures going { IfOk result (λ clients. clients.items ≡ going_in (tables self.now) (keys numbers.now)) }
        ensures rising { IfOk result (λ clients. AreRising clients.items) }
    {
        let mut clients = Vec::new(self.alloc);
        for number in numbers.iter() {
            self.keep_going(&mut clients, ClientNo(*number))?;
        }
        Ok(clients)
    }

    fn keep_going(&self, clients: &mut Vec<ClientNo>, client: ClientNo) -> Result<(), OutOfMemory>
        ensures { OnOk result (clients.new.items ≡ going_more (tables self.now) client clients.old.items) }
    {
        if self.is_there(client) {
            clients.push(client)?;
            Ok(())
        } else {
            Ok(())
        }
    }
}
