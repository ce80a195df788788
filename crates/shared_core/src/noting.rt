// By when what clients have in work had been taken up.
ghost use Rattle.std.specs.Prelude.{◌≡◌, IfSome, OnOk, ℕ};
ghost use Rattle.core_texts.specs.Texts.{AreLess, key_at, noted_at};
ghost use Rattle.router_laws.specs.decisions.Noted.{IsInWork, WasNoted};
ghost use Rattle.shared_core.specs.Noted.{HasNoted, IsNotedBy};
ghost use Rattle.shared_core.specs.Stands.{tables};

use crate::router::Router;
use crate::rows::ordinal_of;
use core_tables::Tables;
use core_texts::Noted;
use mx_base::{ClientNo, OutOfMemory};
use std::alloc::Global;
use std::collections::HashSet;

// By when it had been taken up, if what is noted is of the message of this place.
fn noted_by(one: Noted, ordinal: u64) -> Option<u64>
    ensures { IfSome result (λ by_ms. IsNotedBy one ordinal by_ms) }
{
    if one.ordinal == ordinal {
        Some(one.by_ms)
    } else {
        None
    }
}

fn is_of(one: Option<Noted>, ordinal: u64) -> bool {
    match one {
        Some(one) => one.ordinal == ordinal,
        None => false,
    }
}

// The clients that there are.
fn all_there(alloc: Global, tables: &Tables) -> Result<HashSet<u64>, OutOfMemory> {
    let mut there = HashSet::new(alloc);
    for number in tables.clients.keys() {
        there.insert(*number)?;
    }
    Ok(there)
}

impl Router {
    /// Since when a client's statement in work waits, by what is noted.
    pub(crate) fn noted_since(&self, client: ClientNo) -> Option<u64>
        ensures { IfSome result (λ since. WasNoted (noted_at self.now.texts) (tables self.now) client since) }
    {
        match ordinal_of(&self.marked.tables, client) {
            Some(ordinal) => self.noted_for(client, ordinal),
            None => None,
        }
    }

    fn noted_for(&self, client: ClientNo, ordinal: u64) -> Option<u64>
        requires { IsInWork client ordinal (tables self.now) }
        ensures { IfSome result (λ since. WasNoted (noted_at self.now.texts) (tables self.now) client since) }
    {
        match self.texts.noted_of(client) {
            Some(one) => noted_by(one, ordinal),
            None => None,
        }
    }

    /// It is noted of whoever took turns by the event that what it has in work had been taken up by now.
    pub(crate) fn notes(&mut self) -> Result<(), OutOfMemory>
        ensures { OnOk result (HasNoted self.old self.new) }
    {
        'noting: for _ in 0..u64::MAX {
            let client = self.fresh.pop();
            match client {
                Some(client) => self.notes_one(client)?,
                None => return Ok(()),
            }
        }
        Ok(())
    }

    fn notes_one(&mut self, client: ClientNo) -> Result<(), OutOfMemory>
        ensures { OnOk result (HasNoted self.old self.new) }
    {
        match self.unnoted(client) {
            Some(ordinal) => self.notes_now(client, ordinal),
            None => Ok(()),
        }
    }

    // The place of what it has in work, unless that is noted.
    fn unnoted(&self, client: ClientNo) -> Option<u64>
        ensures { IfSome result (λ ordinal. IsInWork client ordinal (tables self.now)) }
    {
        let ordinal = ordinal_of(&self.marked.tables, client)?;
        if is_of(self.texts.noted_of(client), ordinal) {
            None
        } else {
            Some(ordinal)
        }
    }

    fn notes_now(&mut self, client: ClientNo, ordinal: u64) -> Result<(), OutOfMemory>
        requires { IsInWork client ordinal (tables self.old) }
        ensures { OnOk result (HasNoted self.old self.new) }
    {
        router_laws::decisions::routers_note();
        let by_ms = self.came.clock;
        self.texts.note(client, Noted { ordinal, by_ms })?;
        Ok(())
    }

    /// What is noted of clients that are no more is dropped, once there is much of it.
    #[tactic(auto, using(core_texts::proofs::Keeping::itself_less))]
    pub(crate) fn drops_notes(&mut self) -> Result<(), OutOfMemory>
        ensures less { OnOk result (AreLess self.old.texts self.new.texts) }
        ensures kept { OnOk result ((number : ℕ) → key_at self.new.texts number ≡ key_at self.old.texts number) }
        ensures same { OnOk result (self.new ≡ record self.old { texts = self.new.texts }) }
    {
        if !self.texts.is_littered() {
            return Ok(());
        }
        let there = all_there(self.alloc, &self.marked.tables)?;
        self.texts.keep_noted(&there)
    }
}
