// What a link to a server was told, what stands there, and whom it carries.
ghost use Rattle.std.specs.Prelude.{◌≡◌, IfOk, OnOk};
ghost use Rattle.link_state.specs.Asks.{lent_for, lends_by};
ghost use Rattle.link_state.specs.States.{answered_in, asked, closed_number, fresh, freed, heard, joined, ran};

use crate::asking::{Asking, Purpose};
use crate::effect::{hear_id, hear_live, hear_told};
use crate::standing::Standing;
use mx_base::{Bytes, OutOfMemory};
use session_state::{ReplyEnd, SessionName, Told};
use session_vars::Settings;
use std::alloc::Global;

/// Whose session a link carries; once a statement of it ran there, it is joined.
#[derive(Clone, Copy)]
pub enum Carried {
    Nobody,
    Lent(SessionName),
    Joined(SessionName),
}

/// What stands on a link: nothing, a question, or one of whose answer a byte was read.
#[derive(Drop)]
pub enum Stage {
    Quiet,
    Asked(Asking),
    Answered(Asking),
}

/// A link to a server behind its login: what it was told, its insert id where it is known, what is prepared there, whom it carries,
/// whether a statement that marks the insert id ran there since, and what is asked.
#[derive(Drop)]
pub struct LinkState {
    pub told: Told,
    pub id: Option<u64>,
    pub live: Standing,
    pub carries: Carried,
    pub marked: bool,
    pub stage: Stage,
}

fn lent_for(purpose: Purpose, carries: Carried) -> Carried
    ensures { result ≡ lent_for purpose carries }
{
    match purpose {
        Purpose::Statement { name, .. } => lent_to(name, carries),
        Purpose::Prep { name, .. } => lent_to(name, carries),
        _ => carries,
    }
}

fn lent_to(name: SessionName, carries: Carried) -> Carried
    ensures { result ≡ lends_by name carries }
{
    match carries {
        Carried::Nobody => Carried::Lent(name),
        _ => carries,
    }
}

impl LinkState {
    /// As a login leaves it.
    pub fn new(alloc: Global) -> Result<Self, OutOfMemory>
        ensures { IfOk result (λ state. state ≡ fresh) }
    {
        Ok(LinkState {
            told: Told {
                schema: Some(Bytes::new(alloc)),
                settings: Settings::defaults(alloc)?,
            },
            id: Some(0),
            live: Standing::new(alloc),
            carries: Carried::Nobody,
            marked: false,
            stage: Stage::Quiet,
        })
    }

    /// A question goes out. Takes no memory.
    pub fn ask(&mut self, asking: Asking)
        ensures { self.new ≡ asked asking self.old }
    {
        self.carries = lent_for(asking.purpose, self.carries);
        self.stage = Stage::Asked(asking);
    }

    /// The server runs what stands there, where it isn't run yet. Takes no memory.
    pub fn run(&mut self)
        ensures { self.new ≡ ran self.old }
    {
        match std::mem::replace(&mut self.stage, Stage::Quiet) {
            Stage::Asked(asking) => {
                self.join(&asking);
                self.stage = Stage::Answered(asking);
            }
            other => self.stage = other,
        }
    }

    fn join(&mut self, asking: &Asking)
        ensures { self.new ≡ joined asking.now self.old }
    {
        if let Purpose::Statement { name, .. } = asking.purpose {
            self.carries = Carried::Joined(name);
            self.marked = asking.form.marks() || self.marked;
        }
    }

    /// The answer ended so, with this one number where it asked for one. What was asked is handed back.
    pub fn hear(
        &mut self,
        alloc: Global,
        end: &ReplyEnd,
        number: Option<u64>,
    ) -> Result<Option<Asking>, OutOfMemory>
        ensures asking { IfOk result (λ asking. asking ≡ answered_in self.old.stage) }
        ensures heard { OnOk result (self.new ≡ heard end.now number self.old) }
    {
        match std::mem::replace(&mut self.stage, Stage::Quiet) {
            Stage::Answered(asking) => {
                hear_told(alloc, &mut self.told, &asking.form, end)?;
                self.id = hear_id(self.id, &asking, end, number);
                hear_live(&mut self.live, &asking, end)?;
                Ok(Some(asking))
            }
            other => {
                self.stage = other;
                Ok(None)
            }
        }
    }

    /// The prepared statement of this number is closed. Takes no memory.
    pub fn close_number(&mut self, number: u32)
        ensures { self.new ≡ closed_number number self.old }
    {
        self.live.close(number);
    }

    /// The link is given back. Takes no memory.
    pub fn free(&mut self)
        ensures { self.new ≡ freed self.old }
    {
        self.carries = Carried::Nobody;
        self.marked = false;
    }
}
