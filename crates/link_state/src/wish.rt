// What goes to a link next, by whom it carries and what is wanted of it. It is asked for anew after each answer, so a step that failed
// shows by itself.
ghost use Rattle.std.specs.Prelude.{◌≡◌, IsTrue, IfOk, nat_eq};
ghost use Rattle.std.specs.List.{list_any};
ghost use Rattle.session_vars.specs.Settings.{is_text, value_at};
ghost use Rattle.link_state.specs.Wants.{cleared, id_wanted, is_id, is_unprepared, oldest_closed, own_wish, prep_wish, statement_wish, task_of, unlong, wish_by};

use crate::place::{calm_place, place_wish};
use crate::standing::Standing;
use crate::state::{Carried, LinkState};
use mx_base::{Bytes, OutOfMemory};
use session_state::{Pin, Place, is_pinned, needs_reset};
use session_vars::Slot;
use std::alloc::Global;

/// How many statements are prepared on a link at most.
const MOST_PREPARED: usize = 1000;

/// What goes to a link next.
#[derive(Drop)]
pub enum Wish {
    /// COM_INIT_DB with this schema.
    Schema(Bytes),
    /// SET NAMES or SET SESSION: this text.
    Settings(Bytes),
    /// The text that sets the insert id to this one.
    SetId(u64),
    /// The text of the execute is prepared.
    Prepare,
    /// The statement itself.
    Statement,
    /// STMT_CLOSE of this number.
    Closes(u32),
    /// STMT_RESET of this number.
    Resets(u32),
}

/// What kind of statement goes to a link.
#[derive(Clone, Copy)]
pub enum Command {
    /// One that names no prepared text.
    Plain,
    /// A client's STMT_PREPARE.
    Prepare,
    /// An execute.
    Execute,
}

/// A statement that goes to a link: the key of its text, where it is a STMT_PREPARE or an execute, whether it marks the insert id, and
/// the insert id of its session, where it is known.
#[derive(Clone, Copy)]
pub struct Wanted {
    pub command: Command,
    pub key: u64,
    pub marks: bool,
    pub id: Option<u64>,
}

/// The session that a link carries: whether it is its client's present one, why it keeps the link, its insert id where that is known,
/// and whether a statement of it went out that no reset takes back.
#[derive(Clone, Copy)]
pub struct Session {
    pub present: bool,
    pub pin: Pin,
    pub id: Option<u64>,
    pub lasting: bool,
}

/// What a link is for at the moment.
#[derive(Clone, Copy)]
pub enum Task {
    /// For what is due in the session, or for whom the link is readied.
    States,
    /// The session's insert id is asked for.
    Captures,
    /// The session is ended.
    Ends,
    /// Nothing goes there.
    Rests,
}

/// What the link is for that carries this session. Takes no memory.
pub fn task_of(carries: Carried, session: Session) -> Task
    ensures { result ≡ task_of carries session }
{
    match carries {
        Carried::Joined(_) => {
            if !session.present {
                if needs_reset(session.pin) && !session.lasting {
                    Task::Ends
                } else {
                    Task::Rests
                }
            } else if is_pinned(session.pin) {
                Task::States
            } else if session.id.is_some() {
                Task::Rests
            } else {
                Task::Captures
            }
        }
        _ => Task::States,
    }
}

fn is_id(known: Option<u64>, wanted: Option<u64>) -> bool
    ensures { result ≡ is_id known wanted }
{
    match (known, wanted) {
        (Some(a), Some(b)) => a == b,
        _ => false,
    }
}

// The insert id to which a step leads, where one has to.
fn id_wanted(wanted: Wanted, marked: bool, known: Option<u64>) -> Option<u64>
    ensures { result ≡ id_wanted wanted marked known }
{
    if wanted.marks && !(marked || is_id(known, wanted.id)) {
        wanted.id
    } else {
        None
    }
}

fn is_unprepared(live: &Standing, wanted: Wanted) -> bool
    ensures { result ≡ is_unprepared live.now wanted }
{
    match wanted.command {
        Command::Execute => live.find(wanted.key).is_none(),
        _ => false,
    }
}

// Before a preparation: the statement of this text is closed, where one stands there, else the oldest of a thousand.
fn cleared(live: &Standing, key: u64, otherwise: Wish) -> Wish
    ensures { result ≡ cleared live.now key otherwise }
{
    match live.find(key) {
        Some(number) => Wish::Closes(number),
        None => oldest_closed(live, otherwise),
    }
}

fn oldest_closed(live: &Standing, otherwise: Wish) -> Wish
    ensures { result ≡ oldest_closed live.now otherwise }
{
    if live.len() < MOST_PREPARED {
        return otherwise;
    }
    match live.oldest() {
        Some((_, number)) => Wish::Closes(number),
        None => otherwise,
    }
}

// Before an execute: its statement is reset, where long data were sent for it.
fn unlong(long: &[u32], number: Option<u32>) -> Wish
    ensures { result ≡ unlong long.now number }
{
    let Some(number) = number else {
        return Wish::Statement;
    };
    if has_number(long, number) {
        Wish::Resets(number)
    } else {
        Wish::Statement
    }
}

fn has_number(long: &[u32], number: u32) -> bool
    ensures { result ≡ list_any (nat_eq number) long.now }
{
    long.iter().any(|other| number == *other)
}

fn own_wish(live: &Standing, long: &[u32], wanted: Wanted) -> Wish
    ensures { result ≡ own_wish live.now long.now wanted }
{
    match wanted.command {
        Command::Plain => Wish::Statement,
        Command::Prepare => cleared(live, wanted.key, Wish::Statement),
        Command::Execute => unlong(long, live.find(wanted.key)),
    }
}

impl LinkState {
    /// What goes to the link next for a statement: a step to its place, or to its insert id, or the preparation of its text, whose place
    /// is `of_key`; or before these a STMT_CLOSE or a STMT_RESET; or itself. `long` are the numbers with long data. SET NAMES can't take
    /// names back, so places have them as texts.
    pub fn wish(
        &self,
        alloc: Global,
        wanted: Wanted,
        place: &Place,
        of_key: &Place,
        long: &[u32],
    ) -> Result<Wish, OutOfMemory>
        requires names { IsTrue (is_text (value_at place.now.settings Slot.Names)) }
        requires of_key { IsTrue (is_text (value_at of_key.now.settings Slot.Names)) }
        ensures { IfOk result (λ wish. wish ≡ wish_by self.now wanted place.now of_key.now long.now) }
    {
        if is_unprepared(&self.live, wanted) {
            self.prep_wish(alloc, wanted.key, of_key)
        } else {
            self.statement_wish(alloc, wanted, place, long)
        }
    }

    fn prep_wish(&self, alloc: Global, key: u64, of_key: &Place) -> Result<Wish, OutOfMemory>
        requires { IsTrue (is_text (value_at of_key.now.settings Slot.Names)) }
        ensures { IfOk result (λ wish. wish ≡ prep_wish self.now key of_key.now) }
    {
        let place = calm_place(alloc, of_key, &self.told)?;
        match place_wish(alloc, &self.told, &place)? {
            Some(wish) => Ok(wish),
            None => Ok(cleared(&self.live, key, Wish::Prepare)),
        }
    }

    fn statement_wish(
        &self,
        alloc: Global,
        wanted: Wanted,
        place: &Place,
        long: &[u32],
    ) -> Result<Wish, OutOfMemory>
        requires { IsTrue (is_text (value_at place.now.settings Slot.Names)) }
        ensures { IfOk result (λ wish. wish ≡ statement_wish self.now wanted place.now long.now) }
    {
        if let Some(wish) = place_wish(alloc, &self.told, place)? {
            return Ok(wish);
        }
        match id_wanted(wanted, self.marked, self.id) {
            Some(id) => Ok(Wish::SetId(id)),
            None => Ok(own_wish(&self.live, long, wanted)),
        }
    }
}
