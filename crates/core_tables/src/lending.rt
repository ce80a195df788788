// Whether what stands next on a link may begin now, and what is to be written.
ghost use Rattle.std.specs.Prelude.{◌≡◌, false};
ghost use Rattle.std.specs.Option.{option_map_or};
ghost use Rattle.mx_base.specs.Sent.{IsLent};
ghost use Rattle.session_state.specs.Classes.{effect_of, sets_autocommit, takes};
ghost use Rattle.session_state.specs.Classes as classes;
ghost use Rattle.private_model.specs.Story.{is_name};
ghost use Rattle.link_state.specs.Wants.{is_id};
ghost use Rattle.client_desk.specs.Desks.{session_of};
ghost use Rattle.core_tables.specs.Passing.{as_reply, begins_there, goes_on_there, is_blind, is_command, is_joined, is_lent, is_lent_to, is_nobody, is_of, is_own_step, is_ready, is_set_by, is_step_of, is_text_step, may_capture, may_end, may_own, may_prepare, may_state, may_sync, names_schema, passes, passes_for, passes_next, prep_passes, prepares_first, prepares_there, reads_its_own, sends, sends_client, with_session, with_work};
ghost use Rattle.core_tables.specs.Tables.{tables_of};

use crate::placing::{is_account, is_placed};
use crate::tables::Tables;
use client_desk::{Desk, Session, Work};
use lent_link::Begins;
use link_state::{Carried, Form, Purpose, Writing};
use mx_base::{LinkId, Piece, Tag};
use pin_classifier::{Class, Locking, Shape};
use served_link::Row;
use session_state::{Pin, SessionName, is_pinned, needs_reset, reads_own};
use session_vars::{Change, SetShape, Slot};

/// The same session.
pub(crate) fn is_name(a: SessionName, b: SessionName) -> bool
    ensures { result ≡ is_name a b }
{
    a.client.0 == b.client.0 && a.hostgroup.0 == b.hostgroup.0 && a.life == b.life
}

fn is_id(known: Option<u64>, wanted: Option<u64>) -> bool
    ensures { result ≡ is_id known wanted }
{
    match (known, wanted) {
        (Some(a), Some(b)) => a == b,
        _ => false,
    }
}

fn is_nobody(carries: Carried) -> bool
    ensures { result ≡ is_nobody carries }
{
    match carries {
        Carried::Nobody => true,
        _ => false,
    }
}

fn is_lent(carries: Carried) -> bool
    ensures { result ≡ is_lent carries }
{
    match carries {
        Carried::Lent(_) => true,
        _ => false,
    }
}

fn is_lent_to(name: SessionName, carries: Carried) -> bool
    ensures { result ≡ is_lent_to name carries }
{
    match carries {
        Carried::Lent(who) => is_name(name, who),
        _ => false,
    }
}

fn is_joined(name: SessionName, carries: Carried) -> bool
    ensures { result ≡ is_joined name carries }
{
    match carries {
        Carried::Joined(who) => is_name(name, who),
        _ => false,
    }
}

fn is_blind(form: &Form) -> bool
    ensures { result ≡ is_blind form.now }
{
    match form {
        Form::Text(class) => !class.reads_diag && !class.reads_found,
        Form::Fields => true,
        Form::Prepare(_) => true,
        _ => false,
    }
}

fn reads_its_own(form: &Form, pin: Pin) -> bool
    ensures { result ≡ reads_its_own form.now pin }
{
    match form {
        Form::Text(class) => reads_own(pin, class),
        Form::Fields => true,
        Form::Prepare(_) => true,
        _ => false,
    }
}

fn begins_there(
    row: &Row,
    form: &Form,
    name: SessionName,
    desk: &Desk,
    work: &Work,
    s: Session,
) -> bool
    ensures { result ≡ begins_there row.now form.now name desk.now work.now s }
{
    let carries = row.link.state.carries;
    ((is_nobody(carries) && !s.home.is_some()) || is_lent_to(name, carries))
        && !is_pinned(s.pin)
        && work.anew
        && is_placed(&row.link.state.told, &desk.seat.place)
        && is_account(&row.identity, &desk.seat.phase)
        && is_blind(form)
        && s.id.is_some()
        && (!form.marks() || is_id(row.link.state.id, s.id))
}

fn goes_on_there(
    row: &Row,
    form: &Form,
    name: SessionName,
    desk: &Desk,
    work: &Work,
    s: Session,
) -> bool
    ensures { result ≡ goes_on_there row.now form.now name desk.now work.now s }
{
    is_joined(name, row.link.state.carries)
        && is_pinned(s.pin)
        && !work.anew
        && is_placed(&row.link.state.told, &desk.seat.place)
        && reads_its_own(form, s.pin)
        && (!form.marks() || row.link.state.marked || is_id(row.link.state.id, s.id))
}

/// It is its client's work still, of a session that is present.
pub(crate) fn is_of(name: SessionName, ordinal: u64, desk: &Desk, work: &Work) -> bool
    ensures { result ≡ is_of name ordinal desk.now work.now }
{
    work.ordinal == ordinal && is_name(name, desk.name(work.hostgroup))
}

fn may_state(
    row: &Row,
    form: &Form,
    name: SessionName,
    ordinal: u64,
    desk: &Desk,
    work: &Work,
) -> bool
    ensures { result ≡ may_state row.now form.now name ordinal desk.now work.now }
{
    let s = desk.session(work.hostgroup);
    !work.sent
        && is_of(name, ordinal, desk, work)
        && (begins_there(row, form, name, desk, work, s)
            || goes_on_there(row, form, name, desk, work, s))
}

fn prepares_first(row: &Row, name: SessionName, s: Session) -> bool
    ensures { result ≡ prepares_first row.now name s }
{
    let carries = row.link.state.carries;
    ((is_nobody(carries) && !s.home.is_some()) || is_lent_to(name, carries)) && !is_pinned(s.pin)
}

fn prepares_there(row: &Row, name: SessionName, s: Session) -> bool
    ensures { result ≡ prepares_there row.now name s }
{
    is_joined(name, row.link.state.carries) && is_pinned(s.pin)
}

fn may_prepare(row: &Row, name: SessionName, ordinal: u64, desk: &Desk, work: &Work) -> bool
    ensures { result ≡ may_prepare row.now name ordinal desk.now work.now }
{
    let s = desk.session(work.hostgroup);
    !work.sent
        && is_of(name, ordinal, desk, work)
        && (prepares_first(row, name, s) || prepares_there(row, name, s))
}

fn is_command(code: u8, writing: &Option<Writing>) -> bool
    ensures { result ≡ is_command code writing.now }
{
    match writing {
        Some(w) => {
            let bytes = w.bytes.as_slice();
            if bytes.len() > 4 {
                bytes[4] == code
            } else {
                code == 0
            }
        }
        None => false,
    }
}

fn is_autocommit(slot: Slot) -> bool
    ensures { result ≡ classes.is_autocommit slot }
{
    match slot {
        Slot::Autocommit => true,
        _ => false,
    }
}

fn sets_autocommit(changes: &[Change]) -> bool
    ensures { result ≡ sets_autocommit changes.now }
{
    changes.iter().any(|change| is_autocommit(change.slot))
}

fn takes(class: &Class) -> bool
    ensures { result ≡ takes class.now }
{
    match class.locks {
        Locking::Takes => true,
        _ => false,
    }
}

fn is_set(class: &Class, tx: bool) -> bool
    ensures { result ≡ is_set_by class.now tx (effect_of class.now) }
{
    match &class.shape {
        Shape::Set(SetShape::Tracked(changes)) => {
            !class.marks_id
                && !class.reads_diag
                && !class.reads_found
                && !class.deep
                && !takes(class)
                && !class.next_tx
                && !class.savepoint
                && !class.outlasts_reset
                && (!sets_autocommit(changes.as_slice()) || !tx)
        }
        _ => false,
    }
}

fn names_schema(class: &Class) -> bool
    ensures { result ≡ names_schema (effect_of class.now) }
{
    match &class.shape {
        Shape::Use(schema) => !schema.as_slice().is_empty(),
        _ => false,
    }
}

fn is_text_step(class: &Class, writing: &Option<Writing>, tx: bool) -> bool
    ensures { result ≡ is_text_step class.now writing.now tx }
{
    (is_command(2, writing) && names_schema(class)) || (is_command(3, writing) && is_set(class, tx))
}

fn is_step_of(form: &Form, writing: &Option<Writing>, s: Session) -> bool
    ensures { result ≡ is_step_of form.now writing.now s }
{
    match form {
        Form::Text(class) => is_text_step(class, writing, s.pin.tx),
        Form::SetId(id) => is_id(s.id, Some(*id)),
        _ => false,
    }
}

fn is_own_step(form: &Form, writing: &Option<Writing>) -> bool
    ensures { result ≡ is_own_step form.now writing.now }
{
    match form {
        Form::Text(class) => is_text_step(class, writing, false),
        Form::SetId(_) => true,
        _ => false,
    }
}

fn may_sync(row: &Row, form: &Form, name: SessionName, s: Session) -> bool
    ensures { result ≡ may_sync row.now form.now name s }
{
    is_joined(name, row.link.state.carries)
        && is_pinned(s.pin)
        && is_step_of(form, &row.link.writing, s)
}

fn may_capture(row: &Row, name: SessionName, s: Session) -> bool
    ensures { result ≡ may_capture row.now name s }
{
    is_joined(name, row.link.state.carries) && !is_pinned(s.pin) && !s.id.is_some()
}

fn may_end(row: &Row, name: SessionName) -> bool
    ensures { result ≡ option_map_or (may_end row.now name) row.now.left false }
{
    match row.left {
        Some(left) => {
            is_joined(name, row.link.state.carries) && needs_reset(left.pin) && !left.lasting
        }
        None => false,
    }
}

fn may_own(row: &Row, form: &Form) -> bool
    ensures { result ≡ may_own row.now form.now }
{
    (is_nobody(row.link.state.carries) || is_lent(row.link.state.carries))
        && is_own_step(form, &row.link.writing)
}

fn is_ready(row: &Row) -> bool
    ensures { result ≡ is_ready row.now }
{
    !row.lost && !row.link.spoilt && row.link.state.is_quiet()
}

// What is to be written to a client, where there is any.
fn as_reply(bytes: &[u8]) -> Option<Piece<'_>>
    ensures { IsLent result (as_reply bytes.now) }
{
    if 0 < bytes.len() {
        Some(Piece {
            tag: Tag::Reply,
            bytes,
        })
    } else {
        None
    }
}

impl Tables {
    // The session of this name, where it is present.
    #[tactic(auto, unfolding(crate::specs::Tables::tables_of))]
    fn sync_passes(&self, name: SessionName, row: &Row, form: &Form) -> bool
        ensures { result ≡ with_session name (tables_of self.now) (may_sync row.now form.now name) }
    {
        match self.clients.get(&name.client.0) {
            Some(client) => {
                is_name(name, client.desk.name(name.hostgroup))
                    && may_sync(row, form, name, client.desk.session(name.hostgroup))
            }
            None => false,
        }
    }

    #[tactic(auto, unfolding(crate::specs::Tables::tables_of))]
    fn capture_passes(&self, name: SessionName, row: &Row) -> bool
        ensures { result ≡ with_session name (tables_of self.now) (may_capture row.now name) }
    {
        match self.clients.get(&name.client.0) {
            Some(client) => {
                is_name(name, client.desk.name(name.hostgroup))
                    && may_capture(row, name, client.desk.session(name.hostgroup))
            }
            None => false,
        }
    }

    #[tactic(auto, unfolding(crate::specs::Tables::tables_of))]
    fn statement_passes(&self, name: SessionName, ordinal: u64, row: &Row, form: &Form) -> bool
        ensures { result ≡ with_work name (tables_of self.now) (may_state row.now form.now name ordinal) }
    {
        match self.clients.get(&name.client.0) {
            Some(client) => match &client.desk.work {
                Some(work) => may_state(row, form, name, ordinal, &client.desk, work),
                None => false,
            },
            None => false,
        }
    }

    /// Whether the text of a client's statement may be prepared on the link of this row now, where that was told the text's place. Takes no
    /// memory.
    #[tactic(auto, unfolding(crate::specs::Tables::tables_of))]
    pub fn prep_passes(&self, name: SessionName, ordinal: u64, row: &Row) -> bool
        ensures { result ≡ prep_passes name ordinal row.now (tables_of self.now) }
    {
        match self.clients.get(&name.client.0) {
            Some(client) => match &client.desk.work {
                Some(work) => may_prepare(row, name, ordinal, &client.desk, work),
                None => false,
            },
            None => false,
        }
    }

    fn passes_for(&self, purpose: Purpose, row: &Row, form: &Form) -> bool
        ensures { result ≡ passes_for purpose row.now form.now (tables_of self.now) }
    {
        match purpose {
            Purpose::Statement { name, ordinal, .. } => {
                self.statement_passes(name, ordinal, row, form)
            }
            Purpose::Prep { name, ordinal, .. } => self.prep_passes(name, ordinal, row),
            Purpose::Sync { name } => self.sync_passes(name, row, form),
            Purpose::Own => may_own(row, form),
            Purpose::End { name } => may_end(row, name),
            Purpose::Capture { name } => self.capture_passes(name, row),
        }
    }

    fn passes_next(&self, row: &Row) -> bool
        ensures { result ≡ passes_next row.now.link.next row.now (tables_of self.now) }
    {
        match &row.link.next {
            None => true,
            Some(Begins::Quits) => true,
            Some(Begins::Asks(asking)) => {
                is_ready(row) && self.passes_for(asking.purpose, row, &asking.form)
            }
            Some(Begins::Closes(_)) => is_ready(row),
            Some(Begins::Resets(_)) => is_ready(row),
        }
    }

    /// Whether what stands next on a link may begin now: nothing does, a QUIT does, or a question that may be sent. Takes no memory.
    #[tactic(auto, unfolding(crate::specs::Tables::tables_of))]
    pub fn passes(&self, link: LinkId) -> bool
        ensures { result ≡ passes link (tables_of self.now) }
    {
        match self.links.get(&link.0) {
            Some(server) => self.passes_next(&server.row),
            None => false,
        }
    }

    // What is to be written to a client.
    #[tactic(auto, unfolding(crate::specs::Tables::tables_of))]
    fn sends_client(&self, link: LinkId) -> Option<Piece<'_>>
        ensures { IsLent result (sends_client link (tables_of self.now)) }
    {
        match self.numbers.get(&link.0) {
            Some(client) => match self.clients.get(&client.0) {
                Some(row) => as_reply(row.desk.seat.outgoing()),
                None => None,
            },
            None => None,
        }
    }

    /// What is to be written on a link: of a question the first byte only where it passes. Takes no memory.
    #[tactic(auto, unfolding(crate::specs::Tables::tables_of))]
    pub fn sends(&self, link: LinkId) -> Option<Piece<'_>>
        ensures { IsLent result (sends link (tables_of self.now)) }
    {
        match self.links.get(&link.0) {
            Some(server) => {
                if self.passes(link) {
                    server.row.link.outgoing()
                } else {
                    None
                }
            }
            None => self.sends_client(link),
        }
    }
}
