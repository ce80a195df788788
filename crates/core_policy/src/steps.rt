// What goes to a link next.
ghost use Rattle.std.specs.Prelude.{◌≡◌, IsTrue, true};
ghost use Rattle.session_vars.specs.Settings.{is_text, value_at};

use crate::deed::Deed;
use crate::losing::name_in;
use crate::waiting::unsent;
use client_desk::Work;
use core_tables::{Client, Tables};
use core_texts::Texts;
use link_state::{Carried, Command, Form, Purpose, Session, Task, Wish};
use mx_base::{ClientNo, LinkId, OutOfMemory};
use pin_classifier::Shape;
use served_link::Row;
use session_state::{Place, SessionName};
use session_vars::Slot;
use std::alloc::Global;

/// What goes to a link next; and the client for which it does, where that may change what the link was told, and where the client stands.
#[derive(Drop)]
pub(crate) struct Next {
    pub(crate) deed: Deed,
    pub(crate) moves: Option<ClientNo>,
}

// Whether a statement may change what a link was told.
fn moves(work: &Work) -> bool {
    match &work.form {
        Some(Form::Text(class)) => match &class.shape {
            Shape::Use(_) => true,
            Shape::Set(_) => true,
            _ => false,
        },
        Some(Form::Reset) => true,
        Some(_) => false,
        None => true,
    }
}

// Whether what goes there on the way to a statement does, or the statement itself.
fn shifts(work: &Work, wish: &Wish) -> bool {
    match wish {
        Wish::Statement => moves(work),
        Wish::Schema(_) => true,
        Wish::Settings(_) => true,
        _ => false,
    }
}

fn next_on(deed: Deed, client: ClientNo, moves: bool) -> Option<Next> {
    Some(Next {
        deed,
        moves: if moves { Some(client) } else { None },
    })
}

// A step is in a session, where the link is joined to that, and else in nobody's.
fn step_for(row: &Row, name: SessionName) -> Purpose {
    match row.link.state.carries {
        Carried::Joined(_) => Purpose::Sync { name },
        _ => Purpose::Own,
    }
}

// The place of the text that a statement executes; of another it isn't asked for.
fn place_of_key<'a>(texts: &'a Texts, work: &Work, place: &'a Place) -> Option<&'a Place> {
    match work.command {
        Command::Execute => Some(texts.find(work.key)?.place()),
        _ => Some(place),
    }
}

fn has_names(place: &Place) -> bool
    ensures { result ≡ true → IsTrue (is_text (value_at place.now.settings Slot.Names)) }
{
    place.settings.value(Slot::Names).is_text()
}

// The statement itself is to be written next.
fn begins_itself(link: LinkId, name: SessionName, command: Command) -> Deed {
    match command {
        Command::Execute => Deed::BeginRun { link, name },
        _ => Deed::BeginText { link, name },
    }
}

fn deed_for(link: LinkId, row: &Row, name: SessionName, command: Command, wish: Wish) -> Deed {
    match wish {
        Wish::Prepare => Deed::BeginPrep { link, name },
        Wish::Statement => begins_itself(link, name, command),
        wish => Deed::BeginStep {
            link,
            purpose: step_for(row, name),
            wish,
        },
    }
}

// The next step to a statement of this session, or itself. A client's place always has names as a text.
fn begins_for(
    alloc: Global,
    texts: &Texts,
    link: LinkId,
    row: &Row,
    client: &Client,
    work: &Work,
) -> Result<Option<Next>, OutOfMemory> {
    let name = client.desk.name(work.hostgroup);
    let place = &client.desk.seat.place;
    let Some(of_key) = place_of_key(texts, work, place) else {
        return Ok(None);
    };
    if !(has_names(place) && has_names(of_key)) {
        return Ok(None);
    }
    let wanted = work.wanted(client.desk.session(name.hostgroup).id);
    let wish = row.wish(alloc, wanted, place, of_key)?;
    let shifts = shifts(work, &wish);
    let deed = deed_for(link, row, name, work.command, wish);
    Ok(next_on(deed, name.client, shifts))
}

// Of whom it was readied for.
fn begins_unlent(
    alloc: Global,
    tables: &Tables,
    texts: &Texts,
    link: LinkId,
    row: &Row,
) -> Result<Option<Next>, OutOfMemory> {
    let Some(client) = row.readied else {
        return Ok(None);
    };
    let Some(client) = tables.clients.get(&client.0) else {
        return Ok(None);
    };
    match unsent(client) {
        Some(work) => begins_for(alloc, texts, link, row, client, work),
        None => Ok(None),
    }
}

// The statement that is due in the session that it carries.
fn begins_in(
    alloc: Global,
    tables: &Tables,
    texts: &Texts,
    link: LinkId,
    row: &Row,
    name: SessionName,
) -> Result<Option<Next>, OutOfMemory> {
    let Some(client) = tables.clients.get(&name.client.0) else {
        return Ok(None);
    };
    let present = client.desk.session(name.hostgroup).life == name.life;
    match unsent(client) {
        Some(work) if present && work.hostgroup.0 == name.hostgroup.0 => {
            begins_for(alloc, texts, link, row, client, work)
        }
        _ => Ok(None),
    }
}

// What a link is for that carries this session; its client may be no more.
fn task_of(tables: &Tables, row: &Row, name: SessionName) -> Task {
    if let Some(client) = tables.clients.get(&name.client.0) {
        return row.task(client.desk.carried(name.hostgroup));
    }
    match &row.left {
        Some(left) => row.task(Session {
            present: false,
            pin: left.pin,
            id: left.id,
            lasting: left.lasting,
        }),
        None => Task::Rests,
    }
}

/// What goes next to a link on which something may begin.
pub(crate) fn begins_on(
    alloc: Global,
    tables: &Tables,
    texts: &Texts,
    link: LinkId,
    row: &Row,
) -> Result<Option<Next>, OutOfMemory> {
    let Some(name) = name_in(row.link.state.carries) else {
        return begins_unlent(alloc, tables, texts, link, row);
    };
    match task_of(tables, row, name) {
        Task::States => begins_in(alloc, tables, texts, link, row, name),
        Task::Captures => Ok(next_on(Deed::BeginCapture { link, name }, name.client, false)),
        Task::Ends => Ok(next_on(Deed::BeginEnd { link, name }, name.client, true)),
        Task::Rests => Ok(None),
    }
}
