// What is tested of clients and of links before something becomes of them.
ghost use Rattle.std.specs.Prelude.{◌≡◌, IfSome, true};
ghost use Rattle.std.specs.List.{list_all};
ghost use Rattle.std.specs.Option.{option_copied};
ghost use Rattle.mx_base.specs.declared.names.LinkId.{LinkId};
ghost use Rattle.router_laws.specs.clients.Leaves.{is_at_rest};
ghost use Rattle.router_laws.specs.decisions.Noted.{IsInWork};
ghost use Rattle.core_laws.specs.clients.Going.{is_going};
ghost use Rattle.core_laws.specs.clients.Turns.{waits_at};
ghost use Rattle.client_seat.specs.Seats.{is_ended};
ghost use Rattle.client_seat.specs.declared.phase.Phase.TheVariants as phase;
ghost use Rattle.core_tables.specs.Parting.{name_in, present_in};
ghost use Rattle.core_tables.specs.Passing.{is_lent};
ghost use Rattle.core_tables.specs.Tables.{tables_of};
ghost use Rattle.router_laws.specs.links.Closes.{IsFarewellNext};
ghost use Rattle.shared_core.specs.Rows.{HasLives, IsLentNoOther, WorkIsAside, WorkIsAsideWith, WorkIsBroken, WorkIsUnsent, has_two_lives, home_at};
ghost use Rattle.shared_core.specs.Rows.{is_stated, is_unsound_in, is_worked_in, lent_home_at, same_name, work_at};
ghost use Rattle.router_laws.specs.reading.Givings.{if_lent, is_lent_in};
ghost use Rattle.router_laws.specs.wakes.Calling.{IsUnsent};
ghost use Rattle.router_laws.specs.wakes.Settling.{IsStepBy, MayBegin, MayState};

use client_desk::{Desk, Session, Work};
use client_seat::Phase;
use core_tables::{Client, Server, Tables};
use lent_link::Begins;
use link_state::{Carried, Wish};
use mx_base::{ClientNo, LinkId};
use session_state::{SessionName, is_pinned};

/// The row of a client.
#[tactic(auto, unfolding(core_tables::specs::Tables::tables_of))]
pub(crate) fn row_of(tables: &Tables, client: ClientNo) -> Option<&Client>
    ensures { option_copied result ≡ (tables_of tables.now).clients client }
{
    tables.clients.get(&client.0)
}

/// The row of a link to a server.
#[tactic(auto, unfolding(core_tables::specs::Tables::tables_of))]
pub(crate) fn server_of(tables: &Tables, link: LinkId) -> Option<&Server>
    ensures { option_copied result ≡ (tables_of tables.now).links link }
{
    tables.links.get(&link.0)
}

/// Whether no more is read of a client.
pub(crate) fn is_ended(row: &Client) -> bool
    ensures { result ≡ is_ended row.now.desk.seat.phase }
{
    match row.desk.seat.phase {
        Phase::Ended => true,
        _ => false,
    }
}

/// Whether a client is there, and goes on.
pub(crate) fn is_going(row: Option<&Client>) -> bool
    ensures { result ≡ is_going (option_copied row.entry) }
{
    match row {
        Some(row) => !is_ended(row),
        None => false,
    }
}

/// Whether it isn't logged in yet.
pub(crate) fn is_logging_in(row: &Client) -> bool
    ensures { result ≡ true → row.now.desk.seat.phase ≡ phase.LoggingIn }
{
    match row.desk.seat.phase {
        Phase::LoggingIn => true,
        _ => false,
    }
}

/// Whether it is logged in, and waits for nothing.
pub(crate) fn is_at_rest(row: &Client) -> bool
    ensures { result ≡ is_at_rest row.now }
{
    row.desk.seat.account().is_some() && row.desk.seat.answered
}

fn have_lives(sessions: &[Session]) -> bool
    ensures { result ≡ list_all has_two_lives sessions.now }
{
    sessions
        .iter()
        .all(|session| session.life < 18446744073709551614)
}

/// Whether there are lives for it to leave its sessions twice: so it is unless it left 2^64 of them.
pub(crate) fn may_leave(desk: &Desk) -> bool
    ensures { result ≡ true → HasLives desk.now }
{
    if have_lives(desk.sessions.as_slice()) {
        desk.lefts < 18446744073709551614
    } else {
        false
    }
}

/// Whether a client waits for the insert id of its session to be asked for.
pub(crate) fn waits_for_capture(row: &Client) -> bool
    ensures { result ≡ waits_at row.now }
{
    let Some(hostgroup) = row.went else {
        return false;
    };
    let session = row.desk.session(hostgroup);
    !is_pinned(session.pin) && session.id.is_none()
}

/// A client's statement in work.
pub(crate) fn work_of(tables: &Tables, client: ClientNo) -> Option<&Work>
    ensures { option_copied result ≡ work_at client (tables_of tables.now) }
{
    match row_of(tables, client) {
        Some(row) => row.desk.work.as_ref(),
        None => None,
    }
}

/// The place of a client's statement in work among its messages.
pub(crate) fn ordinal_of(tables: &Tables, client: ClientNo) -> Option<u64>
    ensures { IfSome result (λ ordinal. IsInWork client ordinal (tables_of tables.now)) }
{
    match work_of(tables, client) {
        Some(work) => Some(work.ordinal),
        None => None,
    }
}

// Whether a client has a statement in work that wasn't sent.
fn is_unsent(tables: &Tables, client: ClientNo) -> bool
    ensures { result ≡ true → WorkIsUnsent client (tables_of tables.now) }
{
    match work_of(tables, client) {
        Some(work) => !work.sent,
        None => false,
    }
}

/// The link that carries the session of a client's statement in work.
pub(crate) fn home_of_work(tables: &Tables, client: ClientNo) -> Option<LinkId>
    ensures { result ≡ home_at client (tables_of tables.now) }
{
    match row_of(tables, client) {
        Some(row) => match &row.desk.work {
            Some(work) => row.desk.session(work.hostgroup).home,
            None => None,
        },
        None => None,
    }
}

// Whether a link is lent.

fn is_lent(carries: Carried) -> bool
    ensures { result ≡ is_lent carries }
{
    match carries {
        Carried::Lent(_) => true,
        _ => false,
    }
}

fn is_lent_on(tables: &Tables, link: LinkId) -> bool
    ensures { result ≡ is_lent_in link (tables_of tables.now) }
{
    match server_of(tables, link) {
        Some(server) => is_lent(server.row.link.state.carries),
        None => false,
    }
}

fn if_lent(tables: &Tables, link: LinkId) -> Option<LinkId>
    ensures { result ≡ if_lent (tables_of tables.now) link }
{
    if is_lent_on(tables, link) {
        Some(link)
    } else {
        None
    }
}

// The link that is lent to the session of a client's statement in work, if one is.
fn lent_home(tables: &Tables, client: ClientNo) -> Option<LinkId>
    ensures { result ≡ lent_home_at client (tables_of tables.now) }
{
    match home_of_work(tables, client) {
        Some(link) => if_lent(tables, link),
        None => None,
    }
}

/// Whether a client has a statement in work that wasn't sent, and for which no link is lent.
pub(crate) fn is_unserved(tables: &Tables, client: ClientNo) -> bool
    ensures { result ≡ true → IsUnsent client (tables_of tables.now) }
{
    match lent_home(tables, client) {
        Some(_) => false,
        None => is_unsent(tables, client),
    }
}

/// Whether no other link than this one is.
pub(crate) fn is_lent_no_other(tables: &Tables, link: LinkId, client: ClientNo) -> bool
    ensures { result ≡ true → IsLentNoOther link client (tables_of tables.now) }
{
    match lent_home(tables, client) {
        Some(home) => home.0 == link.0,
        None => true,
    }
}

/// Whether no reply comes any more to what stands on a link: it is spoilt or lost, or its client left the session there.
fn is_unsound(tables: &Tables, link: LinkId) -> bool
    ensures { result ≡ is_unsound_in link (tables_of tables.now) }
{
    match server_of(tables, link) {
        Some(server) => {
            !(!server.row.link.spoilt && (!server.row.lost && !server.row.left.is_some()))
        }
        None => false,
    }
}

// Whether the link broke that carries the session of a client's statement in work.
fn is_broken(tables: &Tables, client: ClientNo) -> bool
    ensures { result ≡ true → WorkIsBroken client (tables_of tables.now) }
{
    match home_of_work(tables, client) {
        Some(link) => is_unsound(tables, link),
        None => false,
    }
}

/// Whether a client's statement in work wasn't sent, or the link broke to which it was.
pub(crate) fn is_aside(tables: &Tables, client: ClientNo) -> bool
    ensures { result ≡ true → WorkIsAside client (tables_of tables.now) }
{
    if is_unsent(tables, client) {
        true
    } else {
        is_broken(tables, client)
    }
}

/// Whether it wasn't sent, or it was to this link.
pub(crate) fn is_aside_with(tables: &Tables, link: LinkId, client: ClientNo) -> bool
    ensures { result ≡ true → WorkIsAsideWith link client (tables_of tables.now) }
{
    if is_unsent(tables, client) {
        return true;
    }
    match home_of_work(tables, client) {
        Some(home) => home.0 == link.0,
        None => false,
    }
}

/// The session that a link carries.
pub(crate) fn name_in(carries: Carried) -> Option<SessionName>
    ensures { result ≡ name_in carries }
{
    match carries {
        Carried::Nobody => None,
        Carried::Lent(name) => Some(name),
        Carried::Joined(name) => Some(name),
    }
}

/// The session that a link carries, where that is its client's present one.
pub(crate) fn present_on(tables: &Tables, link: LinkId) -> Option<SessionName>
    ensures { result ≡ present_in link (tables_of tables.now) }
{
    match server_of(tables, link) {
        Some(server) => {
            if server.row.lost || server.row.left.is_some() {
                None
            } else {
                name_in(server.row.link.state.carries)
            }
        }
        None => None,
    }
}

/// Whether its client's statement in work is in the hostgroup of a session.
pub(crate) fn works_in(tables: &Tables, name: SessionName) -> bool
    ensures { result ≡ is_worked_in name (tables_of tables.now) }
{
    match work_of(tables, name.client) {
        Some(work) => work.hostgroup.0 == name.hostgroup.0,
        None => false,
    }
}

/// Whether something may begin on a link.
pub(crate) fn may_begin(tables: &Tables, link: LinkId) -> bool
    ensures { result ≡ true → MayBegin link (tables_of tables.now) }
{
    match server_of(tables, link) {
        Some(server) => server.row.may_part(),
        None => false,
    }
}

/// The same session.
fn is_name(a: SessionName, b: SessionName) -> bool
    ensures { result ≡ same_name a b }
{
    a.client.0 == b.client.0 && (a.hostgroup.0 == b.hostgroup.0 && a.life == b.life)
}

// Whether a statement is in work, wasn't sent, and is of this session.
fn is_stated(row: &Client, name: SessionName) -> bool
    ensures { result ≡ is_stated name row.now }
{
    match &row.desk.work {
        Some(work) => !work.sent && is_name(name, row.desk.name(work.hostgroup)),
        None => false,
    }
}

/// Whether a client's statement may be written next that is due in its present session of this name.
pub(crate) fn may_state(tables: &Tables, name: SessionName) -> bool
    ensures { result ≡ true → (link : LinkId) → MayBegin link (tables_of tables.now)
        → MayState link name (tables_of tables.now) }
{
    match row_of(tables, name.client) {
        Some(row) => is_stated(row, name),
        None => false,
    }
}

/// Whether a step goes to a schema, to settings or to an insert id, or is a STMT_CLOSE or a STMT_RESET.
pub(crate) fn is_step(wish: &Wish) -> bool
    ensures { result ≡ true → IsStepBy wish.now }
{
    match wish {
        Wish::Schema(_) => true,
        Wish::Settings(_) => true,
        Wish::SetId(id) => {
            let _id = *id;
            true
        }
        Wish::Closes(_) => true,
        Wish::Resets(_) => true,
        _ => false,
    }
}

/// Whether what stands next is nothing, or a QUIT.
pub(crate) fn is_farewell(next: &Option<Begins>) -> bool
    ensures { result ≡ true → IsFarewellNext next.now }
{
    match next {
        None => true,
        Some(Begins::Quits) => true,
        _ => false,
    }
}
