// Whether a client may be looked at.
ghost use Rattle.std.specs.Prelude.{◌≡◌, IfOk, Some};
ghost use Rattle.std.specs.List.{list_all};
ghost use Rattle.core_tables.specs.Tables.{tables_of};
ghost use Rattle.core_tables.specs.declared.client.Client.{Client};
ghost use Rattle.core_laws.specs.clients.Turns.{waits_at};
ghost use Rattle.core_turns.specs.Turned.{IsLookable, has_life, is_able, is_away};

use client_desk::Session;
use client_seat::Phase;
use core_tables::{Client, Tables};
use mx_base::{ClientNo, OutOfMemory};
use session_state::is_pinned;

// Whether the insert id of its session is to be asked for first.
fn waits_for_capture(row: &Client) -> bool
    ensures { result ≡ waits_at row.now }
{
    let Some(hostgroup) = row.went else {
        return false;
    };
    let session = row.desk.session(hostgroup);
    !is_pinned(session.pin) && session.id.is_none()
}

fn have_lives(sessions: &[Session]) -> bool
    ensures { result ≡ list_all has_life sessions.now }
{
    sessions.iter().all(|session| session.life < u64::MAX)
}

// Its next message has a number, and so have the lives that it would begin.
fn is_able(row: &Client) -> bool
    ensures { result ≡ is_able row.now }
{
    row.desk.seat.client.arrived() < u64::MAX
        && row.desk.lefts < u64::MAX
        && have_lives(row.desk.sessions.as_slice())
}

/// Whether a client waits for a capture. It fails as where memory is short once numbers are: of a client that sent 2^64 messages, or left its
/// sessions as often.
#[tactic(auto, unfolding(core_tables::specs::Tables::tables_of))]
pub(crate) fn waits(tables: &Tables, client: ClientNo) -> Result<bool, OutOfMemory>
    ensures { IfOk result (λ waits. (row : Client) → (tables_of tables.now).clients client ≡ Some row
        → IsLookable waits row) }
{
    let Some(row) = tables.clients.get(&client.0) else {
        return Ok(false);
    };
    if is_able(row) {
        Ok(waits_for_capture(row))
    } else {
        Err(OutOfMemory)
    }
}

/// Whether nobody has this number, or the client ended.
#[tactic(auto, unfolding(core_tables::specs::Tables::tables_of))]
pub(crate) fn is_away(tables: &Tables, client: ClientNo) -> bool
    ensures { result ≡ is_away ((tables_of tables.now).clients client) }
{
    match tables.clients.get(&client.0) {
        Some(row) => match row.desk.seat.phase {
            Phase::Ended => true,
            _ => false,
        },
        None => true,
    }
}
