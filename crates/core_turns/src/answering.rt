// The router answers a message itself.
ghost use Rattle.std.specs.Prelude.{◌≡◌, ℕ, List, Some, nat_eq, slice_index_or, IfOk, OnOk};
ghost use Rattle.log_story.specs.Plan.{com_reset};
ghost use Rattle.packet_frame.specs.Packets.{spellings};
ghost use Rattle.core_laws.specs.taking.Takes as takes;
ghost use Rattle.core_tables.specs.Tables.{tables_of};
ghost use Rattle.core_tables.specs.Taking.{IsUpOr};
ghost use Rattle.marked_tables.specs.Goes.{GoesOn};
ghost use Rattle.message_judge.specs.Told.{IsOwnTold, payloads_of};
ghost use Rattle.own_words.specs.Own.{IsOwnAnswer};
ghost use Rattle.core_promises.specs.Administers.{Makes};
ghost use Rattle.core_promises.specs.Judges.{IsToldFor};
ghost use Rattle.core_promises.specs.Ruled.{Ruling, situation_at};
ghost use Rattle.core_turns.specs.Taken.{IsAnswered, OnUp};

use command_parse::COM_RESET_CONNECTION;
use core_tables::Tables;
use marked_tables::MarkedTables;
use message_judge::{Told, write_told};
use mx_base::{ClientNo, OutOfMemory};
use std::alloc::Global;

// Whether the client begins anew by its message.
#[tactic(auto, unfolding(core_tables::specs::Tables::tables_of))]
fn begins_anew(tables: &Tables, client: ClientNo) -> bool
    requires { IsUpOr ((tables_of tables.now).clients client) }
    ensures { OnUp client (tables_of tables.now) (λ row message. result ≡ takes.is_reset message) }
{
    let Some(row) = tables.clients.get(&client.0) else {
        unreachable!()
    };
    is_reset(row.desk.seat.payload())
}

fn is_reset(payload: &[u8]) -> bool
    ensures { result ≡ nat_eq (slice_index_or payload.now 0 0) com_reset }
{
    match payload {
        [byte, ..] => *byte == COM_RESET_CONNECTION,
        _ => false,
    }
}

// The packets of what the router answers itself.
#[tactic(auto, unfolding(core_tables::specs::Tables::tables_of))]
fn packets_of(
    alloc: Global,
    tables: &Tables,
    client: ClientNo,
    told: &Told,
) -> Result<Vec<u8>, OutOfMemory>
    requires { IsUpOr ((tables_of tables.now).clients client) }
    ensures { IfOk result (λ packets. OnUp client (tables_of tables.now) (λ row message. packets.items
        ≡ spellings row.desk.seat.first (payloads_of client.0 told.now))) }
{
    let Some(row) = tables.clients.get(&client.0) else {
        unreachable!()
    };
    let mut packets = Vec::new(alloc);
    write_told(alloc, &mut packets, row.desk.seat.first, client, told)?;
    Ok(packets)
}

// It is told these packets. A client that begins anew leaves its sessions.
pub(crate) fn tell(
    marked: &mut MarkedTables,
    client: ClientNo,
    flag: u16,
    packets: &[u8],
) -> Result<(), OutOfMemory>
    requires { IsUpOr ((tables_of marked.old.tables).clients client) }
    ensures is { OnOk result ((ruling : Ruling) (payloads : List (List ℕ)) → IsOwnAnswer ruling.book.rules client payloads
        → OnUp client (tables_of marked.old.tables) (λ row message. packets.now ≡ spellings row.desk.seat.first payloads)
        → OnUp client (tables_of marked.old.tables)
        (λ row message. IsToldFor ruling.book (situation_at ruling.keys row.desk) client message.payload payloads
        → Makes row.desk.seat.port message.payload (Some payloads) ruling.was ruling.is
        → IsAnswered ruling client row message (tables_of marked.old.tables) (tables_of marked.new.tables))) }
    ensures goes { OnOk result (GoesOn marked.old marked.new) }
{
    if begins_anew(&marked.tables, client) {
        marked.begin_anew(client, flag, packets)
    } else {
        marked.answer(client, flag, packets)
    }
}

/// The router answers it itself.
pub(crate) fn answer(
    marked: &mut MarkedTables,
    alloc: Global,
    client: ClientNo,
    flag: u16,
    told: &Told,
) -> Result<(), OutOfMemory>
    requires { IsUpOr ((tables_of marked.old.tables).clients client) }
    ensures is { OnOk result ((ruling : Ruling) → IsOwnTold ruling.book.rules told.now
        → OnUp client (tables_of marked.old.tables)
        (λ row message. IsToldFor ruling.book (situation_at ruling.keys row.desk) client message.payload (payloads_of client.0 told.now)
        → Makes row.desk.seat.port message.payload (Some (payloads_of client.0 told.now)) ruling.was ruling.is
        → IsAnswered ruling client row message (tables_of marked.old.tables) (tables_of marked.new.tables))) }
    ensures goes { OnOk result (GoesOn marked.old marked.new) }
{
    let packets = packets_of(alloc, &marked.tables, client, told)?;
    tell(marked, client, flag, packets.as_slice())
}
