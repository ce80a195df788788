// A client's next message is taken up.
ghost use Rattle.std.specs.Prelude.{IfOk, IsSome, OnOk};
ghost use Rattle.core_turns.specs.Administering.{ruling_by};
ghost use Rattle.core_tables.specs.Tables.{tables_of};
ghost use Rattle.marked_tables.specs.Goes.{GoesOn};
ghost use Rattle.core_texts.specs.Texts.{AreMore};
ghost use Rattle.core_turns.specs.Turned.{IsTurned, IsTurnedIf};

use crate::administrator::Administrator;
use crate::looking::{is_away, waits};
use crate::sending::take_up;
use crate::turn::{Stop, Turn};
use admin_port::Running;
use client_seat::Next;
use core_service::Service;
use core_texts::Texts;
use hostgroups::Servers;
use marked_tables::MarkedTables;
use mx_base::{ClientNo, OutOfMemory};
use std::alloc::Global;

/// A client that is there is looked at, and its message taken up that is up.
#[tactic(auto, using(crate::proofs::Keys::same_texts))]
pub(crate) fn take_there(
    marked: &mut MarkedTables,
    texts: &mut Texts,
    admin: &mut Administrator,
    running: &Running<'_>,
    service: &Service,
    servers: &mut Servers,
    clock: u64,
    alloc: Global,
    client: ClientNo,
) -> Result<Turn, OutOfMemory>
    requires there { IsSome ((tables_of marked.old.tables).clients client) }
    ensures is { IfOk result (λ turn. IsTurned turn (ruling_by service.now texts.new admin.old admin.new) service.now.setup service.now.default_schema client
        (tables_of marked.old.tables) (tables_of marked.new.tables)) }
    ensures goes { OnOk result (GoesOn marked.old marked.new) }
    ensures more { OnOk result (AreMore texts.old texts.new) }
{
    if waits(&marked.tables, client)? {
        return Ok(Turn::Stops(Stop::Waits));
    }
    match marked.look(client, &service.setup, service.default_schema.as_slice())? {
        Next::Nothing => Ok(Turn::Stops(Stop::Rests)),
        Next::Ended => Ok(Turn::Stops(Stop::Ends)),
        Next::Message { ordinal } => {
            take_up(
                marked, texts, admin, running, service, servers, clock, alloc, client, ordinal,
            )
        }
    }
}

/// A client is looked at, and its message taken up that is up: judged by the rules and by what is known of the client, and answered by the
/// router, or due to a server. None where nobody has this number, or the client ended.
#[tactic(auto, using(crate::proofs::Keys::same_texts))]
pub fn take_next(
    marked: &mut MarkedTables,
    texts: &mut Texts,
    admin: &mut Administrator,
    running: &Running<'_>,
    service: &Service,
    servers: &mut Servers,
    clock: u64,
    alloc: Global,
    client: ClientNo,
) -> Result<Option<Turn>, OutOfMemory>
    ensures is { IfOk result (λ turn. IsTurnedIf turn (ruling_by service.now texts.new admin.old admin.new) service.now.setup service.now.default_schema
        client (tables_of marked.old.tables) (tables_of marked.new.tables)) }
    ensures goes { OnOk result (GoesOn marked.old marked.new) }
    ensures more { OnOk result (AreMore texts.old texts.new) }
{
    if is_away(&marked.tables, client) {
        return Ok(None);
    }
    let turn = take_there(
        marked, texts, admin, running, service, servers, clock, alloc, client,
    )?;
    Ok(Some(turn))
}
