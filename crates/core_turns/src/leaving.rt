// A client leaves, or goes on and leaves.
ghost use Rattle.std.specs.Prelude.{ℕ, IfOk, List, OnOk};
ghost use Rattle.client_session.specs.Setups as setups;
ghost use Rattle.core_promises.specs.Ruled.{Ruling};
ghost use Rattle.core_turns.specs.Administering.{ruling_by};
ghost use Rattle.core_tables.specs.Tables.{Tabled, tables_of};
ghost use Rattle.core_laws.specs.clients.Turns.{Choice};
ghost use Rattle.marked_tables.specs.Goes.{GoesOn};
ghost use Rattle.core_texts.specs.Texts.{AreMore};
ghost use Rattle.core_turns.specs.Turned.{HasGoneOn, MayLeaveBy, RuledTurns, TurnsUntil, halt_of};

use crate::administrator::Administrator;
use crate::onward::go_on;
use crate::turn::{Stop, Went};
use admin_port::Running;
use core_service::Service;
use core_texts::Texts;
use hostgroups::Servers;
use marked_tables::MarkedTables;
use mx_base::{ClientNo, OutOfMemory};
use std::alloc::Global;

/// A client leaves behind its turns, where they stopped so that it is to.
pub fn leave(marked: &mut MarkedTables, client: ClientNo, stop: Stop) -> Result<(), OutOfMemory>
    requires { MayLeaveBy stop ((tables_of marked.old.tables).clients client) }
    ensures is { OnOk result ((ruling : Ruling) (setup : setups.Setup) (default : List ℕ) (choices : List Choice)
        (before : Tabled) → TurnsUntil ruling choices (halt_of stop) setup default client before (tables_of marked.old.tables)
        → RuledTurns ruling choices (halt_of stop) setup default client before (tables_of marked.new.tables)) }
    ensures goes { OnOk result (GoesOn marked.old marked.new) }
{
    match stop {
        Stop::Waits => Ok(()),
        Stop::Rests => Ok(()),
        Stop::Ends => {
            marked.end(client);
            Ok(())
        }
        Stop::Quits { flag } => marked.quit(client, flag),
    }
}

/// A client goes on, as by `go_on`, and leaves where it is to.
pub fn take_turns(
    marked: &mut MarkedTables,
    texts: &mut Texts,
    admin: &mut Administrator,
    running: &Running<'_>,
    service: &Service,
    servers: &mut Servers,
    clock: u64,
    alloc: Global,
    client: ClientNo,
) -> Result<Option<Went>, OutOfMemory>
    ensures is { IfOk result (λ went. HasGoneOn RuledTurns went (ruling_by service.now texts.new admin.old admin.new) service.now.setup service.now.default_schema
        client (tables_of marked.old.tables) (tables_of marked.new.tables)) }
    ensures goes { OnOk result (GoesOn marked.old marked.new) }
    ensures more { OnOk result (AreMore texts.old texts.new) }
{
    let Some(went) = go_on(
        marked, texts, admin, running, service, servers, clock, alloc, client,
    )?
    else {
        return Ok(None);
    };
    leave(marked, client, went.stop)?;
    Ok(Some(went))
}
