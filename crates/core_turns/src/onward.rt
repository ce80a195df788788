// A client's messages are taken up, as many as can be.
ghost use Rattle.std.specs.Prelude.{IfOk, IsSome, OnOk};
ghost use Rattle.core_turns.specs.Administering.{ruling_by};
ghost use Rattle.core_tables.specs.Tables.{tables_of};
ghost use Rattle.marked_tables.specs.Goes.{GoesOn};
ghost use Rattle.core_texts.specs.Texts.{AreMore};
ghost use Rattle.core_turns.specs.Turned.{HasGoneFurther, HasGoneOn, MayLeaveIf, TurnsUntil};

use crate::administrator::Administrator;
use crate::looking::is_away;
use crate::taking::take_there;
use crate::turn::{Stop, Turn, Went};
use admin_port::Running;
use core_service::Service;
use core_texts::Texts;
use hostgroups::Servers;
use marked_tables::MarkedTables;
use mx_base::{ClientNo, Hostgroup, OutOfMemory};
use std::alloc::Global;

// One message is taken up; it answers why none is.
fn go_further(
    marked: &mut MarkedTables,
    texts: &mut Texts,
    admin: &mut Administrator,
    running: &Running<'_>,
    service: &Service,
    servers: &mut Servers,
    clock: u64,
    alloc: Global,
    client: ClientNo,
    due: &mut Option<Hostgroup>,
) -> Result<Option<Stop>, OutOfMemory>
    requires there { IsSome ((tables_of marked.old.tables).clients client) }
    ensures is { IfOk result (λ stop. HasGoneFurther stop (ruling_by service.now texts.new admin.old admin.new) service.now.setup service.now.default_schema
        client (tables_of marked.old.tables) (tables_of marked.new.tables)) }
    ensures there { OnOk result (IsSome ((tables_of marked.new.tables).clients client)) }
    ensures goes { OnOk result (GoesOn marked.old marked.new) }
    ensures more { OnOk result (AreMore texts.old texts.new) }
{
    match take_there(
        marked, texts, admin, running, service, servers, clock, alloc, client,
    )? {
        Turn::Stops(stop) => Ok(Some(stop)),
        Turn::Answered => Ok(None),
        Turn::Due { hostgroup } => {
            *due = Some(hostgroup);
            Ok(None)
        }
    }
}

/// A client's messages are taken up, one after another, until none can be. Of these one at most becomes due to a server, since nothing is up
/// behind it until it is answered. A client that is to leave is still there. None where nobody has this number, or the client ended.
#[tactic(auto, using(crate::proofs::Keys::same_texts))]
pub fn go_on(
    marked: &mut MarkedTables,
    texts: &mut Texts,
    admin: &mut Administrator,
    running: &Running<'_>,
    service: &Service,
    servers: &mut Servers,
    clock: u64,
    alloc: Global,
    client: ClientNo,
) -> Result<Option<Went>, OutOfMemory>
    ensures is { IfOk result (λ went. HasGoneOn TurnsUntil went (ruling_by service.now texts.new admin.old admin.new) service.now.setup service.now.default_schema
        client (tables_of marked.old.tables) (tables_of marked.new.tables)) }
    ensures leaves { IfOk result (λ went. MayLeaveIf went ((tables_of marked.new.tables).clients client)) }
    ensures goes { OnOk result (GoesOn marked.old marked.new) }
    ensures more { OnOk result (AreMore texts.old texts.new) }
{
    if is_away(&marked.tables, client) {
        return Ok(None);
    }
    let mut due = None;
    'turns: for _ in 0..u64::MAX {
        if let Some(stop) = go_further(
            marked, texts, admin, running, service, servers, clock, alloc, client, &mut due,
        )? {
            return Ok(Some(Went { due, stop }));
        }
    }
    Err(OutOfMemory)
}
