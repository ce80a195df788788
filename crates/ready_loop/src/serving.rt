// The serving loop.
ghost use Rattle.std.specs.Prelude.{◌≡◌, ◌≢◌, ◌<◌, ◌≤◌, ◌+◌, [], length, false, true, Some, OnOk, OnErr, IfErr, IfOk, None};
ghost use Rattle.mx_base.specs.declared.names.LinkId.{LinkId};
ghost use Rattle.mx_wire.specs.Log.{Log};
ghost use Rattle.mx_wire.specs.Offers.{HasOffered};
ghost use Rattle.ready_loop.specs.Drained.{DrainedFor};
ghost use Rattle.ready_loop.specs.Links.{mark_of};
ghost use Rattle.ready_loop.specs.Machine.{StandsFor};
ghost use Rattle.ready_loop.specs.Round.{CountsOf};
ghost use Rattle.ready_loop.specs.Serving.{IsWanted, Serves, IsGoing, Breaks, Ends, StoodFor, EndsWith, IsOver, IsPortFault, SpentFor, WokeFor, ListensFirst, ListeningFor, Begins, Proceeds, HasMade, IsOwed};

use crate::acts::do_acts;
use crate::calls::{accept_once, listen_once, name_once, read_once, wait_once, write_once};
use crate::ends::unless_refused;
use crate::links::Links;
use crate::round::Round;
use crate::table::{Call, Table};
use crate::{Machine, ServeEnd};
use mx_base::{OutOfMemory, Port};
use mx_wire::Wire;
use std::alloc::Global;

/// How many bytes one read takes at most.
const READ_SIZE: usize = 65_536;

// Puts the links that the machine names as changed into the queue.
fn queue_changed<M: Machine, W: Wire>(
    core: &mut M,
    wire: &W,
    table: &mut Table,
) -> Result<(), OutOfMemory>
    requires serves { Serves M.stands M.reads M.sends M.changed core.old table.old (W.told wire.now) }
    ensures serves { OnOk result (Serves M.stands M.reads M.sends M.changed core.new table.new (W.told wire.now)) }
    ensures calm { OnOk result ((link : LinkId) → M.changed core.new link ≡ false) }
    ensures stopped { M.is_stopped core.new ≡ M.is_stopped core.old }
    ensures acted { M.asks core.new ≡ M.asks core.old }
    ensures round { table.new.round ≡ table.old.round }
    ensures broke { OnErr result (StoodFor M.stands (IsWanted M.reads M.sends M.asks M.until M.awaits) M.serves_by core.new (W.told wire.now)) }
    ensures serves_by { M.serves_by core.new ≡ M.serves_by core.old }
{
    while let Some(link) = core.next_changed() {
        table.links.enqueue(link)?;
    }
    Ok(())
}

// After a call: the machine's acts are done, and the links that it then names are queued.
fn follow<M: Machine, W: Wire>(
    core: &mut M,
    wire: &mut W,
    table: &mut Table,
) -> Result<(), ServeEnd>
    requires serves { Serves M.stands M.reads M.sends M.changed core.old table.old (W.told wire.old) }
    ensures going { OnOk result (IsGoing M.stands M.reads M.sends M.changed M.is_stopped M.asks core.new table.new (W.told wire.new)) }
    ensures calm { OnOk result ((link : LinkId) → M.changed core.new link ≡ false) }
    ensures room { OnOk result (table.new.round.calls < 4294967296) }
    ensures more { OnOk result (table.old.round.calls ≤ table.new.round.calls) }
    ensures wakes { table.new.round.wakes ≡ table.old.round.wakes }
    ensures ends { IfErr result (Breaks M.stands (IsWanted M.reads M.sends M.asks M.until M.awaits) M.serves_by M.is_stopped table.new.round.wakes core.new (W.told wire.new) (W.port_faults wire.old) (W.port_faults wire.new)) }
    ensures proceeds { Proceeds M.serves_by M.owes W.told W.ruled_by W.takes W.port_faults W.faults core.old core.new wire.old wire.new }
{
    do_acts(core, wire, table)?;
    if core.stopped() {
        return Err(ServeEnd::Stopped);
    }
    unless_refused(queue_changed(core, wire, table))
}

fn make_call<M: Machine, W: Wire>(
    core: &mut M,
    wire: &mut W,
    table: &mut Table,
    buffer: &mut [u8],
    call: Call,
) -> Result<(), ServeEnd>
    requires whole { length buffer.old ≡ 65536 }
    requires room { table.old.round.calls < 4294967296 }
    requires going { IsGoing M.stands M.reads M.sends M.changed M.is_stopped M.asks core.old table.old (W.told wire.old) }
    requires owed { IsOwed (M.reads core.old) (M.sends core.old) table.old call }
    ensures serves { OnOk result (Serves M.stands M.reads M.sends M.changed core.new table.new (W.told wire.new)) }
    ensures made { HasMade M.stands (IsWanted M.reads M.sends M.asks M.until M.awaits) M.is_stopped M.serves_by M.owes W.told W.ruled_by W.takes W.port_faults W.faults call core.old core.new wire.old wire.new table.old.round table.new.round result }
{
    match call {
        Call::Accept { port } => accept_once(core, wire, table, port),
        Call::Name => name_once(core, wire, table),
        Call::Read { link } => read_once(core, wire, table, link, buffer),
        Call::Write { link } => write_once(core, wire, table, link),
    }
}

// Does what the machine asks for and makes the calls that are owed, until none is left before the next wait.
fn settle<M: Machine, W: Wire>(
    core: &mut M,
    wire: &mut W,
    table: &mut Table,
    buffer: &mut [u8],
) -> Result<(), ServeEnd>
    requires whole { length buffer.old ≡ 65536 }
    requires serves { Serves M.stands M.reads M.sends M.changed core.old table.old (W.told wire.old) }
    ensures going { OnOk result (IsGoing M.stands M.reads M.sends M.changed M.is_stopped M.asks core.new table.new (W.told wire.new)) }
    ensures drained { OnOk result (DrainedFor (M.reads core.new) (M.sends core.new) (W.told wire.new)) }
    ensures wakes { table.new.round.wakes ≡ table.old.round.wakes }
    ensures ends { IfErr result (Breaks M.stands (IsWanted M.reads M.sends M.asks M.until M.awaits) M.serves_by M.is_stopped table.new.round.wakes core.new (W.told wire.new) (W.port_faults wire.old) (W.port_faults wire.new)) }
    ensures proceeds { Proceeds M.serves_by M.owes W.told W.ruled_by W.takes W.port_faults W.faults core.old core.new wire.old wire.new }
{
    loop {
        follow(core, wire, table)?;
        let Some(call) = table.owed(core) else {
            return Ok(());
        };
        make_call(core, wire, table, buffer, call)?;
    }
}

fn serve_turns<M: Machine, W: Wire>(
    core: &mut M,
    wire: &mut W,
    table: &mut Table,
    buffer: &mut [u8],
    turns: u64,
) -> ServeEnd
    requires whole { length buffer.old ≡ 65536 }
    requires wakes { table.old.round.wakes ≡ 0 }
    requires serves { Serves M.stands M.reads M.sends M.changed core.old table.old (W.told wire.old) }
    ensures ends { Ends M.stands (IsWanted M.reads M.sends M.asks M.until M.awaits) M.serves_by M.is_stopped turns (SpentFor turns (M.reads core.new) (M.sends core.new)) core.new (W.told wire.new) result }
    ensures rose { result ≡ ServeEnd.ListenFault → W.port_faults wire.old < W.port_faults wire.new }
    ensures proceeds { Proceeds M.serves_by M.owes W.told W.ruled_by W.takes W.port_faults W.faults core.old core.new wire.old wire.new }
{
    if let Err(end) = settle(core, wire, table, buffer) {
        return end;
    }
    while table.round.wakes < turns {
        if let Err(end) = wait_once(core, wire, table) {
            return end;
        }
        if let Err(end) = settle(core, wire, table, buffer) {
            return end;
        }
    }
    ServeEnd::TurnsSpent
}

// Takes room for links on the wire, and listens at both ports.
fn start<M: Machine, W: Wire>(core: &M, wire: &mut W, table: &mut Table) -> Result<(), ServeEnd>
    requires fresh { (log : Log) → W.told wire.old ≡ Some log → log ≡ [] }
    requires calls { table.old.round.calls ≡ 0 }
    requires going { M.is_stopped core.now ≡ false }
    requires serves { Serves M.stands M.reads M.sends M.changed core.now table.old (W.told wire.old) }
    ensures serves { OnOk result (Serves M.stands M.reads M.sends M.changed core.now table.new (W.told wire.new)) }
    ensures wakes { table.new.round.wakes ≡ table.old.round.wakes }
    ensures listening { OnOk result (ListeningFor (M.address_of core.now Port.Traffic) (M.address_of core.now Port.Admin) (W.told wire.new)) }
    ensures listens { OnErr result (ListensFirst (M.address_of core.now Port.Traffic) (M.address_of core.now Port.Admin) (W.told wire.new)) }
    ensures ends { IfErr result (Breaks M.stands (IsWanted M.reads M.sends M.asks M.until M.awaits) M.serves_by M.is_stopped table.new.round.wakes core.now (W.told wire.new) (W.port_faults wire.old) (W.port_faults wire.new)) }
    ensures proceeds { Begins M.serves_by M.owes W.told W.ruled_by W.takes W.port_faults W.faults core.now core.now wire.old wire.new }
{
    wire.reserve(core.most_links())?;
    listen_once(core, wire, table, Port::Traffic)?;
    listen_once(core, wire, table, Port::Admin)
}

// The table and the buffer of a loop.
fn make_room(alloc: Global, most: u32) -> Result<(Table, Vec<u8>), OutOfMemory>
    ensures links { IfOk result (λ made. (link : LinkId) → mark_of made.0.links link ≡ None) }
    ensures counts { IfOk result (λ made. CountsOf made.0.round []) }
    ensures calls { IfOk result (λ made. made.0.round.calls ≡ 0) }
    ensures wakes { IfOk result (λ made. made.0.round.wakes ≡ 0) }
    ensures size { IfOk result (λ made. length made.1.items ≡ 65536) }
{
    let table = Table {
        links: Links::with_room(alloc, most)?,
        round: Round::new(),
    };
    Ok((table, vec![in alloc; 0u8; READ_SIZE]?))
}

/// Serves a machine over a wire, for `turns` waits at most. Room for `most_links` links is taken first; then the
/// loop listens at both addresses, traffic first, before any other call and at no others, does what the machine asks
/// for, and then waits. Each wake is told to the machine; then clients are accepted, traffic first, ready links are
/// named, and the links are served in the order named: each is read while the machine wants it and then written while
/// it has something, until the wire is not ready. After each call the machine's acts are done in order, so that it asks
/// for none at a wait.
///
/// Stopped comes where the machine stopped, Over where a wait answered Over, ListenFault where a port or a wait
/// failed, TurnsSpent where a further wait is due after `turns` of them, or 4,294,967,296 calls of the wire were made
/// since the last wake, and OutOfMemory where memory was refused: by then a machine stood for the log, but for the
/// answer of the last call, which it wanted.
pub fn serve<M: Machine, W: Wire>(alloc: Global, core: &mut M, wire: &mut W, turns: u64) -> ServeEnd
    requires fresh { (log : Log) → W.told wire.old ≡ Some log → log ≡ [] }
    requires stands { StandsFor M.stands core.old (W.told wire.old) }
    requires going { M.is_stopped core.old ≡ false }
    ensures stands { result ≢ ServeEnd.OutOfMemory → StandsFor M.stands core.new (W.told wire.new) }
    ensures broke { result ≡ ServeEnd.OutOfMemory → StoodFor M.stands (IsWanted M.reads M.sends M.asks M.until M.awaits) M.serves_by core.new (W.told wire.new) }
    ensures stopped { result ≡ ServeEnd.Stopped → M.is_stopped core.new ≡ true }
    ensures going { result ≢ ServeEnd.Stopped → result ≢ ServeEnd.OutOfMemory → M.is_stopped core.new ≡ false }
    ensures over { result ≡ ServeEnd.Over → EndsWith IsOver (W.told wire.new) }
    ensures rose { result ≡ ServeEnd.ListenFault → W.port_faults wire.old < W.port_faults wire.new }
    ensures failed { result ≡ ServeEnd.ListenFault → EndsWith IsPortFault (W.told wire.new) }
    ensures spent { result ≡ ServeEnd.TurnsSpent → SpentFor turns (M.reads core.new) (M.sends core.new) (W.told wire.new) }
    ensures wakes { result ≢ ServeEnd.OutOfMemory → WokeFor turns (W.told wire.new) }
    ensures listens { ListensFirst (M.address_of core.old Port.Traffic) (M.address_of core.old Port.Admin) (W.told wire.new) }
    ensures offered { HasOffered (M.owes (M.serves_by core.old)) (W.takes (W.ruled_by wire.old)) (W.told wire.new) }
    ensures ruled_by { W.ruled_by wire.new ≡ W.ruled_by wire.old }
    ensures port_faults { W.port_faults wire.old ≤ W.port_faults wire.new }
    ensures faults { W.faults wire.old ≤ W.faults wire.new }
    ensures serves_by { M.serves_by core.new ≡ M.serves_by core.old }
{
    let Ok((mut table, mut buffer)) = make_room(alloc, core.most_links()) else {
        return ServeEnd::OutOfMemory;
    };
    match start(core, wire, &mut table) {
        Ok(()) => serve_turns(core, wire, &mut table, &mut buffer, turns),
        Err(end) => end,
    }
}
