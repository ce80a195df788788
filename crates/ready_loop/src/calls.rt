// One call of the wire at a time, and what the machine is told of it.
ghost use Rattle.std.specs.Prelude.{◌≡◌, ◌+◌, ◌<◌, ◌≤◌, length, false, true, Some, OnOk, IfErr, OnErr, IsSome};
ghost use Rattle.mx_wire.specs.Tells.{Tells};
ghost use Rattle.mx_wire.specs.declared.entry.Entry.TheVariants as entry;
ghost use Rattle.ready_loop.specs.Drained.{DrainedFor};
ghost use Rattle.ready_loop.specs.Links.{is_read_dry, is_write_dry};
ghost use Rattle.ready_loop.specs.Serving.{IsWanted, Serves, IsGoing, Breaks, Begins, Proceeds, HasMade};

use crate::acts::come;
use crate::ends::unless_refused;
use crate::heard::{are_bytes, hear};
use crate::table::{Call, Table};
use crate::{Event, Machine, ServeEnd};
use mx_base::{LinkId, Port};
use mx_wire::{Accepted, Listened, Took, Wire, Woke};

/// Listens at the machine's address.
pub fn listen_once<M: Machine, W: Wire>(
    core: &M,
    wire: &mut W,
    table: &mut Table,
    port: Port,
) -> Result<(), ServeEnd>
    requires room { table.old.round.calls < 4294967296 }
    requires going { M.is_stopped core.now ≡ false }
    requires serves { Serves M.stands M.reads M.sends M.changed core.now table.old (W.told wire.old) }
    ensures serves { OnOk result (Serves M.stands M.reads M.sends M.changed core.now table.new (W.told wire.new)) }
    ensures told { OnOk result (Tells (W.told wire.old) (entry.Listening port (M.address_of core.now port)) (W.told wire.new)) }
    ensures failed { OnErr result (Tells (W.told wire.old) (entry.ListenFailed port) (W.told wire.new)) }
    ensures round { OnOk result (table.new.round ≡ record table.old.round { calls = table.old.round.calls + 1 }) }
    ensures wakes { table.new.round.wakes ≡ table.old.round.wakes }
    ensures ends { IfErr result (Breaks M.stands (IsWanted M.reads M.sends M.asks M.until M.awaits) M.serves_by M.is_stopped table.new.round.wakes core.now (W.told wire.new) (W.port_faults wire.old) (W.port_faults wire.new)) }
    ensures proceeds { Begins M.serves_by M.owes W.told W.ruled_by W.takes W.port_faults W.faults core.now core.now wire.old wire.new }
{
    M::quiet();
    table.round.calls += 1;
    match wire.listen(port, core.address(port)) {
        Listened::Done => Ok(()),
        Listened::Failed => Err(ServeEnd::ListenFault),
    }
}

/// Waits, and tells the machine of the wake.
pub fn wait_once<M: Machine, W: Wire>(
    core: &mut M,
    wire: &mut W,
    table: &mut Table,
) -> Result<(), ServeEnd>
    requires room { table.old.round.wakes < 18446744073709551615 }
    requires going { IsGoing M.stands M.reads M.sends M.changed M.is_stopped M.asks core.old table.old (W.told wire.old) }
    requires drained { DrainedFor (M.reads core.old) (M.sends core.old) (W.told wire.old) }
    ensures serves { OnOk result (Serves M.stands M.reads M.sends M.changed core.new table.new (W.told wire.new)) }
    ensures calls { OnOk result (table.new.round.calls ≡ 0) }
    ensures wakes { OnOk result (table.new.round.wakes ≡ table.old.round.wakes + 1) }
    ensures slept { OnErr result (table.new.round.wakes ≡ table.old.round.wakes) }
    ensures ends { IfErr result (Breaks M.stands (IsWanted M.reads M.sends M.asks M.until M.awaits) M.serves_by M.is_stopped table.new.round.wakes core.new (W.told wire.new) (W.port_faults wire.old) (W.port_faults wire.new)) }
    ensures proceeds { Proceeds M.serves_by M.owes W.told W.ruled_by W.takes W.port_faults W.faults core.old core.new wire.old wire.new }
{
    M::quiet();
    match wire.wait(core.until_ms()) {
        Woke::Woke { now_ms } => {
            core.take(Event::Woke { now_ms }, &mut [])?;
            table.round.woke();
            Ok(())
        }
        Woke::Over => Err(ServeEnd::Over),
        Woke::Failed => Err(ServeEnd::ListenFault),
    }
}

/// Takes the next client at a port.
pub fn accept_once<M: Machine, W: Wire>(
    core: &mut M,
    wire: &mut W,
    table: &mut Table,
    port: Port,
) -> Result<(), ServeEnd>
    requires room { table.old.round.calls < 4294967296 }
    requires going { IsGoing M.stands M.reads M.sends M.changed M.is_stopped M.asks core.old table.old (W.told wire.old) }
    ensures serves { OnOk result (Serves M.stands M.reads M.sends M.changed core.new table.new (W.told wire.new)) }
    ensures made { HasMade M.stands (IsWanted M.reads M.sends M.asks M.until M.awaits) M.is_stopped M.serves_by M.owes W.told W.ruled_by W.takes W.port_faults W.faults (Call.Accept port) core.old core.new wire.old wire.new table.old.round table.new.round result }
{
    M::quiet();
    table.round.calls += 1;
    match wire.accept(port) {
        Accepted::Link { id: link, salt } => {
            table.round.accepted(port, false);
            unless_refused(come(core, table, Event::Accepted { port, link, salt }, link))
        }
        Accepted::NotReady => {
            table.round.accepted(port, true);
            Ok(())
        }
        Accepted::Failed => Err(ServeEnd::ListenFault),
    }
}

/// Asks for the name of the next ready link.
pub fn name_once<M: Machine, W: Wire>(
    core: &M,
    wire: &mut W,
    table: &mut Table,
) -> Result<(), ServeEnd>
    requires room { table.old.round.calls < 4294967296 }
    requires going { IsGoing M.stands M.reads M.sends M.changed M.is_stopped M.asks core.now table.old (W.told wire.old) }
    ensures serves { OnOk result (Serves M.stands M.reads M.sends M.changed core.now table.new (W.told wire.new)) }
    ensures made { HasMade M.stands (IsWanted M.reads M.sends M.asks M.until M.awaits) M.is_stopped M.serves_by M.owes W.told W.ruled_by W.takes W.port_faults W.faults (Call.Name) core.now core.now wire.old wire.new table.old.round table.new.round result }
{
    M::quiet();
    table.round.calls += 1;
    match wire.next_ready() {
        Some(link) => unless_refused(table.links.named(link)),
        None => {
            table.round.named = true;
            Ok(())
        }
    }
}

/// Reads from a link.
pub fn read_once<M: Machine, W: Wire>(
    core: &mut M,
    wire: &mut W,
    table: &mut Table,
    link: LinkId,
    buffer: &mut [u8],
) -> Result<(), ServeEnd>
    requires whole { length buffer.old ≡ 65536 }
    requires room { table.old.round.calls < 4294967296 }
    requires wanted { M.reads core.old link ≡ true }
    requires wet { is_read_dry table.old.links link ≡ Some false }
    requires going { IsGoing M.stands M.reads M.sends M.changed M.is_stopped M.asks core.old table.old (W.told wire.old) }
    ensures serves { OnOk result (Serves M.stands M.reads M.sends M.changed core.new table.new (W.told wire.new)) }
    ensures made { HasMade M.stands (IsWanted M.reads M.sends M.asks M.until M.awaits) M.is_stopped M.serves_by M.owes W.told W.ruled_by W.takes W.port_faults W.faults (Call.Read link) core.old core.new wire.old wire.new table.old.round table.new.round result }
{
    M::quiet();
    table.round.calls += 1;
    let got = wire.read(link, buffer);
    are_bytes(buffer);
    let Some(told) = hear(link, got) else {
        table.links.read_dry(link);
        return Ok(());
    };
    unless_refused(core.take(told.event, &mut buffer[..told.length]))
}

/// Writes what the machine has for a link.
pub fn write_once<M: Machine, W: Wire>(
    core: &mut M,
    wire: &mut W,
    table: &mut Table,
    link: LinkId,
) -> Result<(), ServeEnd>
    requires room { table.old.round.calls < 4294967296 }
    requires some { IsSome (M.sends core.old link) }
    requires wet { is_write_dry table.old.links link ≡ Some false }
    requires going { IsGoing M.stands M.reads M.sends M.changed M.is_stopped M.asks core.old table.old (W.told wire.old) }
    ensures serves { OnOk result (Serves M.stands M.reads M.sends M.changed core.new table.new (W.told wire.new)) }
    ensures made { HasMade M.stands (IsWanted M.reads M.sends M.asks M.until M.awaits) M.is_stopped M.serves_by M.owes W.told W.ruled_by W.takes W.port_faults W.faults (Call.Write link) core.old core.new wire.old wire.new table.old.round table.new.round result }
{
    M::quiet();
    M::lends();
    let Some(piece) = core.outgoing(link) else {
        unreachable!()
    };
    table.round.calls += 1;
    match wire.write(link, piece.tag, piece.bytes) {
        Took::Took { n } => {
            core.taken(link, n);
            Ok(())
        }
        Took::NotReady => {
            table.links.write_dry(link);
            Ok(())
        }
        Took::Failed => unless_refused(core.take(Event::Failed { link }, &mut [])),
    }
}
