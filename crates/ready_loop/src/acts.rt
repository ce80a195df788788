// What a machine asks for is done, in order.
ghost use Rattle.std.specs.Prelude.{◌≡◌, ◌<◌, ◌≤◌, OnOk, OnErr, IfErr, IfOk, Some, None, true, false, if◌then◌else◌, [], ◌∷◌, ◌++◌};
ghost use Rattle.mx_wire.specs.Tells.{OpenFor};
ghost use Rattle.mx_wire.specs.declared.entry.Entry.{Entry};
ghost use Rattle.ready_loop.specs.Changes.{ChangesOnly};
ghost use Rattle.ready_loop.specs.Drained.{IsDue};
ghost use Rattle.ready_loop.specs.Machine.{Target, IsHeard, HasActed, IsToldOf, CarriesOver};
ghost use Rattle.ready_loop.specs.Serving.{IsWanted, Serves, Breaks, StoodFor, Proceeds, TracksFor, IsOffered, OwedFor, Parts, offered_round};
ghost use Rattle.ready_loop.specs.Links.{Marks};

use crate::table::Table;
use crate::{Act, Event, Machine, ServeEnd};
use mx_base::{Address, LinkId, OutOfMemory, ServerId};
use mx_wire::{Opened, Wire};

/// How many calls of the wire one wake makes at most, and the loop before the first. A close and the write that is offered before it are one step,
/// so that they may be one call more.
pub const CALLS_PER_WAKE: u64 = 4_294_967_296;

/// A link comes: it joins the queue, and the machine is told of it.
pub fn come<M: Machine>(
    core: &mut M,
    table: &mut Table,
    event: Event,
    link: LinkId,
) -> Result<(), OutOfMemory>
    requires heard { IsHeard (M.awaits core.old) event }
    requires acted { HasActed (M.asks core.old) event }
    ensures carries { OnOk result ((e : Entry) → IsToldOf (M.until core.old) (M.awaits core.old) event [] e → CarriesOver M.stands (IsDue M.reads M.sends M.asks) core.old core.new e) }
    ensures changes { OnOk result (ChangesOnly M.changed M.reads M.sends core.old core.new) }
    ensures marks { OnOk result (Marks table.old.links table.new.links link (Some (record { read = false; write = false; queued = true }))) }
    ensures queue { OnOk result (table.new.links.queue.items ≡ table.old.links.queue.items ++ link ∷ []) }
    ensures round { table.new.round ≡ table.old.round }
    ensures serves_by { M.serves_by core.new ≡ M.serves_by core.old }
{
    table.links.opened(link)?;
    core.take(event, &mut [])
}

fn open_link<M: Machine, W: Wire>(
    core: &mut M,
    wire: &mut W,
    table: &mut Table,
    server: ServerId,
    address: Address,
) -> Result<(), OutOfMemory>
    requires room { table.old.round.calls < 4294967296 }
    requires awaited { M.awaits core.old ≡ Some (record { server = server; address = address }) }
    requires serves { Serves M.stands M.reads M.sends M.changed core.old table.old (W.told wire.old) }
    ensures serves { OnOk result (Serves M.stands M.reads M.sends M.changed core.new table.new (W.told wire.new)) }
    ensures more { OnOk result (table.old.round.calls < table.new.round.calls) }
    ensures wakes { table.new.round.wakes ≡ table.old.round.wakes }
    ensures broke { OnErr result (StoodFor M.stands (IsWanted M.reads M.sends M.asks M.until M.awaits) M.serves_by core.new (W.told wire.new)) }
    ensures proceeds { Proceeds M.serves_by M.owes W.told W.ruled_by W.takes W.port_faults W.faults core.old core.new wire.old wire.new }
{
    M::quiet();
    table.round.calls += 1;
    match wire.open(server, address) {
        Opened::Link { id: link } => come(core, table, Event::Opened { server, link }, link),
        Opened::Failed => core.take(Event::OpenFailed { server }, &mut []),
    }
}

// Offers a link's bytes to one write before it closes.
fn offer<M: Machine, W: Wire>(core: &M, wire: &mut W, table: &mut Table, link: LinkId)
    requires room { table.old.round.calls < 4294967296 }
    requires opened { OpenFor (W.told wire.old) link }
    requires owed { OwedFor (M.owes (M.serves_by core.now)) (M.sends core.now link) link (W.told wire.old) }
    ensures offered { IsOffered (M.sends core.now link) link (W.told wire.old) (W.told wire.new) }
    ensures links { table.new.links ≡ table.old.links }
    ensures round { table.new.round ≡ offered_round (M.sends core.now link) table.old.round }
    ensures proceeds { Proceeds M.serves_by M.owes W.told W.ruled_by W.takes W.port_faults W.faults core.now core.now wire.old wire.new }
{
    let Some(piece) = core.outgoing(link) else {
        return;
    };
    table.round.calls += 1;
    let _ = wire.write(link, piece.tag, piece.bytes);
}

// Parts with a link: its bytes are offered to one write, and it is closed.
fn close_link<M: Machine, W: Wire>(core: &M, wire: &mut W, table: &mut Table, link: LinkId)
    requires room { table.old.round.calls < 4294967296 }
    requires opened { OpenFor (W.told wire.old) link }
    requires owed { OwedFor (M.owes (M.serves_by core.now)) (M.sends core.now link) link (W.told wire.old) }
    requires tracks { TracksFor table.old (W.told wire.old) }
    ensures parts { Parts (M.sends core.now link) link (W.told wire.old) (W.told wire.new) }
    ensures tracks { TracksFor table.new (W.told wire.new) }
    ensures marks { Marks table.old.links table.new.links link None }
    ensures queue { table.new.links.queue.items ≡ table.old.links.queue.items }
    ensures more { table.old.round.calls < table.new.round.calls }
    ensures wakes { table.new.round.wakes ≡ table.old.round.wakes }
    ensures proceeds { Proceeds M.serves_by M.owes W.told W.ruled_by W.takes W.port_faults W.faults core.now core.now wire.old wire.new }
{
    offer(core, wire, table, link);
    table.round.calls += 1;
    wire.close(link);
    table.links.closed(link);
}

// Does the next act. False where there is none.
fn act_once<M: Machine, W: Wire>(
    core: &mut M,
    wire: &mut W,
    table: &mut Table,
) -> Result<bool, OutOfMemory>
    requires room { table.old.round.calls < 4294967296 }
    requires serves { Serves M.stands M.reads M.sends M.changed core.old table.old (W.told wire.old) }
    ensures serves { OnOk result (Serves M.stands M.reads M.sends M.changed core.new table.new (W.told wire.new)) }
    ensures more { IfOk result (λ went. went ≡ true → table.old.round.calls < table.new.round.calls) }
    ensures none { IfOk result (λ went. went ≡ false → table.new.round ≡ table.old.round) }
    ensures acted { IfOk result (λ went. went ≡ false → M.asks core.new ≡ false) }
    ensures wakes { table.new.round.wakes ≡ table.old.round.wakes }
    ensures broke { OnErr result (StoodFor M.stands (IsWanted M.reads M.sends M.asks M.until M.awaits) M.serves_by core.new (W.told wire.new)) }
    ensures proceeds { Proceeds M.serves_by M.owes W.told W.ruled_by W.takes W.port_faults W.faults core.old core.new wire.old wire.new }
{
    M::quiet();
    match core.next_act() {
        None => Ok(false),
        Some(Act::Open { server, address }) => {
            open_link(core, wire, table, server, address)?;
            Ok(true)
        }
        Some(Act::Close { link }) => {
            close_link(core, wire, table, link);
            Ok(true)
        }
    }
}

/// Does all that the machine asks for, in order. Ends with Stopped or TurnsSpent where the wake made as many calls
/// as it may, and with OutOfMemory.
pub fn do_acts<M: Machine, W: Wire>(
    core: &mut M,
    wire: &mut W,
    table: &mut Table,
) -> Result<(), ServeEnd>
    requires serves { Serves M.stands M.reads M.sends M.changed core.old table.old (W.told wire.old) }
    ensures serves { OnOk result (Serves M.stands M.reads M.sends M.changed core.new table.new (W.told wire.new)) }
    ensures acted { OnOk result (M.asks core.new ≡ false) }
    ensures room { OnOk result (table.new.round.calls < 4294967296) }
    ensures more { OnOk result (table.old.round.calls ≤ table.new.round.calls) }
    ensures wakes { table.new.round.wakes ≡ table.old.round.wakes }
    ensures ends { IfErr result (Breaks M.stands (IsWanted M.reads M.sends M.asks M.until M.awaits) M.serves_by M.is_stopped table.new.round.wakes core.new (W.told wire.new) (W.port_faults wire.old) (W.port_faults wire.new)) }
    ensures proceeds { Proceeds M.serves_by M.owes W.told W.ruled_by W.takes W.port_faults W.faults core.old core.new wire.old wire.new }
{
    while table.round.calls < CALLS_PER_WAKE {
        if !act_once(core, wire, table)? {
            return Ok(());
        }
    }
    Err(spent(core))
}

// Why a loop ends whose wake made as many calls as it may.
pub fn spent<M: Machine>(core: &M) -> ServeEnd
    ensures { result ≡ (if M.is_stopped core.now then ServeEnd.Stopped else ServeEnd.TurnsSpent) }
{
    if core.stopped() {
        ServeEnd::Stopped
    } else {
        ServeEnd::TurnsSpent
    }
}
