// The steps of a play, call by call.
ghost use Rattle.std.specs.Prelude.{◌≡◌, ℕ, ◌+◌, ◌-◌, ◌*◌, ◌^◌, ◌<◌, ◌≤◌, ◌++◌, ◌∷◌, length, [], take, drop, min, true, slice_get, Some, None, OnOk, OnErr, IfOk, IfSome, vec_len};
ghost use Rattle.mem_wire.specs.Refusals.{Knows};
ghost use Rattle.mem_wire.specs.Tracks.{track_at, read_change, write_change};
ghost use Rattle.mx_wire.specs.Answers.{ReadsAtMost, TakesAtMost};
ghost use Rattle.mem_wire.specs.Steps.{clients_of, accepted_of, place_in, next_link, Wakes, Enters, Accepts, Asks, Opens, IsFirst, Moves, MovesAt, ReadsTrack, WritesTrack, KeepsPlaces};

use crate::late::Late;
use crate::lines::arrive;
use crate::refusals::Refusals;
use crate::stage::Stage;
use crate::tracks::{close_track, marks_at, name_track, reach, read_track, release, write_track};
use crate::turns::Turns;
use crate::waiting::Waiting;
use mx_base::{LinkId, OutOfMemory, Port};
use mx_wire::{Got, Took};
use recording::RecordEntry;
use std::alloc::Global;

/// The stage before the first call.
pub(crate) fn new_stage(alloc: Global) -> Stage
    ensures { IsFirst result }
{
    Stage {
        cut: 0,
        last: 0,
        traffic: Vec::new(alloc),
        admin: Vec::new(alloc),
        traffic_accepted: 0,
        admin_accepted: 0,
        tracks: Vec::new(alloc),
        places: Vec::new(alloc),
        opened: Vec::new(alloc),
        opens: 0,
        refusals: Refusals::new(),
        late: Late::none(alloc),
        turns: Turns::new(alloc),
    }
}

/// Releases lines, which stand behind the cut.
pub(crate) fn wake(
    stage: &mut Stage,
    alloc: Global,
    lines: &[RecordEntry],
) -> Result<(), OutOfMemory>
    requires { stage.old.cut + length lines.now < 2 ^ 64 }
    ensures ok { OnOk result (Wakes lines.now (stage.old.cut + length lines.now) stage.old stage.new) }
    ensures err { OnErr result (KeepsPlaces stage.old stage.new) }
{
    arrive(Port::Traffic, &mut stage.traffic, lines)?;
    arrive(Port::Admin, &mut stage.admin, lines)?;
    release(alloc, &mut stage.tracks, stage.cut, lines)?;
    stage.turns.wake(alloc, &stage.tracks, stage.cut, lines)?;
    stage.last = stage.cut;
    stage.cut += lines.len();
    stage.late.clear();
    Ok(())
}

/// The client that waits at the port as the next one.
pub(crate) fn next_client(stage: &Stage, port: Port) -> Option<Waiting>
    ensures { result ≡ slice_get (clients_of port stage.now) (accepted_of port stage.now) }
{
    match port {
        Port::Traffic => stage.traffic.get(stage.traffic_accepted).copied(),
        Port::Admin => stage.admin.get(stage.admin_accepted).copied(),
    }
}

/// The next link.
pub(crate) fn next_link(stage: &Stage) -> LinkId
    ensures { result ≡ next_link stage.now }
{
    LinkId(stage.places.len() as u64)
}

// The next link comes, and its track is at this place.
fn enter(stage: &mut Stage, alloc: Global, at: usize) -> Result<(), OutOfMemory>
    ensures enters { OnOk result (Enters at stage.old stage.new) }
    ensures err { OnErr result (KeepsPlaces stage.old stage.new) }
    ensures reached { OnOk result (at < vec_len stage.new.tracks) }
    ensures frame { OnOk result (stage.new ≡ record stage.old { tracks = stage.new.tracks; places = stage.new.places; turns = stage.new.turns }) }
{
    let link = next_link(stage);
    reach(alloc, &mut stage.tracks, at)?;
    stage.turns.join(link.0, at)?;
    stage.places.push(at)?;
    let track = &mut stage.tracks[at];
    track.link = Some(link);
    Ok(())
}

/// The client that waits at the port as the next one comes on the next link.
pub(crate) fn accept(
    stage: &mut Stage,
    alloc: Global,
    port: Port,
    number: u16,
) -> Result<(), OutOfMemory>
    requires { accepted_of port stage.old < length (clients_of port stage.old) }
    ensures ok { OnOk result (Accepts port number stage.old stage.new) }
    ensures err { OnErr result (KeepsPlaces stage.old stage.new) }
{
    enter(stage, alloc, 2 * usize::from(number))?;
    stage.late.clear();
    match port {
        Port::Traffic => stage.traffic_accepted += 1,
        Port::Admin => stage.admin_accepted += 1,
    }
    Ok(())
}

/// Whether the next open is refused. It counts, also where it is.
pub(crate) fn ask_open(
    stage: &mut Stage,
    alloc: Global,
    entries: &[RecordEntry],
) -> Result<bool, OutOfMemory>
    requires { Knows entries.now stage.old.refusals }
    ensures ok { IfOk result (λ refused. Asks entries.now refused stage.old stage.new) }
    ensures frame { stage.new ≡ record stage.old { opens = stage.new.opens; refusals = stage.new.refusals } }
    ensures knows { Knows entries.now stage.new.refusals }
{
    if stage.opens == u64::MAX {
        return Err(OutOfMemory);
    }
    stage.opens += 1;
    stage.refusals.has(alloc, entries, stage.opens)
}

/// The next link to a server comes, and its marks are late.
pub(crate) fn open(stage: &mut Stage, alloc: Global) -> Result<(), OutOfMemory>
    ensures ok { OnOk result (Opens stage.old stage.new) }
    ensures opens { OnOk result (stage.new.opens ≡ stage.old.opens) }
    ensures refusals { OnOk result (stage.new.refusals ≡ stage.old.refusals) }
    ensures err { OnErr result (KeepsPlaces stage.old stage.new) }
{
    let link = next_link(stage);
    stage.opened.push(link)?;
    let at = 2 * stage.opened.len() + 1;
    let marks = marks_at(alloc, &stage.tracks, at)?;
    enter(stage, alloc, at)?;
    stage.late = Late { link, marks };
    Ok(())
}

// The place of the link's track.
fn place_of_link(stage: &Stage, link: LinkId) -> Option<usize>
    ensures { result ≡ place_in stage.now link }
{
    if link.0 >= stage.places.len() as u64 {
        return None;
    }
    Some(stage.places[link.0 as usize])
}

/// Reads of the link.
pub(crate) fn read(stage: &mut Stage, link: LinkId, into: &mut [u8]) -> Got
    requires { 0 < length into.old }
    ensures bound { ReadsAtMost (length into.old) result }
    ensures reads { (at : ℕ) → place_in stage.old link ≡ Some at → at < length stage.old.tracks.items → ReadsTrack (track_at stage.old.tracks.items at) into.old into.new result }
    ensures moves { Moves link (read_change result) stage.old stage.new }
{
    stage.late.clear();
    let Some(at) = place_of_link(stage, link) else {
        return Got::NotReady;
    };
    if at >= stage.tracks.len() {
        return Got::NotReady;
    }
    read_track(&mut stage.tracks, at, into)
}

/// Writes so many bytes on the link.
pub(crate) fn write(stage: &mut Stage, link: LinkId, size: usize) -> Took
    requires { 0 < size }
    ensures bound { TakesAtMost size result }
    ensures writes { (at : ℕ) → place_in stage.old link ≡ Some at → at < length stage.old.tracks.items → WritesTrack stage.old.last (track_at stage.old.tracks.items at) size result }
    ensures moves { Moves link (write_change result) stage.old stage.new }
{
    stage.late.clear();
    let Some(at) = place_of_link(stage, link) else {
        return Took::NotReady;
    };
    if at >= stage.tracks.len() {
        return Took::NotReady;
    }
    write_track(&mut stage.tracks, at, stage.last, size)
}

/// The link is closed.
pub(crate) fn close(stage: &mut Stage, link: LinkId)
    ensures { Moves link (λ t. record t { closed = true }) stage.old stage.new }
{
    stage.late.clear();
    let Some(at) = place_of_link(stage, link) else {
        return;
    };
    if at < stage.tracks.len() {
        close_track(&mut stage.tracks, at);
    }
}

/// The link of the track at this place was named in this wake.
pub(crate) fn name(stage: &mut Stage, at: usize)
    ensures { MovesAt at (λ t. record t { named = Some stage.old.last }) stage.old stage.new }
{
    stage.late.clear();
    if at < stage.tracks.len() {
        name_track(&mut stage.tracks, at, stage.last);
    }
}
