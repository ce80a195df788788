// The tracks of all links, by place.
ghost use Rattle.std.specs.Prelude.{◌≡◌, ◌<◌, ◌≤◌, ◌==◌, ◌++◌, ◌+◌, ℕ, length, take, drop, min, true, Some, if◌then◌else◌, OnOk, IfOk, [], ◌∷◌, vec_len};
ghost use Rattle.mem_wire.specs.Lines.{marks_for, bytes_for};
ghost use Rattle.mem_wire.specs.Tracks.{track_at, place, SameTracks, ChangesTrack, Released, read_change, write_change};
ghost use Rattle.mem_wire.specs.Steps.{ReadsTrack, WritesTrack};
ghost use Rattle.mem_wire.specs.Naming.{may_be_ready};
ghost use Rattle.recording.specs.declared.entry.RecordLink.{RecordLink};

use crate::ending::Ending;
use crate::marks::Mark;
use crate::room::Room;
use crate::track::Track;
use mx_base::{Items, LinkId, OutOfMemory};
use mx_wire::{Got, Took};
use recording::{RecordEntry, RecordLink};
use std::alloc::Global;

/// The place of a link's track: clients stand at even places, and servers at odd ones.
pub(crate) fn place_of(name: RecordLink) -> usize
    ensures { result ≡ place name }
{
    match name {
        RecordLink::Client(n) => 2 * usize::from(n),
        RecordLink::Server(k) => 2 * usize::from(k) + 1,
    }
}

/// Makes tracks up to this place, which have nothing yet.
pub(crate) fn reach(alloc: Global, tracks: &mut Vec<Track>, at: usize) -> Result<(), OutOfMemory>
    ensures same { SameTracks tracks.old.items tracks.new.items }
    ensures reached { OnOk result (at < vec_len tracks.new) }
{
    while tracks.len() <= at {
        tracks.push(Track::new(alloc))?;
    }
    Ok(())
}

/// Gives bytes to a track.
pub(crate) fn give_bytes(
    alloc: Global,
    tracks: &mut Vec<Track>,
    at: usize,
    bytes: &[u8],
) -> Result<(), OutOfMemory>
    ensures { OnOk result (ChangesTrack at (λ t. record t { unread = t.unread ++ bytes.now }) tracks.old.items tracks.new.items) }
{
    reach(alloc, tracks, at)?;
    let track = &mut tracks[at];
    track.unread.push(bytes)
}

/// Gives a mark to a track.
pub(crate) fn give_mark(
    alloc: Global,
    tracks: &mut Vec<Track>,
    at: usize,
    mark: Mark,
) -> Result<(), OutOfMemory>
    ensures { OnOk result (ChangesTrack at (λ t. record t { marks = t.marks ++ mark ∷ [] }) tracks.old.items tracks.new.items) }
{
    reach(alloc, tracks, at)?;
    let track = &mut tracks[at];
    track.marks.push(mark)
}

/// Ends a track's link behind its bytes.
pub(crate) fn end_track(
    alloc: Global,
    tracks: &mut Vec<Track>,
    at: usize,
    ending: Ending,
) -> Result<(), OutOfMemory>
    ensures { OnOk result (ChangesTrack at (λ t. record t { ending = Some ending }) tracks.old.items tracks.new.items) }
{
    reach(alloc, tracks, at)?;
    let track = &mut tracks[at];
    track.ending = Some(ending);
    Ok(())
}

/// Limits the writes on a track's link.
pub(crate) fn limit_track(
    alloc: Global,
    tracks: &mut Vec<Track>,
    at: usize,
    room: Room,
) -> Result<(), OutOfMemory>
    ensures { OnOk result (ChangesTrack at (λ t. record t { room = Some room }) tracks.old.items tracks.new.items) }
{
    reach(alloc, tracks, at)?;
    let track = &mut tracks[at];
    track.room = Some(room);
    Ok(())
}

// Gives what the line has for its link to the link's track, in the wake of this line.
fn release_line(
    alloc: Global,
    tracks: &mut Vec<Track>,
    wake: usize,
    line: &RecordEntry,
) -> Result<(), OutOfMemory>
    ensures { OnOk result (Released wake (line.now ∷ []) tracks.old.items tracks.new.items) }
{
    match line {
        RecordEntry::Bytes { link, bytes } => {
            give_bytes(alloc, tracks, place_of(*link), bytes.as_slice())
        }
        RecordEntry::Exec { k } => {
            give_mark(alloc, tracks, place_of(RecordLink::Server(*k)), Mark::Exec)
        }
        RecordEntry::Drop { k } => {
            give_mark(alloc, tracks, place_of(RecordLink::Server(*k)), Mark::Drop)
        }
        RecordEntry::End { link } => end_track(alloc, tracks, place_of(*link), Ending::End),
        RecordEntry::Fail { link } => end_track(alloc, tracks, place_of(*link), Ending::Fail),
        RecordEntry::Take { link, n } => {
            limit_track(alloc, tracks, place_of(*link), Room { wake, left: *n })
        }
        RecordEntry::At { .. } | RecordEntry::Accept { .. } | RecordEntry::Refuse { .. } => Ok(()),
    }
}

/// Gives what the lines of a wake have to the tracks of their links.
pub(crate) fn release(
    alloc: Global,
    tracks: &mut Vec<Track>,
    wake: usize,
    lines: &[RecordEntry],
) -> Result<(), OutOfMemory>
    ensures { OnOk result (Released wake lines.now tracks.old.items tracks.new.items) }
{
    for line in lines {
        release_line(alloc, tracks, wake, line)?;
    }
    Ok(())
}

/// A copy of the marks of a track.
pub(crate) fn marks_at(
    alloc: Global,
    tracks: &[Track],
    at: usize,
) -> Result<Items<Mark>, OutOfMemory>
    ensures { IfOk result (λ marks. marks ≡ (track_at tracks.now at).marks) }
{
    match tracks.get(at) {
        Some(track) => Ok(Items::from_vec(track.marks.as_slice().to_vec(alloc)?)),
        None => Ok(Items::new(alloc)),
    }
}

/// The link of a track, once it has come.
pub(crate) fn link_at(tracks: &[Track], at: usize) -> Option<LinkId>
    ensures { result ≡ (track_at tracks.now at).link }
{
    match tracks.get(at) {
        Some(track) => track.link,
        None => None,
    }
}

/// Whether a track's link may be ready in the wake of this line, or in a later one without a line of it.
pub(crate) fn may_be_ready(tracks: &[Track], wake: usize, at: usize) -> bool
    ensures { result ≡ may_be_ready wake (track_at tracks.now at) }
{
    match tracks.get(at) {
        Some(track) => track.may_be_ready(wake),
        None => false,
    }
}

/// Reads of a track's link.
pub(crate) fn read_track(tracks: &mut Vec<Track>, at: usize, into: &mut [u8]) -> Got
    requires at { at < vec_len tracks.old }
    requires some { 0 < length into.old }
    ensures reads { ReadsTrack (track_at tracks.old.items at) into.old into.new result }
    ensures change { ChangesTrack at (read_change result) tracks.old.items tracks.new.items }
{
    let track = &mut tracks[at];
    track.read(into)
}

/// Writes so many bytes on a track's link, in the wake of this line.
pub(crate) fn write_track(tracks: &mut Vec<Track>, at: usize, wake: usize, size: usize) -> Took
    requires at { at < vec_len tracks.old }
    requires some { 0 < size }
    ensures writes { WritesTrack wake (track_at tracks.old.items at) size result }
    ensures change { ChangesTrack at (write_change result) tracks.old.items tracks.new.items }
{
    let track = &mut tracks[at];
    track.write(wake, size)
}

/// Closes the link of a track.
pub(crate) fn close_track(tracks: &mut Vec<Track>, at: usize)
    requires { at < vec_len tracks.old }
    ensures { ChangesTrack at (λ t. record t { closed = true }) tracks.old.items tracks.new.items }
{
    let track = &mut tracks[at];
    track.closed = true;
}

/// The wake of this line has named the link of a track.
pub(crate) fn name_track(tracks: &mut Vec<Track>, at: usize, wake: usize)
    requires { at < vec_len tracks.old }
    ensures { ChangesTrack at (λ t. record t { named = Some wake }) tracks.old.items tracks.new.items }
{
    let track = &mut tracks[at];
    track.named = Some(wake);
}
