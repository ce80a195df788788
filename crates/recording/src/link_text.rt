// The lines of one link in a transcript.
ghost use Rattle.std.specs.Prelude.{◌≡◌, ◌++◌, OnOk};
ghost use Rattle.std.specs.List.{flat_map, list_any};
ghost use Rattle.std.specs.Option.{option_map};
ghost use Rattle.recording.specs.Arrivals.{wrote_at, closes_at};
ghost use Rattle.recording.specs.Pieces.{run_start, piece, line_end};
ghost use Rattle.recording.specs.Places.{entries_at};
ghost use Rattle.recording.specs.Transcript.{link_lines, runs, run_line, is_closing, standing};

use crate::peer::Peer;
use crate::text::{is_same, put_hex, put_tag};
use mx_base::{Bytes, OutOfMemory, Tag};
use mx_wire::Entry;
use std::alloc::Global;

// The lines of a link whose entries stand at these places.
pub(crate) fn put_link(
    alloc: Global,
    out: &mut Bytes,
    peer: Peer,
    log: &[Entry],
    places: &[usize],
) -> Result<(), OutOfMemory>
    ensures { OnOk result (out.new ≡ out.old ++ link_lines peer (entries_at log.now places.now)) }
{
    out.append(b"link ")?;
    peer.put_title(out)?;
    put_standing(out, is_closed(log, places))?;
    put_runs(alloc, out, peer, log, places)
}

fn put_standing(out: &mut Bytes, closed: bool) -> Result<(), OutOfMemory>
    ensures { OnOk result (out.new ≡ out.old ++ standing closed) }
{
    if closed {
        out.append(b" closed\n")
    } else {
        out.append(b" open\n")
    }
}

fn is_closed(log: &[Entry], places: &[usize]) -> bool
    ensures { result ≡ list_any (closes_at log.now) places.now }
{
    places.iter().any(|place| closes(log, *place))
}

fn closes(log: &[Entry], place: usize) -> bool
    ensures { result ≡ closes_at log.now place }
{
    matches!(log.get(place), Some(Entry::Closed { .. }))
}

// A line for each run of a link's entries.
fn put_runs(
    alloc: Global,
    out: &mut Bytes,
    peer: Peer,
    log: &[Entry],
    places: &[usize],
) -> Result<(), OutOfMemory>
    ensures { OnOk result (let lines = flat_map (run_line peer) (runs (entries_at log.now places.now)) in
        out.new ≡ out.old ++ lines) }
{
    let mut last = None;
    for place in places {
        if let Some((tag, bytes)) = written(log, *place) {
            put_piece(alloc, out, peer, last, tag, bytes)?;
            last = Some(tag);
        }
    }
    put_line_end(out, last)
}

// What was written at the place.
fn written(log: &[Entry], place: usize) -> Option<(Tag, &[u8])>
    ensures { option_map (λ found. (found.0, found.1.now)) result ≡ wrote_at log.now place }
{
    match log.get(place) {
        Some(Entry::Wrote { tag, bytes, .. }) => Some((*tag, bytes.as_slice())),
        _ => None,
    }
}

fn put_line_end(out: &mut Bytes, last: Option<Tag>) -> Result<(), OutOfMemory>
    ensures { OnOk result (out.new ≡ out.old ++ line_end last) }
{
    match last {
        Some(_) => out.append(b"\n"),
        None => Ok(()),
    }
}

// One more piece that was written, behind a last one with this tag.
fn put_piece(
    alloc: Global,
    out: &mut Bytes,
    peer: Peer,
    last: Option<Tag>,
    tag: Tag,
    bytes: &[u8],
) -> Result<(), OutOfMemory>
    ensures { OnOk result (out.new ≡ out.old ++ piece peer last tag bytes.now) }
{
    match last {
        Some(last) => {
            if !is_same(last, tag) {
                out.append(b"\n")?;
                put_run_start(out, peer, tag)?;
            }
        }
        None => put_run_start(out, peer, tag)?,
    }
    put_hex(alloc, out, bytes)
}

fn put_run_start(out: &mut Bytes, peer: Peer, tag: Tag) -> Result<(), OutOfMemory>
    ensures { OnOk result (out.new ≡ out.old ++ run_start peer tag) }
{
    peer.put_name(out)?;
    out.append(b" ")?;
    put_tag(out, tag)?;
    out.append(b" ")
}
