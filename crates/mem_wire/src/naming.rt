// The links that a wake names.
ghost use Rattle.std.specs.Prelude.{◌≡◌, ℕ, ◌≤◌, slice_get, false, Some, None, IfSome, IfNone};
ghost use Rattle.std.specs.Ordering.{nat_cmp};
ghost use Rattle.std.specs.BTreeMap.{get};
ghost use Rattle.std.specs.BTreeSet.{contains};
ghost use Rattle.mem_wire.specs.Naming.{named_at};
ghost use Rattle.mem_wire.specs.Turns.{PassesLines, StopsAtLine, PassesLinks, StopsAtLink, Searches};

use crate::stage::Stage;
use crate::track::Track;
use crate::tracks::may_be_ready;
use crate::turns::Turns;
use mx_base::LinkId;

/// A link that is to be named, and the place of its track.
#[derive(Clone, Copy)]
pub(crate) struct ToName {
    pub at: usize,
    pub link: LinkId,
}

// The link of the track at this place, where the wake of this line is still to name it.
fn link_to_name(tracks: &[Track], wake: usize, at: usize) -> Option<LinkId>
    ensures { result ≡ named_at wake tracks.now at }
{
    if at >= tracks.len() {
        return None;
    }
    let track = &tracks[at];
    if track.closed || !track.is_ready(wake) {
        return None;
    }
    if let Some(named) = track.named {
        if named == wake {
            return None;
        }
    }
    track.link
}

// Looks for the earliest line whose link is to be named.
fn search_lines(turns: &mut Turns, tracks: &[Track], wake: usize) -> Option<ToName>
    ensures passes { PassesLines wake tracks.now turns.old turns.new }
    ensures some { IfSome result (λ t. StopsAtLine wake tracks.now turns.new t) }
    ensures none { IfNone result ((line : ℕ) → get nat_cmp turns.new.lines line ≡ None) }
{
    while let Some((line, at)) = turns.first_line() {
        if let Some(link) = link_to_name(tracks, wake, at) {
            return Some(ToName { at, link });
        }
        turns.lines.remove(&line);
    }
    None
}

// Looks for the first link that is to be named.
fn search_links(
    turns: &mut Turns,
    tracks: &[Track],
    places: &[usize],
    wake: usize,
) -> Option<ToName>
    ensures passes { PassesLinks wake tracks.now places.now turns.old turns.new }
    ensures some { IfSome result (λ t. StopsAtLink wake tracks.now places.now turns.new t) }
    ensures none { IfNone result ((n at : ℕ) → turns.new.link ≤ n → slice_get places.now n ≡ Some at → contains nat_cmp turns.new.pending n ≡ false) }
{
    while let Some(number) = turns.next_pending() {
        if number >= places.len() as u64 {
            return None;
        }
        let at = places[number as usize];
        turns.link = number;
        if let Some(link) = link_to_name(tracks, wake, at) {
            return Some(ToName { at, link });
        }
        turns.pass(number, may_be_ready(tracks, wake, at));
    }
    None
}

/// Looks for the next link that is to be named: in the order of the wake's lines, and then in that of their coming.
pub(crate) fn next_to_name(stage: &mut Stage) -> Option<ToName>
    ensures { Searches result stage.old stage.new }
{
    let of_lines = search_lines(&mut stage.turns, &stage.tracks, stage.last);
    if of_lines.is_some() {
        return of_lines;
    }
    search_links(&mut stage.turns, &stage.tracks, &stage.places, stage.last)
}
