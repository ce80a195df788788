// The transcript of a log.
ghost use Rattle.std.specs.Prelude.{◌≡◌, IfOk};
ghost use Rattle.mx_base.specs.declared.names.LinkId.{LinkId};
ghost use Rattle.mx_wire.specs.Log.{Log, of_link};
ghost use Rattle.recording.specs.Places.{places_of, entries_at};
ghost use Rattle.recording.specs.Runs.{AreLongest};
ghost use Rattle.recording.specs.Transcript.{transcript_of};

use crate::arrivals::Arrivals;
use crate::link_text::put_link;
use crate::places::Places;
use mx_base::{Bytes, OutOfMemory};
use mx_wire::Entry;
use std::alloc::Global;

/// The transcript of a log. For each link, in the order of the Accepted and Opened entries, it has a line
/// `link c<n> traffic <s>`, `link c<n> admin <s>` or `link s<k> server <id> <s>`: the n-th Accepted entry is
/// that of `c<n>`, the k-th Opened entry that of `s<k>`, and `<s>` is `closed` where the link has a Closed
/// entry, else `open`. Behind it is a line for each longest run of the link's Wrote entries with one tag: the
/// link, the tag, and the joined bytes in lower case hexadecimal digits. The tags are `reply`, `own`,
/// `for c<n>/<ordinal>`, `prep c<n>/<ordinal>`, `mirror c<n>/<ordinal>`, `sync c<n>/<hostgroup>` and
/// `end c<n>/<hostgroup>`. Each line ends with a line feed, and an empty log gives no bytes.
pub fn transcript(alloc: Global, log: &[Entry]) -> Result<Bytes, OutOfMemory>
    ensures { IfOk result (λ text. text ≡ transcript_of log.now) }
{
    let places = places_in(alloc, log)?;
    let mut text = Bytes::new(alloc);
    let mut arrivals = Arrivals {
        clients: 0,
        servers: 0,
    };
    for entry in log {
        if let Some((peer, link)) = arrivals.next(entry) {
            put_link(alloc, &mut text, peer, log, places.of(link))?;
        }
    }
    Ok(text)
}

// Where the entries of each link stand.
fn places_in(alloc: Global, log: &[Entry]) -> Result<Places, OutOfMemory>
    ensures { IfOk result (λ table. (link : LinkId) →
        entries_at log.now (places_of table link) ≡ of_link link log.now) }
{
    let mut places = Places::new(alloc);
    for (place, entry) in log.iter().enumerate() {
        places.note(alloc, entry, place)?;
    }
    Ok(places)
}

/// The runs of a transcript are the bytes that were written, all of them in order, and two neighbours have
/// different tags: so each is the longest one.
pub fn longest_runs()
    ensures { (log : Log) → AreLongest log }
{}
