// What is counted of a log.
ghost use Rattle.std.specs.Prelude.{◌≡◌, not, length, IfOk};
ghost use Rattle.std.specs.List.{filter};
ghost use Rattle.generated_load.specs.Counts.{counts_of, is_err, is_for_server, is_opened, is_reset};

use crate::replies::ends_of;
use mx_base::{OutOfMemory, Tag};
use mx_wire::Entry;
use reply_track::EndKind;
use std::alloc::Global;

/// COM_RESET_CONNECTION as a packet (client/server protocol, "COM_RESET_CONNECTION").
const RESET: &[u8] = b"\x01\0\0\0\x1F";

/// What is counted of a log: links that were opened to servers, resets that were written there, and the replies that clients were
/// written, those that ended in an ERR and the others.
#[derive(Clone, Copy)]
pub struct Counts {
    pub opens: usize,
    pub resets: usize,
    pub ok: usize,
    pub errors: usize,
}

fn is_opened(entry: &Entry) -> bool
    ensures { result ≡ is_opened entry.now }
{
    matches!(entry, Entry::Opened { .. })
}

fn is_for_server(tag: Tag) -> bool
    ensures { result ≡ is_for_server tag }
{
    !matches!(tag, Tag::Reply)
}

fn is_reset(entry: &Entry) -> bool
    ensures { result ≡ is_reset entry.now }
{
    match entry {
        Entry::Wrote { tag, bytes, .. } => is_for_server(*tag) && bytes.as_slice() == RESET,
        _ => false,
    }
}

fn is_err(end: &EndKind) -> bool
    ensures { result ≡ is_err end.now }
{
    matches!(end, EndKind::Err)
}

// How many links were opened.
fn opens_in(log: &[Entry]) -> usize
    ensures { result ≡ length (filter is_opened log.now) }
{
    log.iter().filter(|entry| is_opened(entry)).count()
}

// How many resets were written.
fn resets_in(log: &[Entry]) -> usize
    ensures { result ≡ length (filter is_reset log.now) }
{
    log.iter().filter(|entry| is_reset(entry)).count()
}

// How many replies ended in no ERR.
fn ok_among(ends: &[EndKind]) -> usize
    ensures { result ≡ length (filter (λ end. not (is_err end)) ends.now) }
{
    ends.iter().filter(|end| !is_err(end)).count()
}

// How many ended in one.
fn errors_among(ends: &[EndKind]) -> usize
    ensures { result ≡ length (filter is_err ends.now) }
{
    ends.iter().filter(|end| is_err(end)).count()
}

/// What is counted of a log.
pub fn count(alloc: Global, log: &[Entry]) -> Result<Counts, OutOfMemory>
    ensures { IfOk result (λ counts. counts ≡ counts_of log.now) }
{
    let ends = ends_of(alloc, log)?;
    Ok(Counts {
        opens: opens_in(log),
        resets: resets_in(log),
        ok: ok_among(&ends),
        errors: errors_among(&ends),
    })
}
