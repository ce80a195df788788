// The replies in what was written to clients.
ghost use Rattle.std.specs.Prelude.{◌≡◌, ◌≤◌, ◌++◌, length, IfOk, IfSome, OnOk};
ghost use Rattle.mx_wire.specs.Log.{written_of};
ghost use Rattle.generated_load.specs.Replies.{IsFirstEnd, behind_packet, ends_for, ends_in, ends_of, packet_size, wrote_on};

use mx_base::{LinkId, OutOfMemory};
use mx_wire::Entry;
use reply_track::{EndKind, Progress, ReplyKind, Tracker};
use std::alloc::Global;

// What an entry wrote on a link.
fn wrote_on(link: LinkId, entry: &Entry) -> &[u8]
    ensures { result.now ≡ wrote_on link entry.now }
{
    match entry {
        Entry::Wrote {
            link: at,
            bytes,
            ..
        } => {
            if link.0 == at.0 {
                bytes.as_slice()
            } else {
                &[]
            }
        }
        _ => &[],
    }
}

// What was written on a link.
fn written_on(alloc: Global, log: &[Entry], link: LinkId) -> Result<Vec<u8>, OutOfMemory>
    ensures { IfOk result (λ bytes. bytes.items ≡ written_of link log.now) }
{
    let mut bytes = Vec::new(alloc);
    for entry in log {
        bytes.extend_from_slice(wrote_on(link, entry))?;
    }
    Ok(bytes)
}

// The bytes of the first packet, where its header is there.
fn packet_size(bytes: &[u8]) -> usize
    ensures { result ≡ packet_size bytes.now }
{
    match bytes {
        [a, b, c, _, ..] => {
            4 + usize::from(*a) + 256 * usize::from(*b) + 65_536 * usize::from(*c)
        }
        _ => 0,
    }
}

// What stands behind the first packet.
fn behind_packet(bytes: &[u8]) -> &[u8]
    ensures { result.now ≡ behind_packet bytes.now }
{
    let size = packet_size(bytes);
    if size <= bytes.len() {
        &bytes[size..]
    } else {
        &[]
    }
}

// How a reply ended, and its bytes.
#[derive(Clone, Copy)]
struct First {
    used: usize,
    kind: EndKind,
}

// How the first reply in these bytes ended, where it is whole.
fn first_end(bytes: &mut [u8]) -> Option<First>
    ensures first { IsFirstEnd bytes.old bytes.new result }
    ensures within { IfSome result (λ first. first.used ≤ length bytes.old) }
{
    let mut tracker = Tracker::start(ReplyKind::Command, 1, 1, 0);
    match tracker.take(bytes) {
        Progress::Done { used, end } => Some(First {
            used,
            kind: end.kind,
        }),
        Progress::More => None,
        Progress::Bad { .. } => None,
    }
}

// Adds how the replies ended that stand whole in these bytes.
fn add_ends(ends: &mut Vec<EndKind>, bytes: &mut [u8]) -> Result<(), OutOfMemory>
    ensures { OnOk result (ends.new.items ≡ ends.old.items ++ ends_in bytes.old) }
{
    let mut at = 0;
    for _ in 0..bytes.len() {
        match first_end(&mut bytes[at..]) {
            Some(first) => {
                ends.push(first.kind)?;
                at += first.used;
            }
            None => return Ok(()),
        }
    }
    Ok(())
}

// Adds how the replies ended to the client that comes with an entry.
fn add_for(
    alloc: Global,
    ends: &mut Vec<EndKind>,
    log: &[Entry],
    entry: &Entry,
) -> Result<(), OutOfMemory>
    ensures { OnOk result (ends.new.items ≡ ends.old.items ++ ends_for log.now entry.now) }
{
    let Entry::Accepted { link, .. } = entry else {
        return Ok(());
    };
    let written = written_on(alloc, log, *link)?;
    let mut replies = behind_packet(behind_packet(&written)).to_vec(alloc)?;
    add_ends(ends, &mut replies)
}

/// How the replies ended that clients were written whole, behind their logins.
pub(crate) fn ends_of(alloc: Global, log: &[Entry]) -> Result<Vec<EndKind>, OutOfMemory>
    ensures { IfOk result (λ ends. ends.items ≡ ends_of log.now) }
{
    let mut ends = Vec::new(alloc);
    for entry in log {
        add_for(alloc, &mut ends, log, entry)?;
    }
    Ok(ends)
}
