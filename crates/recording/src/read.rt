// Reading a recording.
ghost use Rattle.std.specs.Prelude.{◌≡◌, ◌≤◌, IfOk, IfErr, OnOk, position};
ghost use Rattle.recording.specs.Ended.{standing_of};
ghost use Rattle.recording.specs.Playable.{IsPlayable};
ghost use Rattle.recording.specs.Recording.{recording_of, is_line_feed, is_skipped, passes_bounds, fault_of, line_of, taken};
ghost use Rattle.recording.specs.Refusal.{Gives, Refuses, Faults, refused_at};

use crate::fault::{Kind, LineRefusal};
use crate::line::read_entry;
use crate::progress::Progress;
use crate::{RecordEntry, RecordFault, RecordRefusal};
use std::alloc::Global;

/// The entries of a recording: a text of lines, each of which a line feed ends. Empty lines and those that begin
/// with `#` are skipped, and count as lines. The fields of a line are separated by one blank, a space or a tab.
/// Numbers are decimal, below 2 ^ 64 and without leading zeros, bytes are hexadecimal digits of either case.
///
/// | Line | Entry |
/// |---|---|
/// | `at <ms>` | `At` |
/// | `accept c<n> traffic <salt>`, `accept c<n> admin <salt>` | `Accept`; `n` counts these lines from 1 |
/// | `bytes <link> <hex>` | `Bytes` |
/// | `end <link>`, `fail <link>` | `End`, `Fail` |
/// | `take <link> <n>` | `Take` |
/// | `refuse <k>` | `Refuse` |
/// | `exec s<k>`, `drop s<k>` | `Exec`, `Drop` |
///
/// A link is `c<n>` or `s<k>`; the numbers of links and opens are from 1 to 65,535, and the 20 bytes of a salt
/// from 01 to 7f. The first faulty line decides, and in it the lowest kind of fault, as `RecordFault` lists them.
pub fn read_recording(alloc: Global, bytes: &[u8]) -> Result<Vec<RecordEntry>, RecordRefusal>
    ensures entries { IfOk result (λ entries. recording_of bytes.now ≡ Ok entries.items) }
    ensures playable { IfOk result (λ entries. IsPlayable entries.items) }
    ensures fault { IfErr result (λ refusal. Faults refusal (recording_of bytes.now)) }
{
    let mut entries = Vec::new(alloc);
    let mut progress = Progress::new(alloc);
    let mut lines: u32 = 0;
    let mut rest = bytes;
    while !rest.is_empty() {
        lines += 1;
        let Some(at) = line_feed_at(rest) else {
            return Err(refusal_at(lines, LineRefusal::Kind(Kind::NoLineFeed)));
        };
        let line = &rest[..at];
        rest = &rest[at + 1..];
        let end = bytes.len() - rest.len();
        if let Err(refusal) = take_line(alloc, &mut progress, &mut entries, lines, end, line) {
            return Err(refusal_at(lines, refusal));
        }
    }
    Ok(entries)
}

fn line_feed_at(bytes: &[u8]) -> Option<usize>
    ensures { result ≡ position is_line_feed bytes.now }
{
    bytes.iter().position(|b| *b == b'\n')
}

fn refusal_at(line: u32, refusal: LineRefusal) -> RecordRefusal
    ensures { result ≡ refused_at line refusal }
{
    match refusal {
        LineRefusal::Kind(kind) => RecordRefusal::Fault(RecordFault {
            line,
            kind: kind.number(),
        }),
        LineRefusal::OutOfMemory => RecordRefusal::OutOfMemory,
    }
}

// Goes on by a line, or says why it is refused.
fn take_line(
    alloc: Global,
    progress: &mut Progress,
    entries: &mut Vec<RecordEntry>,
    number: u32,
    end: usize,
    line: &[u8],
) -> Result<(), LineRefusal>
    ensures ok { OnOk result (let said = line_of (standing_of progress.old) number end line.now in
        taken (standing_of progress.old) entries.old.items said
        ≡ Ok (standing_of progress.new, entries.new.items)) }
    ensures bounds { OnOk result (number ≤ 1000000) }
    ensures err { IfErr result (λ refusal.
        Refuses refusal (line_of (standing_of progress.old) number end line.now)) }
{
    if let Some(entry) = read_line(alloc, progress, number, end, line)? {
        progress.take(&entry)?;
        entries.push(entry)?;
    }
    Ok(())
}

// The entry of a line, if it isn't skipped, or the lowest kind of its faults.
#[tactic(auto, unfolding(crate::specs::Recording::line_of))]
fn read_line(
    alloc: Global,
    progress: &Progress,
    number: u32,
    end: usize,
    line: &[u8],
) -> Result<Option<RecordEntry>, LineRefusal>
    ensures gives { Gives result (line_of (standing_of progress.now) number end line.now) }
    ensures bounds { OnOk result (number ≤ 1000000) }
{
    if is_skipped_line(line) {
        if is_past_bounds(number, end) {
            return Err(LineRefusal::Kind(Kind::TooLong));
        }
        return Ok(None);
    }
    let entry = read_entry(alloc, line)?;
    match fault_in(progress, number, end, &entry) {
        Some(kind) => Err(LineRefusal::Kind(kind)),
        None => Ok(Some(entry)),
    }
}

// The lowest kind of fault of a line with this entry.
fn fault_in(progress: &Progress, number: u32, end: usize, entry: &RecordEntry) -> Option<Kind>
    ensures { result ≡ fault_of (standing_of progress.now) number end entry.now }
{
    if let Some(kind) = progress.misplaced(entry) {
        return Some(kind);
    }
    if is_past_bounds(number, end) {
        Some(Kind::TooLong)
    } else {
        None
    }
}

// Whether the line is the first past the lines or the bytes that a recording may have.
fn is_past_bounds(number: u32, end: usize) -> bool
    ensures { result ≡ passes_bounds number end }
{
    number > 1_000_000 || end > 268_435_456
}

fn is_skipped_line(line: &[u8]) -> bool
    ensures { result ≡ is_skipped line.now }
{
    match line {
        [] => true,
        [first, ..] => *first == b'#',
    }
}
