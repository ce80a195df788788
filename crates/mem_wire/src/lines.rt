// Walks over the lines of a recording.
ghost use Rattle.std.specs.Prelude.{◌≡◌, ℕ, ◌<◌, ◌≤◌, ◌-◌, ◌++◌, List, drop, take, length, slice_get, OnOk, false, All};
ghost use Rattle.std.specs.List.{filter_map};
ghost use Rattle.mx_wire.specs.Adds.{Adds};
ghost use Rattle.mem_wire.specs.Lines.{is_at, waiting_at, clients_at, name_at};
ghost use Rattle.mem_wire.specs.Play.{mark_at, mark_on};
ghost use Rattle.mem_wire.specs.Cuts.{NoMoment, EndsAtMoment, first_moment};

use crate::marks::Mark;
use crate::waiting::Waiting;
use mx_base::{LinkId, OutOfMemory, Port};
use mx_wire::{Entry, ToldLog};
use recording::{RecordEntry, RecordLink};

// Whether the line begins a moment.
fn is_moment(line: &RecordEntry) -> bool
    ensures { result ≡ is_at line.now }
{
    match line {
        RecordEntry::At { .. } => true,
        _ => false,
    }
}

// How many lines stand before the first `at` line, or all.
fn before_moment(lines: &[RecordEntry]) -> usize
    ensures end { result ≤ length lines.now }
    ensures none { NoMoment (take result lines.now) }
    ensures at { EndsAtMoment (drop result lines.now) }
{
    for (i, line) in lines.iter().enumerate() {
        if is_moment(line) {
            return i;
        }
    }
    lines.len()
}

/// The moment of the first line.
pub(crate) fn first_moment(lines: &[RecordEntry]) -> Option<u64>
    ensures { result ≡ first_moment lines.now }
{
    match lines.first()? {
        RecordEntry::At { ms } => Some(*ms),
        _ => None,
    }
}

/// How many lines stand before the second `at` line, or all.
pub(crate) fn lines_of_moment(lines: &[RecordEntry]) -> usize
    ensures end { result ≤ length lines.now }
    ensures some { 0 < length lines.now → 0 < result }
    ensures none { NoMoment (drop 1 (take result lines.now)) }
    ensures at { EndsAtMoment (drop result lines.now) }
{
    if lines.is_empty() {
        return 0;
    }
    1 + before_moment(&lines[1..])
}

// The client that the line brings to the port.
fn waiting_in(port: Port, line: &RecordEntry) -> Option<Waiting>
    ensures { result ≡ waiting_at port line.now }
{
    match line {
        RecordEntry::Accept { n, port: at, salt } => {
            if port == *at {
                Some(Waiting {
                    number: *n,
                    salt: *salt,
                })
            } else {
                None
            }
        }
        _ => None,
    }
}

/// Puts the clients that the lines bring to the port behind those that wait there.
pub(crate) fn arrive(
    port: Port,
    clients: &mut Vec<Waiting>,
    lines: &[RecordEntry],
) -> Result<(), OutOfMemory>
    ensures { OnOk result (clients.new.items ≡ clients.old.items ++ clients_at port lines.now) }
{
    for line in lines {
        if let Some(client) = waiting_in(port, line) {
            clients.push(client)?;
        }
    }
    Ok(())
}

// The mark of the line, where its link was opened. Servers count from 1.
fn mark_in(opened: &[LinkId], line: &RecordEntry) -> Option<Entry>
    ensures { result ≡ mark_at opened.now line.now }
{
    match line {
        RecordEntry::Exec { k } => mark_on(opened, *k, Mark::Exec),
        RecordEntry::Drop { k } => mark_on(opened, *k, Mark::Drop),
        _ => None,
    }
}

// The mark of the k-th link to a server, where it was opened.
fn mark_on(opened: &[LinkId], k: u16, mark: Mark) -> Option<Entry>
    ensures { result ≡ mark_on (slice_get opened.now (k - 1)) mark }
{
    let at = usize::from(k).saturating_sub(1);
    if at < opened.len() {
        Some(mark.on(opened[at]))
    } else {
        None
    }
}

/// Puts the marks of the lines whose links were opened behind the log.
pub(crate) fn put_marks(told: &mut ToldLog, opened: &[LinkId], lines: &[RecordEntry])
    ensures { Adds told.old (filter_map (mark_at opened.now) lines.now) told.new }
{
    for line in lines {
        if let Some(mark) = mark_in(opened, line) {
            told.add(mark);
        }
    }
}

/// The link that the line names.
pub(crate) fn name_in(line: &RecordEntry) -> Option<RecordLink>
    ensures { result ≡ name_at line.now }
{
    match line {
        RecordEntry::Accept { n, .. } => Some(RecordLink::Client(*n)),
        RecordEntry::Bytes { link, .. } => Some(*link),
        RecordEntry::End { link } => Some(*link),
        RecordEntry::Fail { link } => Some(*link),
        RecordEntry::Take { link, .. } => Some(*link),
        RecordEntry::Exec { k } => Some(RecordLink::Server(*k)),
        RecordEntry::Drop { k } => Some(RecordLink::Server(*k)),
        RecordEntry::At { .. } | RecordEntry::Refuse { .. } => None,
    }
}
