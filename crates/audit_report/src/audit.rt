// The report of a list of lines.
ghost use Rattle.std.specs.Prelude.{◌≡◌, ◌≤◌, ◌<◌, ◌+◌, ◌-◌, ◌*◌, ◌/◌, ◌%◌, ◌^◌, ℕ, max, min, length, vec_len, slice_index_or, IfOk};
ghost use Rattle.std.specs.Fork.{slice_chunk};
ghost use Rattle.indexmap.specs.IndexMap.{get};
ghost use Rattle.query_rules.specs.Passing.{rules_of};
ghost use Rattle.audit_report.specs.Keys.{named, same_key};
ghost use Rattle.audit_report.specs.Report.{hostgroup_of, report_of};
ghost use Rattle.audit_report.specs.Tallies.{tally_of, tally_over, AllRead, IsPieces};

use crate::key::Key;
use crate::name::named;
use crate::piece::tallies_of;
use crate::tally::{Tallies, merged};
use crate::{AuditAsk, Gate, ReportRow};
use mx_base::{Bytes, OutOfMemory};
use query_rules::Rules;
use std::alloc::Global;
use std::thread::{self, Threads};

// How many lines a piece has: all lines divided by the workers, rounded up, and at least one.
fn piece_len(lines: usize, workers: u16) -> usize
    requires { 1 ≤ workers }
    ensures some { 1 ≤ result }
    ensures share { result ≡ max 1 (lines / workers + min 1 (lines % workers)) }
{
    lines.div_ceil(usize::from(workers)).max(1)
}

// The tallies of the pieces, each made on a thread of its own where one can be started.
fn read_pieces<R: Threads + Sync, G: Gate>(
    rt: &R,
    alloc: Global,
    lines: &[Bytes],
    size: usize,
    gate: &G,
) -> Result<Vec<Result<Tallies, OutOfMemory>>, OutOfMemory>
    requires { 1 ≤ size }
    ensures { IfOk result (λ pieces. IsPieces lines.now size pieces.items) }
{
    let pieces = thread::map_chunks(
        rt,
        alloc,
        lines,
        size,
        &|start: usize, piece: &[Bytes]| -> Result<Tallies, OutOfMemory>
            requires { (1 ≤ size) × (0 < length piece.now) × (start + length piece.now < 2 ^ 64) }
            ensures { IfOk result (λ tallies. (q : Key) → get same_key tallies q ≡ tally_of q start piece.entry.now) }
        {
            gate.pass((start / size) as u64 + 1);
            tallies_of(alloc, start, piece)
        },
    )?;
    Ok(pieces)
}

// The row of a key, by its first line.
#[tactic(auto, unfolding(crate::specs::Report::hostgroup_of))]
fn row(
    alloc: Global,
    rules: &Rules,
    ask: &AuditAsk,
    line: &Bytes,
    key: Key,
    count: u64,
) -> Result<ReportRow, OutOfMemory>
    ensures { IfOk result (λ row. row ≡ record { count = count; class = named key.name; hostgroup = hostgroup_of (rules_of rules.now) ask.now line.now; digest = key.digest }) }
{
    let routed = rules.route(&ask.of(alloc, line.as_slice())?)?;
    Ok(ReportRow {
        count,
        class: named(key.name),
        hostgroup: routed.hostgroup,
        digest: key.digest,
    })
}

// The rows of all keys, in order.
fn rows_of(
    alloc: Global,
    lines: &[Bytes],
    rules: &Rules,
    ask: &AuditAsk,
    mut tallies: Tallies,
) -> Result<Vec<ReportRow>, OutOfMemory>
    requires few { length lines.now < 2 ^ 64 }
    requires tallies { (q : Key) → get same_key tallies q ≡ tally_of q 0 lines.now }
    ensures { IfOk result (λ rows. rows.items ≡ report_of (rules_of rules.now) ask.now lines.now) }
{
    tallies.sort_keys()?;
    let mut rows = Vec::with_capacity(alloc, tallies.len())?;
    for (key, tally) in tallies {
        let line = &lines[tally.first];
        rows.push(row(alloc, rules, ask, line, key, tally.count)?)?;
    }
    Ok(rows)
}

/// The report of a list of lines, each of which is a statement: how many lines each digest has under each class, and where
/// the rules send the first of them for that user and schema. Rows stand in the order of the digests' bytes, and under one
/// digest in that of the classes' names. It is the same whatever the number of workers, from 1 to 64.
///
/// The lines are cut in order into pieces of one length, which is their number divided by the workers, rounded up and at
/// least 1; the last may be shorter. The pieces are read on threads of their own, where they can be started, and each
/// passes the gate once. Rules are tried once for each row. The only error is want of memory.
pub fn report<R: Threads + Sync, G: Gate>(
    rt: &R,
    alloc: Global,
    lines: &[Bytes],
    rules: &Rules,
    ask: &AuditAsk,
    workers: u16,
    gate: &G,
) -> Result<Vec<ReportRow>, OutOfMemory>
    requires { (1 ≤ workers) × (workers ≤ 64) }
    ensures { IfOk result (λ rows. rows.items ≡ report_of (rules_of rules.now) ask.now lines.now) }
{
    let count = lines.len();
    let size = piece_len(count, workers);
    let pieces = read_pieces(rt, alloc, lines, size, gate)?;
    let tallies = merged(alloc, pieces)?;
    rows_of(alloc, lines, rules, ask, tallies)
}
