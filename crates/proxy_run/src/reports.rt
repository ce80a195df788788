// A file of statements is reported on.
ghost use Rattle.std.specs.Prelude.{◌≡◌, ◌≤◌, Some, map, OnOk, IfOk, IfErr};
ghost use Rattle.audit_report.specs.declared.row.ReportRow.{ReportRow};
ghost use Rattle.audit_report.specs.Lines.{lines_of};
ghost use Rattle.mx_config.specs.Lawful.{IsLawful};
ghost use Rattle.mx_wire.specs.Outside.{HasUnder, Takes};
ghost use Rattle.proxy_run.specs.Reports.{IsBuiltFrom, IsLearned, IsLinesUnder, IsPrintedOf, IsReportBy, IsWanted, LinesStop, PutTextStops, ReportStops, Reported, audit_ask, named_of};

use crate::replay::configure;
use crate::report_words::{ReportKind, ReportNames};
use crate::stop::Stop;
use audit_report::{AuditAsk, Gate, ReportRow, lines_of, report, report_text};
use mx_base::{Bytes, OutOfMemory};
use mx_config::Config;
use mx_wire::{FileFault, Files, Sink};
use query_rules::Rules;
use sql_whitelist::{digests_line, hashes};
use std::alloc::Global;
use std::thread::Threads;

// A gate that lets all pieces through at once.
#[derive(Clone, Copy)]
struct OpenGate;

impl Gate for OpenGate {
    fn pass(&self, _piece: u64) {}
}

// The lines of the file under the name.
fn read_lines<F: Files>(alloc: Global, name: &str, files: &mut F) -> Result<Vec<Bytes>, Stop>
    ensures under { IfOk result (λ lines. IsLinesUnder name.now (F.held files.old) lines.items) }
    ensures err { IfErr result (λ stop. LinesStop stop (F.faults files.old) (F.faults files.new)) }
{
    match files.read(name) {
        Ok(bytes) => Ok(lines_of(alloc, &bytes)?),
        Err(FileFault::Failed) => Err(Stop::ReadFault),
        Err(FileFault::OutOfMemory) => Err(Stop::OutOfMemory),
    }
}

// The client for whom a report is made: the first user, in the schema of those who name none.
fn ask_of(alloc: Global, config: &Config) -> Result<AuditAsk, OutOfMemory>
    requires { IsLawful config.now }
    ensures { IfOk result (λ ask. audit_ask config.now ≡ Some ask) }
{
    let user = &config.users.as_slice()[0];
    Ok(AuditAsk {
        user: Bytes::from_slice(alloc, user.name.as_slice())?,
        schema: Bytes::from_slice(alloc, config.proxy.default_schema.as_slice())?,
        default_hostgroup: user.default_hostgroup,
    })
}

// The rules of a configuration.
fn rules_of(alloc: Global, config: &Config) -> Result<Rules, OutOfMemory>
    ensures { IfOk result (IsBuiltFrom config.now.rules) }
{
    match Rules::build(alloc, config.rules.as_slice()) {
        Ok(rules) => Ok(rules),
        // The configuration was read with these very rows, so what is left is memory.
        Err(_) => Err(OutOfMemory),
    }
}

// The rows of a report by a configuration.
fn rows_of<R: Threads + Sync>(
    rt: &R,
    alloc: Global,
    config: &Config,
    lines: &[Bytes],
    workers: u16,
) -> Result<Vec<ReportRow>, OutOfMemory>
    requires lawful { IsLawful config.now }
    requires workers { (1 ≤ workers) × (workers ≤ 64) }
    ensures { IfOk result (λ rows. IsReportBy config.now lines.now rows.items) }
{
    let ask = ask_of(alloc, config)?;
    let rules = rules_of(alloc, config)?;
    report(rt, alloc, lines, &rules, &ask, workers, &OpenGate)
}

// The digests of rows.
fn digests_of(alloc: Global, rows: Vec<ReportRow>) -> Result<Vec<Bytes>, OutOfMemory>
    ensures { IfOk result (λ digests. digests.items ≡ map (λ (row : ReportRow). row.digest) rows.items) }
{
    let mut digests = Vec::with_capacity(alloc, rows.len())?;
    for row in rows {
        digests.push(row.digest)?;
    }
    Ok(digests)
}

// The line of the hashes of rows.
fn learned(alloc: Global, rows: Vec<ReportRow>) -> Result<Bytes, OutOfMemory>
    ensures { IfOk result (λ text. IsLearned (map (λ (row : ReportRow). row.digest) rows.items) text) }
{
    let digests = digests_of(alloc, rows)?;
    let hashes = hashes(alloc, &digests)?;
    digests_line(alloc, &hashes)
}

// Rows as they are put.
fn printed(alloc: Global, kind: ReportKind, rows: Vec<ReportRow>) -> Result<Bytes, OutOfMemory>
    ensures { IfOk result (IsPrintedOf kind rows.items) }
{
    match kind {
        ReportKind::Audit => report_text(alloc, &rows),
        ReportKind::Learn => learned(alloc, rows),
    }
}

// What is put of lines.
fn text_of<R: Threads + Sync>(
    rt: &R,
    alloc: Global,
    asked: ReportNames<'_>,
    config: &Config,
    lines: &[Bytes],
) -> Result<Bytes, OutOfMemory>
    requires lawful { IsLawful config.now }
    requires some { 1 ≤ asked.workers }
    requires few { asked.workers ≤ 64 }
    ensures { IfOk result (IsWanted asked.entry.kind config.now lines.now) }
{
    let rows = rows_of(rt, alloc, config, lines, asked.workers)?;
    printed(alloc, asked.kind, rows)
}

// Puts a text.
fn put<O: Sink>(out: &mut O, text: &[u8]) -> Result<(), Stop>
    ensures ok { OnOk result (Takes (O.taken out.old) text.now (O.taken out.new)) }
    ensures err { IfErr result (λ stop. PutTextStops stop text.now (O.taken out.old) (O.faults out.old) (O.taken out.new) (O.faults out.new)) }
{
    match out.put(text) {
        Ok(()) => Ok(()),
        Err(_) => Err(Stop::SinkFault),
    }
}

/// Puts the report of the file, or the hashes of its digests, by the configuration under the name.
pub fn report_by<R: Threads + Sync, F: Files, O: Sink>(
    rt: &R,
    alloc: Global,
    asked: ReportNames<'_>,
    files: &mut F,
    out: &mut O,
) -> Result<(), Stop>
    requires some { 1 ≤ asked.workers }
    requires few { asked.workers ≤ 64 }
    ensures ok { OnOk result (Reported (named_of asked.entry) (F.held files.old) (O.taken out.old) (O.taken out.new)) }
    ensures err { IfErr result (λ stop. ReportStops stop (named_of asked.entry) (F.held files.old) (F.faults files.old) (F.faults files.new) (O.taken out.old) (O.faults out.old) (O.taken out.new) (O.faults out.new)) }
{
    let config = configure(alloc, asked.config, files)?;
    let lines = read_lines(alloc, asked.lines, files)?;
    let text = text_of(rt, alloc, asked, &config, &lines)?;
    put(out, text.as_slice())
}
