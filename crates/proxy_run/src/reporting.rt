// A run of `audit` or `learn`.
ghost use Rattle.std.specs.Prelude.{◌≤◌, ◌≢◌};
ghost use Rattle.proxy_run.specs.Reports.{named_of};
ghost use Rattle.proxy_run.specs.Run.{ReportOutcome};

use crate::report_words::ReportNames;
use crate::reports::report_by;
use crate::running::{Status, tell};
use mx_wire::{Files, Sink};
use std::alloc::Global;
use std::thread::Threads;

/// Reports on the file that the words name.
pub(crate) fn run_report<R: Threads + Sync, F: Files, O: Sink>(
    rt: &R,
    alloc: Global,
    names: ReportNames<'_>,
    files: &mut F,
    out: &mut O,
) -> Status
    requires some { 1 ≤ names.workers }
    requires few { names.workers ≤ 64 }
    ensures outcome { ReportOutcome (named_of names.entry) (F.held files.old) (F.faults files.old) (F.faults files.new) (O.taken out.old) (O.faults out.old) (O.taken out.new) (O.faults out.new) result.0 }
    ensures usage { result.0 ≢ 2 }
{
    match report_by(rt, alloc, names, files, out) {
        Ok(()) => Status(0),
        Err(stop) => tell(alloc, out, stop),
    }
}
