// The call that `main` makes.
ghost use Rattle.std.specs.Prelude.{◌≡◌, ◌≢◌, ◌↔◌, [], Option, Some, None, IsSome, IfOk};
ghost use Rattle.mx_wire.specs.Log.{Log};
ghost use Rattle.std.specs.Option.{option_map};
ghost use Rattle.proxy_run.specs.Words.{help_text, texts, replay_words, serve_words, text_word, text_words, IsNoCommand, IsUnasked, IsUnknown, IsUnwanted};
ghost use Rattle.proxy_run.specs.LoadWords.{load_words};
ghost use Rattle.proxy_run.specs.ReportWords.{report_words};
ghost use Rattle.proxy_run.specs.Run.{Says, Told, TextPut, ServeOutcome, ReplayOutcome, AskedOutcome, FilesOutcome, Outcome, OutcomeOf, LeavesWire, table_name, config_line};

use crate::load_words::load_words;
use crate::loading::run_load;
use crate::replay::replay;
use crate::report_words::report_words;
use crate::reporting::run_report;
use crate::serving::serve_by;
use crate::stop::Stop;
use crate::words::serve_words;
use mx_base::OutOfMemory;
use mx_config::ConfigFault;
use mx_wire::{Files, Sink, Wire};
use recording::RecordFault;
use std::alloc::Global;
use std::thread::Threads;

/// The status with which the program ends.
#[derive(Clone, Copy)]
pub struct Status(pub u8);

const USAGE: &[u8] =
    b"usage: mx_proxy serve <config> or replay <config> <recording> or load <start> <clients> <statements> or audit <config> <lines> <workers> or learn <config> <lines> <workers>\n";

const VERSION: &[u8] = b"mx_proxy 0.1.0\n";

const HELP: &[u8] = b"mx_proxy serve <config>
mx_proxy replay <config> <recording>
mx_proxy audit <config> <lines> <workers>
mx_proxy learn <config> <lines> <workers>
mx_proxy load <start> <clients> <statements>
mx_proxy --help
mx_proxy --version
README.md says what each does.
";

fn help() -> &'static [u8]
    ensures { result.now ≡ help_text }
{
    HELP
}

// The text that the word asks for: `--help` or `--version`.
fn text_word(word: &str) -> Option<&'static [u8]>
    ensures { option_map (λ text. text.now) result ≡ text_word word.now }
{
    if word == "--help" {
        return Some(help());
    }
    if word == "--version" {
        return Some(VERSION);
    }
    None
}

// The text that the words ask for.
fn text_words(words: &[String]) -> Option<&'static [u8]>
    ensures { option_map (λ text. text.now) result ≡ text_words (texts words.now) }
{
    match words {
        [word] => text_word(word.as_str()),
        _ => None,
    }
}

// Puts a text that was asked for.
fn put_text<O: Sink>(out: &mut O, text: &[u8]) -> Status
    ensures put { TextPut text.now (O.taken out.old) (O.faults out.old) (O.taken out.new) (O.faults out.new) result.0 }
    ensures usage { result.0 ≢ 2 }
{
    match out.put(text) {
        Ok(()) => Status(0),
        Err(_) => Status(4),
    }
}

// Puts a line. A sink that fails leaves the status.
fn say<O: Sink>(out: &mut O, line: &[u8], status: u8) -> Status
    ensures status { result.0 ≡ status }
    ensures says { Says line.now (O.taken out.old) (O.faults out.old) (O.taken out.new) (O.faults out.new) }
{
    let _ = out.put(line);
    Status(status)
}

// The name of a table of the configuration.
fn table_name(table: u8) -> &'static str
    ensures { result.now ≡ table_name table }
{
    match table {
        1 => "proxy",
        2 => "users",
        3 => "servers",
        4 => "rules",
        5 => "whitelist",
        _ => "file",
    }
}

// The line of a configuration's fault.
#[tactic(auto, unfolding(crate::specs::Run::config_line))]
fn config_line(alloc: Global, fault: &ConfigFault) -> Result<Vec<u8>, OutOfMemory>
    ensures { IfOk result (λ line. line.items ≡ config_line fault.now) }
{
    let kind = fault.kind;
    let table = table_name(fault.table);
    let row = fault.row;
    let front = format!(in alloc; "config: {kind} {table} {row} ")?;
    let mut line = Vec::new(alloc);
    line.extend_from_slice(front.as_bytes())?;
    line.extend_from_slice(fault.key.as_slice())?;
    line.push(b'\n')?;
    Ok(line)
}

// Puts the line of a configuration's fault.
fn say_config<O: Sink>(alloc: Global, out: &mut O, fault: ConfigFault) -> Status
    ensures { Told (Stop.BadConfig fault) (O.taken out.old) (O.faults out.old) (O.taken out.new) (O.faults out.new) result.0 }
{
    match config_line(alloc, &fault) {
        Ok(line) => say(out, &line, 1),
        Err(_) => say(out, b"out of memory\n", 5),
    }
}

// Puts the line of a recording's fault.
fn say_fault<O: Sink>(alloc: Global, out: &mut O, fault: RecordFault) -> Status
    ensures { Told (Stop.BadRecording fault) (O.taken out.old) (O.faults out.old) (O.taken out.new) (O.faults out.new) result.0 }
{
    let line = fault.line;
    let kind = fault.kind;
    match format!(in alloc; "recording: line {line} kind {kind}\n") {
        Ok(text) => say(out, text.as_bytes(), 7),
        Err(_) => say(out, b"out of memory\n", 5),
    }
}

// Puts the line of a stop, and gives its status.
pub(crate) fn tell<O: Sink>(alloc: Global, out: &mut O, stop: Stop) -> Status
    ensures { Told stop (O.taken out.old) (O.faults out.old) (O.taken out.new) (O.faults out.new) result.0 }
{
    match stop {
        Stop::Usage => say(out, USAGE, 2),
        Stop::ReadFault => say(out, b"read fault\n", 3),
        Stop::SinkFault => Status(4),
        Stop::OutOfMemory => say(out, b"out of memory\n", 5),
        Stop::BadConfig(fault) => say_config(alloc, out, fault),
        Stop::BadRecording(fault) => say_fault(alloc, out, fault),
        Stop::ListenFault => say(out, b"listen fault\n", 6),
        Stop::TurnsSpent => say(out, b"turns spent\n", 8),
    }
}

// Serves by the configuration under the name.
fn run_serve<W: Wire, F: Files, O: Sink>(
    alloc: Global,
    name: &str,
    files: &mut F,
    wire: &mut W,
    out: &mut O,
) -> Status
    requires fresh { (log : Log) → W.told wire.old ≡ Some log → log ≡ [] }
    ensures outcome { ServeOutcome name.now (F.held files.old) (F.faults files.old) (F.faults files.new) (W.told wire.new) (W.port_faults wire.old) (W.port_faults wire.new) (O.taken out.old) (O.faults out.old) (O.taken out.new) (O.faults out.new) result.0 }
    ensures unconfigured { result.0 ≡ 1 → wire.new ≡ wire.old }
    ensures unread { result.0 ≡ 3 → wire.new ≡ wire.old }
    ensures usage { result.0 ≢ 2 }
{
    match serve_by(alloc, name, files, wire) {
        Ok(_) => Status(0),
        Err(stop) => tell(alloc, out, stop),
    }
}

// Replays what the words name.
fn run_replay<F: Files, O: Sink>(
    alloc: Global,
    words: &[String],
    files: &mut F,
    out: &mut O,
) -> Status
    ensures outcome { ReplayOutcome (texts words.now) (F.held files.old) (F.faults files.old) (F.faults files.new) (O.taken out.old) (O.faults out.old) (O.taken out.new) (O.faults out.new) result.0 }
    ensures usage { (result.0 ≡ 2) ↔ (replay_words (texts words.now) ≡ None) }
{
    match replay(alloc, words, files, out) {
        Ok(()) => Status(0),
        Err(stop) => tell(alloc, out, stop),
    }
}

// Serves, or replays.
fn run_command<W: Wire, F: Files, O: Sink>(
    alloc: Global,
    words: &[String],
    files: &mut F,
    wire: &mut W,
    out: &mut O,
) -> Status
    requires fresh { (log : Log) → W.told wire.old ≡ Some log → log ≡ [] }
    ensures outcome { OutcomeOf (serve_words (texts words.now)) (texts words.now) (F.held files.old) (F.faults files.old) (F.faults files.new) (W.told wire.new) (W.port_faults wire.old) (W.port_faults wire.new) (O.taken out.old) (O.faults out.old) (O.taken out.new) (O.faults out.new) result.0 }
    ensures wire { LeavesWire (serve_words (texts words.now)) result.0 wire.old wire.new }
    ensures usage { (result.0 ≡ 2) ↔ IsUnknown (texts words.now) }
{
    match serve_words(words) {
        Some(name) => run_serve(alloc, name, files, wire, out),
        None => run_replay(alloc, words, files, out),
    }
}

// Reports, serves or replays.
fn run_on_files<R: Threads + Sync, W: Wire, F: Files, O: Sink>(
    rt: &R,
    alloc: Global,
    words: &[String],
    files: &mut F,
    wire: &mut W,
    out: &mut O,
) -> Status
    requires fresh { (log : Log) → W.told wire.old ≡ Some log → log ≡ [] }
    ensures outcome { FilesOutcome (report_words (texts words.now)) (texts words.now) (F.held files.old) (F.faults files.old) (F.faults files.new) (W.told wire.new) (W.port_faults wire.old) (W.port_faults wire.new) (O.taken out.old) (O.faults out.old) (O.taken out.new) (O.faults out.new) result.0 }
    ensures wire { LeavesWire (serve_words (texts words.now)) result.0 wire.old wire.new }
    ensures usage { (result.0 ≡ 2) ↔ IsUnasked (texts words.now) }
{
    match report_words(words) {
        Some(names) => run_report(rt, alloc, names, files, out),
        None => run_command(alloc, words, files, wire, out),
    }
}

// Serves a generated load, or does what is asked of files.
fn run_asked<R: Threads + Sync, W: Wire, F: Files, O: Sink>(
    rt: &R,
    alloc: Global,
    words: &[String],
    files: &mut F,
    wire: &mut W,
    out: &mut O,
) -> Status
    requires fresh { (log : Log) → W.told wire.old ≡ Some log → log ≡ [] }
    ensures outcome { AskedOutcome (load_words (texts words.now)) (texts words.now) (F.held files.old) (F.faults files.old) (F.faults files.new) (W.told wire.new) (W.port_faults wire.old) (W.port_faults wire.new) (O.taken out.old) (O.faults out.old) (O.taken out.new) (O.faults out.new) result.0 }
    ensures wire { LeavesWire (serve_words (texts words.now)) result.0 wire.old wire.new }
    ensures usage { (result.0 ≡ 2) ↔ IsUnwanted (texts words.now) }
{
    match load_words(words) {
        Some(ask) => run_load(alloc, &ask, out),
        None => run_on_files(rt, alloc, words, files, wire, out),
    }
}

/// Does what the words after the program's name ask for, and puts what that prints. `serve <config>` judges a configuration and
/// serves by it over the wire, until that has nothing more. `replay <config> <recording>` judges a configuration, then replays a
/// recording over a wire of its own, and puts the transcript of its log. `audit <config> <lines> <workers>` judges a configuration, then
/// puts the report of a file of statements, one a line; `learn` with the same words puts the hashes of their digests.
/// `load <start> <clients> <statements>` serves clients that follow generated scripts, over a wire of its own to a server in memory, and puts
/// what is counted of its log. `--help` and `--version` put these texts, and touch nothing else.
///
/// The wire that is handed in is for `serve` alone: any other words leave it as it was, and so does a configuration that can't be read or is
/// refused. `serve`, a replay and a load listen at both addresses of the configuration, that for clients first, before any other call of their wire,
/// and at no others. Their logs fit the wire: moments never fall, no two links have one number, and calls name open links alone.
/// docs/PROMISES.md says what else is so of these logs.
///
/// This is said of every wire, files and sink as far as they tell what they answered, hold and took, and those of the shipped program
/// (`MioWire`, `DiskFiles`, `StandardOut`) tell nothing: of them it says which words have which statuses, that the causes of 3, 4 and 6 are
/// counted, and that a wire is left as it was.
///
/// | Status | Comes | Line |
/// |---|---|---|
/// | 0 | the wire had nothing more; of a replay the transcript was put, of a report all of it, of a load its six lines; the text that was asked for was put | none |
/// | 1 | only where the configuration is refused | `config: <kind> <table name> <row> <key>` |
/// | 2 | exactly where the words are no command, or the workers aren't 1 to 64, the clients 1 to 1,000, or the statements 1 to 100,000 | the usage |
/// | 3 | only where a read failed | `read fault` |
/// | 4 | only where the sink failed, in a replay, a report, a load or with a text that was asked for | none |
/// | 5 | memory was refused. In `serve` what is so of a log is so but for its last call, by whose answer it was refused, and which wrote nothing | `out of memory` |
/// | 6 | only where a port or a wait failed, in `serve` or a load | `listen fault` |
/// | 7 | only where the recording is refused | `recording: line <line> kind <kind>` |
/// | 8 | only where one wake made 4,294,967,296 calls of the wire, `serve` woke 4,611,686,018,427,387,904 times, or a load 1,000 times for each client and statement, and 1,000 more | `turns spent` |
pub fn run<R: Threads + Sync, W: Wire, F: Files, O: Sink>(
    rt: &R,
    alloc: Global,
    words: &[String],
    files: &mut F,
    wire: &mut W,
    out: &mut O,
) -> Status
    requires fresh { (log : Log) → W.told wire.old ≡ Some log → log ≡ [] }
    ensures outcome { Outcome (texts words.now) (F.held files.old) (F.faults files.old) (F.faults files.new) (W.told wire.new) (W.port_faults wire.old) (W.port_faults wire.new) (O.taken out.old) (O.faults out.old) (O.taken out.new) (O.faults out.new) result.0 }
    ensures wire { LeavesWire (serve_words (texts words.now)) result.0 wire.old wire.new }
    ensures files { IsSome (text_words (texts words.now)) → files.new ≡ files.old }
    ensures usage { (result.0 ≡ 2) ↔ IsNoCommand (texts words.now) }
{
    match text_words(words) {
        Some(text) => put_text(out, text),
        None => run_asked(rt, alloc, words, files, wire, out),
    }
}
