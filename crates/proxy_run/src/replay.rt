// A configuration is judged, and a recording is read, played and printed.
ghost use Rattle.std.specs.Prelude.{◌≡◌, ◌≤◌, OnOk, IfOk, IfErr};
ghost use Rattle.recording.specs.Playable.{IsPlayable};
ghost use Rattle.mx_config.specs.Lawful.{IsLawful};
ghost use Rattle.proxy_run.specs.Words.{texts};
ghost use Rattle.proxy_run.specs.Replay.{Configures, ConfigStops, IsUnder, HasPlayed, ReadStops, PlayStops, PutStops, Puts, Replayed, Stops};

use crate::stop::Stop;
use crate::words::replay_words;
use mem_wire::Tape;
use mx_config::{Config, ConfigRefusal, read_config};
use mx_wire::{FileFault, Files, Sink};
use ready_loop::{ServeEnd, serve};
use recording::{RecordEntry, RecordRefusal, read_recording, transcript};
use shared_core::Core;
use std::alloc::Global;

/// The configuration under the name.
pub fn configure<F: Files>(alloc: Global, name: &str, files: &mut F) -> Result<Config, Stop>
    ensures ok { IfOk result (λ config. Configures name.now (F.held files.old) config) }
    ensures lawful { IfOk result IsLawful }
    ensures err { IfErr result (λ stop. ConfigStops stop name.now (F.held files.old) (F.faults files.old) (F.faults files.new)) }
    ensures held { F.held files.new ≡ F.held files.old }
    ensures faults { F.faults files.old ≤ F.faults files.new }
{
    let bytes = match files.read(name) {
        Ok(bytes) => bytes,
        Err(FileFault::Failed) => return Err(Stop::ReadFault),
        Err(FileFault::OutOfMemory) => return Err(Stop::OutOfMemory),
    };
    match read_config(alloc, &bytes) {
        Ok(config) => Ok(config),
        Err(ConfigRefusal::Fault(fault)) => Err(Stop::BadConfig(fault)),
        Err(ConfigRefusal::OutOfMemory) => Err(Stop::OutOfMemory),
    }
}

// The entries of the recording under the name.
fn read<F: Files>(alloc: Global, name: &str, files: &mut F) -> Result<Vec<RecordEntry>, Stop>
    ensures under { IfOk result (λ entries. IsUnder name.now (F.held files.old) entries.items) }
    ensures playable { IfOk result (λ entries. IsPlayable entries.items) }
    ensures err { IfErr result (λ stop. ReadStops stop name.now (F.held files.old) (F.faults files.old) (F.faults files.new)) }
{
    let bytes = match files.read(name) {
        Ok(bytes) => bytes,
        Err(FileFault::Failed) => return Err(Stop::ReadFault),
        Err(FileFault::OutOfMemory) => return Err(Stop::OutOfMemory),
    };
    match read_recording(alloc, &bytes) {
        Ok(entries) => Ok(entries),
        Err(RecordRefusal::Fault(fault)) => Err(Stop::BadRecording(fault)),
        Err(RecordRefusal::OutOfMemory) => Err(Stop::OutOfMemory),
    }
}

// Plays a recording to its end, or until an administrator has the router shut down.
fn play(alloc: Global, config: &Config, entries: Vec<RecordEntry>) -> Result<Tape, Stop>
    requires playable { IsPlayable entries.items }
    requires lawful { IsLawful config.now }
    ensures ok { IfOk result (λ tape. HasPlayed config.now entries.items tape) }
    ensures err { IfErr result (λ stop. PlayStops stop config.now entries.items) }
{
    let turns = 2 * entries.len() as u64 + 16;
    let mut core = Core::new(alloc, config)?;
    let mut tape = Tape::new(alloc, entries);
    let end = serve(alloc, &mut core, &mut tape, turns);
    drop(core);
    match end {
        ServeEnd::Over => Ok(tape),
        ServeEnd::Stopped => Ok(tape),
        ServeEnd::OutOfMemory => Err(Stop::OutOfMemory),
        ServeEnd::TurnsSpent => match tape.log() {
            Some(_) => Err(Stop::TurnsSpent),
            None => Err(Stop::OutOfMemory),
        },
        ServeEnd::ListenFault => unreachable!(),
    }
}

// Puts the transcript of the tape's log.
fn put<O: Sink>(alloc: Global, tape: &Tape, out: &mut O) -> Result<(), Stop>
    ensures ok { OnOk result (Puts tape.now (O.taken out.old) (O.taken out.new)) }
    ensures err { IfErr result (λ stop. PutStops stop tape.now (O.taken out.old) (O.faults out.old) (O.taken out.new) (O.faults out.new)) }
{
    match tape.log() {
        Some(log) => {
            let text = transcript(alloc, log)?;
            match out.put(text.as_slice()) {
                Ok(()) => Ok(()),
                Err(_) => Err(Stop::SinkFault),
            }
        }
        None => Err(Stop::OutOfMemory),
    }
}

/// Does what the words ask for: judges a configuration, replays a recording, and puts the transcript of its log.
pub fn replay<F: Files, O: Sink>(
    alloc: Global,
    words: &[String],
    files: &mut F,
    out: &mut O,
) -> Result<(), Stop>
    ensures ok { OnOk result (Replayed (texts words.now) (F.held files.old) (O.taken out.old) (O.taken out.new)) }
    ensures err { IfErr result (λ stop. Stops stop (texts words.now) (F.held files.old) (F.faults files.old) (F.faults files.new) (O.taken out.old) (O.faults out.old) (O.taken out.new) (O.faults out.new)) }
{
    let Some(names) = replay_words(words) else {
        return Err(Stop::Usage);
    };
    let config = configure(alloc, names.config, files)?;
    let entries = read(alloc, names.recording, files)?;
    let tape = play(alloc, &config, entries)?;
    put(alloc, &tape, out)
}
