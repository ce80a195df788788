// A generated load is served, and what is counted of its log is put.
ghost use Rattle.std.specs.Prelude.{◌≡◌, ◌≤◌, ◌≢◌, [], Some, IfOk, IfErr, OnOk};
ghost use Rattle.std.specs.Option.{option_map};
ghost use Rattle.generated_load.specs.Configs.{load_config};
ghost use Rattle.proxy_run.specs.Load.{Counted, IsCastOf, LoadStops, PutCountsStops, PutsCounts, RunStops, load_turns, told_stop};
ghost use Rattle.proxy_run.specs.Serve.{Attended, IsServed};
ghost use Rattle.proxy_run.specs.Run.{LoadOutcome};

use crate::running::{Status, tell};
use crate::serving::attend;
use crate::stop::Stop;
use generated_load::{LoadAsk, load_config, load_scripts, load_server, load_text};
use mem_server::MemServer;
use mx_base::OutOfMemory;
use mx_wire::{Entry, Sink};
use scripted_wire::Scripted;
use std::alloc::Global;

// How often the router waits at most.
fn load_turns(ask: &LoadAsk) -> u64
    requires clients { ask.now.clients ≤ 1000 }
    requires statements { ask.now.statements ≤ 100000 }
    ensures { result ≡ load_turns ask.now }
{
    1000 * (ask.clients + ask.statements) + 1000
}

// The wire between the clients and the server.
fn wire_of(alloc: Global, ask: &LoadAsk) -> Result<Scripted<MemServer>, OutOfMemory>
    requires { 1 ≤ ask.now.clients }
    ensures told { IfOk result (λ wire. wire.told ≡ Some []) }
    ensures cast { IfOk result (λ wire. IsCastOf ask.now wire.cast) }
{
    let scripts = load_scripts(alloc, ask)?;
    let mut servers = Vec::new(alloc);
    servers.push(load_server(alloc)?)?;
    Ok(Scripted::new(alloc, servers, scripts, Vec::new(alloc)))
}

// Serves the clients until all is said.
fn serve_load(alloc: Global, ask: &LoadAsk, wire: &mut Scripted<MemServer>) -> Result<(), Stop>
    requires fresh { wire.old.told ≡ Some [] }
    requires clients { ask.now.clients ≤ 1000 }
    requires statements { ask.now.statements ≤ 100000 }
    ensures ok { OnOk result (Attended load_config IsServed wire.new.told) }
    ensures err { IfErr result (λ stop. RunStops stop ask.now wire.new.told) }
    ensures cast { wire.new.cast ≡ wire.old.cast }
{
    let config = load_config(alloc)?;
    attend(alloc, &config, wire, load_turns(ask))
}

// Puts what is counted of the log.
fn put<O: Sink>(
    alloc: Global,
    ask: &LoadAsk,
    log: Option<&[Entry]>,
    out: &mut O,
) -> Result<(), Stop>
    ensures ok { OnOk result (PutsCounts ask.now (option_map (λ log. log.now) log.entry) (O.taken out.old) (O.taken out.new)) }
    ensures err { IfErr result (λ stop. PutCountsStops stop ask.now (option_map (λ log. log.now) log.entry) (O.taken out.old) (O.faults out.old) (O.taken out.new) (O.faults out.new)) }
{
    let Some(log) = log else {
        return Err(Stop::OutOfMemory);
    };
    let text = load_text(alloc, ask, log)?;
    match out.put(text.as_slice()) {
        Ok(()) => Ok(()),
        Err(_) => Err(Stop::SinkFault),
    }
}

// Why it stops short: a log that is no longer told stands for want of memory.
fn told_stop(stop: Stop, log: Option<&[Entry]>) -> Stop
    ensures { result ≡ told_stop (option_map (λ log. log.now) log.entry) stop }
{
    match log {
        Some(_) => stop,
        None => Stop::OutOfMemory,
    }
}

// Serves a load, and puts what is counted of its log.
fn load<O: Sink>(alloc: Global, ask: &LoadAsk, out: &mut O) -> Result<(), Stop>
    requires some { 1 ≤ ask.now.clients }
    requires clients { ask.now.clients ≤ 1000 }
    requires statements { ask.now.statements ≤ 100000 }
    ensures ok { OnOk result (Counted ask.now (O.taken out.old) (O.taken out.new)) }
    ensures err { IfErr result (λ stop. LoadStops stop ask.now (O.taken out.old) (O.faults out.old) (O.taken out.new) (O.faults out.new)) }
{
    let mut wire = wire_of(alloc, ask)?;
    match serve_load(alloc, ask, &mut wire) {
        Ok(()) => put(alloc, ask, wire.log(), out),
        Err(stop) => Err(told_stop(stop, wire.log())),
    }
}

/// Serves the load that the words ask for.
pub(crate) fn run_load<O: Sink>(alloc: Global, ask: &LoadAsk, out: &mut O) -> Status
    requires some { 1 ≤ ask.now.clients }
    requires clients { ask.now.clients ≤ 1000 }
    requires statements { ask.now.statements ≤ 100000 }
    ensures outcome { LoadOutcome ask.now (O.taken out.old) (O.faults out.old) (O.taken out.new) (O.faults out.new) result.0 }
    ensures usage { result.0 ≢ 2 }
{
    match load(alloc, ask, out) {
        Ok(()) => Status(0),
        Err(stop) => tell(alloc, out, stop),
    }
}
