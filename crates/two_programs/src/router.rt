// The router's process.
use crate::ports::Ports;
use mem_wire::{MemFiles, MemSink};
use mio_wire::MioWire;
use mx_base::{Bytes, OutOfMemory};
use proxy_run::run;
use std::alloc::{AllocError, Global};
use std::net::Net;
use std::process::ExitCode;
use std::random::RandomSource;
use std::thread::Threads;
use std::time::Clock;

/// The name of the configuration.
const NAME: &str = "mx_proxy.toml";

// One user without a password, and one server that allows one connection.
fn config_text(alloc: Global, ports: Ports) -> Result<String, AllocError> {
    let Ports {
        server,
        traffic,
        admin,
    } = ports;
    format!(in alloc;
        "[proxy]
listen = \"127.0.0.1:{traffic}\"
admin_listen = \"127.0.0.1:{admin}\"
admin_user = \"admin\"
admin_password = \"\"
[[users]]
name = \"u\"
password = \"\"
[[servers]]
hostgroup = 0
host = \"127.0.0.1\"
port = {server}
max_connections = 1
"
    )
}

// The configuration, as the only file.
fn files_of(alloc: Global, ports: Ports) -> Result<MemFiles, OutOfMemory> {
    let text = config_text(alloc, ports)?;
    let mut files = Vec::new(alloc);
    files.push((
        Bytes::from_slice(alloc, NAME.as_bytes())?,
        Bytes::from_slice(alloc, text.as_bytes())?,
    ))?;
    Ok(MemFiles::new(alloc, files, Vec::new(alloc)))
}

// The words that a command line would have.
fn words(alloc: Global) -> Result<Vec<String>, OutOfMemory> {
    let mut words = Vec::new(alloc);
    words.push(String::from_str(alloc, "serve")?)?;
    words.push(String::from_str(alloc, NAME)?)?;
    Ok(words)
}

// The status of a run, where there is memory for it.
fn serve_by<R: Threads + Sync + Net + Clock + RandomSource>(
    rt: &R,
    alloc: Global,
    ports: Ports,
) -> Result<u8, OutOfMemory> {
    let words = words(alloc)?;
    let mut files = files_of(alloc, ports)?;
    let mut wire = MioWire::new(rt, alloc)?;
    let mut out = MemSink::new(alloc, Vec::new(alloc));
    let status = run(rt, alloc, &words, &mut files, &mut wire, &mut out);
    Ok(status.0)
}

/// Does what `mx_proxy serve` does, and ends as that does. Where there is no memory to begin with the status is 5.
pub fn serve<R: Threads + Sync + Net + Clock + RandomSource>(
    rt: &R,
    alloc: Global,
    ports: Ports,
) -> ExitCode {
    match serve_by(rt, alloc, ports) {
        Ok(status) => ExitCode::from(status),
        Err(_) => ExitCode::from(5),
    }
}
