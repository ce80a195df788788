//! A MySQL router on real sockets, which can also replay a recording of what its clients and servers send and print what it wrote.
#![tactic(auto)]

mod disk_files;
mod standard_out;

use disk_files::DiskFiles;
use mio_wire::MioWire;
use proxy_run::run;
use standard_out::StandardOut;
use std::env;
use std::io::{self, ErrorKind};
use std::process::ExitCode;

fn main(rt: HostRuntime) -> ExitCode {
    let alloc = rt.alloc();
    let words = match command_line(&rt) {
        Ok(words) => words,
        Err(error) if error.kind() == ErrorKind::OutOfMemory => return ExitCode::from(5),
        // Words that aren't UTF-8 are no command.
        Err(_) => Vec::new(alloc),
    };
    let mut files = DiskFiles::new(&rt);
    let Ok(mut wire) = MioWire::new(&rt, alloc) else {
        return ExitCode::from(5);
    };
    let mut out = StandardOut::new(&rt);
    let status = run(&rt, alloc, &words, &mut files, &mut wire, &mut out);
    ExitCode::from(status.0)
}

// The words after the program's name.
fn command_line(rt: &HostRuntime) -> io::Result<Vec<String>> {
    let mut words = Vec::new(rt.alloc());
    for word in env::args(rt)?.skip(1) {
        words.push(word)?;
    }
    Ok(words)
}
