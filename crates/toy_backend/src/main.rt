//! A MySQL server in memory, on the loopback interface, of the statements that mem_server knows.
#![tactic(auto)]

use mem_server::MemServer;
use scripted_wire::Hosts;
use std::net::{Ipv4Addr, SocketAddr, TcpListener};
use std::process::ExitCode;
use std::{env, io};
use toy_server::serve_port;

// The number of a port, without a sign or a leading zero.
fn read_port(word: &str) -> Option<u16> {
    if word.starts_with('+') || (word.len() > 1 && word.starts_with('0')) {
        return None;
    }
    word.parse().ok()
}

// The port, where the words are that alone.
fn port_in_words(rt: &HostRuntime) -> Option<u16> {
    let mut words = env::args(rt).ok()?.skip(1);
    let word = words.next()?;
    if words.next().is_some() {
        return None;
    }
    read_port(word.as_str())
}

// Serves a server without tables at the port, until the program's input ends.
fn serve(rt: &HostRuntime, port: u16) -> io::Result<()> {
    let alloc = rt.alloc();
    let mut servers = Vec::new(alloc);
    servers.push(MemServer::new(alloc))?;
    let mut hosts = Hosts::new(alloc, servers);
    let listener = TcpListener::bind(rt, SocketAddr::from((Ipv4Addr::LOCALHOST, port)))?;
    serve_port(alloc, &listener, &mut hosts, &mut rt.stdin())
}

fn main(rt: HostRuntime) -> ExitCode {
    let Some(port) = port_in_words(&rt) else {
        let _ = println!(rt; "usage: toy_backend <port>");
        return ExitCode::from(2);
    };
    match serve(&rt, port) {
        Ok(()) => ExitCode::SUCCESS,
        Err(_) => ExitCode::FAILURE,
    }
}
