// The server's process.
use crate::ports::on_loopback;
use mem_server::MemServer;
use scripted_wire::Hosts;
use std::io;
use std::net::TcpListener;
use toy_server::serve_port;

/// Serves a server in memory at the port, one connection more than its input has bytes.
pub fn serve(rt: &HostRuntime, port: u16) -> io::Result<()> {
    let alloc = rt.alloc();
    let mut servers = Vec::new(alloc);
    servers.push(MemServer::new(alloc))?;
    let mut hosts = Hosts::new(alloc, servers);
    let listener = TcpListener::bind(rt, on_loopback(port))?;
    serve_port(alloc, &listener, &mut hosts, &mut rt.stdin())
}
