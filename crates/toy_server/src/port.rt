// A port to which connections come.
use crate::connection::serve_connection;
use mx_base::ClientNo;
use scripted_wire::Hosts;
use server_rule::TameServer;
use std::alloc::Global;
use std::io::{self, Read};
use std::net::TcpListener;

/// Serves the connections that come to a port, one after the other, each to its end. A byte of `input` is read behind each: at the end
/// of `input` no other is taken.
pub fn serve_port<R: TameServer, I: Read>(
    alloc: Global,
    listener: &TcpListener,
    hosts: &mut Hosts<R>,
    input: &mut I,
) -> io::Result<()> {
    for number in 1..u64::MAX {
        let (stream, _) = listener.accept()?;
        stream.set_nodelay(true)?;
        // A connection that fails is over, as one that ends is.
        let _ = serve_connection(alloc, ClientNo(number), hosts, &mut &stream, &mut &stream);
        if input.read(&mut [0])? == 0 {
            return Ok(());
        }
    }
    Ok(())
}
