// Connections whose other end vanished.
ghost use Rattle.libc.specs.Net.{SockOption};

use libc::net::{
    self, IPPROTO_TCP, SO_KEEPALIVE, SOL_SOCKET, TCP_KEEPCNT, TCP_KEEPIDLE, TCP_KEEPINTVL,
    TCP_USER_TIMEOUT,
};
use mio::net::TcpStream;
use std::io::{self, ErrorKind};
use std::os::fd::AsRawFd;

/// How long a connection may be silent, in seconds, before its other end is asked for a sign of life (ProxySQL documentation,
/// mysql-tcp_keepalive_time).
const SILENT_S: i32 = 60;

/// How long each sign is waited for, in seconds, and how many are missed before the connection has failed.
const TRY_S: i32 = 10;

const TRIES: i32 = 6;

/// How long bytes that were sent may stand unacknowledged, in milliseconds, before the connection has failed.
const UNHEARD_MS: i32 = 120_000;

// Sets an option of a socket to a number.
fn set(stream: &TcpStream, level: i32, name: i32, value: i32) -> io::Result<()>
    requires { SockOption level name }
{
    let mut bytes = [0u8; 16];
    bytes[..4].copy_from_slice(&value.to_ne_bytes());
    if unsafe { net::setsockopt(stream.as_raw_fd(), level, name, &bytes, 4) } == 0 {
        Ok(())
    } else {
        Err(io::Error::from(ErrorKind::Other))
    }
}

/// Has the system ask the other end of a silent connection for a sign of life (tcp(7), TCP_KEEPIDLE, TCP_KEEPINTVL and TCP_KEEPCNT): where
/// the host has vanished reads and writes fail after two minutes, unless bytes are on their way there.
pub fn keep_alive(stream: &TcpStream) -> io::Result<()> {
    set(stream, SOL_SOCKET, SO_KEEPALIVE, 1)?;
    set(stream, IPPROTO_TCP, TCP_KEEPIDLE, SILENT_S)?;
    set(stream, IPPROTO_TCP, TCP_KEEPINTVL, TRY_S)?;
    set(stream, IPPROTO_TCP, TCP_KEEPCNT, TRIES)
}

/// Has reads and writes fail in two minutes too where bytes were on their way as the host vanished (tcp(7), TCP_USER_TIMEOUT): the system would
/// send them again for a quarter of an hour. Not for clients: it counts the time in which the other end reads nothing.
pub fn limit_unheard(stream: &TcpStream) -> io::Result<()> {
    set(stream, IPPROTO_TCP, TCP_USER_TIMEOUT, UNHEARD_MS)
}
