// A port at which clients are accepted.
use mio::net::{TcpListener, TcpStream};
use mio::{Interest, Registry, Token};
use std::io::{self, ErrorKind};
use std::net::{Net, SocketAddr};

/// The errors of accept(2) that say nothing of the port: the peer gave its connection up, or the network did. Linux's EPERM, ENONET,
/// EPROTO, ENOPROTOOPT, EOPNOTSUPP, ENETDOWN, ENETUNREACH, ECONNABORTED, EHOSTDOWN and EHOSTUNREACH.
const OF_THE_PEER: [i32; 10] = [1, 64, 71, 92, 95, 100, 101, 103, 112, 113];

/// The errors of accept(2) for want of memory, descriptors or buffers: Linux's ENOMEM, ENFILE, EMFILE and ENOBUFS.
const FOR_WANT: [i32; 4] = [12, 23, 24, 105];

/// A port, and whether a client may wait there. Where none does, no call is made.
#[derive(Drop)]
pub struct Door {
    listener: TcpListener,
    ready: bool,
}

/// What an accept gave.
#[derive(Drop)]
pub enum Came {
    Client(TcpStream),
    /// A client that gave up before.
    Gone,
    /// No client can be taken now.
    Nobody,
}

impl Door {
    /// Listens at the address. The poll names the port by the token.
    pub fn open<R: Net>(
        rt: &R,
        registry: &Registry,
        token: Token,
        address: SocketAddr,
    ) -> io::Result<Self> {
        let mut listener = TcpListener::bind(rt, address)?;
        registry.register(&mut listener, token, Interest::READABLE)?;
        Ok(Door {
            listener,
            ready: false,
        })
    }

    /// The poll has named it.
    pub fn named(&mut self) {
        self.ready = true;
    }

    /// Whether a client may wait for which there was no room.
    pub fn is_owed(&self) -> bool {
        self.ready
    }

    /// The next client. An error is one of the port.
    pub fn accept(&mut self) -> io::Result<Came> {
        if !self.ready {
            return Ok(Came::Nobody);
        }
        match self.listener.accept() {
            Ok((stream, _)) => Ok(Came::Client(stream)),
            Err(error) if error.kind() == ErrorKind::WouldBlock => {
                self.ready = false;
                Ok(Came::Nobody)
            }
            Err(error) if is_among(&error, &FOR_WANT) => Ok(Came::Nobody),
            Err(error) if is_among(&error, &OF_THE_PEER) => Ok(Came::Gone),
            Err(error) => Err(error),
        }
    }
}

fn is_among(error: &io::Error, codes: &[i32]) -> bool {
    match error.raw_os_error() {
        Some(code) => codes.contains(&code),
        None => false,
    }
}
