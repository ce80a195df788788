// Ports of the loopback interface.
use std::io;
use std::net::{Ipv4Addr, SocketAddr, TcpListener};

/// The ports of a run: the server's, and the router's for clients and for administrators.
#[derive(Clone, Copy)]
pub struct Ports {
    pub server: u16,
    pub traffic: u16,
    pub admin: u16,
}

/// A port of the loopback interface.
pub fn on_loopback(port: u16) -> SocketAddr {
    SocketAddr::from((Ipv4Addr::LOCALHOST, port))
}

impl Ports {
    /// Three ports at which nobody listens. They are taken at once, so that they differ.
    pub fn free(rt: &HostRuntime) -> io::Result<Ports> {
        let server = TcpListener::bind(rt, on_loopback(0))?;
        let traffic = TcpListener::bind(rt, on_loopback(0))?;
        let admin = TcpListener::bind(rt, on_loopback(0))?;
        Ok(Ports {
            server: server.local_addr()?.port(),
            traffic: traffic.local_addr()?.port(),
            admin: admin.local_addr()?.port(),
        })
    }

    /// The ports that three words are.
    pub fn of_words(words: &[String]) -> Option<Ports> {
        match words {
            [server, traffic, admin] => Some(Ports {
                server: server.as_str().parse().ok()?,
                traffic: traffic.as_str().parse().ok()?,
                admin: admin.as_str().parse().ok()?,
            }),
            _ => None,
        }
    }
}
