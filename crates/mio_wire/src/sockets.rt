// The ports, and the links with those that the last wake named.
use crate::door::{Came, Door};
use crate::keepalive::{keep_alive, limit_unheard};
use crate::room::{has_room, most_links};
use crate::socket::Socket;
use mio::event::Event;
use mio::net::TcpStream;
use mio::{Events, Interest, Poll, Token};
use mx_base::{Address, LinkId, OutOfMemory, Port};
use std::alloc::{AllocError, Global};
use std::collections::{HashMap, VecDeque};
use std::io::{self, ErrorKind};
use std::net::{Ipv4Addr, Net, SocketAddr};
use std::time::Duration;

/// The tokens of the ports. Those of links are their numbers, which begin behind these.
const TRAFFIC: usize = 0;

const ADMIN: usize = 1;

/// How many ports and links one wake names at most. The next wake names the others.
pub const NAMED_AT_ONCE: usize = 1_024;

/// How long a server may take from the connect to its answer to the login, in milliseconds. One that isn't reached, or says nothing, would be
/// waited for longer, or without an end. ProxySQL documentation, mysql-connect_timeout_server_max.
const MOST_SILENT_MS: u64 = 10_000;

/// A link to a server, and the moment at which it is given up where it has answered nothing.
#[derive(Clone, Copy)]
struct Awaited {
    link: LinkId,
    until_ms: u64,
}

/// One poll, the open ports, the links by their numbers, a queue of those that the last wake named, and one of those to servers that
/// have to answer what is written first, the oldest first.
#[derive(Drop)]
pub struct Sockets {
    poll: Poll,
    traffic: Option<Door>,
    admin: Option<Door>,
    links: HashMap<u64, Socket>,
    ready: VecDeque<LinkId>,
    awaited: VecDeque<Awaited>,
    /// How many of the links are clients'.
    clients: u64,
    /// How many links may be open at a time.
    most: u64,
    /// The number of the newest link, or of the last port.
    newest: u64,
}

impl Sockets {
    /// No ports and no links.
    pub fn new<R: Net>(rt: &R, alloc: Global) -> io::Result<Self> {
        Ok(Sockets {
            poll: Poll::new(rt)?,
            traffic: None,
            admin: None,
            links: HashMap::new(alloc),
            ready: VecDeque::with_capacity(alloc, NAMED_AT_ONCE)?,
            awaited: VecDeque::new(alloc),
            clients: 0,
            most: most_links(),
            newest: ADMIN as u64,
        })
    }

    /// Makes room for so many links more.
    pub fn reserve(&mut self, links: u32) -> Result<(), OutOfMemory> {
        self.links.reserve(links as usize)?;
        Ok(())
    }

    /// Listens at the address. What listened there before is closed.
    pub fn listen<R: Net>(&mut self, rt: &R, port: Port, address: Address) -> io::Result<()> {
        let registry = self.poll.registry();
        match port {
            Port::Traffic => {
                let door = Door::open(rt, registry, Token(TRAFFIC), socket_addr(address))?;
                self.traffic = Some(door);
            }
            Port::Admin => {
                let door = Door::open(rt, registry, Token(ADMIN), socket_addr(address))?;
                self.admin = Some(door);
            }
        }
        Ok(())
    }

    /// Whether a client may wait for which there was no room.
    pub fn are_owed(&self) -> bool {
        is_owed(&self.traffic) || is_owed(&self.admin)
    }

    /// Waits for so long at most, and notes what is ready.
    pub fn wait(&mut self, events: &mut Events, most: Duration) -> io::Result<()> {
        self.ready.clear();
        self.poll.poll(events, Some(most))?;
        for event in &*events {
            self.name(event)?;
        }
        Ok(())
    }

    // A port or a link is ready. A link that closed since isn't known.
    fn name(&mut self, event: &Event) -> Result<(), AllocError> {
        match event.token().0 {
            TRAFFIC => name_door(&mut self.traffic),
            ADMIN => name_door(&mut self.admin),
            number => {
                if let Some(socket) = self.links.get_mut(&(number as u64)) {
                    socket.named(event);
                    self.ready.push_back(LinkId(number as u64))?;
                }
            }
        }
        Ok(())
    }

    /// The next link that the last wake named. One that closed since isn't given.
    pub fn next_ready(&mut self) -> Option<LinkId> {
        while let Some(link) = self.ready.pop_front() {
            if self.links.contains_key(&link.0) {
                return Some(link);
            }
        }
        None
    }

    // Whether there are descriptors for one client more, and for a link to a server for each client.
    fn has_room(&self) -> bool {
        let servers = (self.links.len() as u64).saturating_sub(self.clients);
        has_room(self.most, self.clients, servers)
    }

    /// The next client that waits at the port, if one does and there is room for it. One with which nothing can be done is passed over.
    pub fn accept(&mut self, port: Port) -> io::Result<Option<LinkId>> {
        if !self.has_room() {
            return Ok(None);
        }
        for _ in 0..u64::MAX {
            match self.knock(port)? {
                Came::Nobody => return Ok(None),
                Came::Gone => {}
                Came::Client(stream) => {
                    if let Ok(link) = self.keep(stream, true) {
                        self.clients = self.clients.saturating_add(1);
                        return Ok(Some(link));
                    }
                }
            }
        }
        Ok(None)
    }

    fn knock(&mut self, port: Port) -> io::Result<Came> {
        let door = match port {
            Port::Traffic => &mut self.traffic,
            Port::Admin => &mut self.admin,
        };
        match door {
            Some(door) => door.accept(),
            None => Err(io::Error::from(ErrorKind::NotConnected)),
        }
    }

    /// Begins to connect to the address, at this moment.
    pub fn open<R: Net>(&mut self, rt: &R, address: Address, now_ms: u64) -> io::Result<LinkId> {
        self.awaited.reserve(1)?;
        let stream = TcpStream::connect(rt, socket_addr(address))?;
        limit_unheard(&stream)?;
        let link = self.keep(stream, false)?;
        let until_ms = now_ms.saturating_add(MOST_SILENT_MS);
        self.awaited.push_back(Awaited { link, until_ms })?;
        Ok(link)
    }

    /// The moment at which the next link is given up, if it answers nothing.
    pub fn gives_up_at(&mut self) -> Option<u64> {
        for _ in 0..self.awaited.len() {
            let first = self.awaited.front().copied()?;
            if self.is_awaited(first.link) {
                return Some(first.until_ms);
            }
            let _ = self.awaited.pop_front();
        }
        None
    }

    // Whether the link is open, and has answered nothing.
    fn is_awaited(&self, link: LinkId) -> bool {
        match self.links.get(&link.0) {
            Some(socket) => !socket.has_answered(),
            None => false,
        }
    }

    /// Gives up the links that have answered nothing by now, and names them.
    pub fn give_up(&mut self, now_ms: u64) -> Result<(), AllocError> {
        for _ in 0..self.awaited.len() {
            match self.gives_up_at() {
                Some(until_ms) if until_ms <= now_ms => self.give_up_first()?,
                _ => return Ok(()),
            }
        }
        Ok(())
    }

    fn give_up_first(&mut self) -> Result<(), AllocError> {
        let Some(Awaited { link, .. }) = self.awaited.pop_front() else {
            return Ok(());
        };
        if let Some(socket) = self.links.get_mut(&link.0) {
            socket.give_up();
        }
        self.ready.push_back(link)?;
        Ok(())
    }

    // Keeps a connection under a number of its own. One that is there already has room to write.
    fn keep(&mut self, mut stream: TcpStream, is_there: bool) -> io::Result<LinkId> {
        let Some(number) = self.newest.checked_add(1) else {
            return Err(io::Error::from(ErrorKind::QuotaExceeded));
        };
        let both_ways = Interest::READABLE | Interest::WRITABLE;
        stream.set_nodelay(true)?;
        keep_alive(&stream)?;
        self.poll
            .registry()
            .register(&mut stream, Token(number as usize), both_ways)?;
        self.links.insert(number, Socket::new(stream, is_there))?;
        self.newest = number;
        Ok(LinkId(number))
    }

    /// The link's connection, while it is open.
    pub fn link(&mut self, link: LinkId) -> Option<&mut Socket> {
        self.links.get_mut(&link.0)
    }

    /// Closes the link's connection.
    pub fn close(&mut self, link: LinkId) {
        if let Some(socket) = self.links.remove(&link.0) {
            if socket.is_client() {
                self.clients = self.clients.saturating_sub(1);
            }
        }
    }
}

fn socket_addr(address: Address) -> SocketAddr {
    SocketAddr::from((Ipv4Addr::from(address.ip), address.port))
}

fn is_owed(door: &Option<Door>) -> bool {
    match door {
        Some(door) => door.is_owed(),
        None => false,
    }
}

fn name_door(door: &mut Option<Door>) {
    if let Some(door) = door {
        door.named();
    }
}
