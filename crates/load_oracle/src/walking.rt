// The walk over a log.
use crate::client::Client;
use crate::link::{Asked, Link};
use crate::packets::text_in;
use generated_load::load_server;
use mem_server::MemServer;
use mx_base::{ClientNo, LinkId, OutOfMemory, Tag};
use mx_wire::Entry;
use server_rule::Cmd;
use std::alloc::Global;
use std::mem;

/// COM_RESET_CONNECTION as a packet (client/server protocol, "COM_RESET_CONNECTION").
const RESET: [u8; 5] = [1, 0, 0, 0, 0x1F];

/// What a log says: the server, the clients in the order in which they came, the links to servers, and whether each of these was asked for
/// what clients said alone.
#[derive(Drop)]
pub struct Walked {
    server: MemServer,
    clients: Vec<Client>,
    links: Vec<Link>,
    is_theirs: bool,
}

// The place of a client; they count from 1.
fn place_of(client: ClientNo) -> usize {
    client.0.wrapping_sub(1) as usize
}

impl Walked {
    /// The clients.
    pub fn clients(&self) -> &[Client] {
        &self.clients
    }

    /// Whether servers were asked for what clients said alone.
    pub fn is_theirs(&self) -> bool {
        self.is_theirs
    }

    // Bytes come of a link, or are written there, where it is a client's.
    fn of_client(&mut self, link: LinkId, said: &[u8], written: &[u8]) -> Result<(), OutOfMemory> {
        for client in &mut self.clients {
            if client.link == link {
                client.said.extend_from_slice(said)?;
                client.written.extend_from_slice(written)?;
            }
        }
        Ok(())
    }

    // The place of a link to a server.
    fn place(&self, link: LinkId) -> Option<usize> {
        self.links.iter().position(|at| at.link == link)
    }

    // A link is asked for something. From now on it carries the session of the client, and no other link does.
    fn asks(&mut self, link: LinkId, client: ClientNo, asked: Asked) {
        for place in &mut self.links {
            if place.link == link {
                place.client = client;
                place.asked = asked;
            } else if place.client == client && place.lost.is_none() {
                place.client = ClientNo(0);
            }
        }
    }

    // A link is asked for what is no client's.
    fn asks_own(&mut self, link: LinkId) {
        for place in &mut self.links {
            if place.link == link {
                place.asked = Asked::Own;
            }
        }
    }

    // The packet of a client's message.
    fn message(&self, client: ClientNo, ordinal: u64) -> &[u8] {
        match self.clients.get(place_of(client)) {
            Some(client) => client.message(ordinal),
            None => &[],
        }
    }

    // Bytes are written with a tag.
    fn wrote(&mut self, link: LinkId, tag: Tag, bytes: &[u8]) -> Result<(), OutOfMemory> {
        match tag {
            Tag::Reply => return self.of_client(link, &[], bytes),
            Tag::For { client, ordinal } => {
                self.is_theirs = self.is_theirs && self.message(client, ordinal) == bytes;
                self.asks(link, client, Asked::Message { ordinal });
            }
            Tag::End { client, .. } if bytes == RESET.as_slice() => {
                self.asks(link, client, Asked::Reset);
            }
            _ => self.asks_own(link),
        }
        Ok(())
    }

    // A message of a client runs: in its session, or in the one that was lost with the link.
    fn runs(&mut self, alloc: Global, at: usize, ordinal: u64) -> Result<(), OutOfMemory> {
        let Some(link) = self.links.get_mut(at) else {
            return Ok(());
        };
        let Some(client) = self.clients.get_mut(place_of(link.client)) else {
            return Ok(());
        };
        let query = Cmd::Query {
            text: text_in(alloc, client.message(ordinal))?,
        };
        match &mut link.lost {
            Some(session) => {
                let _reply = self.server.run(alloc, session, &query)?;
                Ok(())
            }
            None => client.run(alloc, &mut self.server, ordinal, &query),
        }
    }

    // The session that was left is reset.
    fn resets(&mut self, alloc: Global, at: usize) -> Result<(), OutOfMemory> {
        let Some(link) = self.links.get_mut(at) else {
            return Ok(());
        };
        if link.lost.is_some() {
            return Ok(());
        }
        match self.clients.get_mut(place_of(link.client)) {
            Some(client) => client.reset(alloc, &mut self.server),
            None => Ok(()),
        }
    }

    // The server runs what a link was asked last.
    fn ran(&mut self, alloc: Global, at: usize) -> Result<(), OutOfMemory> {
        let asked = match self.links.get_mut(at) {
            Some(link) => mem::replace(&mut link.asked, Asked::Own),
            None => Asked::Own,
        };
        match asked {
            Asked::Message { ordinal } => self.runs(alloc, at, ordinal),
            Asked::Reset => self.resets(alloc, at),
            Asked::Own => Ok(()),
        }
    }

    // The router closes a link: the session there is lost to its client.
    fn closed(&mut self, alloc: Global, at: usize) -> Result<(), OutOfMemory> {
        let Some(link) = self.links.get_mut(at) else {
            return Ok(());
        };
        if link.lost.is_some() {
            return Ok(());
        }
        if let Some(client) = self.clients.get_mut(place_of(link.client)) {
            link.lost = Some(client.lose(alloc)?);
        }
        Ok(())
    }

    // The session on a link is closed.
    fn dropped(&mut self, alloc: Global, at: usize) -> Result<(), OutOfMemory> {
        self.closed(alloc, at)?;
        let Some(link) = self.links.get_mut(at) else {
            return Ok(());
        };
        if let Some(session) = &mut link.lost {
            let _reply = self.server.run(alloc, session, &Cmd::Close)?;
        }
        link.client = ClientNo(0);
        Ok(())
    }

    // What an entry of a link to a server says.
    fn of_server(&mut self, alloc: Global, entry: &Entry, at: usize) -> Result<(), OutOfMemory> {
        match entry {
            Entry::Exec { .. } => self.ran(alloc, at),
            Entry::Closed { .. } => self.closed(alloc, at),
            Entry::Drop { .. } => self.dropped(alloc, at),
            _ => Ok(()),
        }
    }

    fn take(&mut self, alloc: Global, entry: &Entry) -> Result<(), OutOfMemory> {
        match entry {
            Entry::Accepted { link, .. } => {
                self.clients.push(Client::new(alloc, *link)?)?;
                Ok(())
            }
            Entry::Opened { link, .. } => {
                self.links.push(Link {
                    link: *link,
                    client: ClientNo(0),
                    asked: Asked::Own,
                    lost: None,
                })?;
                Ok(())
            }
            Entry::Got { link, bytes } => self.of_client(*link, bytes.as_slice(), &[]),
            Entry::Wrote { link, tag, bytes } => self.wrote(*link, *tag, bytes.as_slice()),
            Entry::Exec { link } | Entry::Closed { link } | Entry::Drop { link } => {
                match self.place(*link) {
                    Some(at) => self.of_server(alloc, entry, at),
                    None => Ok(()),
                }
            }
            _ => Ok(()),
        }
    }
}

/// Walks over a log of texts in one hostgroup, whose server was at first that of a generated load.
pub fn walk(alloc: Global, log: &[Entry]) -> Result<Walked, OutOfMemory> {
    let mut walked = Walked {
        server: load_server(alloc)?,
        clients: Vec::new(alloc),
        links: Vec::new(alloc),
        is_theirs: true,
    };
    for entry in log {
        walked.take(alloc, entry)?;
    }
    Ok(walked)
}
