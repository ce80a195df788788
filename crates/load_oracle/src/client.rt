// A client of a load.
use crate::packets::{packet_at, spelled};
use generated_load::first_session;
use mem_server::MemServer;
use mx_base::{LinkId, OutOfMemory};
use server_rule::{Cmd, Session};
use std::alloc::Global;
use std::mem;

/// What stands in place of a reply that no server gave: a packet that is none.
const NO_REPLY: [u8; 5] = [1, 0, 0, 1, 0xFF];

/// A client: what it said and was written, its session, and the replies that were given there, by the places of its messages.
#[derive(Drop)]
pub struct Client {
    pub(crate) link: LinkId,
    pub(crate) said: Vec<u8>,
    /// What it was written.
    pub written: Vec<u8>,
    session: Session,
    replies: Vec<(u64, Vec<u8>)>,
}

/// The code of COM_QUIT, which has no reply.
const COM_QUIT: u8 = 0x01;

impl Client {
    pub(crate) fn new(alloc: Global, link: LinkId) -> Result<Self, OutOfMemory> {
        Ok(Client {
            link,
            said: Vec::new(alloc),
            written: Vec::new(alloc),
            session: first_session(alloc)?,
            replies: Vec::new(alloc),
        })
    }

    // The packet of its message of this place; its login comes before all.
    pub(crate) fn message(&self, ordinal: u64) -> &[u8] {
        packet_at(&self.said, ordinal).unwrap_or(&[])
    }

    // A command runs in its session, and the reply is kept as that to its message of this place.
    pub(crate) fn run(
        &mut self,
        alloc: Global,
        server: &mut MemServer,
        ordinal: u64,
        query: &Cmd,
    ) -> Result<(), OutOfMemory> {
        let reply = server.run(alloc, &mut self.session, query)?;
        self.replies.push((ordinal, spelled(alloc, &reply)?))?;
        Ok(())
    }

    // Its session is reset.
    pub(crate) fn reset(
        &mut self,
        alloc: Global,
        server: &mut MemServer,
    ) -> Result<(), OutOfMemory> {
        let _reply = server.run(alloc, &mut self.session, &Cmd::Reset)?;
        Ok(())
    }

    // Its session is lost with its link, and it begins another.
    pub(crate) fn lose(&mut self, alloc: Global) -> Result<Session, OutOfMemory> {
        let fresh = first_session(alloc)?;
        Ok(mem::replace(&mut self.session, fresh))
    }

    // The reply to its message of this place.
    fn reply(&self, ordinal: u64) -> &[u8] {
        for (at, reply) in &self.replies {
            if *at == ordinal {
                return reply;
            }
        }
        &NO_REPLY
    }

    /// How many messages it said whole before its COM_QUIT, its login among them.
    pub fn messages(&self) -> u64 {
        for place in 0..self.said.len() as u64 {
            match packet_at(&self.said, place) {
                Some([_, _, _, _, COM_QUIT]) | None => return place,
                Some(_) => {}
            }
        }
        0
    }

    /// How many of them a server replied to.
    pub fn replied(&self) -> usize {
        self.replies.len()
    }

    /// What it is due: this front, and the replies to its messages behind the login.
    pub fn due(&self, alloc: Global, login: &[u8]) -> Result<Vec<u8>, OutOfMemory> {
        let mut due = login.to_vec(alloc)?;
        for ordinal in 1..self.messages() {
            due.extend_from_slice(self.reply(ordinal))?;
        }
        Ok(due)
    }
}
