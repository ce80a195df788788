// What is kept of a link to a server.
ghost use Rattle.std.specs.Prelude.{◌≡◌, IfOk};
ghost use Rattle.handshake.specs.Spelling.{IsText};
ghost use Rattle.served_link.specs.Rows.{freed, left_by, lost, new_row, readied_for, taken_back};

use crate::numbers::LongNumbers;
use lent_link::LentLink;
use mx_base::{Bytes, ClientNo, Hostgroup, OutOfMemory, ServerId};
use reply_relay::OneCell;
use session_state::Pin;
use std::alloc::Global;

/// As whom the router logs in on a link.
#[derive(Drop)]
pub struct Identity {
    pub user: Bytes,
    pub found_rows: bool,
}

/// What a link is opened for: the hostgroup of its server, the number of its key, and whether it is kept for those who stand in no
/// schema.
#[derive(Clone, Copy)]
pub struct Opening {
    pub server: ServerId,
    pub hostgroup: Hostgroup,
    pub key: u32,
    pub bare: bool,
}

/// A session that its client left: why it kept its link, its insert id where that is known, and whether a statement of it went out that
/// no reset takes back.
#[derive(Clone, Copy)]
pub struct LeftSession {
    pub pin: Pin,
    pub id: Option<u64>,
    pub lasting: bool,
}

/// What a router keeps of a link to a server: the link itself; as whom it logs in there, the hostgroup, the number of the link's key, and
/// whether it is kept for those who stand in no schema; the session that it carries, where its client left that; the client for whom it
/// is readied; the moment of its last use; the numbers with long data, and what they are once the execute that is to be written begins;
/// what a rule says of sharing the link behind the statement there; what was read of the answer to a question for an insert id; whether it
/// was lost; and whether the last answer there wasn't as it should be, or refused a step.
#[derive(Drop)]
pub struct Row {
    pub link: LentLink,
    pub identity: Identity,
    pub hostgroup: Hostgroup,
    pub key: u32,
    pub bare: bool,
    pub left: Option<LeftSession>,
    pub readied: Option<ClientNo>,
    pub used: u64,
    pub long: LongNumbers,
    pub longer: Option<LongNumbers>,
    pub multiplex: Option<bool>,
    pub cell: Option<OneCell>,
    pub lost: bool,
    pub amiss: bool,
    pub refused: bool,
}

impl Row {
    /// A link that was opened at this moment, on which nothing was heard. The user's name has no NUL.
    pub fn new(
        alloc: Global,
        opening: Opening,
        user: &[u8],
        password: &[u8],
        found_rows: bool,
        now: u64,
    ) -> Result<Self, OutOfMemory>
        requires { IsText user.now }
        ensures { IfOk result (λ row. row ≡ new_row opening (record { user = user.now; password = password.now; found_rows = found_rows }) now) }
    {
        Ok(Row {
            link: LentLink::new(alloc, opening.server, user, password, found_rows)?,
            identity: Identity {
                user: Bytes::from_slice(alloc, user)?,
                found_rows,
            },
            hostgroup: opening.hostgroup,
            key: opening.key,
            bare: opening.bare,
            left: None,
            readied: None,
            used: now,
            long: LongNumbers::new(alloc),
            longer: None,
            multiplex: None,
            cell: None,
            lost: false,
            amiss: false,
            refused: false,
        })
    }

    /// A read there ended or failed, or a write failed. Takes no memory.
    pub fn lost(&mut self)
        ensures { self.new ≡ lost self.old }
    {
        self.lost = true;
    }

    /// The client of the session that it carries left, with its session as it was. Takes no memory.
    pub fn left_by(&mut self, session: LeftSession)
        ensures { self.new ≡ left_by session self.old }
    {
        self.left = Some(session);
    }

    /// It is given back. Takes no memory.
    pub fn freed(&mut self)
        ensures { self.new ≡ freed self.old }
    {
        self.link.state.free();
        self.left = None;
    }

    /// It is readied for this client, or for nobody. Takes no memory.
    pub fn ready(&mut self, client: Option<ClientNo>)
        ensures { self.new ≡ readied_for client self.old }
    {
        self.readied = client;
    }

    /// What is to be written next, and of which no byte was, is taken back. Takes no memory.
    pub fn take_back(&mut self)
        ensures { self.new ≡ taken_back self.old }
    {
        self.link.unbegin();
    }
}
