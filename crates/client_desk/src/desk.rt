// A client's desk.
ghost use Rattle.std.specs.Prelude.{◌≡◌, OnErr, OnOk};
ghost use Rattle.client_desk.specs.Desks.{anew_in, carried_of, freed, gone, left, lent, name_of, new_desk, sent, session_of, taken_on};

use crate::session::{Session, next_life};
use crate::sessions::Sessions;
use crate::work::Work;
use client_seat::Seat;
use mx_base::{Hostgroup, LinkId, OutOfMemory};
use session_state::{SessionName, is_pinned};
use std::alloc::Global;

/// A client: its seat, how often it left all its sessions, its present session in each hostgroup that it used, and the statement that became
/// due and isn't answered. A session of which there is no row is the first in the life after so many.
#[derive(Drop)]
pub struct Desk {
    pub seat: Seat,
    pub lefts: u64,
    pub sessions: Sessions,
    pub work: Option<Work>,
}

impl Desk {
    /// A client in whose sessions nothing happened. Takes no memory.
    pub fn new(alloc: Global, seat: Seat) -> Self
        ensures { result ≡ new_desk seat }
    {
        Desk {
            seat,
            lefts: 0,
            sessions: Sessions::new(alloc),
            work: None,
        }
    }

    /// Its present session in a hostgroup. Takes no memory.
    pub fn session(&self, hostgroup: Hostgroup) -> Session
        ensures { result ≡ session_of self.now hostgroup }
    {
        self.sessions.session(hostgroup, self.lefts)
    }

    /// The name of that. Takes no memory.
    pub fn name(&self, hostgroup: Hostgroup) -> SessionName
        ensures { result ≡ name_of self.now hostgroup }
    {
        SessionName {
            client: self.seat.number(),
            hostgroup,
            life: self.session(hostgroup).life,
        }
    }

    /// It as a link sees it that carries it. Takes no memory.
    pub fn carried(&self, hostgroup: Hostgroup) -> link_state::Session
        ensures { result ≡ carried_of self.now hostgroup }
    {
        let session = self.session(hostgroup);
        link_state::Session {
            present: true,
            pin: session.pin,
            id: session.id,
            lasting: session.lasting,
        }
    }

    /// A statement becomes due. Whether its session is unpinned is noted. OutOfMemory leaves the desk as it was.
    pub fn due(&mut self, work: Work) -> Result<(), OutOfMemory>
        ensures ok { OnOk result (self.new ≡ taken_on work self.old) }
        ensures err { OnErr result (self.new ≡ self.old) }
    {
        let anew = !is_pinned(self.session(work.hostgroup).pin);
        self.sessions.ready(work.hostgroup, self.lefts)?;
        self.work = Some(Work {
            anew,
            sent: false,
            ..work
        });
        Ok(())
    }

    /// The preparation of a text went out to this link on the way to the statement of the hostgroup's session. Takes no memory.
    pub fn lent(&mut self, hostgroup: Hostgroup, link: LinkId)
        ensures { self.new ≡ lent hostgroup link self.old }
    {
        let session = self.session(hostgroup);
        self.sessions.put(session.homed(link));
    }

    /// The statement itself went out to this link; `outlasts` says that a reset may not take back what it does. Takes no memory.
    pub fn sent(&mut self, hostgroup: Hostgroup, link: LinkId, outlasts: bool)
        ensures { self.new ≡ sent hostgroup link outlasts self.old }
    {
        let session = self.session(hostgroup);
        self.sessions.put(session.stated(link, outlasts));
        if let Some(work) = &mut self.work {
            work.go_out();
        }
    }

    /// The link that carried the hostgroup's session is given back. Takes no memory.
    pub fn freed(&mut self, hostgroup: Hostgroup)
        ensures { self.new ≡ freed hostgroup self.old }
    {
        let session = self.session(hostgroup);
        self.sessions.put(session.unhomed());
    }

    /// The link that carried the hostgroup's session is lost, and the session with it: the next one begins. Takes no memory.
    pub fn gone(&mut self, hostgroup: Hostgroup)
        ensures { self.new ≡ gone hostgroup self.old }
    {
        let session = self.session(hostgroup);
        self.sessions.put(session.next());
    }

    /// The client leaves all its sessions. What their links have to know of them is read off first, by `Session::parted`. Takes no memory.
    pub fn left(&mut self)
        ensures { self.new ≡ left self.old }
    {
        self.lefts = next_life(self.lefts);
        self.sessions.leave();
        self.work = None;
    }
}
