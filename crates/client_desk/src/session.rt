// A client's present session in a hostgroup.
ghost use Rattle.std.specs.Prelude.{◌≡◌};
ghost use Rattle.client_desk.specs.Sessions.{first_session, homed, next_life, next_session, parted_of, stated, unhomed};

use mx_base::{Hostgroup, LinkId};
use session_state::Pin;

/// A client's present session in a hostgroup: which of its lives it is, why it keeps its link, its insert id where that is known, the link
/// that carries it, and whether a statement of it went out that no reset takes back.
#[derive(Clone, Copy)]
pub struct Session {
    pub hostgroup: Hostgroup,
    pub life: u64,
    pub pin: Pin,
    pub id: Option<u64>,
    pub home: Option<LinkId>,
    pub lasting: bool,
}

/// A session that is left, and the link that carries it: what the link has to know of it.
#[derive(Clone, Copy)]
pub struct Parted {
    pub hostgroup: Hostgroup,
    pub life: u64,
    pub link: LinkId,
    pub pin: Pin,
    pub id: Option<u64>,
    pub lasting: bool,
}

/// The life behind this one.
pub(crate) fn next_life(life: u64) -> u64
    ensures { result ≡ next_life life }
{
    life.wrapping_add(1)
}

impl Session {
    /// A session in which nothing happened. Takes no memory.
    pub fn first(hostgroup: Hostgroup, life: u64) -> Self
        ensures { result ≡ first_session hostgroup life }
    {
        let pin = Pin {
            deep: false,
            locks: false,
            next_tx: false,
            tx: false,
            after_err: false,
            uncommitted: false,
            diag: false,
            own_diag: false,
            own_found: false,
            rule: false,
        };
        Session {
            hostgroup,
            life,
            pin,
            id: Some(0),
            home: None,
            lasting: false,
        }
    }

    /// The one behind it, as it is left. Takes no memory.
    pub fn next(self) -> Self
        ensures { result ≡ next_session self }
    {
        Session::first(self.hostgroup, next_life(self.life))
    }

    /// What its link has to know of it as it is left, where a link carries it. Takes no memory.
    pub fn parted(self) -> Option<Parted>
        ensures { result ≡ parted_of self }
    {
        let link = self.home?;
        Some(Parted {
            hostgroup: self.hostgroup,
            life: self.life,
            link,
            pin: self.pin,
            id: self.id,
            lasting: self.lasting,
        })
    }

    pub(crate) fn homed(self, link: LinkId) -> Self
        ensures { result ≡ homed link self }
    {
        Session {
            home: Some(link),
            ..self
        }
    }

    pub(crate) fn stated(self, link: LinkId, outlasts: bool) -> Self
        ensures { result ≡ stated link outlasts self }
    {
        Session {
            home: Some(link),
            lasting: self.lasting || outlasts,
            ..self
        }
    }

    pub(crate) fn unhomed(self) -> Self
        ensures { result ≡ unhomed self }
    {
        Session { home: None, ..self }
    }
}
