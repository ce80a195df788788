// What is chosen by of clients and of links.

use crate::keys::Spot;
use mx_base::Port;

/// A statement that waits for a link: which of its client's messages that is, and the key.
#[derive(Clone, Copy)]
pub struct Waiting {
    pub ordinal: u64,
    pub key: u32,
}

/// Where a client stands: its key, and the number of that with its place, as found when it had left its sessions so often.
#[derive(Clone, Copy)]
pub struct Standpoint {
    pub key: u32,
    pub spot: Option<Spot>,
    pub lefts: u64,
}

/// Of a client: its small number; the port that it came to; its statement that waits for a link; where it stood at its last statement, and at the one before by another
/// key, unless that may have changed since; whether it counts as connected, and is known to have ended; how many of its bytes count; and the ordinal of its
/// message that was in work as the router began to shut down, 0 for none.
#[derive(Clone, Copy)]
pub struct ClientPart {
    pub slot: u32,
    pub port: Port,
    pub waits: Option<Waiting>,
    pub stands: Option<Standpoint>,
    pub stood: Option<Standpoint>,
    pub served: bool,
    pub ended: bool,
    pub counted: u64,
    pub last: u64,
}

/// Of a link to a server: its small number, its key, and the number of that with what it was told, unless that may have changed since; whether
/// it stands in the pool; whether an answer came there before the question was written whole; whether a rule keeps the session there for its client; and
/// whether it serves one session alone, and did.
#[derive(Clone, Copy)]
pub struct LinkPart {
    pub slot: u32,
    pub key: u32,
    pub spot: Option<u32>,
    pub rests: bool,
    pub cut: bool,
    pub ruled: bool,
    pub once: bool,
    pub served: bool,
}

fn is_at(standpoint: Option<Standpoint>, key: u32) -> bool {
    match standpoint {
        Some(standpoint) => standpoint.key == key,
        None => false,
    }
}

// Where it stands is known no more.
fn moved(standpoint: Option<Standpoint>) -> Option<Standpoint> {
    let at = standpoint?;
    Some(Standpoint { spot: None, ..at })
}

impl ClientPart {
    /// It has a statement of this key.
    pub fn comes_by(&mut self, key: u32) {
        if is_at(self.stands, key) {
            return;
        }
        let stands = if is_at(self.stood, key) {
            self.stood
        } else {
            Some(Standpoint {
                key,
                spot: None,
                lefts: 0,
            })
        };
        self.stood = self.stands;
        self.stands = stands;
    }

    /// It may stand elsewhere.
    pub fn moves(&mut self) {
        self.stands = moved(self.stands);
        self.stood = moved(self.stood);
    }
}
