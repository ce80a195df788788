// What follows of what was heard on a link to a server.

use crate::policy::Policy;
use crate::verdict::{GiveUp, Verdict};
use crate::waiting::unsent;
use core_service::Failure;
use core_tables::{Said, Tables};
use link_state::{Carried, Purpose};
use mx_base::{ClientNo, LinkId, OutOfMemory};
use session_state::{ReplyEnd, SessionName, is_pinned};

/// Whether a session can't go on elsewhere: its client's present one keeps its link, or its insert id is to be asked for.
pub(crate) fn is_held_fast(tables: &Tables, name: SessionName) -> bool {
    match tables.clients.get(&name.client.0) {
        Some(row) => {
            let session = row.desk.session(name.hostgroup);
            session.life == name.life && (is_pinned(session.pin) || session.id.is_none())
        }
        None => false,
    }
}

// Whether a rule keeps the session that a link carries, where that was left or is its client's present one.
fn is_ruled(tables: &Tables, link: LinkId, name: SessionName) -> Option<bool> {
    if let Some(left) = &tables.links.get(&link.0)?.row.left {
        return Some(left.pin.rule);
    }
    let client = tables.clients.get(&name.client.0)?;
    let session = client.desk.session(name.hostgroup);
    if session.life == name.life {
        Some(session.pin.rule)
    } else {
        None
    }
}

/// Its client's statement is in work in a session, which is its present one.
pub(crate) fn works_in(tables: &Tables, name: SessionName) -> bool {
    match tables.clients.get(&name.client.0) {
        Some(row) => match &row.desk.work {
            Some(work) => {
                work.hostgroup.0 == name.hostgroup.0
                    && row.desk.session(name.hostgroup).life == name.life
            }
            None => false,
        },
        None => false,
    }
}

/// The statement that is in work in a session is given up.
pub(crate) fn give_up_in(tables: &Tables, name: SessionName, why: Failure) -> Verdict {
    if works_in(tables, name) {
        let client = name.client;
        Verdict::gives(Some(GiveUp { client, why }))
    } else {
        Verdict::none()
    }
}

/// The statement of a client is given up, where it wasn't sent.
pub(crate) fn give_up_unsent(tables: &Tables, client: ClientNo, why: Failure) -> Option<GiveUp> {
    let row = tables.clients.get(&client.0)?;
    let _work = unsent(row)?;
    Some(GiveUp { client, why })
}

/// A link breaks in the midst of something for this session: its client's statement there is given up, or the client is to end, where the
/// session can't go on elsewhere.
pub(crate) fn breaks(tables: &Tables, name: SessionName, why: Failure) -> Verdict {
    if is_held_fast(tables, name) {
        Verdict::ends(name.client)
    } else {
        give_up_in(tables, name, why)
    }
}

/// The session to which a link is lent that didn't run a statement of it yet.
pub(crate) fn lent_to(carries: Carried) -> Option<SessionName> {
    match carries {
        Carried::Lent(name) => Some(name),
        _ => None,
    }
}

// A step of nobody's was refused: the statement is given up for which the link was readied, or to which it is lent.
fn refuses_own(tables: &Tables, link: LinkId, why: Failure) -> Verdict {
    let Some(server) = tables.links.get(&link.0) else {
        return Verdict::none();
    };
    if let Some(name) = lent_to(server.row.link.state.carries) {
        return give_up_in(tables, name, why);
    }
    match server.row.readied {
        Some(client) => Verdict::gives(give_up_unsent(tables, client, why)),
        None => Verdict::none(),
    }
}

// A step was refused: the statement is given up that it was for.
fn refuses(tables: &Tables, link: LinkId, purpose: Purpose, code: u16) -> Verdict {
    let why = Failure::StepRefused { code };
    match purpose {
        Purpose::Sync { name } => give_up_in(tables, name, why),
        Purpose::Prep { name, .. } => give_up_in(tables, name, why),
        Purpose::Own => refuses_own(tables, link, why),
        _ => Verdict::none(),
    }
}

// Whether a link is lent for a statement that isn't there yet.
fn is_lent(tables: &Tables, link: LinkId) -> bool {
    match tables.links.get(&link.0) {
        Some(server) => lent_to(server.row.link.state.carries).is_some(),
        None => false,
    }
}

// An answer that isn't as it should be, or has bytes behind it, breaks a session that can't go on elsewhere.
fn is_sound(
    tables: &Tables,
    link: LinkId,
    name: SessionName,
    purpose: Purpose,
    behind: bool,
) -> Verdict {
    let amiss = match tables.links.get(&link.0) {
        Some(server) => server.row.amiss,
        None => false,
    };
    let captures = match purpose {
        Purpose::Capture { .. } => true,
        _ => false,
    };
    let held_fast = is_held_fast(tables, name);
    if (amiss && (held_fast || captures)) || (behind && held_fast) {
        Verdict::ends(name.client)
    } else if amiss || (behind && is_lent(tables, link)) {
        give_up_in(tables, name, Failure::BadBytes { place: 0 })
    } else {
        Verdict::none()
    }
}

// What was asked is answered.
fn answered(
    tables: &Tables,
    link: LinkId,
    name: Option<SessionName>,
    purpose: Purpose,
    end: &ReplyEnd,
    behind: bool,
) -> Verdict {
    let refused = if end.is_err() {
        refuses(tables, link, purpose, end.code)
    } else {
        Verdict::none()
    };
    match name {
        Some(name) => refused.and(is_sound(tables, link, name, purpose, behind)),
        None => refused,
    }
}

impl Policy {
    /// This was heard on a link, which carried this session before. Where the question there wasn't written whole (`cut`), what the server makes of
    /// its rest isn't known: an answer to it counts, and the link is closed.
    pub fn heard(
        &mut self,
        tables: &Tables,
        link: LinkId,
        name: Option<SessionName>,
        said: Said,
        cut: bool,
        now: u64,
    ) -> Result<Verdict, OutOfMemory> {
        match said {
            Said::Nothing => Ok(Verdict::none()),
            Said::LoggedIn => {
                if let Some(part) = self.link(link) {
                    self.pool.logged_in(part.slot);
                }
                Ok(Verdict::none())
            }
            Said::LoginFailed { shuns } => self.login_failed(tables, link, shuns, now),
            Said::Answered {
                purpose,
                end,
                behind,
            } => {
                if cut {
                    self.cuts(link);
                }
                self.board.counts.hears(purpose);
                self.notes(tables, link, name, purpose);
                Ok(answered(tables, link, name, purpose, &end, behind || cut))
            }
            Said::Bad { place } => match name {
                Some(name) => Ok(breaks(tables, name, Failure::BadBytes { place })),
                None => Ok(Verdict::none()),
            },
        }
    }

    // A session was served there; and whether a rule keeps it on its link, behind an answer there. A reset doesn't change that: what the rule
    // kept may outlast it.
    fn notes(
        &mut self,
        tables: &Tables,
        link: LinkId,
        name: Option<SessionName>,
        purpose: Purpose,
    ) {
        let (Some(name), Some(part)) = (name, self.links.get_mut(&link.0)) else {
            return;
        };
        part.served = true;
        let ruled = match purpose {
            Purpose::End { .. } => None,
            _ => is_ruled(tables, link, name),
        };
        if let Some(ruled) = ruled {
            part.ruled = ruled;
        }
    }

    // A link is to be closed on which an answer came before the question was written whole.
    fn cuts(&mut self, link: LinkId) {
        if let Some(part) = self.links.get_mut(&link.0) {
            part.cut = true;
        }
        self.look_at(link);
    }
}
