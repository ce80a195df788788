// Links that break, and servers that are shunned.

use crate::asks::Asked;
use crate::hearing::{breaks, give_up_unsent};
use crate::policy::Policy;
use crate::todo::ShunnedServer;
use crate::verdict::{GiveUp, Verdict};
use admin_port::EventKind;
use core_service::Failure;
use core_tables::Tables;
use hostgroups::ServerStatus;
use link_state::Carried;
use mx_base::{LinkId, OutOfMemory, ServerId};
use session_state::SessionName;

/// How long a server is shunned.
const SHUNNED_MS: u64 = 10_000;

/// The session that a link carries.
pub(crate) fn name_in(carries: Carried) -> Option<SessionName> {
    match carries {
        Carried::Nobody => None,
        Carried::Lent(name) => Some(name),
        Carried::Joined(name) => Some(name),
    }
}

impl Policy {
    /// A link to a server is about to be lost.
    pub fn loses(
        &mut self,
        tables: &Tables,
        link: LinkId,
        now: u64,
    ) -> Result<Verdict, OutOfMemory> {
        let Some(server) = tables.links.get(&link.0) else {
            return Ok(Verdict::none());
        };
        let entered = if server.row.is_entering() {
            self.login_failed(tables, link, true, now)?
        } else {
            Verdict::none()
        };
        match name_in(server.row.link.state.carries) {
            Some(name) => Ok(entered.and(breaks(tables, name, Failure::LinkLost))),
            None => Ok(entered),
        }
    }

    // A server that is ONLINE is shunned for ten seconds.
    fn shun(&mut self, server: ServerId, now: u64) -> Result<(), OutOfMemory> {
        if self.servers.status(server) != Some(ServerStatus::Online) {
            return Ok(());
        }
        self.of_server(EventKind::ServerShunned, server, now);
        self.servers.open_failed(server, now);
        self.todo.shunned.push_back(ShunnedServer {
            server,
            until_ms: now.saturating_add(SHUNNED_MS),
        })?;
        self.put_links_aside(server, now);
        Ok(())
    }

    /// A login broke off: the statement that waits longest for a link of its key is given up, and a server at fault is shunned.
    pub(crate) fn login_failed(
        &mut self,
        tables: &Tables,
        link: LinkId,
        shuns: bool,
        now: u64,
    ) -> Result<Verdict, OutOfMemory> {
        let Some(at) = tables.links.get(&link.0) else {
            return Ok(Verdict::none());
        };
        self.of_server(EventKind::ServerLoginFailed, at.row.link.server, now);
        if shuns {
            self.shun(at.row.link.server, now)?;
        }
        Ok(Verdict::gives(self.refuse_oldest(tables, at.row.key)))
    }

    /// No link could be opened.
    pub fn open_failed(
        &mut self,
        tables: &Tables,
        asked: Option<Asked>,
        server: ServerId,
        now: u64,
    ) -> Result<Verdict, OutOfMemory> {
        self.of_server(EventKind::OpenFailed, server, now);
        self.shun(server, now)?;
        match asked {
            Some(asked) => Ok(Verdict::gives(self.refuse_oldest(tables, asked.key))),
            None => Ok(Verdict::none()),
        }
    }

    // The statement that waits longest for a link of a key is given up.
    fn refuse_oldest(&mut self, tables: &Tables, key: u32) -> Option<GiveUp> {
        self.may_lend(key);
        let client = self.oldest_of(key)?;
        give_up_unsent(tables, client, Failure::Refused)
    }
}
