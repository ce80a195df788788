// What was prepared for clients is kept.
ghost use Rattle.std.specs.Prelude.{◌≡◌, OnOk};
ghost use Rattle.core_tables.specs.Preparing.{IsKeptFor, made_by, made_on};
ghost use Rattle.shared_core.specs.Follows.{Keeps};
ghost use Rattle.shared_core.specs.Stands.{Moves, tables};

use crate::router::Router;
use core_tables::Said;
use link_state::Purpose;
use mx_base::{ClientNo, LinkId, OutOfMemory};
use served_link::Row;
use session_state::{EndKind, ReplyEnd};
use stmt_map::Prepared;

// What an answer prepared for its client: a statement's, if it did.
fn made_by(purpose: Purpose, multiplex: Option<bool>, end: ReplyEnd) -> Option<(ClientNo, Prepared)>
    ensures { result ≡ made_by purpose multiplex end }
{
    match purpose {
        Purpose::Statement { name, key, .. } => match end.kind {
            EndKind::Prepared => {
                let prepared = Prepared {
                    key,
                    hostgroup: name.hostgroup,
                    multiplex,
                    params: end.params,
                };
                Some((name.client, prepared))
            }
            _ => None,
        },
        _ => None,
    }
}

// In a session that its client didn't leave.
fn made_on(said: Said, row: &Row) -> Option<(ClientNo, Prepared)>
    ensures { result ≡ made_on said row.now }
{
    match said {
        Said::Answered { purpose, end, .. } => {
            if row.left.is_some() {
                None
            } else {
                made_by(purpose, row.multiplex, end)
            }
        }
        _ => None,
    }
}

impl Router {
    /// What was prepared by an answer on a link is kept for its client, where that didn't leave the session.
    pub(crate) fn keeps(&mut self, link: LinkId, said: Said) -> Result<(), OutOfMemory>
        ensures is { OnOk result (IsKeptFor said link (tables self.old) (tables self.new)) }
        ensures keeps { OnOk result (Keeps self.old self.new) }
        ensures moves { OnOk result (Moves self.old self.new) }
    {
        let Some(server) = self.marked.server(link) else {
            return Ok(());
        };
        let Some((client, prepared)) = made_on(said, &server.row) else {
            return Ok(());
        };
        self.marked.keep(client, prepared)
    }
}
