// Bytes are written on a link to a server.
ghost use Rattle.std.specs.Prelude.{◌≡◌, ℕ, nat_eq, if◌then◌else◌};
ghost use Rattle.std.specs.HashMap.{get};
ghost use Rattle.std.specs.Option.{option_map};
ghost use Rattle.core_tables.specs.Tables.{IsSame, tables_of};
ghost use Rattle.core_tables.specs.Writing.{IsWritable, began_on, client_sent, lasts, purpose_next, server_wrote, wrote_on};
ghost use Rattle.mx_base.specs.Sent.{MayTake};
ghost use Rattle.lent_link.specs.Links.{left_in};

use crate::client::Client;
use crate::server::Server;
use crate::tables::Tables;
use client_desk::outlasts;
use lent_link::Begins;
use link_state::Purpose;
use mx_base::LinkId;
use session_state::SessionName;
use std::collections::HashMap;

// A reset may not take back what begins there.
fn lasts(next: &Option<Begins>) -> bool
    ensures { result ≡ lasts next.now }
{
    match next {
        Some(Begins::Asks(asking)) => outlasts(&asking.form),
        _ => false,
    }
}

// A statement went out: it is its client's work.
fn sent_in(clients: &mut HashMap<u64, Client>, name: SessionName, link: LinkId, lasting: bool)
    ensures { (k : ℕ) → get nat_eq clients.new k
        ≡ (if nat_eq name.client.0 k then option_map (client_sent name.hostgroup link lasting) (get nat_eq clients.old name.client.0) else get nat_eq clients.old k) }
{
    if let Some(client) = clients.get_mut(&name.client.0) {
        client.desk.sent(name.hostgroup, link, lasting);
    }
}

impl Server {
    // So many bytes were written there.
    fn wrote(&mut self, n: usize, now: u64) -> Option<Purpose>
        requires { MayTake (left_in self.old.row.link) n }
        ensures began { result ≡ purpose_next self.old.row }
        ensures row { self.new ≡ server_wrote n now self.old }
    {
        self.row.wrote(n, now)
    }
}

impl Tables {
    /// So many bytes of what the tables lend of a link to a server were written at this moment, at least one: with the first of a question
    /// that begins. What began is handed on. Takes no memory.
    #[tactic(auto, unfolding(crate::specs::Tables::tables_of))]
    pub fn wrote_on(&mut self, link: LinkId, n: usize, now: u64) -> Option<Purpose>
        requires { IsWritable link n (tables_of self.old) }
        ensures began { result ≡ began_on link (tables_of self.old) }
        ensures tables { IsSame (tables_of self.new) (wrote_on link n now (tables_of self.old)) }
    {
        let Some(server) = self.links.get_mut(&link.0) else {
            return None;
        };
        let lasting = lasts(&server.row.link.next);
        let began = server.wrote(n, now);
        match began {
            Some(Purpose::Statement { name, .. }) => {
                sent_in(&mut self.clients, name, link, lasting);
            }
            Some(Purpose::Prep { name, .. }) => self.lend(link, name),
            _ => {}
        }
        began
    }
}
