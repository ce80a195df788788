// Statements are given up, clients leave, and links are given back, lost and forgotten.
ghost use Rattle.std.specs.Prelude.{◌≡◌, nat_eq, OnOk};
ghost use Rattle.std.specs.HashMap.{get};
ghost use Rattle.std.specs.Option.{option_copied, option_map};
ghost use Rattle.mx_base.specs.declared.names.LinkId.{LinkId};
ghost use Rattle.core_tables.specs.Parting.{IsRowChanged, at_desk, changed_at, freed_in, freed_of, freed_row, freed_server, given_row, given_up, gone_row};
ghost use Rattle.core_tables.specs.Parting.{is_done_for, is_done_in, is_given_up, kept_at, kept_by, left_in, lost_in, lost_row, name_in, present_at, present_in, parted_row, unlinked, with_kept};
ghost use Rattle.core_tables.specs.Tables.{IsSame, tables_of};

use crate::client::Client;
use crate::lending::is_name;
use crate::server::Server;
use crate::tables::Tables;
use client_desk::Session;
use link_state::Carried;
use mx_base::{ClientNo, LinkId, OutOfMemory};
use served_link::LeftSession;
use session_state::SessionName;
use std::alloc::Global;
use std::collections::HashMap;

// A client's statement in work is answered by this payload.
fn give_up(
    clients: &mut HashMap<u64, Client>,
    alloc: Global,
    client: ClientNo,
    payload: &[u8],
) -> Result<(), OutOfMemory>
    ensures { OnOk result (IsRowChanged client.0 (given_row (Some payload.now)) (get nat_eq clients.old) (get nat_eq clients.new)) }
{
    match clients.get_mut(&client.0) {
        Some(row) => row.desk.gave_up(alloc, payload),
        None => Ok(()),
    }
}

// What one link keeps of a session that is left.
fn part_at(links: &mut HashMap<u64, Server>, link: LinkId, kept: LeftSession)
    ensures { IsRowChanged link.0 (parted_row kept) (get nat_eq links.old) (get nat_eq links.new) }
{
    if let Some(server) = links.get_mut(&link.0) {
        server.row.left_by(kept);
    }
}

fn part_one(links: &mut HashMap<u64, Server>, session: Session)
    ensures { (at : LinkId)
        → get nat_eq links.new at.0
        ≡ option_map (with_kept (kept_by at session.home session)) (get nat_eq links.old at.0) }
{
    if let Some(link) = session.home {
        let kept = LeftSession {
            pin: session.pin,
            id: session.id,
            lasting: session.lasting,
        };
        part_at(links, link, kept);
    }
}

/// Links keep what is known of these sessions, where they carry them.
pub(crate) fn part(links: &mut HashMap<u64, Server>, sessions: &[Session])
    ensures { (at : LinkId)
        → get nat_eq links.new at.0
        ≡ option_map (with_kept (kept_at at sessions.now)) (get nat_eq links.old at.0) }
{
    for session in sessions {
        part_one(links, *session);
    }
}

// Whose session a link carries.
fn name_in(carries: Carried) -> Option<SessionName>
    ensures { result ≡ name_in carries }
{
    match carries {
        Carried::Nobody => None,
        Carried::Lent(name) => Some(name),
        Carried::Joined(name) => Some(name),
    }
}

fn present_at(server: &Server) -> Option<SessionName>
    ensures { result ≡ present_at server.now }
{
    if server.row.lost || server.row.left.is_some() {
        None
    } else {
        name_in(server.row.link.state.carries)
    }
}

// It as its client's desk has it.
fn at_desk(name: SessionName, client: Option<&Client>) -> link_state::Session
    ensures { result ≡ at_desk name (option_copied client.entry) }
{
    match client {
        Some(client) => client.desk.carried(name.hostgroup),
        None => {
            let first = Session::first(name.hostgroup, 0);
            link_state::Session {
                present: true,
                pin: first.pin,
                id: first.id,
                lasting: first.lasting,
            }
        }
    }
}

fn go_from(clients: &mut HashMap<u64, Client>, name: SessionName)
    ensures { IsRowChanged name.client.0 (gone_row name.hostgroup) (get nat_eq clients.old) (get nat_eq clients.new) }
{
    if let Some(client) = clients.get_mut(&name.client.0) {
        client.desk.gone(name.hostgroup);
    }
}

fn free_from(clients: &mut HashMap<u64, Client>, name: SessionName)
    ensures { IsRowChanged name.client.0 (freed_row name.hostgroup) (get nat_eq clients.old) (get nat_eq clients.new) }
{
    if let Some(client) = clients.get_mut(&name.client.0) {
        client.desk.freed(name.hostgroup);
    }
}

fn lose_in(links: &mut HashMap<u64, Server>, link: LinkId)
    ensures { IsRowChanged link.0 lost_row (get nat_eq links.old) (get nat_eq links.new) }
{
    if let Some(server) = links.get_mut(&link.0) {
        server.row.lost();
    }
}

fn free_in(links: &mut HashMap<u64, Server>, link: LinkId)
    ensures { IsRowChanged link.0 freed_server (get nat_eq links.old) (get nat_eq links.new) }
{
    if let Some(server) = links.get_mut(&link.0) {
        server.row.freed();
    }
}

// The router answered itself what a link was lent for: its client has no such statement to send any more.
fn is_given_up(name: SessionName, client: Option<&Client>) -> bool
    ensures { result ≡ is_given_up name (option_copied client.entry) }
{
    let Some(client) = client else {
        return true;
    };
    match &client.desk.work {
        Some(work) => !(!work.sent && is_name(name, client.desk.name(work.hostgroup))),
        None => true,
    }
}

impl Tables {
    /// The router answers a client's statement in work itself, by this payload.
    #[tactic(auto, unfolding(crate::specs::Tables::tables_of))]
    pub fn give_up(&mut self, client: ClientNo, payload: &[u8]) -> Result<(), OutOfMemory>
        ensures { OnOk result (IsSame (tables_of self.new) (given_up client payload.now (tables_of self.old))) }
    {
        give_up(&mut self.clients, self.alloc, client, payload)
    }

    /// A client leaves its sessions, and links that carry them keep what is known of them. Takes no memory.
    #[tactic(auto, unfolding(crate::specs::Tables::tables_of))]
    pub fn leave(&mut self, client: ClientNo)
        ensures { IsSame (tables_of self.new) (left_in client (λ seat. seat) (tables_of self.old)) }
    {
        if let Some(row) = self.clients.get_mut(&client.0) {
            part(&mut self.links, row.desk.sessions.as_slice());
            row.desk.left();
        }
    }

    #[tactic(auto, unfolding(crate::specs::Tables::tables_of))]
    fn present_on(&self, link: LinkId) -> Option<SessionName>
        ensures { result ≡ present_in link (tables_of self.now) }
    {
        match self.links.get(&link.0) {
            Some(server) => present_at(server),
            None => None,
        }
    }

    fn go(&mut self, name: Option<SessionName>)
        ensures { IsSame (tables_of self.new) (changed_at gone_row name (tables_of self.old)) }
    {
        if let Some(name) = name {
            go_from(&mut self.clients, name);
        }
    }

    fn let_go(&mut self, name: Option<SessionName>)
        ensures { IsSame (tables_of self.new) (changed_at freed_row name (tables_of self.old)) }
    {
        if let Some(name) = name {
            free_from(&mut self.clients, name);
        }
    }

    /// A link is lost, and with it the present session that it carries. Takes no memory.
    pub fn lose(&mut self, link: LinkId)
        ensures { IsSame (tables_of self.new) (lost_in link (tables_of self.old)) }
    {
        let name = self.present_on(link);
        self.go(name);
        lose_in(&mut self.links, link);
    }

    #[tactic(auto, unfolding(crate::specs::Tables::tables_of))]
    fn is_done_for(&self, server: &Server) -> bool
        ensures { result
            ≡ is_done_for (tables_of self.now) server.now (name_in server.now.row.link.state.carries) }
    {
        match name_in(server.row.link.state.carries) {
            Some(name) => {
                let client = self.clients.get(&name.client.0);
                server
                    .row
                    .is_done(at_desk(name, client), is_given_up(name, client))
            }
            None => false,
        }
    }

    #[tactic(auto, unfolding(crate::specs::Tables::tables_of))]
    fn is_done(&self, link: LinkId) -> bool
        ensures { result ≡ is_done_in link (tables_of self.now) }
    {
        match self.links.get(&link.0) {
            Some(server) => self.is_done_for(server),
            None => false,
        }
    }

    // A link is given back.
    fn free(&mut self, link: LinkId)
        ensures { IsSame (tables_of self.new) (freed_of link (tables_of self.old)) }
    {
        let name = self.present_on(link);
        self.let_go(name);
        free_in(&mut self.links, link);
    }

    /// A link is given back, where it is done with the session that it carries; and whether it is. Takes no memory.
    pub fn free_if_done(&mut self, link: LinkId) -> bool
        ensures done { result ≡ is_done_in link (tables_of self.old) }
        ensures freed { IsSame (tables_of self.new) (freed_in link (tables_of self.old)) }
    {
        if self.is_done(link) {
            self.free(link);
            true
        } else {
            false
        }
    }

    /// A link that was lost or closed is forgotten. Takes no memory.
    #[tactic(auto, unfolding(crate::specs::Tables::tables_of))]
    pub fn forget(&mut self, link: LinkId)
        ensures { IsSame (tables_of self.new) (unlinked link (tables_of self.old)) }
    {
        self.links.remove(&link.0);
    }
}
