// The links that carry a client's sessions.
ghost use Rattle.std.specs.Prelude.{◌≡◌, true, IfNone, IfOk, IfSome, OnOk, nat_eq};
ghost use Rattle.mx_base.specs.declared.names.LinkId.{LinkId};
ghost use Rattle.core_says.specs.Says.{is_at};
ghost use Rattle.core_tables.specs.Tables.{tables_of};
ghost use Rattle.marked_tables.specs.Homes.{Gains, IsPlace, Rise, is_among, is_home_in, is_home_of};

use crate::marked::MarkedTables;
use client_desk::Session;
use mx_base::{ClientNo, LinkId, OutOfMemory};

// Where a link goes in a list that rises, unless it is there.
fn place_for(links: &[LinkId], link: LinkId) -> Option<usize>
    ensures there { IfNone result (is_among link links.now ≡ true) }
    ensures place { IfSome result (λ place. IsPlace link links.now place) }
{
    let mut place = 0;
    while place < links.len() {
        let other = links[place];
        if link.0 == other.0 {
            return None;
        }
        if link.0 < other.0 {
            return Some(place);
        }
        place += 1;
    }
    Some(place)
}

// It is put there.
fn put_in(links: &mut Vec<LinkId>, link: LinkId) -> Result<(), OutOfMemory>
    requires { Rise links.old.items }
    ensures { OnOk result (Gains (λ (other : LinkId). nat_eq link.0 other.0)
        links.old.items links.new.items) }
{
    match place_for(links.as_slice(), link) {
        Some(place) => {
            links.insert(place, link)?;
            Ok(())
        }
        None => Ok(()),
    }
}

fn put_home(links: &mut Vec<LinkId>, home: Option<LinkId>) -> Result<(), OutOfMemory>
    requires { Rise links.old.items }
    ensures { OnOk result (Gains (λ (other : LinkId). is_at other home)
        links.old.items links.new.items) }
{
    match home {
        Some(link) => put_in(links, link),
        None => Ok(()),
    }
}

fn put_homes(links: &mut Vec<LinkId>, sessions: &[Session]) -> Result<(), OutOfMemory>
    requires { Rise links.old.items }
    ensures { OnOk result (Gains (λ (other : LinkId). is_home_of other sessions.now)
        links.old.items links.new.items) }
{
    for session in sessions {
        put_home(links, session.home)?;
    }
    Ok(())
}

impl MarkedTables {
    /// The links that carry a client's sessions are put into a list that rises.
    #[tactic(auto, unfolding(core_tables::specs::Tables::tables_of))]
    pub fn add_homes(&self, client: ClientNo, links: &mut Vec<LinkId>) -> Result<(), OutOfMemory>
        requires { Rise links.old.items }
        ensures { OnOk result (Gains
            (λ (other : LinkId). is_home_in other ((tables_of self.now.tables).clients client))
            links.old.items links.new.items) }
    {
        match self.tables.clients.get(&client.0) {
            Some(row) => put_homes(links, row.desk.sessions.as_slice()),
            None => Ok(()),
        }
    }

    /// The links that carry a client's sessions, in rising order.
    pub fn homes_of(&self, client: ClientNo) -> Result<Vec<LinkId>, OutOfMemory>
        ensures holds { IfOk result (λ links. (link : LinkId)
            → is_among link links.items ≡ is_home_in link ((tables_of self.now.tables).clients client)) }
        ensures rises { IfOk result (λ links. Rise links.items) }
    {
        let mut links = Vec::new(self.tables.alloc);
        self.add_homes(client, &mut links)?;
        Ok(links)
    }
}
