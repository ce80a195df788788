// A client's sessions.
ghost use Rattle.std.specs.Prelude.{◌≡◌, [], find, position, OnErr, OnOk};
ghost use Rattle.std.specs.Option.{option_copied};
ghost use Rattle.client_desk.specs.Sessions.{is_in, next_sessions, put_in, session_in, with_row};

use crate::session::Session;
use mx_base::{Hostgroup, OutOfMemory};
use std::alloc::Global;
use std::marker::Model;

/// The present sessions of a client, one for each hostgroup that it used. A contract sees the list of these.
#[derive(Drop)]
pub struct Sessions {
    rows: Vec<Session>,
}

impl Model for Sessions {
    ghost use Rattle.std.specs.Prelude.{List};
    ghost use Rattle.client_desk.specs.declared.session.Session.{Session};

    ghost Value = { List Session };

    ghost view = { λ s. s.rows.items };
}

// The row of a hostgroup.
fn row_of(rows: &[Session], hostgroup: Hostgroup) -> Option<&Session>
    ensures { option_copied result ≡ find (is_in hostgroup) rows.now }
{
    rows.iter().find(|row| row.hostgroup.0 == hostgroup.0)
}

// And its place.
fn place_of(rows: &[Session], hostgroup: Hostgroup) -> Option<usize>
    ensures { result ≡ position (is_in hostgroup) rows.now }
{
    rows.iter().position(|row| row.hostgroup.0 == hostgroup.0)
}

fn leave(rows: &mut [Session])
    ensures { rows.new ≡ next_sessions rows.old }
{
    for row in rows.iter_mut() {
        *row = row.next();
    }
}

impl Sessions {
    /// None. Takes no memory.
    pub fn new(alloc: Global) -> Self
        ensures { result ≡ [] }
    {
        Sessions {
            rows: Vec::new(alloc),
        }
    }

    /// All of them.
    pub fn as_slice(&self) -> &[Session]
        ensures { result.now ≡ self.now }
    {
        &self.rows
    }

    /// That of a hostgroup, where there is one.
    pub fn find(&self, hostgroup: Hostgroup) -> Option<Session>
        ensures { result ≡ find (is_in hostgroup) self.now }
    {
        let row = row_of(&self.rows, hostgroup)?;
        Some(*row)
    }

    /// That of a hostgroup; where there is none, the first in this life.
    pub fn session(&self, hostgroup: Hostgroup, lefts: u64) -> Session
        ensures { result ≡ session_in lefts self.now hostgroup }
    {
        match self.find(hostgroup) {
            Some(session) => session,
            None => Session::first(hostgroup, lefts),
        }
    }

    /// There is one of the hostgroup from now on. OutOfMemory leaves all as it was.
    pub fn ready(&mut self, hostgroup: Hostgroup, lefts: u64) -> Result<(), OutOfMemory>
        ensures ok { OnOk result (self.new ≡ with_row lefts hostgroup self.old) }
        ensures err { OnErr result (self.new ≡ self.old) }
    {
        if self.find(hostgroup).is_none() {
            self.rows.push(Session::first(hostgroup, lefts))?;
        }
        Ok(())
    }

    /// This one takes the place of that of its hostgroup, where there is one. Takes no memory.
    pub fn put(&mut self, session: Session)
        ensures { self.new ≡ put_in self.old session }
    {
        match place_of(&self.rows, session.hostgroup) {
            Some(place) => self.rows[place] = session,
            None => {}
        }
    }

    /// All of them are left. Takes no memory.
    pub fn leave(&mut self)
        ensures { self.new ≡ next_sessions self.old }
    {
        leave(&mut self.rows);
    }
}
