// The open transaction of a client.
ghost use Rattle.std.specs.Prelude.{◌≡◌, false, true, find, IfSome, None};
ghost use Rattle.std.specs.List.{list_any};
ghost use Rattle.std.specs.Option.{option_copied};
ghost use Rattle.mx_base.specs.declared.names.Hostgroup.{Hostgroup};
ghost use Rattle.client_desk.specs.Desks.{has_open, session_of};
ghost use Rattle.client_desk.specs.Sessions.{is_open};

use crate::desk::Desk;
use crate::session::Session;
use mx_base::Hostgroup;

// Whether a transaction is open in one of the sessions.
fn any_open(rows: &[Session]) -> bool
    ensures { result ≡ list_any is_open rows.now }
{
    rows.iter().any(|row| row.pin.tx)
}

// The first of these hostgroups in which the client has an open transaction.
fn first_open(desk: &Desk, hostgroups: &[Hostgroup]) -> Option<Hostgroup>
    ensures { result ≡ find (λ hostgroup. is_open (session_of desk.now hostgroup)) hostgroups.now }
{
    for hostgroup in hostgroups {
        if desk.session(*hostgroup).pin.tx {
            return Some(*hostgroup);
        }
    }
    None
}

// A session with an open transaction, where it is the one of its hostgroup.
fn open_row(desk: &Desk) -> Option<&Session>
    ensures { option_copied result ≡ find (has_open desk.now) desk.now.sessions }
{
    desk.sessions
        .as_slice()
        .iter()
        .find(|row| row.pin.tx && desk.session(row.hostgroup).pin.tx)
}

impl Desk {
    /// The hostgroup of its open transaction: of several, the first of these. Takes no memory.
    pub fn transaction(&self, hostgroups: &[Hostgroup]) -> Option<Hostgroup>
        ensures { result ≡ find (λ hostgroup. is_open (session_of self.now hostgroup)) hostgroups.now }
    {
        if any_open(self.sessions.as_slice()) {
            first_open(self, hostgroups)
        } else {
            None
        }
    }

    /// The hostgroup of any open transaction of it. Takes no memory.
    pub fn any_transaction(&self) -> Option<Hostgroup>
        ensures in_transaction { IfSome result (λ hostgroup. is_open (session_of self.now hostgroup) ≡ true) }
        ensures none { result ≡ None → (hostgroup : Hostgroup) → is_open (session_of self.now hostgroup) ≡ false }
    {
        match open_row(self) {
            Some(row) => Some(row.hostgroup),
            None => None,
        }
    }
}
