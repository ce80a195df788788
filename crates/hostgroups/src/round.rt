// A hostgroup's round.
ghost use Rattle.std.specs.Prelude.{◌≡◌, ◌≤◌, length, IfSome, IfNone};
ghost use Rattle.std.specs.List.{find, position_or_len, list_any};
ghost use Rattle.hostgroups.specs.Turns.{behind, IsNext, IsNone};
ghost use Rattle.hostgroups.specs.Picks.{is_ready, is_online_at};

use crate::server::{Server, is_online, is_ready};
use mx_base::{Hostgroup, ServerId};
use std::marker::Model;

/// The round of a hostgroup, which contracts see as its turns from the next on, going round.
#[derive(Drop)]
pub struct Round {
    hostgroup: Hostgroup,
    turns: Vec<ServerId>,
    // How many turns of the round are over.
    place: usize,
}

impl Model for Round {
    ghost use Rattle.std.specs.Prelude.{◌≤◌, length};
    ghost use Rattle.hostgroups.specs.Rounds.{Coming};
    ghost use Rattle.hostgroups.specs.Turns.{from_turn};

    ghost Value = { Coming };

    ghost view = { λ r. record { hostgroup = r.hostgroup; turns = from_turn r.place r.turns.items } };

    ghost invariant = { λ r. r.place ≤ length r.turns.items };
}

impl Round {
    /// A round that begins.
    pub fn new(hostgroup: Hostgroup, turns: Vec<ServerId>) -> Self
        ensures hostgroup { result.hostgroup ≡ hostgroup }
        ensures turns { result.turns ≡ turns.items }
    {
        Round {
            hostgroup,
            turns,
            place: 0,
        }
    }

    pub fn hostgroup(&self) -> Hostgroup
        ensures { result ≡ self.now.hostgroup }
    {
        self.hostgroup
    }

    /// Whether a server of the round is ONLINE.
    pub fn has_online(&self, servers: &[Server]) -> bool
        ensures { result ≡ list_any (is_online_at servers.now) self.now.turns }
    {
        any_online(servers, self.turns.as_slice())
    }

    /// The first server from the next turn on that is ready; its turn is over then, and so are those before it.
    pub fn pick(&mut self, servers: &[Server], counts: &[u32]) -> Option<ServerId>
        ensures picked { result ≡ find (is_ready servers.now counts.now) self.old.turns }
        ensures behind { self.new ≡ record self.old { turns = behind (is_ready servers.now counts.now) self.old.turns } }
    {
        let at = next_ready(servers, counts, self.turns.as_slice(), self.place)?;
        self.place = at + 1;
        Some(self.turns[at])
    }
}

// The place of the next turn of a server that is ready, in a round of which so many turns are over.
fn next_ready(servers: &[Server], counts: &[u32], turns: &[ServerId], over: usize) -> Option<usize>
    requires { over ≤ length turns.now }
    ensures some { IfSome result (λ place. IsNext (is_ready servers.now counts.now) turns.now over place) }
    ensures none { IfNone result (IsNone (is_ready servers.now counts.now) turns.now over) }
{
    let (passed, coming) = turns.split_at(over);
    let later = first_ready(servers, counts, coming);
    if later < coming.len() {
        return Some(over + later);
    }
    let place = first_ready(servers, counts, passed);
    if place < over { Some(place) } else { None }
}

// How many turns stand before the first of a server that is ready.
fn first_ready(servers: &[Server], counts: &[u32], turns: &[ServerId]) -> usize
    ensures { result ≡ position_or_len (is_ready servers.now counts.now) turns.now }
{
    for (place, turn) in turns.iter().enumerate() {
        if is_ready(servers, counts, *turn) {
            return place;
        }
    }
    turns.len()
}

// Whether one of these turns is that of a server that is ONLINE.
fn any_online(servers: &[Server], turns: &[ServerId]) -> bool
    ensures { result ≡ list_any (is_online_at servers.now) turns.now }
{
    for turn in turns {
        if is_online(servers, *turn) {
            return true;
        }
    }
    false
}
