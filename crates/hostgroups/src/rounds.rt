// The rounds of all hostgroups.
ghost use Rattle.std.specs.Prelude.{◌≡◌, ◌≤◌, ◌++◌, ◌∷◌, [], length, IfOk, OnOk, false, is_some};
ghost use Rattle.std.specs.List.{find, list_any};
ghost use Rattle.hostgroups.specs.Rounds.{AreFull, place_of, turns_of, with_turns};
ghost use Rattle.hostgroups.specs.Turns.{behind, IsFullRound};
ghost use Rattle.hostgroups.specs.Picks.{is_ready, is_online_at};

use crate::ServerRow;
use crate::dealing::deal;
use crate::round::Round;
use crate::server::Server;
use mx_base::{Hostgroup, OutOfMemory, ServerId};
use std::alloc::Global;
use std::collections::HashMap;
use std::marker::Model;

/// The rounds of hostgroups, which contracts see as a list of their coming turns. A hostgroup's is found in the time of a
/// look-up in a map.
#[derive(Drop)]
pub struct Rounds {
    rounds: Vec<Round>,
    // The place of each hostgroup's round.
    places: HashMap<u16, usize>,
}

impl Model for Rounds {
    ghost use Rattle.std.specs.Prelude.{List};
    ghost use Rattle.hostgroups.specs.Rounds.{Coming, ArePlaces};

    ghost Value = { List Coming };

    ghost view = { λ r. r.rounds.items };

    ghost invariant = { λ r. ArePlaces r.rounds.items r.places };
}

impl Rounds {
    pub fn new(alloc: Global) -> Self
        ensures { result ≡ [] }
    {
        Rounds {
            rounds: Vec::new(alloc),
            places: HashMap::new(alloc),
        }
    }

    /// The rounds of a table, each before its first turn.
    pub fn of(alloc: Global, rows: &[ServerRow]) -> Result<Self, OutOfMemory>
        requires few { length rows.now ≤ 65535 }
        ensures { IfOk result (λ rounds. AreFull rows.now rounds) }
    {
        let mut rounds = Rounds::new(alloc);
        for row in rows {
            if !rounds.has(row.hostgroup) {
                let turns = deal(alloc, rows, row.hostgroup)?;
                rounds.add(Round::new(row.hostgroup, turns))?;
            }
        }
        Ok(rounds)
    }

    /// Whether a server of the hostgroup is ONLINE.
    pub fn has_online(&self, servers: &[Server], hostgroup: Hostgroup) -> bool
        ensures { result ≡ list_any (is_online_at servers.now) (turns_of self.now hostgroup) }
    {
        match self.place(hostgroup) {
            Some(place) => self.rounds[place].has_online(servers),
            None => false,
        }
    }

    /// The first server from the hostgroup's next turn on that is ready; the round goes on behind it.
    pub fn pick(
        &mut self,
        servers: &[Server],
        counts: &[u32],
        hostgroup: Hostgroup,
    ) -> Option<ServerId>
        ensures picked { result ≡ find (is_ready servers.now counts.now) (turns_of self.old hostgroup) }
        ensures behind { self.new ≡ with_turns self.old hostgroup (behind (is_ready servers.now counts.now) (turns_of self.old hostgroup)) }
    {
        match self.place(hostgroup) {
            Some(place) => self.rounds[place].pick(servers, counts),
            None => None,
        }
    }

    fn has(&self, hostgroup: Hostgroup) -> bool
        ensures { result ≡ is_some (place_of self.now hostgroup) }
    {
        self.place(hostgroup).is_some()
    }

    fn place(&self, hostgroup: Hostgroup) -> Option<usize>
        ensures { result ≡ place_of self.now hostgroup }
    {
        let _rounds = &self.rounds;
        self.places.get(&hostgroup.0).copied()
    }

    fn add(&mut self, round: Round) -> Result<(), OutOfMemory>
        requires new { is_some (place_of self.old round.hostgroup) ≡ false }
        ensures { OnOk result (self.new ≡ self.old ++ round ∷ []) }
    {
        self.rounds.reserve(1)?;
        self.places.insert(round.hostgroup().0, self.rounds.len())?;
        self.rounds.push(round)?;
        Ok(())
    }
}
