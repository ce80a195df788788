// The turns of a hostgroup's servers.
//
// A round has as many passes as the heaviest server has turns. The turns of each server are dealt to the passes one after
// another and round and round, as cards are, each server beginning where the one before it ended. So no server has two
// turns in a pass, and the passes have as many turns as each other, or one more. The heaviest, which has a turn in every
// pass, comes first there: it has no two turns in a row where the others have as many in all. The passes come in the order
// of their reversed bits, which spreads the turns of a light server over the round.
ghost use Rattle.std.specs.Prelude.{◌≡◌, ◌<◌, ◌≤◌, ◌++◌, length, All, IfOk, OnOk, Some, IsPermutation};
ghost use Rattle.hostgroups.specs.Turns.{IsFullRound, IsHeaviest, weight_there};
ghost use Rattle.hostgroups.specs.Dealing.{AreShares, Fits, pass_behind, plays, pass_turns, upto, with_share};

use crate::ServerRow;
use mx_base::{Hostgroup, OutOfMemory, ServerId};
use std::alloc::Global;

// What a server gets of a round: its turns stand in as many passes as its weight, from the pass `first` on and round.
#[derive(Clone, Copy)]
pub struct Share {
    pub server: ServerId,
    pub weight: u16,
    pub first: u16,
}

impl Share {
    // Whether the server has a turn in this pass.
    fn plays(&self, heaviest: u16, pass: u16) -> bool
        requires fits { Fits heaviest self.now }
        requires pass { pass < heaviest }
        ensures { result ≡ plays heaviest pass self.now }
    {
        let behind = if pass < self.first {
            heaviest - self.first + pass
        } else {
            pass - self.first
        };
        behind < self.weight
    }
}

/// The turns of a full round of a hostgroup.
pub fn deal(
    alloc: Global,
    rows: &[ServerRow],
    hostgroup: Hostgroup,
) -> Result<Vec<ServerId>, OutOfMemory>
    requires few { length rows.now ≤ 65535 }
    ensures { IfOk result (λ turns. IsFullRound rows.now hostgroup turns.items) }
{
    let heaviest = heaviest(rows, hostgroup);
    let shares = shares(alloc, rows, hostgroup, heaviest)?;
    let passes = passes(alloc, heaviest)?;
    let mut turns = Vec::new(alloc);
    for pass in &passes {
        play(&mut turns, &shares, heaviest, *pass)?;
    }
    Ok(turns)
}

// The weight of a row's server in a hostgroup, 0 where it isn't one of it.
fn weight(row: &ServerRow, hostgroup: Hostgroup) -> u16
    ensures { result ≡ weight_there hostgroup (Some row.now) }
{
    if row.hostgroup == hostgroup {
        row.weight
    } else {
        0
    }
}

// The greatest weight in a hostgroup, 0 where it has no server.
fn heaviest(rows: &[ServerRow], hostgroup: Hostgroup) -> u16
    ensures { IsHeaviest hostgroup result rows.now }
{
    let mut heaviest = 0;
    for row in rows {
        heaviest = weight(row, hostgroup).max(heaviest);
    }
    heaviest
}

// The shares of a hostgroup's servers, the heaviest first.
fn shares(
    alloc: Global,
    rows: &[ServerRow],
    hostgroup: Hostgroup,
    heaviest: u16,
) -> Result<Vec<Share>, OutOfMemory>
    requires few { length rows.now ≤ 65535 }
    requires heaviest { IsHeaviest hostgroup heaviest rows.now }
    ensures { IfOk result (λ shares. AreShares rows.now hostgroup heaviest shares.items) }
{
    let mut shares = Vec::new(alloc);
    let mut first = 0;
    for (at, row) in rows.iter().enumerate() {
        let server = ServerId(at as u16 + 1);
        let weight = weight(row, hostgroup);
        add_share(
            &mut shares,
            Share {
                server,
                weight,
                first,
            },
        )?;
        first = after(first, weight, heaviest);
    }
    shares.sort_by_key(|share| u16::MAX - share.weight)?;
    Ok(shares)
}

// Adds a share, unless it is none.
fn add_share(shares: &mut Vec<Share>, share: Share) -> Result<(), OutOfMemory>
    ensures { OnOk result (shares.new.items ≡ with_share shares.old.items share) }
{
    if share.weight > 0 {
        shares.push(share)?;
    }
    Ok(())
}

// The pass behind the last of so many from `first` on.
fn after(first: u16, weight: u16, heaviest: u16) -> u16
    requires weight { weight ≤ heaviest }
    requires first { first ≤ heaviest }
    ensures { result ≡ pass_behind heaviest first weight }
{
    let left = heaviest - first;
    if weight < left {
        first + weight
    } else {
        weight - left
    }
}

// The passes of a round in the order in which they come.
fn passes(alloc: Global, heaviest: u16) -> Result<Vec<u16>, OutOfMemory>
    ensures all { IfOk result (λ passes. IsPermutation (upto heaviest) passes.items) }
    ensures within { IfOk result (λ passes. All (λ pass. pass < heaviest) passes.items) }
{
    let mut passes = Vec::new(alloc);
    for pass in 0..heaviest {
        passes.push(pass)?;
    }
    passes.sort_by_key(|pass| pass.reverse_bits())?;
    Ok(passes)
}

// Appends the turns of one pass.
fn play(
    turns: &mut Vec<ServerId>,
    shares: &[Share],
    heaviest: u16,
    pass: u16,
) -> Result<(), OutOfMemory>
    requires fits { All (Fits heaviest) shares.now }
    requires pass { pass < heaviest }
    ensures { OnOk result (turns.new.items ≡ turns.old.items ++ pass_turns heaviest shares.now pass) }
{
    for share in shares {
        if share.plays(heaviest, pass) {
            turns.push(share.server)?;
        }
    }
    Ok(())
}
