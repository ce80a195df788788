// The staged rows of rules.
ghost use Rattle.std.specs.Prelude.{◌≡◌, ◌<◌, ◌≤◌, length, position};
ghost use Rattle.mx_config.specs.RuleRows.{has_rule};
ghost use Rattle.admin_port.specs.Faults.{Changes, Gives, Leaves};
ghost use Rattle.admin_port.specs.Staged.{is_rule, place_above, rule_place, rule_set, rule_set_at, rules_left, rules_set, with_rule, with_rule_row, with_rules};

use crate::Fault;
use crate::pair::Pair;
use crate::row::read_rule;
use crate::row_values::{put_copies, rule_pairs};
use crate::servers::sets_key;
use crate::statement::StagedTable;
use query_rules::RuleRow;
use std::alloc::Global;

/// The rules that may be staged.
const MOST_RULES: usize = 10_000;

fn has_rule(rows: &[RuleRow], id: u32) -> bool
    ensures { result ≡ has_rule rows.now id }
{
    rows.iter().any(|row| row.rule_id == id)
}

fn place(rows: &[RuleRow], id: u64) -> Option<usize>
    ensures { result ≡ position (is_rule id) rows.now }
{
    rows.iter().position(|row| u64::from(row.rule_id) == id)
}

fn place_above(rows: &[RuleRow], id: u32) -> Option<usize>
    ensures { result ≡ place_above rows.now id }
{
    rows.iter().position(|row| id < row.rule_id)
}

// Where a rule of this number stands among those in order.
#[tactic(auto, using(crate::proofs::Lists::lists))]
fn rule_place(rows: &[RuleRow], id: u32) -> usize
    ensures place { result ≡ rule_place rows.now id }
    ensures within { result ≤ length rows.now }
{
    match place_above(rows, id) {
        Some(place) => place,
        None => rows.len(),
    }
}

/// Puts a rule in its place.
pub(crate) fn put_rule(rows: &mut Vec<RuleRow>, row: RuleRow) -> Result<(), Fault>
    ensures { Changes result rows.old.items rows.new.items (with_rule_row rows.old.items row) }
{
    if has_rule(rows, row.rule_id) || rows.len() >= MOST_RULES {
        return Err(Fault::Refused);
    }
    let at = rule_place(rows, row.rule_id);
    match rows.insert(at, row) {
        Ok(()) => Ok(()),
        Err(_) => Err(Fault::OutOfMemory),
    }
}

/// Puts copies of rules in their places.
pub(crate) fn put_rules(
    alloc: Global,
    staged: &mut Vec<RuleRow>,
    rows: &[RuleRow],
) -> Result<(), Fault>
    ensures { Leaves result staged.new.items (with_rules staged.old.items rows.now) }
{
    for row in rows {
        let copy = row.copy(alloc)?;
        put_rule(staged, copy)?;
    }
    Ok(())
}

/// Puts the rule of these values in its place.
#[tactic(auto, using(crate::proofs::Steps::steps))]
pub(crate) fn insert_rule(
    alloc: Global,
    rows: &mut Vec<RuleRow>,
    pairs: &[Pair],
    patterned: bool,
) -> Result<(), Fault>
    ensures { Changes result rows.old.items rows.new.items (with_rule patterned rows.old.items pairs.now) }
{
    let row = read_rule(alloc, pairs, patterned)?;
    put_rule(rows, row)
}

// The row with these values in place of its own.
fn rule_set(alloc: Global, row: &RuleRow, pairs: &[Pair], patterned: bool) -> Result<RuleRow, Fault>
    ensures { Gives result (rule_set patterned row.now pairs.now) }
{
    let mut all = rule_pairs(alloc, row)?;
    put_copies(alloc, &mut all, pairs)?;
    read_rule(alloc, &all, patterned)
}

// Gives the row at a place these values.
#[tactic(auto, using(crate::proofs::Steps::steps, std::proofs::lemmas::Option::gets))]
fn set_at(
    alloc: Global,
    rows: &mut Vec<RuleRow>,
    pairs: &[Pair],
    patterned: bool,
    at: usize,
) -> Result<(), Fault>
    requires { at < length rows.old.items }
    ensures { Changes result rows.old.items rows.new.items (rule_set_at patterned rows.old.items pairs.now at) }
{
    let new = rule_set(alloc, &rows[at], pairs, patterned)?;
    rows[at] = new;
    Ok(())
}

/// Gives the rule of a number these values.
#[tactic(auto, using(crate::proofs::Steps::steps))]
pub(crate) fn set_rule(
    alloc: Global,
    rows: &mut Vec<RuleRow>,
    id: u64,
    pairs: &[Pair],
    patterned: bool,
) -> Result<(), Fault>
    ensures { Changes result rows.old.items rows.new.items (rules_set patterned rows.old.items id pairs.now) }
{
    if sets_key(StagedTable::Rules, pairs) {
        return Err(Fault::Refused);
    }
    match place(rows, id) {
        Some(at) => set_at(alloc, rows, pairs, patterned, at),
        None => Err(Fault::Refused),
    }
}

/// Takes the rule of a number out.
pub(crate) fn remove_rule(rows: &mut Vec<RuleRow>, id: u64) -> Result<(), Fault>
    ensures { Changes result rows.old.items rows.new.items (rules_left rows.old.items id) }
{
    match place(rows, id) {
        Some(at) => {
            rows.remove(at);
            Ok(())
        }
        None => Err(Fault::Refused),
    }
}
