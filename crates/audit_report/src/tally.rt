// How many lines each key has, and where its first one is.
ghost use Rattle.std.specs.Prelude.{◌≡◌, OnOk, IfOk};
ghost use Rattle.indexmap.specs.IndexMap.{get};
ghost use Rattle.audit_report.specs.Keys.{same_key};
ghost use Rattle.audit_report.specs.Tallies.{both, of_key, tally_over, AllRead};

use crate::key::Key;
use indexmap::IndexMap;
use mx_base::OutOfMemory;
use std::alloc::Global;

#[derive(Clone, Copy)]
pub(crate) struct Tally {
    pub count: u64,
    // The place of the first line, counted from 0.
    pub first: usize,
}

pub(crate) type Tallies = IndexMap<Key, Tally>;

// Counts later lines of a key.
pub(crate) fn count(tallies: &mut Tallies, key: Key, later: Tally) -> Result<(), OutOfMemory>
    ensures { OnOk result ((q : Key) → get same_key tallies.new q ≡ both (get same_key tallies.old q) (of_key key later q)) }
{
    if let Some(tally) = tallies.get_mut(&key) {
        tally.count = tally.count.saturating_add(later.count);
        return Ok(());
    }
    tallies.insert(key, later)?;
    Ok(())
}

// Counts what later lines have.
fn merge(tallies: &mut Tallies, later: Tallies) -> Result<(), OutOfMemory>
    ensures { OnOk result ((q : Key) → get same_key tallies.new q ≡ both (get same_key tallies.old q) (get same_key later q)) }
{
    for (key, tally) in later {
        count(tallies, key, tally)?;
    }
    Ok(())
}

// What pieces have together, in their order.
pub(crate) fn merged(
    alloc: Global,
    pieces: Vec<Result<Tallies, OutOfMemory>>,
) -> Result<Tallies, OutOfMemory>
    ensures whole { OnOk result (AllRead pieces.items) }
    ensures tallies { IfOk result (λ tallies. (q : Key) → get same_key tallies q ≡ tally_over q pieces.items) }
{
    let mut merged = Tallies::new(alloc);
    for piece in pieces {
        merge(&mut merged, piece?)?;
    }
    Ok(merged)
}
