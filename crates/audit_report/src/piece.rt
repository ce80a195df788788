// A piece of a report's lines.
ghost use Rattle.std.specs.Prelude.{◌≡◌, ◌+◌, ◌^◌, ◌<◌, length, IfOk};
ghost use Rattle.indexmap.specs.IndexMap.{get};
ghost use Rattle.audit_report.specs.Keys.{same_key};
ghost use Rattle.audit_report.specs.Tallies.{tally_of};

use crate::key::Key;
use crate::tally::{Tallies, Tally, count};
use mx_base::{Bytes, OutOfMemory};
use std::alloc::Global;

// The tallies of lines whose first one stands at a place.
pub(crate) fn tallies_of(
    alloc: Global,
    place: usize,
    lines: &[Bytes],
) -> Result<Tallies, OutOfMemory>
    requires { place + length lines.now < 2 ^ 64 }
    ensures { IfOk result (λ tallies. (q : Key) → get same_key tallies q ≡ tally_of q place lines.now) }
{
    let mut tallies = Tallies::new(alloc);
    for (at, line) in lines.iter().enumerate() {
        let key = Key::of(alloc, line.as_slice())?;
        let tally = Tally {
            count: 1,
            first: place + at,
        };
        count(&mut tallies, key, tally)?;
    }
    Ok(tallies)
}
