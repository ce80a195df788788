// The opens that a recording refuses.
ghost use Rattle.std.specs.Prelude.{◌≡◌, ℕ, Bool, IfOk, OnOk, Some, None, nat_eq};
ghost use Rattle.std.specs.HashSet.{contains};
ghost use Rattle.mem_wire.specs.Lines.{is_refused};
ghost use Rattle.mem_wire.specs.Refusals.{Knows};

use mx_base::OutOfMemory;
use recording::RecordEntry;
use std::alloc::Global;
use std::collections::HashSet;

/// The numbers of the opens that are refused, once they were looked for.
#[derive(Drop)]
pub(crate) struct Refusals {
    pub found: Option<HashSet<u64>>,
}

impl Refusals {
    /// Nothing was looked for. Takes no memory.
    pub fn new() -> Self
        ensures { result.found ≡ None }
    {
        Refusals { found: None }
    }

    /// Whether the open of this number is refused. The first call looks through the recording.
    pub fn has(
        &mut self,
        alloc: Global,
        entries: &[RecordEntry],
        k: u64,
    ) -> Result<bool, OutOfMemory>
        requires { Knows entries.now self.old }
        ensures has { IfOk result (λ refused. refused ≡ is_refused k entries.now) }
        ensures knows { Knows entries.now self.new }
    {
        if self.found.is_none() {
            self.found = Some(refused_opens(alloc, entries)?);
        }
        match &self.found {
            Some(found) => Ok(found.contains(&k)),
            None => Ok(false),
        }
    }
}

// The numbers of the `refuse` lines.
fn refused_opens(alloc: Global, entries: &[RecordEntry]) -> Result<HashSet<u64>, OutOfMemory>
    ensures { IfOk result (λ found. (k : ℕ) → contains nat_eq found k ≡ is_refused k entries.now) }
{
    let mut found = HashSet::new(alloc);
    for entry in entries {
        if let RecordEntry::Refuse { k } = entry {
            found.insert(u64::from(*k))?;
        }
    }
    Ok(found)
}
