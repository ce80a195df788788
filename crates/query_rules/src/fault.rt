// Why a table of rules is refused.
use mx_base::OutOfMemory;

/// Why a table of rules is refused. The id is that of the row at fault.
#[derive(Clone, Copy, Debug)]
pub enum RuleFault {
    /// Two rows have this id.
    DuplicateId { id: u32 },
    /// `match_digest` or `match_pattern` isn't UTF-8, or `regex` refuses it: it is no pattern, it nests too deep, or its
    /// program would be too large.
    BadPattern { id: u32 },
    /// There is a `replace_pattern`, but no `match_pattern`, or one that has to find nothing.
    ReplaceWithoutPattern { id: u32 },
    OutOfMemory,
}

impl From<OutOfMemory> for RuleFault {
    ghost use Rattle.std.specs.Prelude.{◌≡◌};
    ghost use Rattle.query_rules.specs.declared.fault.RuleFault.TheVariants as faults;

    ghost from_gives = { λ _ fault. fault ≡ faults.OutOfMemory };

    fn from(_: OutOfMemory) -> Self {
        RuleFault::OutOfMemory
    }
}
