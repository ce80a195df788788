// Why a table of servers is refused.
ghost use Rattle.std.specs.Prelude.{◌≡◌};

use mx_base::OutOfMemory;

/// Why a table of servers is refused.
#[derive(Clone, Copy, Debug)]
pub enum ServersFault {
    /// This row, counted from 1, is the first that has the hostgroup and address of an earlier one.
    Duplicate { row: u32 },
    /// There are more than 1,024 rows, or they allow more than 10,000 connections in all.
    TooMany,
    /// A row needs a new number, and 65,535 were given out.
    NumbersSpent,
    OutOfMemory,
}

impl From<OutOfMemory> for ServersFault {
    ghost use Rattle.hostgroups.specs.declared.fault.ServersFault.TheVariants as faults;

    ghost from_gives = { λ _ fault. fault ≡ faults.OutOfMemory };

    fn from(_: OutOfMemory) -> Self {
        ServersFault::OutOfMemory
    }
}
