// Why a link to a server is of no use any more.
ghost use Rattle.std.specs.Prelude.{◌≡◌};
ghost use Rattle.server_side.specs.declared.fault.BackendFault.TheVariants as faults;

use mx_base::{Bytes, OutOfMemory};

/// Why a link to a server is of no use any more.
#[derive(Debug, Drop)]
pub enum BackendFault {
    /// Bytes with which no login and no reply goes on, or which came while nothing was due, from this place of the reply on,
    /// counted from 0; 0 in a login. A greeting that doesn't offer FOUND_ROWS where that is wanted is such bytes.
    BadBytes { at: u64 },
    /// The server asks for another login method than mysql_native_password.
    Plugin { name: Bytes },
    /// The server refuses the login, by an ERR of this code, in the greeting's place or behind it; 0 where the ERR is too
    /// short for one.
    Denied { code: u16 },
    /// Memory was refused.
    OutOfMemory,
}

impl From<OutOfMemory> for BackendFault {
    ghost from_gives = { λ _ fault. fault ≡ faults.OutOfMemory };

    fn from(_: OutOfMemory) -> Self {
        BackendFault::OutOfMemory
    }
}
