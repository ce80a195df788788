// Why a payload is no greeting, response or switch.
ghost use Rattle.std.specs.Prelude.{◌≡◌};
ghost use Rattle.handshake.specs.declared.fault.HandFault.TheVariants as faults;

use mx_base::OutOfMemory;
use thiserror::Error;

/// Why a payload of the connection phase can't be read: the first field, in reading order, that is wrong
/// (client/server protocol, "Connection Phase").
#[derive(Clone, Copy, Debug, PartialEq, Eq, Error)]
pub enum HandFault {
    /// The field that begins at this place of the payload, counted from 0, runs past the payload's end.
    #[error("the field at {at} runs past the end")]
    Short { at: usize },
    /// The greeting is of another protocol version than 10.
    #[error("protocol version {found} isn't 10")]
    NotVersion10 { found: u8 },
    /// The other side doesn't offer the protocol of MySQL 4.1.
    #[error("the protocol of 4.1 isn't offered")]
    NoProtocol41,
    /// The other side has no form for the answer of mysql_native_password.
    #[error("secure connections aren't offered")]
    NoSecureConnection,
    /// Memory was refused.
    #[error("out of memory")]
    OutOfMemory,
}

impl From<OutOfMemory> for HandFault {
    ghost from_gives = { λ _ fault. fault ≡ faults.OutOfMemory };

    fn from(_: OutOfMemory) -> Self {
        HandFault::OutOfMemory
    }
}
