// Why bytes are no message.
use thiserror::Error;

/// Why bytes are no message (client/server protocol, "MySQL Packets").
#[derive(Clone, Copy, Debug, PartialEq, Eq, Error)]
pub enum FrameFault {
    /// A packet whose sequence id isn't the one that is due.
    #[error("packet {found} came in place of {expected}")]
    OutOfOrder { expected: u8, found: u8 },
    /// The packets of a message announce more bytes than are allowed, so many so far.
    #[error("a message of {length} bytes is too large")]
    TooLarge { length: u64 },
}
