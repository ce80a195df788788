// The entries of a wire's log.
use mx_base::{Address, Bytes, LinkId, Port, ServerId, Tag};

/// What one call of a wire answered; or a mark, `Exec` or `Drop`, which says what a server did between two
/// calls. Moments are in milliseconds.
#[derive(Debug, Drop)]
pub enum Entry {
    /// `listen` answered Done.
    Listening {
        port: Port,
        address: Address,
    },
    /// `listen` answered Failed.
    ListenFailed {
        port: Port,
    },
    /// `wait` was asked to return at `until_ms` and woke at `now_ms`.
    Woke {
        until_ms: u64,
        now_ms: u64,
    },
    /// `wait` answered Failed.
    WaitFailed,
    /// `wait` answered Over.
    Over,
    /// `next_ready` named this link.
    Named {
        link: LinkId,
    },
    /// `next_ready` named none.
    NoneNamed,
    /// A client came.
    Accepted {
        port: Port,
        link: LinkId,
        salt: [u8; 20],
    },
    /// No client waits at the port.
    AcceptNothing {
        port: Port,
    },
    /// `accept` answered Failed.
    AcceptFailed {
        port: Port,
    },
    /// A link to a server is open.
    Opened {
        server: ServerId,
        address: Address,
        link: LinkId,
    },
    /// `open` answered Failed.
    OpenFailed {
        server: ServerId,
        address: Address,
    },
    /// These bytes were read.
    Got {
        link: LinkId,
        bytes: Bytes,
    },
    /// `read` answered NotReady.
    ReadNothing {
        link: LinkId,
    },
    /// `read` answered End.
    Ended {
        link: LinkId,
    },
    /// `read` answered Failed.
    ReadFailed {
        link: LinkId,
    },
    /// These bytes were taken by the link.
    Wrote {
        link: LinkId,
        tag: Tag,
        bytes: Bytes,
    },
    /// `write` answered NotReady.
    WriteNothing {
        link: LinkId,
    },
    /// `write` answered Failed.
    WriteFailed {
        link: LinkId,
    },
    /// The link was closed.
    Closed {
        link: LinkId,
    },
    /// A server ran the oldest command written on the link that it hadn't run.
    Exec {
        link: LinkId,
    },
    /// A server closed the session of the link.
    Drop {
        link: LinkId,
    },
}
