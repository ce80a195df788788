// The lines of a recording.
use mx_base::{Bytes, Port};

/// A link of a recording: `c<n>` is the client of the n-th `accept` line, and `s<k>` the server link of the k-th
/// open that succeeded. Both count from 1.
#[derive(Clone, Copy, Debug)]
pub enum RecordLink {
    Client(u16),
    Server(u16),
}

/// A line of a recording. Moments are in milliseconds.
#[derive(Debug, Drop)]
pub enum RecordEntry {
    /// The next wait wakes at this moment; the lines up to the next `At` become ready then.
    At { ms: u64 },
    /// A client waits at the port; `n` counts these lines from 1.
    Accept { n: u16, port: Port, salt: [u8; 20] },
    /// Bytes that can be read, at least one.
    Bytes { link: RecordLink, bytes: Bytes },
    /// After its bytes, reads answer End.
    End { link: RecordLink },
    /// After its bytes, reads and writes answer Failed.
    Fail { link: RecordLink },
    /// Until the next `At` writes take this many bytes in all.
    Take { link: RecordLink, n: u64 },
    /// The k-th open of the whole run answers Failed.
    Refuse { k: u16 },
    /// The mark `Exec` of the k-th server link.
    Exec { k: u16 },
    /// The mark `Drop` of the k-th server link.
    Drop { k: u16 },
}
