// What a written byte is for.
use crate::{ClientNo, Hostgroup};

/// What a written byte is for. An ordinal counts the command messages of a client from 1.
#[derive(Clone, Copy, Debug, PartialEq, Eq)]
pub enum Tag {
    /// A command of a client, on a server link.
    For {
        client: ClientNo,
        ordinal: u64,
    },
    /// A step that brings a client's held session to the wanted state.
    Sync {
        client: ClientNo,
        hostgroup: Hostgroup,
    },
    /// A prepare that an execute of the client needs on this link.
    Prep {
        client: ClientNo,
        ordinal: u64,
    },
    /// A copy of a client's command for a mirror hostgroup.
    Mirror {
        client: ClientNo,
        ordinal: u64,
    },
    /// A reset or a capture after a client's session.
    End {
        client: ClientNo,
        hostgroup: Hostgroup,
    },
    /// A command or answer of the proxy's own on a server link.
    Own,
    /// A byte for a client.
    Reply,
}
