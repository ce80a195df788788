// What the router itself answers to a message.
use mx_base::{Bytes, Hostgroup};

/// An error that the router answers to a message (MySQL Reference Manual, "Server Error Message Reference"; the numbers from 9100 on are
/// the router's own).
#[derive(Drop)]
pub enum OwnError {
    /// 1148: a rule refuses it with this text.
    RefusedByRule(Bytes),
    /// 1243: the client prepared no statement of this number.
    UnknownStatement(u32),
    /// 9100: no server of the hostgroup is ONLINE.
    NoServerIn(Hostgroup),
    /// 9106: it reads what an earlier statement left, which isn't there any more.
    DiagnosticsGone,
    /// 9107: it names a connection.
    NamesConnection,
    /// 9108: it sets something of the whole server.
    SetsServer,
    /// 9113: the client has too many prepared statements.
    TooManyStatements,
    /// 9109: a message that is no command.
    MalformedCommand,
    /// 1047: a command that the router doesn't take.
    UnknownCommand,
}

/// What the router itself answers to a message.
#[derive(Drop)]
pub enum Told {
    /// Nothing: such a command has no answer.
    Nothing,
    /// An OK with these status flags and this message.
    Ok { status: u16, info: Bytes },
    /// The client's number, as the row of `SELECT CONNECTION_ID()`.
    ConnectionId { status: u16 },
    Error(OwnError),
}
