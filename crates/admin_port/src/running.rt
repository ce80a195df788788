// What the router tells of itself: plain rows, which it hands in.
use hostgroups::{ServerName, ServerRow, ServerStatus};
use mx_base::{Bytes, ClientNo, Hostgroup};
use query_digest::DigestTable;
use query_rules::RuleRow;

/// A server in force, and its open connections: those that carry a client's statements, and the others.
#[derive(Clone, Copy)]
pub struct PoolRow {
    pub server: ServerName,
    pub status: ServerStatus,
    pub used: u64,
    pub free: u64,
}

/// What a client does.
#[derive(Clone, Copy)]
pub enum ClientState {
    /// It hasn't logged in yet.
    LoggingIn,
    /// No message of it is due.
    Idle,
    /// Its message waits for a connection.
    Waiting,
    /// Its message runs on a server.
    Running,
}

/// A client that is connected.
#[derive(Drop)]
pub struct ProcessRow {
    pub client: ClientNo,
    pub user: Bytes,
    /// The server whose connection it has, if it has one.
    pub server: Option<ServerName>,
    pub state: ClientState,
    /// The milliseconds since its message became due.
    pub time_ms: Option<u64>,
    /// What keeps its connection from being lent to others.
    pub pinned_by: Option<Bytes>,
}

/// A count or a setting of the router, by its name.
#[derive(Drop)]
pub struct NamedRow {
    pub name: Bytes,
    pub value: Bytes,
}

/// What an operator should know of.
#[derive(Clone, Copy)]
pub enum EventKind {
    LoginRefused,
    TooManyConnections,
    StatementRefused,
    OpenFailed,
    ServerLoginFailed,
    ServerShunned,
    OutOfDescriptors,
}

/// One of the last things of which an operator should know.
#[derive(Drop)]
pub struct EventRow {
    pub moment_ms: u64,
    pub kind: EventKind,
    pub client: Option<ClientNo>,
    pub server: Option<ServerName>,
    /// The code and the text of the error, of a server's own where it is one.
    pub code: Option<u16>,
    pub text: Bytes,
}

/// What the router tells of itself. Only the rows of the table that a statement reads are looked at.
#[derive(Clone, Copy)]
pub struct Running<'a> {
    /// The rows of servers in force, each with the status that the server has now.
    pub servers: &'a [ServerRow],
    /// The rows of rules in force, in the order of their numbers.
    pub rules: &'a [RuleRow],
    pub digests: &'a DigestTable,
    pub pool: &'a [PoolRow],
    pub processes: &'a [ProcessRow],
    pub totals: &'a [NamedRow],
    pub events: &'a [EventRow],
    /// What the configuration says.
    pub variables: &'a [NamedRow],
}
