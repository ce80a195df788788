// The session of a connection.
use mx_base::Bytes;
use session_vars::Settings;

/// What a login asks for that changes what a server answers (client/server protocol, "Capabilities Flags").
#[derive(Clone, Copy)]
pub struct Capabilities {
    /// Found rows are counted in place of changed ones (CLIENT_FOUND_ROWS).
    pub found_rows: bool,
    /// A CALL may answer several results (CLIENT_MULTI_RESULTS with CLIENT_PS_MULTI_RESULTS).
    pub multi_results: bool,
    /// Blanks may stand behind the name of a function (CLIENT_IGNORE_SPACE).
    pub ignore_space: bool,
}

/// The session of one connection. What stands in `tx`, `locks`, `deep` and `diag` is the server's own, and nobody else
/// looks into it.
#[derive(Drop)]
pub struct Session {
    /// The user who logged in.
    pub user: Bytes,
    pub capabilities: Capabilities,
    /// The schema in use, empty where none is.
    pub schema: Bytes,
    pub settings: Settings,
    /// The open transaction, empty where none is.
    pub tx: Bytes,
    /// The table locks that it holds.
    pub locks: Bytes,
    /// All else that a later statement may meet: user variables, temporary tables, locks by name, the characteristics
    /// of the next transaction.
    pub deep: Bytes,
    /// What LAST_INSERT_ID() gives.
    pub last_id: u64,
    /// What the last statement left to be shown: its warnings, and how many rows it found or changed.
    pub diag: Bytes,
}
