// What a configuration says.
use hostgroups::ServerRow;
use mx_base::{Address, Bytes, Hostgroup, Items};
use query_rules::RuleRow;
use sql_whitelist::ListRow;

/// What a configuration file says.
#[derive(Drop)]
pub struct Config {
    pub proxy: ProxyRow,
    pub users: Items<UserRow>,
    pub servers: Items<ServerRow>,
    pub rules: Items<RuleRow>,
    pub whitelist: Items<ListRow>,
}

/// The table `proxy`: where the proxy listens, how it greets, and its limits.
#[derive(Drop)]
pub struct ProxyRow {
    /// Where clients connect.
    pub listen: Address,
    /// Where administrators connect.
    pub admin_listen: Address,
    /// Who may administrate, at least one byte.
    pub admin_user: Bytes,
    pub admin_password: Bytes,
    /// The version of the greeting, at most 255 bytes.
    pub server_version: Bytes,
    /// The schema of a client that names none.
    pub default_schema: Bytes,
    /// How many clients may be connected, from 1 to 4,000.
    pub max_clients: u32,
    /// The bytes of the longest message of a client, from 1,024 to 268,435,456.
    pub max_packet: u64,
    /// The bytes of clients that are kept in all, from 1,048,576 to 2,147,483,648.
    pub buffer_budget: u64,
    /// How long a statement waits for a connection, from 1 ms to 3,600,000 ms.
    pub wait_ms: u64,
    /// How long an idle connection is kept, from 1 ms to 86,400,000 ms.
    pub idle_ms: u64,
}

/// A row of the table `users`: who may log in, and where the statements go that no rule sends elsewhere.
#[derive(Drop)]
pub struct UserRow {
    /// At least one byte; no two rows have the same.
    pub name: Bytes,
    pub password: Bytes,
    pub default_hostgroup: Hostgroup,
    /// Whether the user may run listed statements alone.
    pub whitelist: bool,
}
